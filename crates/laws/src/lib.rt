// No code: what several crates cite, stated once.
#![tactic(auto)]
