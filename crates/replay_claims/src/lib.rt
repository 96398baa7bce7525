// No code: what holds of every replay, and the isolation of recordings.
#![tactic(auto)]
