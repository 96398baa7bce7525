// No code: demand 3, of all that the checks, the replay and the listing give back.
#![tactic(auto)]
