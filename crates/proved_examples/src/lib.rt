// No code: the ten examples of document 01, by the definitions that the contracts cite.
#![tactic(auto)]
