// Demand 3, over the definitions that the contracts of the six calls cite.
#![tactic(auto)]
