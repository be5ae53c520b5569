// Theorems only: the examples marked (P) in document 01, over the definitions that the contracts cite.
#![tactic(auto)]
