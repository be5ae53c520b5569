// What holds of every play: theorems only, and no code.
#![tactic(auto)]
