// Theorems about the definitions of model; nothing depends on them.
#![tactic(auto)]
