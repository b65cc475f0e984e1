// Theorems over the definitions, in specs/.
#![tactic(auto)]
