// Theorems about link credits, in specs/.
#![tactic(auto)]
