// Theorems about the exchange of the ATT MTU, in specs/.
#![tactic(auto)]
