// Theorems about lives and late ends, in specs/.
#![tactic(auto)]
