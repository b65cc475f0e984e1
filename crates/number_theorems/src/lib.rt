// Theorems about the numbers of answers, in specs/.
#![tactic(auto)]
