// Theorems about the packet pool, in specs/.
#![tactic(auto)]
