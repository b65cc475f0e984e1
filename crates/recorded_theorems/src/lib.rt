// Theorems about the second `poll_accept`, in specs/.
#![tactic(auto)]
