// The theorems about the routines of every library, in specs/. There is no code here.
#![tactic(auto)]
