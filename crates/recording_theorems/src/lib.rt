// Theorems about recordings: they are lists of calls, and what is written is read. No code.
#![tactic(auto)]
