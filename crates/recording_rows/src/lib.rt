// Worked cases of recordings, run through the table and written. No code.
#![tactic(auto)]
