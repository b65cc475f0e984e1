// Worked cases of recordings by column, computed over the definitions, in specs/.
#![tactic(auto)]
