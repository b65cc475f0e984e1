// The worked cases of document 02, L13, computed over the definitions, in specs/.
#![tactic(auto)]
