// The cases of document 01, computed over the definitions, in specs/.
#![tactic(auto)]
