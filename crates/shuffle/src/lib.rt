// A theorem on traces of commuting calls, in specs/.
#![tactic(auto)]
