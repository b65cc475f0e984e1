// Demand 3 for the code: a theorem over what `calls::run_call` is proved to do, in specs/.
#![tactic(auto)]
