// The definitions of every call, in specs/. There is no code here: the crates above are proved against them.
#![tactic(auto)]
