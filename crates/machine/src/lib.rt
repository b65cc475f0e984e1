// What the checker's theorem about a function says of the machine that runs it, in specs/. There is no code here.
#![tactic(auto)]
