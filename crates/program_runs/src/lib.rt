// What the machine does in the program of all libraries, in specs/. There is no code here.
#![tactic(auto)]
