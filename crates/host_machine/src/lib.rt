// What the machine does on received bytes, in specs/. There is no code here.
#![tactic(auto)]
