// Laws about received messages: they are lists of calls, and what a refused one leaves behind. No code.
#![tactic(auto)]
