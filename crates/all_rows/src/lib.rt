// Every starred case of document 01, collected, and one check over all of them. No code.
#![tactic(auto)]
