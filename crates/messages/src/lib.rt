// What a received message does to the table: definitions and laws, no code.
#![tactic(auto)]
