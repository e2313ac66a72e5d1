// The best responses of a player in a table: definitions and their laws, no code.
#![tactic(auto)]
