// The equilibria of a table, and of a table among marks: definitions and their laws, no code.
#![tactic(auto)]
