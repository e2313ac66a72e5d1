// The marks of best responses, a byte for each cell of a table: definitions and their laws, no
// code.
#![tactic(auto)]
