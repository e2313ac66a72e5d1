// The correlated check on whole-number grids: definitions and their laws, no code.
#![tactic(auto)]
