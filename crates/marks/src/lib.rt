// The marks of strategies as a list of places: a definition and its laws, no code.
#![tactic(auto)]
