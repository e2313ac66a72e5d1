// The theory of games in normal form: definitions and theorems, no code.
#![tactic(auto)]
