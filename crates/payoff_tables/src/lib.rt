// Tables of payoffs as document 01 has them: definitions and their laws, no code.
#![tactic(auto)]
