// How an answer is told to C: definitions and their laws, no code.
#![tactic(auto)]
