// The format of deposit files, from a table to bytes and back: definitions and their laws, no code.
#![tactic(auto)]
