// The words of a file and their bytes, and the faults of a word: definitions and their laws, no
// code.
#![tactic(auto)]
