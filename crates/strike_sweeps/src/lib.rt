// Sweeps of strikes, one after the other until one strikes nothing: definitions and their laws, no
// code.
#![tactic(auto)]
