// The order of payoffs, with finite, greater and equal, keys and ranks: definitions and their laws,
// no code.
#![tactic(auto)]
