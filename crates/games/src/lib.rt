// Document 01's games, and its example of a report, computed by the definitions that the contracts
// name: theorems, no code. They stand above the crates that they speak of, so that these are proved
// without them.
#![tactic(auto)]
