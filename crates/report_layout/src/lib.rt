// The text of a report, byte for byte, and how long it is at most: definitions and their laws, no
// code.
#![tactic(auto)]
