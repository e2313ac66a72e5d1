// What an output holds after a call that writes a list into it, and whether it has room:
// definitions and laws, no code.
#![tactic(auto)]
