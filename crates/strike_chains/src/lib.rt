// Lists of strikes, each made on what the one before handed back, and demand 3: definitions and
// their laws, no code.
#![tactic(auto)]
