// Whole numbers among f64s, and gains that are exact on them: definitions and their laws, no code.
#![tactic(auto)]
