// Numbers as digits, and words in lines: definitions and their laws, no code.
#![tactic(auto)]
