// A strike and the listing over survivors: definitions and their laws, no code.
#![tactic(auto)]
