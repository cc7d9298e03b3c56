// Networks at rest: definitions and laws alone, no code.
#![tactic(auto)]
