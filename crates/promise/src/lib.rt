// Demand 3 over every list of calls from an opening: definitions, statements and proofs, no code.
#![tactic(auto)]
