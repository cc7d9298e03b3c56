// What an accepted schedule has dealt: definitions, statements and proofs, no code.
#![tactic(auto)]
