// What a cut file comes to: definitions, statements and proofs, no code.
#![tactic(auto)]
