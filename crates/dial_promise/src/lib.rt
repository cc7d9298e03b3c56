// What the dials of the small cabinet tell over every list of enters, turns and polls: definitions, statements and proofs, no code.
#![tactic(auto)]
