// What the gap list tells of every history: statements and proofs, no code.
#![tactic(auto)]
