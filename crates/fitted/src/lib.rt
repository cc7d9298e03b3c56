// The feed sheet of every design that is read is one that runs take: statement and proof, no code.
#![tactic(auto)]
