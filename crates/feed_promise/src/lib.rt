// What holds of every run over a feed sheet, over every list of calls from an opening: definitions, statements and proofs, no code.
#![tactic(auto)]
