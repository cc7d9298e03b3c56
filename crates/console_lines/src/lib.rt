// Lines of text that are calls, as the console is handed them: lines from a reader, and the words and numbers that they
// spell. A text that spells nothing is no fault here: who reads it is told so.
#![tactic(auto)]

pub mod input;
pub mod numbers;
pub mod parts;
pub mod words;
