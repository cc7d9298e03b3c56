// The small facts of the document under one statement, and that each public contract allows one answer. No code.
#![tactic(auto)]
