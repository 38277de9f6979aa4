// Recursive descent over the grammar of document 01: laws (proofs/) by which the reader is proved; this crate has no code to run.
#![tactic(auto)]
