// Document 01's grammar, reading, meaning and writing are definitions (specs/) and theorems (proofs/); this crate has no code to run.
#![tactic(auto)]
