// The theory of grammars as tables is definitions (specs/) and theorems (proofs/); this crate has no code to run.
#![tactic(auto)]
