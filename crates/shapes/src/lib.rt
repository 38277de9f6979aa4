// The shape of every reading, by document 01: which code has which details and children; this crate has no code to run.
#![tactic(auto)]
