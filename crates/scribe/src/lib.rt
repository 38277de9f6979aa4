// What the writer is proved by: nodes in a table of records, tokens written from the last to the first, a node's piece of the writing (proofs/); this
// crate has no code to run.
#![tactic(auto)]
