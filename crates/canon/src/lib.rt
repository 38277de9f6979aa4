//! Demand 3 of the query reader, about definitions alone: no code.
#![tactic(auto)]
