// Demand 3 of the calls for C is specifications and proofs alone: this crate runs nothing.
#![tactic(auto)]
