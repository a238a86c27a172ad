// Demand 3 is specifications and proofs alone: this crate runs nothing.
#![tactic(auto)]
