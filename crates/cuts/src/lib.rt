// The claim over power cuts is specifications and proofs alone: this crate runs nothing.
#![tactic(auto)]
