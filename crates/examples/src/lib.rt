// Short histories computed from the definitions are proofs alone: this crate runs nothing.
#![tactic(auto)]
