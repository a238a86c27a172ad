// Document 01's table, its rules, when a read is accepted, what a wipe does, what calls count, what becomes of the anchor's nonces and what
// a journalled write and a recovery do are specifications and proofs alone: this crate runs nothing.
#![tactic(auto)]
