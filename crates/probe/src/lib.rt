// What the static libraries for tests and benchmarks share: what their calls leave and answer. This crate runs nothing.
#![tactic(auto)]
