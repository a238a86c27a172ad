// What the functions for C have instead of structs and enums: an anchor and a plan as bytes, an answer as one number. specs/ has the
// definitions of all of these functions.
#![tactic(auto)]

pub mod anchor;
pub mod code;
pub mod plan_bytes;

// How long an anchor and a plan are, and what a function answers to one of another length.
pub const ANCHOR_BYTES: usize = 40;

pub const PLAN_BYTES: usize = 24;

pub const REFUSED_LENGTH: u64 = 5;
