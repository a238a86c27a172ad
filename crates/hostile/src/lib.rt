// Steps that are hostile: old entries among new ones, calls beyond their limits, and wipes of any card.
#![tactic(auto)]

pub mod mix;
pub mod refuse;
pub mod wipe;
