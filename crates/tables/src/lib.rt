// The two tables of AES-128, the substitution of FIPS 197 and the table of the rounds made of it; and doubling in its field.
#![tactic(auto)]

pub mod field;
pub mod round_table;
pub mod sbox;
