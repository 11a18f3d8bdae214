// Fields of bits in bytes. Nothing here knows of a descriptor, and every function answers for every argument.
#![tactic(auto)]

pub mod field;
pub mod number;
