// A record as plain numbers: what crosses to C and Rust, and what the reader and the writer work on.
#![tactic(auto)]

pub mod asked;
pub mod input;
pub mod output;
pub mod places;
pub mod types;
