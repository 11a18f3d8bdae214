// The library for C and Rust: every function here takes apart what crosses, calls a proved function, and answers numbers.
#![tactic(auto)]

pub mod body;
pub mod jobs;
pub mod slots;
pub mod version;
