// A slot: what it reads as, and how it is made empty.
#![tactic(auto)]

pub mod answer;
pub mod empty;
pub mod read;
