// The job that replaces the descriptor of a slot by single-byte stores, with a place to stop between any two.
#![tactic(auto)]

pub mod advance;
pub mod job;
mod next;
