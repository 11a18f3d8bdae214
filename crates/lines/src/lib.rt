// Numbers and lines of text into a lent buffer, from a place on, as far as the buffer reaches; and a digest of numbers and bytes.
#![tactic(auto)]

pub mod digest;
pub mod line;
mod number;
pub mod put;
pub mod sheet;
