// A record as lines of text into a lent buffer: each field that is on the wire under its name, in wire order.
#![tactic(auto)]

pub mod core_part;
pub mod parts;
pub mod superframe;
