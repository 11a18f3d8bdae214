// Where the parts of a body stand, as Table 144b lays them out. Every function answers for every body.
#![tactic(auto)]

mod bytes;
pub mod ends;
pub mod missing;
pub mod present;
