// What calls on a descriptor answer, whichever descriptor it is, as an enum and as plain numbers.
#![tactic(auto)]

pub mod answer;
pub mod plain;
