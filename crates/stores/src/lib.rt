// A store is one byte at one place. What a list of stores does to a slot is in specs/Run.antt, and the laws are in proofs/Laws.antt.
// Nothing here knows where a list of stores comes from, or what a slot holds.
#![tactic(auto)]

pub mod store;
