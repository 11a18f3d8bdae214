// Good form: what a slot of a live descriptor loop looks like from outside. A slot has 21 to 257 bytes, and is covered by descriptors: stuffing, wherever it
// stands, and at most one descriptor of S2Xv2. Nothing here knows what a body holds.
#![tactic(auto)]

pub mod envelope;
pub mod good;
