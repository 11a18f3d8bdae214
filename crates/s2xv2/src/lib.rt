// The S2Xv2 satellite delivery system descriptor of EN 300 468, clause 6.4.6.5.3: its types, and the answers that calls on them give.
// The crates `reader` and `writer` have the calls; the definitions that they meet stand in this crate's specs, and the theorems on
// these in its proofs.
#![tactic(auto)]

pub mod mode;
pub mod record;
pub mod superframe;
