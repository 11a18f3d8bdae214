// What reading a slot answers: `Ok(None)` for an empty one, and else what it holds. `specs/Answer.antt` gives the numbers that are told of it.
use answers::plain::PlainPart;
use s2xv2::record::S2Xv2SatelliteDeliverySystem;

// The record that a slot holds, and where its tail stands in the slot.
#[derive(Clone, Copy, PartialEq, Eq)]
pub struct SlotRecord {
    pub tail: PlainPart,
    pub body: S2Xv2SatelliteDeliverySystem,
}
