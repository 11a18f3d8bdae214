// Why a slot breaks the form at the offset that is told: found from its bytes, so that a wrong offset has no cause.
use crate::heads::{byte_of, size_of};

// Why a descriptor breaks the form.
#[derive(Clone, Copy)]
pub(crate) enum Cause {
    // It has one byte.
    OneLeft,
    // It runs past the end.
    PastEnd,
    // Its tag is foreign.
    Foreign,
    // One of ours, with a length of 0.
    NoLength,
    // One of ours, with another third byte.
    ThirdByte,
    // The second of ours.
    Second,
    // None of these.
    Unknown,
}

impl Cause {
    // Its place among the counts.
    pub(crate) fn place(self) -> usize {
        match self {
            Cause::OneLeft => 0,
            Cause::PastEnd => 1,
            Cause::Foreign => 2,
            Cause::NoLength => 3,
            Cause::ThirdByte => 4,
            Cause::Second => 5,
            Cause::Unknown => 6,
        }
    }
}

// Whether there is one of ours among the descriptors that lead from byte 0 to an offset; none may lead there.
fn held_before(slot: &[u8], end: usize) -> Option<bool> {
    if 258 < end {
        return None;
    }
    let mut at = 0;
    let mut held = false;
    // A `while`: each turn goes on by the size of the descriptor that stands there, which no range or iterator gives.
    while at < end {
        held = held || byte_of(slot, at) == 0x7F;
        at += size_of(byte_of(slot, at + 1));
    }
    (at == end).then_some(held)
}

// Why one of ours breaks the form: by its length, its third byte, and whether another stands in front of it.
fn of_ours(length: u8, third: u8, held: bool) -> Cause {
    if length == 0 {
        return Cause::NoLength;
    }
    if third != 0x24 {
        return Cause::ThirdByte;
    }
    if held { Cause::Second } else { Cause::Unknown }
}

// Why the first descriptor of what is left of the slot breaks the form.
fn of_left(left: &[u8], held: bool) -> Cause {
    let length = byte_of(left, 1);
    if left.len() == 1 {
        return Cause::OneLeft;
    }
    if left.len() < size_of(length) {
        return Cause::PastEnd;
    }
    match byte_of(left, 0) {
        0x42 => Cause::Unknown,
        0x7F => of_ours(length, byte_of(left, 2), held),
        _ => Cause::Foreign,
    }
}

// The first cause that holds at an offset.
pub(crate) fn cause_of(slot: &[u8], offset: usize) -> Cause {
    match held_before(slot, offset) {
        Some(held) if offset < slot.len() => of_left(&slot[offset..], held),
        _ => Cause::Unknown,
    }
}
