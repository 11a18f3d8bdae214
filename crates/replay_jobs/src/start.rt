// The slots on which jobs start: stuffing and ours in every arrangement.
ghost use Rattle.std.specs.Prelude.{◌≤◌, length};

use crate::heads::lay_sized;
use crate::sample::fill;
use lines::put::put;
use s2xv2::record::S2Xv2SatelliteDeliverySystem;

// How a slot is laid out.
#[derive(Clone, Copy)]
pub(crate) enum Start {
    // Empty.
    Empty,
    // The default record.
    Default,
    // Stuffing in front of ours.
    InFront,
    // Stuffing on both sides of ours.
    BothSides,
    // Pieces of stuffing alone.
    Pieces,
    // Ours, and pieces behind it.
    OursFirst,
    // Pieces, and ours last.
    OursLast,
}

// Stuffing of `size` bytes.
fn lay_stuffing(slot: &mut [u8], at: usize, size: usize) {
    lay_sized(slot, at, 0x42, size);
}

// One of ours of `size` bytes, with the bytes of its body that say that there is nothing but the core and a tail.
fn lay_ours(slot: &mut [u8], at: usize, size: usize)
    requires { at ≤ 257 }
{
    lay_sized(slot, at, 0x7F, size);
    put(slot, at + 7, 7);
    put(slot, at + 8, 243);
}

// How many bytes the next piece has.
fn piece_size(left: usize) -> usize
    ensures { (2 ≤ result) × (result ≤ 3) }
{
    if left == 3 { 3 } else { 2 }
}

// Stuffing in pieces of 2 bytes from `start` to `end`; where that is an odd number, the last piece has 3.
fn lay_pieces(slot: &mut [u8], start: usize, end: usize)
    requires { (start ≤ end) × (end ≤ 257) }
{
    for piece in 0..(end - start) / 2 {
        let at = start + 2 * piece;
        lay_stuffing(slot, at, piece_size(end - at));
    }
}

// Stuffing in front of ours, which ends the slot; or on both sides of it.
fn lay_beside(slot: &mut [u8], n: usize, both: bool)
    requires { (21 ≤ n) × (n ≤ 257) }
{
    let side = 2 + (n - 21) / 8;
    lay_stuffing(slot, 0, side);
    if both {
        lay_ours(slot, side, n - side - side);
        lay_stuffing(slot, n - side, side);
    } else {
        lay_ours(slot, side, n - side);
    }
}

// How many bytes ours has beside pieces of 2: a whole body and no more than one byte of tail, if the slot has room.
fn size_beside_pieces(n: usize) -> usize
    requires { 21 ≤ n }
    ensures { result ≤ n }
{
    if n < 23 { n - 2 } else { 22 - n % 2 }
}

// Pieces of stuffing and ours: ours and pieces behind it, or pieces and ours last.
fn lay_in_pieces(slot: &mut [u8], n: usize, first: bool)
    requires { (21 ≤ n) × (n ≤ 257) }
{
    let ours = size_beside_pieces(n);
    if first {
        lay_ours(slot, 0, ours);
        lay_pieces(slot, ours, n);
    } else {
        lay_pieces(slot, 0, n - ours);
        lay_ours(slot, n - ours, ours);
    }
}

// Makes a slot of a good size empty.
fn lay_empty(slot: &mut [u8]) {
    let _ = slot::empty::make_empty(slot);
}

// A whole job with the default record and a tail.
pub(crate) fn whole_job(slot: &mut [u8], tail: &[u8]) {
    if let Ok(begun) = begin::begin(slot, S2Xv2SatelliteDeliverySystem::default(), tail) {
        let _ = begun.job.step(slot, 1000);
    }
}

// Lays a slot out. Bytes inside a descriptor are drawn. Where the slot is too small for a whole body beside the stuffing, ours is shorter, and
// the reader refuses its body.
pub(crate) fn prepare(slot: &mut [u8], start: Start, case: u32)
    requires { (21 ≤ length slot.old) × (length slot.old ≤ 257) }
{
    let n = slot.len();
    fill(slot, case);
    match start {
        Start::Empty => lay_empty(slot),
        Start::Default => {
            lay_empty(slot);
            whole_job(slot, &[]);
        }
        Start::InFront => lay_beside(slot, n, false),
        Start::BothSides => lay_beside(slot, n, true),
        Start::Pieces => lay_pieces(slot, 0, n),
        Start::OursFirst => lay_in_pieces(slot, n, true),
        Start::OursLast => lay_in_pieces(slot, n, false),
    }
}
