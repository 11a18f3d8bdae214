// Slots by draws: descriptors of drawn sizes that cover a slot, ours among them or not, and then other bytes at none to
// three drawn places. What each reads as, where its tail stands and what begin answers goes into a digest, and, where
// the form is broken, what begin answers once the slot is made empty.
ghost use Rattle.std.specs.Prelude.{◌<◌, ◌≤◌};

use crate::again;
use crate::damage::damage;
use crate::heads::lay_sized;
use crate::sample::{count, draw, fill, next, seed};
use crate::seen::{Reading, put_answer, put_reading, put_tail, reading_of};
use std::io;

// The slots that read as a record, as empty, that answer 6, that answer 1; those that answer 12, by cause, with those last that have none; and
// those in which begin is accepted once they are made empty.
type Counts = [u32; 12];

// A size that a slot may have, but for one case in 32.
fn slot_size(d: usize) -> usize
    ensures { result ≤ 258 }
{
    match d % 64 {
        0 => 20,
        1 => 258,
        2..=9 => 21 + d / 64 % 237,
        _ => 21 + d / 64 % 44,
    }
}

// A descriptor's size: all that is left where it would leave less than 2 bytes.
fn cut(size: usize, left: usize) -> usize {
    if 258 < size || left < size + 2 {
        left
    } else {
        size
    }
}

// The size of a stuffing descriptor.
fn stuffing_size(d: usize, left: usize) -> usize {
    let size = match d % 8 {
        4 => left,
        5 | 6 => 2 + d / 8 % 8,
        7 => 2 + d / 8 % 64,
        _ => 2,
    };
    cut(size, left)
}

// The size of one of ours.
fn ours_size(d: usize, left: usize) -> usize {
    let size = match d % 4 {
        0 => 3 + d / 4 % 16,
        1 => left,
        _ => 21 + d / 4 % 24,
    };
    cut(size, left)
}

// Whether the next descriptor is one of ours: one of three, if it may be and there is room.
fn is_ours(x: u32, left: usize, may: bool) -> bool {
    may && 2 < left && draw(x) % 3 == 0
}

// Lays one of ours with drawn bytes at `at`, and gives its size.
fn lay_ours(slot: &mut [u8], at: usize, left: usize, x: u32) -> usize {
    let size = ours_size(draw(next(x)), left);
    if let Some(part) = slot.get_mut(at..at.saturating_add(size)) {
        fill(part, next(next(x)) / 65_536);
    }
    lay_sized(slot, at, 0x7F, size);
    size
}

// Lays stuffing at `at`, and gives its size.
fn lay_stuffing(slot: &mut [u8], at: usize, left: usize, x: u32) -> usize {
    let size = stuffing_size(draw(next(x)), left);
    lay_sized(slot, at, 0x42, size);
    size
}

// Lays one of ours or stuffing.
fn lay_one(slot: &mut [u8], at: usize, left: usize, ours: bool, x: u32) -> usize {
    if ours {
        lay_ours(slot, at, left, x)
    } else {
        lay_stuffing(slot, at, left, x)
    }
}

// A size as one from 1 to 258.
fn bounded(size: usize) -> usize
    ensures { (0 < result) × (result ≤ 258) }
{
    size.clamp(1, 258)
}

// Whether one of ours may follow.
fn may_follow(many: bool, may: bool, ours: bool) -> bool {
    many || may && !ours
}

// Lays descriptors from byte 0 to the end. Only the first of ours that is drawn is one, or where `many` is set each of
// them.
fn cover(slot: &mut [u8], many: bool, start: u32) {
    let n = slot.len();
    if 258 < n {
        return;
    }
    let mut x = start;
    let mut at = 0;
    let mut may = true;
    // A `while`: each turn goes on by the size that it drew, which no range or iterator gives.
    while at < n {
        let ours = is_ours(x, n - at, may);
        at += bounded(lay_one(slot, at, n - at, ours, x));
        may = may_follow(many, may, ours);
        x = next(next(next(x)));
    }
}

// Lays out the slot of a case: in one of four undamaged, in one of sixteen with many of ours.
fn prepare(slot: &mut [u8], case: u32, x: u32) {
    cover(slot, case % 16 == 0, x);
    let y = seed(case % 131_072 + 131_072);
    let z = next(next(y));
    damage(slot, 0 < case % 4, y);
    damage(slot, 1 < case % 4, z);
    damage(slot, 2 < case % 4, next(next(z)));
}

// Where a reading is counted.
fn cell(reading: Reading) -> usize {
    match reading {
        Reading::Record => 0,
        Reading::Empty => 1,
        Reading::OtherSize => 2,
        Reading::RefusedBody => 3,
        Reading::Broken(cause) => 4 + cause.place() % 7,
    }
}

// What begin answers once the slot is made empty.
fn put_again(d: u32, slot: &mut [u8], counts: &mut Counts) -> u32 {
    let answer = again::begun(slot);
    if answer.is_ok() {
        count(counts, 11);
    }
    put_answer(d, answer)
}

// What a slot reads as, where its tail stands, what begin answers for the default record, and, where it refuses the slot for its form, what it
// answers once the slot is made empty.
fn put_slot(d: u32, slot: &mut [u8], counts: &mut Counts) -> u32 {
    count(counts, cell(reading_of(slot)));
    let answer = again::begun_default(slot, &[]);
    let d = put_answer(put_tail(put_reading(d, slot), slot), answer);
    if again::is_due(answer) {
        put_again(d, slot, counts)
    } else {
        d
    }
}

// A case.
fn run(d: u32, case: u32, counts: &mut Counts) -> u32 {
    let mut room = [0; 258];
    let x = next(seed(case));
    let slot = &mut room[..slot_size(draw(x))];
    prepare(slot, case, next(x));
    put_slot(d, slot, counts)
}

// Runs all cases, and prints the counts and the digest.
pub(crate) fn slots(rt: &impl Print) -> io::Result<()> {
    let mut counts = [0; 12];
    let mut d = 0;
    for case in 0..131_072 {
        d = run(d, case, &mut counts);
    }
    let [record, empty, size, body, ..] = counts;
    println!(rt; "slots 131072\n{record} {empty} {size} {body}")?;
    print!(rt; "form")?;
    for n in &counts[4..11] {
        print!(rt; " {n}")?;
    }
    println!(rt; "\nagain {}\ndigest {d}", counts[11])
}
