// Records as plain numbers: by walks over their fields, and by draws. Beside the fields stand the tail's length and the rule for the
// buffer's length.
use crate::draw::{draws, mode_of};
use crate::fields::{
    BONDS, CHANNEL_BOND, FIELDS, Field, HAS_BLOCK, HAS_INDEX, HAS_PLAN, HAS_SFFI, HAS_STREAM,
    HAS_TIMESLICE, IS_RESERVED, MODE, PLAN_SELECTOR, SELECTOR, SFFI_SELECTOR, STREAM_FLAG, Values,
};

// How long the buffer is into which a record is written, beside the record's own length.
#[derive(Clone, Copy)]
pub(crate) enum Room {
    Nothing,
    OneLess,
    Exact,
    OneMore,
    // One byte more, and so many.
    More(usize),
    // So many bytes, however long the record is.
    Any(usize),
}

// A record, how long its tail is, and the rule for its buffer.
#[derive(Clone, Copy)]
pub(crate) struct Case {
    pub(crate) values: Values,
    pub(crate) tail: usize,
    pub(crate) room: Room,
}

impl Room {
    // A rule by draws.
    fn drawn(draw: u32) -> Room {
        let spare = (draw / 8) as usize;
        match draw % 8 {
            0 => Room::Nothing,
            1 => Room::OneLess,
            3 => Room::OneMore,
            4 => Room::More(spare % 16),
            5 => Room::Any(spare % 64),
            _ => Room::Exact,
        }
    }

    // The length of the buffer for a record of `n` bytes.
    pub(crate) fn length(self, n: usize) -> usize {
        match self {
            Room::Nothing => 0,
            Room::OneLess => n.saturating_sub(1),
            Room::Exact => n,
            Room::OneMore => n.saturating_add(1),
            Room::More(spare) => n.saturating_add(1).saturating_add(spare),
            Room::Any(length) => length,
        }
    }
}

// Whether the record is in a mode of one of two codes that is not held by `Reserved`.
fn is_in_modes(v: &Values, a: u32, b: u32) -> bool {
    v[IS_RESERVED] == 0 && (v[MODE] == a || v[MODE] == b)
}

// The selector, where there is one: 2 for one that is set.
fn chosen(there: bool, set: bool) -> u32 {
    if there { 1 + u32::from(set) } else { 0 }
}

// A number, or 0 where the fields are not to be full. `bits_if` of `body` is the same of a byte: a type parameter would not shorten the two.
fn once(full: bool, v: u32) -> u32 {
    if full { v } else { 0 }
}

// Every field at 0, or at its largest.
fn all(full: bool) -> Values {
    let mut values = [0; 42];
    for (v, field) in values.iter_mut().zip(&FIELDS) {
        *v = once(full, field.largest());
    }
    values
}

// A consistent record with every field at 0, or every field of those that are there at its largest.
pub(crate) fn plain(mode: u8, full: bool) -> Values {
    let mut v = all(full);
    v[MODE] = u32::from(mode);
    v[IS_RESERVED] = 0;
    v[CHANNEL_BOND] = once(full, 1);
    v[BONDS] = once(full, 2);
    let has_selector = is_in_modes(&v, 1, 2);
    v[SELECTOR] = chosen(has_selector, full);
    v[HAS_INDEX] = u32::from(has_selector && full);
    v[HAS_TIMESLICE] = u32::from(is_in_modes(&v, 2, 5));
    v[HAS_BLOCK] = u32::from(is_in_modes(&v, 4, 5));
    v
}

// The walk over a record's fields: each bit of each field's type turned over alone, the others at 0 or at their largest.
pub(crate) fn walk(case: u32) -> Case {
    let at = (case % 42) as usize;
    let full = case / 21_504 % 2 == 1;
    let mut values = plain((case / 1344 % 16) as u8, full);
    let bit = case / 42 % 32 % FIELDS[at].bits();
    values[at] ^= 1 << bit;
    Case {
        values,
        tail: if full { 3 } else { 0 },
        room: Room::OneMore,
    }
}

// Which faults a record has: places of list B by their numbers, and after them those of list A.
#[derive(Clone, Copy)]
struct Faults(u32, u32);

impl Faults {
    // Whether the record has the fault of this place of list B.
    fn b(self, place: u8) -> bool {
        let place = u32::from(place);
        self.0 == place || self.1 == place
    }

    // Whether it has the one of this place of list A.
    fn a(self, place: u8) -> bool {
        self.b(place % 64 + 22)
    }

    // Whether it has one of this field.
    fn of(self, field: Field) -> bool {
        match field.place() {
            Some(place) => self.b(place),
            None => false,
        }
    }
}

// A draw as a number up to the largest.
fn up_to(largest: u32, draw: u32) -> u32 {
    match largest.checked_add(1) {
        Some(room) => draw % room,
        None => draw,
    }
}

// A value that the wire can carry; or, where the field is at fault, one at the edge of that.
fn value(field: Field, draw: u32, fault: bool) -> u32 {
    let largest = field.largest();
    if !fault {
        return up_to(largest, draw);
    }
    match draw % 4 {
        0 => largest,
        1 => largest.wrapping_add(1),
        2 => largest
            .wrapping_add(1)
            .wrapping_add(up_to(largest, draw / 4)),
        _ => field.widest(),
    }
}

// Every field by its draw.
fn values(draws: &[u32; 48], f: Faults) -> Values {
    let mut values = [0; 42];
    for ((v, field), draw) in values.iter_mut().zip(&FIELDS).zip(draws) {
        *v = value(*field, *draw, f.of(*field));
    }
    values
}

// Whether what stands behind a selector is there: as the selector says, but for a fault of either list.
fn behind(set: bool, absent: bool, extra: bool) -> u32 {
    u32::from(if set { !absent } else { extra })
}

// The mode and channel_bond, which decide on the parts.
fn set_head(v: &mut Values, d: &[u32; 48], f: Faults) {
    if !f.b(1) {
        v[MODE] = u32::from(mode_of(d[MODE]));
    }
    v[IS_RESERVED] = 0;
    if f.a(1) {
        v[IS_RESERVED] = 1;
        v[MODE] = d[MODE] % 6;
    }
    if !f.b(4) {
        let draw = d[CHANNEL_BOND];
        v[CHANNEL_BOND] = if draw / 4 % 2 == 0 { 1 } else { draw % 4 };
    }
}

// How many ids there are.
fn bonds(bonded: bool, draw: u32, count: bool, extra: bool) -> u32 {
    if bonded && !count {
        return 1 + draw % 2;
    }
    if !bonded && !extra {
        return 0;
    }
    match draw % 5 {
        0 => u32::from(!bonded),
        1 => 1,
        2 => 3,
        3 => 255,
        _ => draw / 5 % 256,
    }
}

// Which parts are there: at a fault of list A the opposite of what the record asks for.
fn set_parts(v: &mut Values, d: &[u32; 48], f: Faults) {
    v[HAS_STREAM] = u32::from((v[STREAM_FLAG] != 0) != f.a(2));
    v[SELECTOR] = chosen(is_in_modes(v, 1, 2) != f.a(3), d[SELECTOR] % 2 == 1);
    v[HAS_INDEX] = behind(v[SELECTOR] == 2, f.b(10), f.a(4));
    v[HAS_TIMESLICE] = u32::from(is_in_modes(v, 2, 5) != f.a(5));
    v[BONDS] = bonds(v[CHANNEL_BOND] == 1, d[BONDS], f.b(13), f.a(6));
    v[HAS_BLOCK] = u32::from(is_in_modes(v, 4, 5) != f.a(7));
    v[HAS_SFFI] = behind(v[SFFI_SELECTOR] == 1, f.b(18), f.a(8));
    v[HAS_PLAN] = behind(v[PLAN_SELECTOR] == 1, f.b(20), f.a(9));
}

// How long the tail is: mostly below 8, at times at one of the limits.
fn tail_length(case: u32, draw: u32) -> usize {
    let draw = draw as usize;
    if case % 8192 == 8191 {
        return 65_480 + draw % 80;
    }
    if case % 256 == 255 {
        return 4030 + draw % 80;
    }
    draw % 8
}

// Records by draws.
pub(crate) fn drawn(case: u32) -> Case {
    let d = draws(case);
    let faults = Faults(d[44] % 48, d[45] % 96);
    let mut values = values(&d, faults);
    set_head(&mut values, &d, faults);
    set_parts(&mut values, &d, faults);
    Case {
        values,
        tail: tail_length(case, d[42]),
        room: Room::drawn(d[43]),
    }
}
