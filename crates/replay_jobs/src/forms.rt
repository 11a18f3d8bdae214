// The slots with a name: arrangements of stuffing and ours, and what breaks the form. Of each: what it reads as, what
// begin answers, and, where it is refused for its form, what begin answers once it is made empty.
use crate::heads::{lay, size_of};
use crate::{again, print};
use lines::put::put;
use std::io;

// A slot: its name, its size, and the tags and lengths of its descriptors. What is not the head of a descriptor is 0.
#[derive(Clone, Copy)]
struct Form(&'static str, usize, &'static [(u8, u8)]);

const FORMS: [Form; 39] = [
    // Slots in good form.
    Form("stuffing, ours of length 1", 21, &[(0x42, 16), (0x7F, 1)]),
    Form("ours of length 1, stuffing", 21, &[(0x7F, 1), (0x42, 16)]),
    Form("stuffing, ours to the end", 44, &[(0x42, 10), (0x7F, 30)]),
    Form(
        "stuffing, ours, stuffing",
        44,
        &[(0x42, 10), (0x7F, 19), (0x42, 9)],
    ),
    Form(
        "ours, stuffing twice",
        44,
        &[(0x7F, 19), (0x42, 0), (0x42, 19)],
    ),
    Form(
        "stuffing, ours of a body of 17",
        44,
        &[(0x42, 0), (0x7F, 18), (0x42, 20)],
    ),
    Form("stuffing twice", 44, &[(0x42, 10), (0x42, 30)]),
    Form("128 pieces", 256, &[(0x42, 0)]),
    // Descriptors that do not cover the slot.
    Form("length 0, then 0x24", 44, &[(0x7F, 0), (0x24, 40)]),
    Form("length 0, then stuffing", 44, &[(0x7F, 0), (0x42, 40)]),
    Form("one byte left", 44, &[(0x42, 10), (0x7F, 29)]),
    Form("one byte past the end", 44, &[(0x42, 10), (0x7F, 31)]),
    Form("stuffing past the end", 44, &[(0x42, 10), (0x42, 31)]),
    Form("a length of 255", 44, &[(0x42, 10), (0x7F, 255)]),
    // Descriptors that may not stand there.
    Form("two of ours", 44, &[(0x7F, 19), (0x7F, 21)]),
    Form(
        "two of ours, stuffing between",
        44,
        &[(0x7F, 19), (0x42, 0), (0x7F, 19)],
    ),
    Form(
        "foreign tag in the middle",
        44,
        &[(0x42, 10), (0x48, 8), (0x7F, 20)],
    ),
    Form(
        "foreign tag behind ours",
        44,
        &[(0x42, 0), (0x7F, 19), (0x48, 19)],
    ),
    // The sizes at both ends, with descriptors that cover the slot, and wrong ones with what would break the form.
    Form("size 20", 20, &[(0x42, 0), (0x42, 16)]),
    Form("size 21", 21, &[(0x42, 0), (0x42, 17)]),
    Form("size 257", 257, &[(0x42, 0), (0x7F, 253)]),
    Form("size 258", 258, &[(0x42, 1), (0x7F, 253)]),
    Form("size 20, broken", 20, &[(0x48, 3)]),
    Form("size 258, broken", 258, &[(0x48, 3)]),
    // Causes at byte 0 and behind stuffing.
    Form("first past the end", 44, &[(0x42, 43)]),
    Form("first tag foreign", 44, &[(0x48, 42)]),
    Form("stuffing, one byte left", 44, &[(0x42, 41)]),
    Form("stuffing, foreign tag", 44, &[(0x42, 10), (0x48, 30)]),
    Form(
        "stuffing, length 0",
        44,
        &[(0x42, 10), (0x7F, 0), (0x42, 28)],
    ),
    Form(
        "stuffing, two of ours",
        44,
        &[(0x42, 0), (0x7F, 19), (0x7F, 19)],
    ),
    // Causes behind ours.
    Form("ours, one byte left", 44, &[(0x7F, 41)]),
    Form("ours, stuffing past the end", 44, &[(0x7F, 19), (0x42, 22)]),
    Form("ours, foreign tag", 44, &[(0x7F, 19), (0x48, 21)]),
    Form("ours, length 0", 44, &[(0x7F, 19), (0x7F, 0), (0x42, 19)]),
    Form("ours, a second past the end", 44, &[(0x7F, 19), (0x7F, 22)]),
    // Causes at the end, and two of them at once.
    Form("foreign tag past the end", 44, &[(0x42, 10), (0x48, 31)]),
    Form("length 0 at the end", 44, &[(0x42, 40), (0x7F, 0)]),
    Form(
        "length 0 and 0x24 at the end",
        44,
        &[(0x42, 39), (0x7F, 0), (0x24, 0)],
    ),
    Form("one byte left of 257", 257, &[(0x42, 254)]),
];

// Slots with another third byte than ours has, each before its place.
const OTHER_THIRD: [(Form, usize); 3] = [
    (Form("first with another third byte", 44, &[(0x7F, 42)]), 2),
    (
        Form(
            "stuffing, another third byte",
            44,
            &[(0x42, 10), (0x7F, 30)],
        ),
        14,
    ),
    (
        Form("ours, another third byte", 44, &[(0x7F, 19), (0x7F, 21)]),
        23,
    ),
];

// Lays descriptors one behind the other from byte 0; they come again from the first where they do not reach the end.
fn lay_all(slot: &mut [u8], heads: &[(u8, u8)]) {
    let mut at = 0;
    for (tag, length) in heads.iter().cycle().take(slot.len()) {
        if slot.len() <= at {
            return;
        }
        lay(slot, at, *tag, *length);
        at += size_of(*length);
    }
}

// Prints what a slot reads as, and what begin answers for the default record.
fn tell(rt: &impl Print, slot: &mut [u8]) -> io::Result<()> {
    print::reading(rt, slot)?;
    print!(rt; "; begin ")?;
    let answer = again::begun_default(slot, &[]);
    print::answer(rt, answer)?;
    again::tell(rt, answer, slot)?;
    println!(rt; "")
}

// One slot, with another third byte at a place, where there is one.
fn one(rt: &impl Print, form: Form, third: Option<usize>) -> io::Result<()> {
    let Form(name, size, heads) = form;
    let mut room = [0; 258];
    let slot = &mut room[..size.min(258)];
    print!(rt; "slot {name}: ")?;
    lay_all(slot, heads);
    if let Some(at) = third {
        put(slot, at, 0x25);
    }
    tell(rt, slot)
}

// All of them.
pub(crate) fn slots(rt: &impl Print) -> io::Result<()> {
    for form in FORMS {
        one(rt, form, None)?;
    }
    for (form, at) in OTHER_THIRD {
        one(rt, form, Some(at))?;
    }
    Ok(())
}
