// What is seen of a slot, into a digest.
use crate::again::Answer;
use crate::cause::{Cause, cause_of};
use answers::answer::Refusal;
use lines::digest::put;

// What a slot reads as: a record, an empty slot, or neither, for its size, its body or its form.
#[derive(Clone, Copy)]
pub(crate) enum Reading {
    Record,
    Empty,
    OtherSize,
    RefusedBody,
    Broken(Cause),
}

// The digest with one size more.
pub(crate) fn put_size(d: u32, n: usize) -> u32 {
    put(d, (n % 4_294_967_296) as u32)
}

// A refusal: its number, and what it tells.
fn put_refusal(d: u32, why: Refusal) -> u32 {
    let told = why.told();
    told.numbers
        .iter()
        .take(told.count)
        .fold(d, |d, n| put_size(d, *n))
}

// What begin answers.
pub(crate) fn put_answer(d: u32, answer: Answer) -> u32 {
    match answer {
        Ok(stores) => put_size(put(d, 0), stores),
        Err(why) => put_refusal(d, why),
    }
}

// What a slot reads as: 0 with the tail's place and length, 9 for an empty one, or a refusal.
pub(crate) fn put_reading(d: u32, slot: &[u8]) -> u32 {
    match slot::read::read(slot) {
        Ok(Some(record)) => put_size(put_size(put(d, 0), record.tail.place), record.tail.length),
        Ok(None) => put(d, 9),
        Err(why) => put_refusal(d, why),
    }
}

// Where the tail stands, and how long it is.
pub(crate) fn put_tail(d: u32, slot: &[u8]) -> u32 {
    let part = slot::read::tail_part(slot);
    put_size(put_size(d, part.place), part.length)
}

// As what a slot reads.
pub(crate) fn reading_of(slot: &[u8]) -> Reading {
    match slot::read::read(slot) {
        Ok(Some(_)) => Reading::Record,
        Ok(None) => Reading::Empty,
        Err(Refusal::Slot) => Reading::OtherSize,
        Err(Refusal::SlotForm { offset }) => Reading::Broken(cause_of(slot, offset)),
        Err(_) => Reading::RefusedBody,
    }
}
