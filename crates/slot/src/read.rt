// Reading a slot.
ghost use Rattle.std.specs.Prelude.{◌≡◌, ◌+◌, ◌-◌, ◌≤◌, length};
ghost use Rattle.s2xv2.specs.Default.{default_record};
ghost use Rattle.s2xv2.specs.Read.{read_told, read_of};
ghost use Rattle.s2xv2_plain.specs.Output.{numbers_of, bytes_of};
ghost use Rattle.form.specs.Form.{body_at, form_of};
ghost use Rattle.form.specs.declared.good.Form.TheVariants as F;
ghost use Rattle.slot.specs.Answer.{slot_told, slot_seen};
ghost use Rattle.slot.specs.Read.{body_in, placed, shown, shows_body};
ghost use Rattle.slot.specs.Part.{no_part, told_part, slot_part};

use crate::answer::SlotRecord;
use answers::answer::Refusal;
use answers::plain::PlainPart;
use form::good::{Form, form_of};
use s2xv2_plain::output::clear;

// The body of the one of ours, which starts at `at`.
fn body_at(slot: &[u8], at: usize) -> &[u8]
    requires { form_of slot.now ≡ F.Ours at }
    ensures { result.now ≡ body_at slot.now at }
{
    let length = slot[at + 1];
    let end = at + 2 + (length as usize);
    &slot[at + 3..end]
}

// Where the tail of a body of `size` bytes in the descriptor at `at` stands in the slot; in the body it starts at `start`.
fn tail_at(start: usize, at: usize, size: usize) -> PlainPart
    requires { (start ≤ size) × (size ≤ 257) × (at ≤ 257) }
    ensures { result ≡ record { place = start + (at + 3); length = size - start } }
{
    PlainPart {
        place: start + (at + 3),
        length: size - start,
    }
}

// No record: the default one is stored.
fn without(
    answer: Result<Option<PlainPart>, Refusal>,
    w: &mut [u32; 10],
    b: &mut [u8; 36],
) -> Result<Option<PlainPart>, Refusal>
    ensures answer { result ≡ answer }
    ensures numbers { w.new ≡ numbers_of default_record }
    ensures bytes { b.new ≡ bytes_of default_record }
{
    clear(w, b);
    answer
}

// The reader's answer for a body in the descriptor at `at`, with the tail's place counted from the slot's start. The record is stored as the reader stores it.
fn read_body(
    body: &[u8],
    at: usize,
    w: &mut [u32; 10],
    b: &mut [u8; 36],
) -> Result<Option<PlainPart>, Refusal>
    requires { (length body.now ≤ 257) × (at ≤ 257) }
    ensures told { slot_told result ≡ placed at (length body.now) (read_told body.now) }
    ensures numbers { w.new ≡ numbers_of (read_of body.now).body }
    ensures bytes { b.new ≡ bytes_of (read_of body.now).body }
{
    let start = match s2xv2_reader::read_into(body, w, b) {
        Some(start) => start,
        None => s2xv2_reader::parse_answer(body)?,
    };
    Ok(Some(tail_at(start, at, body.len())))
}

// What `read` answers, with the record stored as the numbers `w` and the bytes `b`: where the slot holds none, the default one.
pub fn read_into(
    slot: &[u8],
    w: &mut [u32; 10],
    b: &mut [u8; 36],
) -> Result<Option<PlainPart>, Refusal>
    ensures told { slot_told result ≡ (shown slot.now).reading.told }
    ensures numbers { w.new ≡ numbers_of (shown slot.now).reading.body }
    ensures bytes { b.new ≡ bytes_of (shown slot.now).reading.body }
{
    match form_of(slot) {
        Form::Size => without(Err(Refusal::Slot), w, b),
        Form::Broken { at } => without(Err(Refusal::SlotForm { offset: at }), w, b),
        Form::Empty => without(Ok(None), w, b),
        Form::Ours { at } => read_body(body_at(slot, at), at, w, b),
    }
}

// What a body in the descriptor at `at` reads as.
fn record_in(body: &[u8], at: usize) -> Result<Option<SlotRecord>, Refusal>
    requires { (length body.now ≤ 257) × (at ≤ 257) }
    ensures { slot_seen result ≡ (shows_body at body.now).reading }
{
    let parsed = s2xv2_reader::parse(body)?;
    Ok(Some(SlotRecord {
        tail: tail_at(parsed.tail_start, at, body.len()),
        body: parsed.body,
    }))
}

// What the slot holds: refused with answer 6 for its size or 12 for its form, else nothing if it is empty, else what the reader answers for the body.
pub fn read(slot: &[u8]) -> Result<Option<SlotRecord>, Refusal>
    ensures { slot_seen result ≡ (shown slot.now).reading }
{
    match form_of(slot) {
        Form::Size => Err(Refusal::Slot),
        Form::Broken { at } => Err(Refusal::SlotForm { offset: at }),
        Form::Empty => Ok(None),
        Form::Ours { at } => record_in(body_at(slot, at), at),
    }
}

// The body that the slot holds, as a part of the slot: the empty part where it holds none.
pub fn body_in(slot: &[u8]) -> &[u8]
    ensures { result.now ≡ body_in slot.now }
{
    match form_of(slot) {
        Form::Ours { at } => body_at(slot, at),
        Form::Size | Form::Broken { at: _ } | Form::Empty => &slot[..0],
    }
}

// The tail of the record that the slot holds, as a part of the slot: the empty part where it holds none.
pub fn reserved_tail(slot: &[u8]) -> &[u8]
    ensures { result.now ≡ (shown slot.now).tail }
{
    s2xv2_reader::reserved_tail(body_in(slot))
}

// No part, as it crosses to C: the empty one at the start.
fn no_part() -> PlainPart
    ensures { result ≡ no_part }
{
    PlainPart {
        place: 0,
        length: 0,
    }
}

// Where the tail of a body stands in its slot, in the descriptor at `at`: no part for a body that is refused.
fn placed_part(body: &[u8], at: usize) -> PlainPart
    requires { (length body.now ≤ 257) × (at ≤ 257) }
    ensures { result ≡ told_part (placed at (length body.now) (read_told body.now)) }
{
    match s2xv2_reader::tail_start(body) {
        Some(start) => tail_at(start, at, body.len()),
        None => no_part(),
    }
}

// Where the tail of the record that the slot holds stands in it: the empty part at the start where it holds none.
pub fn tail_part(slot: &[u8]) -> PlainPart
    ensures { result ≡ slot_part slot.now }
{
    match form_of(slot) {
        Form::Ours { at } => placed_part(body_at(slot, at), at),
        Form::Size | Form::Broken { at: _ } | Form::Empty => no_part(),
    }
}
