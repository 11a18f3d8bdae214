// Reading a slot, and making it empty.
ghost use Rattle.std.specs.Prelude.{◌≡◌, [], ◌∷◌, length};
ghost use Rattle.slot.specs.Answer.{slot_told};
ghost use Rattle.slot.specs.Read.{shown};
ghost use Rattle.slot.specs.Empty.{empty_told, emptied};
ghost use Rattle.answers.specs.Plain.{answer_out};
ghost use Rattle.s2xv2_plain.specs.Output.{numbers_of, bytes_of};
ghost use Rattle.slot.specs.Part.{slot_part};
ghost use Rattle.capi.specs.Part.{part_in};

use answers::answer::{Refusal, saturated};
use answers::plain::{PlainAnswer, PlainPart, refusal_out};

// Accepted with two numbers.
fn accepted(place: usize, length: usize) -> PlainAnswer
    ensures { result ≡ answer_out (0 ∷ place ∷ length ∷ []) }
{
    PlainAnswer {
        number: 0,
        first: saturated(place),
        second: saturated(length),
        third: 0,
        fourth: 0,
    }
}

// An answer about a slot: accepted with the tail's place and length, 0 and 0 for an empty slot, or the refusal.
fn slot_answer_out(answer: Result<Option<PlainPart>, Refusal>) -> PlainAnswer
    ensures { result ≡ answer_out (slot_told answer) }
{
    match answer {
        Ok(Some(tail)) => accepted(tail.place, tail.length),
        Ok(None) => accepted(0, 0),
        Err(why) => refusal_out(why),
    }
}

// `slot::read::read` of the library: the answer, which tells where the tail stands in the slot, 0 and 0 for an empty slot; and the record.
#[unsafe(no_mangle)]
pub extern "C" fn s2xv2_raw_slot_read(s: &[u8], w: &mut [u32; 10], b: &mut [u8; 36]) -> PlainAnswer
    ensures answer { result ≡ answer_out (shown s.now).reading.told }
    ensures numbers { w.new ≡ numbers_of (shown s.now).reading.body }
    ensures bytes { b.new ≡ bytes_of (shown s.now).reading.body }
{
    let answer = slot::read::read_into(s, w, b);
    slot_answer_out(answer)
}

// `slot::read::reserved_tail` of the library: where the tail of the record stands in the slot, or the empty part at its start where there is none.
#[unsafe(no_mangle)]
pub extern "C" fn s2xv2_slot_reserved_tail(s: &[u8]) -> PlainPart
    ensures { (result ≡ slot_part s.now) × (part_in result s.now ≡ (shown s.now).tail) }
{
    slot::read::tail_part(s)
}

// `slot::empty::make_empty` of the library. Refuses a wrong size with 6, and then stores nothing.
#[unsafe(no_mangle)]
pub extern "C" fn s2xv2_slot_make_empty(s: &mut [u8]) -> PlainAnswer
    ensures told { result ≡ answer_out (empty_told (length s.old)) }
    ensures left { s.new ≡ emptied s.old }
{
    match slot::empty::make_empty(s) {
        Ok(()) => slot_answer_out(Ok(None)),
        Err(why) => refusal_out(why),
    }
}
