// Measures a record, and judges whether it can be written: every test that the writer makes, before its first store.
#![tactic(auto)]

ghost use Rattle.std.specs.Prelude.{◌≡◌, true, List, ℕ, ◌+◌, ◌≤◌};
ghost use Rattle.wire.specs.Parts.{sizes};
ghost use Rattle.answers.specs.Answer.{told};
ghost use Rattle.s2xv2.specs.Encode.{parts_of};
ghost use Rattle.s2xv2.specs.Length.{length_told};
ghost use Rattle.s2xv2.specs.Write.{write_told};
ghost use Rattle.s2xv2.proofs.Written.{Writable};
ghost use Rattle.s2xv2_plain.specs.Input.{meant};
ghost use Rattle.answers.specs.Plain.{answer_out};
ghost use Rattle.s2xv2_measure.specs.Quick.{Packed, Fits};

use answers::answer::{Refusal, saturated};
use answers::plain::{PlainAnswer, accepted, answer_out};
use s2xv2::record::S2Xv2SatelliteDeliverySystem;
use s2xv2_lists::list_a::inconsistency;
use s2xv2_lists::list_b::unwritable;
use s2xv2_plain::input::of_plain;
use s2xv2_plain::output::to_plain;

mod checks;
mod length;

// The number of bytes that the record takes with a tail. Refuses a record that contradicts itself, and one whose encoding would
// have more than 4,096 bytes; it does not ask whether the wire can carry the record's values.
pub fn serialized_len(
    r: S2Xv2SatelliteDeliverySystem,
    reserved_tail: &[u8],
) -> Result<usize, Refusal>
    ensures { told result ≡ length_told r reserved_tail.now }
{
    if let Some(place) = inconsistency(r) {
        return Err(Refusal::Inconsistent { place });
    }
    let plain = to_plain(r);
    let need = length::parts_len(&plain.bytes) + length::tail_len(reserved_tail.len());
    if 4096 < need {
        return Err(Refusal::Long {
            length: saturated(need),
        });
    }
    Ok(need)
}

// What the writer answers for the record, its tail and a buffer of `room` bytes. Refuses what `serialized_len` refuses, then a
// buffer that is too small, then a record whose values the wire cannot carry.
pub fn write_answer(
    r: S2Xv2SatelliteDeliverySystem,
    reserved_tail: &[u8],
    room: usize,
) -> Result<usize, Refusal>
    ensures { told result ≡ write_told r reserved_tail.now room }
{
    let need = serialized_len(r, reserved_tail)?;
    if room < need {
        return Err(Refusal::Room { need, have: room });
    }
    if let Some(place) = unwritable(r) {
        return Err(Refusal::Field { place });
    }
    Ok(need)
}

// `serialized_len` of the record that plain numbers mean, the long way.
fn measured(w: &[u32; 10], b: &[u8; 36], reserved_tail: &[u8]) -> PlainAnswer
    ensures { result ≡ answer_out (length_told (meant w.now b.now) reserved_tail.now) }
{
    answer_out(serialized_len(of_plain(w, b), reserved_tail))
}

// `serialized_len` of the record that plain numbers mean. One that passes the quick tests, and is not too long, is judged by no other.
pub fn serialized_len_plain(w: &[u32; 10], b: &[u8; 36], reserved_tail: &[u8]) -> PlainAnswer
    ensures { result ≡ answer_out (length_told (meant w.now b.now) reserved_tail.now) }
{
    if checks::is_consistent(b) {
        let need = length::parts_len(b) + length::tail_len(reserved_tail.len());
        if need <= 4096 {
            return accepted(need as u16);
        }
    }
    measured(w, b, reserved_tail)
}

// Whether a record that passes the quick tests fits `room` bytes with a tail of `tail`, and 4,096. No such record has more than 44 bytes without its tail.
fn has_room(b: &[u8; 36], tail: usize, room: usize) -> bool
    requires { Fits b.now }
    ensures within { result ≡ true → (ws : List ℕ) → sizes (parts_of (meant ws b.now)) + tail ≤ 4096 }
    ensures fits { result ≡ true → (ws : List ℕ) → sizes (parts_of (meant ws b.now)) + tail ≤ room }
{
    if tail <= 4052 && tail + 44 <= room {
        return true;
    }
    let need = length::parts_len(b) + length::tail_len(tail);
    (need <= 4096) & (need <= room)
}

// Whether a quick look finds that the writer accepts the record that plain numbers mean; if it does, each flag that is packed into a byte is 0 or 1.
// Inlined, for speed, as `fits` is.
#[inline(always)]
pub fn is_ready(w: &[u32; 10], b: &[u8; 36], reserved_tail: &[u8], room: usize) -> bool
    ensures told { result ≡ true → Writable (meant w.now b.now) reserved_tail.now room }
    ensures bits { result ≡ true → Packed b.now }
{
    checks::fits(w, b) && has_room(b, reserved_tail.len(), room)
}
