// Writes the body of an S2Xv2 satellite delivery system descriptor.
#![tactic(auto)]

ghost use Rattle.std.specs.Prelude.{◌≡◌, ◌++◌, ◌≤◌, length, drop, IfSome, IfNone};
ghost use Rattle.answers.specs.Answer.{told};
ghost use Rattle.s2xv2.specs.Encode.{encode, encoded_length};
ghost use Rattle.s2xv2.specs.ListB.{list_b};
ghost use Rattle.s2xv2.specs.Write.{write_told, written};
ghost use Rattle.answers.proofs.Tests.{Clear};
ghost use Rattle.s2xv2_plain.specs.Input.{meant};
ghost use Rattle.answers.specs.Plain.{answer_out};
ghost use Rattle.s2xv2_measure.specs.Quick.{Packed};
ghost use Rattle.s2xv2_writer.specs.Wrote.{Wrote};

use answers::answer::Refusal;
use answers::plain::{PlainAnswer, accepted, answer_out};
use s2xv2::record::S2Xv2SatelliteDeliverySystem;
use s2xv2_measure::{is_ready, write_answer};
use s2xv2_plain::input::of_plain;
use s2xv2_plain::output::to_plain;
use s2xv2_plain::places;

mod parts;
mod store;

// All parts and then the tail, from the start of the buffer; answers how many bytes. All has been checked: there is room, and the wire can carry the record.
fn put_all(buf: &mut [u8], w: &[u32; 10], b: &[u8; 36], tail: &[u8]) -> usize
    requires tail_in_bounds { encoded_length (meant w.now b.now) tail.now ≤ length buf.old }
    requires packed { Packed b.now × Clear (list_b (meant w.now b.now)) }
    ensures place { result ≡ encoded_length (meant w.now b.now) tail.now }
    ensures stored { buf.new ≡ encode (meant w.now b.now) tail.now ++ drop result buf.old }
{
    parts::put_core(buf, w, b);
    let stream = b[places::INPUT_STREAM_IDENTIFIER];
    let p1 = parts::put_byte(buf, 18, b[places::HAS_INPUT_STREAM_IDENTIFIER], stream);
    let p2 = parts::put_scrambling(
        buf,
        p1,
        b[places::SCRAMBLING_SEQUENCE_SELECTOR],
        b[places::RESERVED_ZERO_FUTURE_USE_6],
        w[places::SCRAMBLING_SEQUENCE_INDEX],
    );
    let timeslice = b[places::TIMESLICE_NUMBER];
    let p3 = parts::put_byte(buf, p2, b[places::HAS_TIMESLICE_NUMBER], timeslice);
    let p4 = parts::put_bonds(
        buf,
        p3,
        b[places::CHANNEL_BOND],
        b[places::RESERVED_ZERO_FUTURE_USE_7],
        b[places::NUM_CHANNEL_BONDS],
        w[places::SECONDARY_DELIVERY_SYSTEM_ID_0],
        w[places::SECONDARY_DELIVERY_SYSTEM_ID_1],
    );
    let p5 = parts::put_superframe(buf, p4, w, b);
    store::put_tail(buf, p5, tail);
    p5 + tail.len()
}

// Writes the record and its tail to the start of `buf`, and answers how many bytes that took. Refuses what `serialized_len`
// refuses, then a buffer that is too small, then a record whose values the wire cannot carry. All is checked before the first
// store, so that a refused record leaves the buffer as it was; bytes behind the encoding keep their contents.
pub fn serialize_into(
    r: S2Xv2SatelliteDeliverySystem,
    reserved_tail: &[u8],
    buf: &mut [u8],
) -> Result<usize, Refusal>
    ensures answer { told result ≡ write_told r reserved_tail.now (length buf.old) }
    ensures buffer { buf.new ≡ written r reserved_tail.now buf.old }
{
    let need = write_answer(r, reserved_tail, buf.len())?;
    let plain = to_plain(r);
    put_all(buf, &plain.numbers, &plain.bytes, reserved_tail);
    Ok(need)
}

// Writes the record that plain numbers mean and its tail to the start of `buf` if a quick look finds that nothing is refused, and answers how many bytes
// that took; else it stores nothing and answers `None`. Inlined, with the tests that it makes: as calls they cost a record a twelfth more instructions.
#[inline(always)]
pub fn write_ready(
    w: &[u32; 10],
    b: &[u8; 36],
    reserved_tail: &[u8],
    buf: &mut [u8],
) -> Option<usize>
    ensures wrote { IfSome result (λ n. Wrote n (meant w.now b.now) reserved_tail.now buf.old buf.new) }
    ensures kept { IfNone result (buf.new ≡ buf.old) }
{
    if !is_ready(w, b, reserved_tail, buf.len()) {
        return None;
    }
    Some(put_all(buf, w, b, reserved_tail))
}

// `serialize_into` of the record that plain numbers mean, the long way: the quick one then needs no room for what this one keeps.
#[cold]
fn serialize_long(w: &[u32; 10], b: &[u8; 36], reserved_tail: &[u8], buf: &mut [u8]) -> PlainAnswer
    ensures answer { result ≡ answer_out (write_told (meant w.now b.now) reserved_tail.now (length buf.old)) }
    ensures buffer { buf.new ≡ written (meant w.now b.now) reserved_tail.now buf.old }
{
    answer_out(serialize_into(of_plain(w, b), reserved_tail, buf))
}

// `serialize_into` of the record that plain numbers mean. One that passes the quick tests is judged by no other; any other goes the long way.
pub fn serialize_plain(
    w: &[u32; 10],
    b: &[u8; 36],
    reserved_tail: &[u8],
    buf: &mut [u8],
) -> PlainAnswer
    ensures answer { result ≡ answer_out (write_told (meant w.now b.now) reserved_tail.now (length buf.old)) }
    ensures buffer { buf.new ≡ written (meant w.now b.now) reserved_tail.now buf.old }
{
    if let Some(length) = write_ready(w, b, reserved_tail, buf) {
        return accepted(length as u16);
    }
    serialize_long(w, b, reserved_tail, buf)
}
