// Reading, measuring and writing a body.
ghost use Rattle.std.specs.Prelude.{◌≡◌, length};
ghost use Rattle.s2xv2.specs.Read.{read_of, tail_of};
ghost use Rattle.s2xv2.specs.Length.{length_told};
ghost use Rattle.s2xv2.specs.Write.{write_told, written};
ghost use Rattle.capi.specs.Part.{tail_part, part_in};
ghost use Rattle.answers.specs.Plain.{answer_out};
ghost use Rattle.s2xv2_plain.specs.Output.{numbers_of, bytes_of};
ghost use Rattle.s2xv2_plain.specs.Input.{meant};

use answers::plain::{PlainAnswer, PlainPart};

// `parse` of the library: the answer, whose first number is where the tail starts, and the record.
#[unsafe(no_mangle)]
pub extern "C" fn s2xv2_raw_parse(sel: &[u8], w: &mut [u32; 10], b: &mut [u8; 36]) -> PlainAnswer
    ensures answer { result ≡ answer_out (read_of sel.now).told }
    ensures numbers { w.new ≡ numbers_of (read_of sel.now).body }
    ensures bytes { b.new ≡ bytes_of (read_of sel.now).body }
{
    s2xv2_reader::parse_into(sel, w, b)
}

// `reserved_tail` of the library: where the tail stands in the body, or the empty part at its start for a body that is refused.
#[unsafe(no_mangle)]
pub extern "C" fn s2xv2_reserved_tail(sel: &[u8]) -> PlainPart
    ensures { (result ≡ tail_part sel.now) × (part_in result sel.now ≡ tail_of sel.now) }
{
    match s2xv2_reader::tail_start(sel) {
        Some(start) => PlainPart {
            place: start,
            length: sel.len() - start,
        },
        None => PlainPart {
            place: 0,
            length: 0,
        },
    }
}

// `serialized_len` of the library.
#[unsafe(no_mangle)]
pub extern "C" fn s2xv2_raw_serialized_len(
    w: &[u32; 10],
    b: &[u8; 36],
    reserved_tail: &[u8],
) -> PlainAnswer
    ensures { result ≡ answer_out (length_told (meant w.now b.now) reserved_tail.now) }
{
    s2xv2_measure::serialized_len_plain(w, b, reserved_tail)
}

// `serialize_into` of the library.
#[unsafe(no_mangle)]
pub extern "C" fn s2xv2_raw_serialize_into(
    w: &[u32; 10],
    b: &[u8; 36],
    reserved_tail: &[u8],
    buf: &mut [u8],
) -> PlainAnswer
    ensures answer { result ≡ answer_out (write_told (meant w.now b.now) reserved_tail.now (length buf.old)) }
    ensures buffer { buf.new ≡ written (meant w.now b.now) reserved_tail.now buf.old }
{
    s2xv2_writer::serialize_plain(w, b, reserved_tail, buf)
}
