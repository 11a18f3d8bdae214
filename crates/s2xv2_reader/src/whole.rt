// A whole body, stored into a lent record.
ghost use Rattle.std.specs.Prelude.{◌≡◌, ◌≤◌, length, OnSome};
ghost use Rattle.s2xv2.specs.Read.{superframe_end, body_size, record_in};
ghost use Rattle.s2xv2_plain.specs.Output.{numbers_of, bytes_of};
ghost use Rattle.s2xv2_reader.specs.Stored.{reach, named, rest_numbers, rest_bytes};

use crate::core_part::{put_asked, put_fields, put_numbers};
use crate::parts::{put_bonds, put_byte, put_index};
use crate::superframe::put_superframe;
use s2xv2_plain::places;

// The parts behind the core, those of them that the bytes of the core say are there. Answers where the last ends, or none where the body does not reach that.
fn put_rest(s: &[u8], w: &mut [u32; 10], b: &mut [u8; 36]) -> Option<usize>
    requires { 18 ≤ length s.now }
    ensures end { result ≡ reach (length s.now) (superframe_end s.now (named b.old)) }
    ensures numbers { OnSome result (w.new ≡ rest_numbers w.old s.now (named b.old)) }
    ensures bytes { OnSome result (b.new ≡ rest_bytes b.old s.now (named b.old)) }
{
    let has_stream = b[places::HAS_INPUT_STREAM_IDENTIFIER] == 1;
    let stream = put_byte(s, 18, has_stream, places::INPUT_STREAM_IDENTIFIER, b)?;
    let has_index = b[places::HAS_SCRAMBLING_SEQUENCE_INDEX] == 1;
    let scrambling = put_index(s, stream, has_index, w, b)?;
    let has_timeslice = b[places::HAS_TIMESLICE_NUMBER] == 1;
    let timeslice = put_byte(s, scrambling, has_timeslice, places::TIMESLICE_NUMBER, b)?;
    let bond = put_bonds(s, timeslice, b[places::CHANNEL_BOND] == 1, w, b)?;
    put_superframe(s, bond, b[places::HAS_SUPERFRAME] == 1, w, b)
}

// All that a body holds. Answers where its tail starts, or none where the body ends inside a part.
pub(crate) fn put_all(s: &[u8], w: &mut [u32; 10], b: &mut [u8; 36]) -> Option<usize>
    requires { 18 ≤ length s.now }
    ensures end { result ≡ reach (length s.now) (body_size s.now) }
    ensures numbers { OnSome result (w.new ≡ numbers_of (record_in s.now)) }
    ensures bytes { OnSome result (b.new ≡ bytes_of (record_in s.now)) }
{
    let v4 = s[4];
    let v5 = s[5];
    let v6 = s[6];
    put_numbers(s, w);
    put_fields(v4, v5, v6, b);
    put_asked(v4 / 16 % 16, v4, v6, b);
    put_rest(s, w, b)
}
