// The parts of a body between its core and its superframe block, stored into a lent record, with zeros for a part that is not there. Each function answers
// where its part ends, or none where the body does not reach that.
ghost use Rattle.std.specs.Prelude.{◌≡◌, ◌+◌, ◌<◌, ◌≤◌, true, length, slice_set, OnSome};
ghost use Rattle.wire.specs.Flags.{only};
ghost use Rattle.s2xv2.specs.Read.{stream_id_at, reserved6_at, index_at, has_second, bond_size, count_if, second_id_at};
ghost use Rattle.s2xv2_reader.specs.Stored.{reach, bond_numbers, bond_bytes};
ghost use Rattle.std.specs.Option.{unwrap_or};

use crate::bytes::{be32, low18, reach};
use s2xv2_plain::places;
use wire::field::flag;

// A part of one byte, stored at `place`: the input stream identifier, and the timeslice number.
pub(crate) fn put_byte(
    s: &[u8],
    p: usize,
    there: bool,
    place: usize,
    b: &mut [u8; 36],
) -> Option<usize>
    requires { (p ≤ length s.now) × (place < 36) }
    ensures end { result ≡ reach (length s.now) (p + only there 1) }
    ensures bytes { OnSome result (b.new ≡ slice_set b.old place (unwrap_or (stream_id_at s.now p there) 0)) }
{
    if there {
        b[place] = *s.get(p)?;
        Some(p + 1)
    } else {
        b[place] = 0;
        Some(p)
    }
}

// The scrambling part: six bits that are reserved, and the index.
pub(crate) fn put_index(
    s: &[u8],
    p: usize,
    there: bool,
    w: &mut [u32; 10],
    b: &mut [u8; 36],
) -> Option<usize>
    requires { p ≤ length s.now }
    ensures end { result ≡ reach (length s.now) (p + only there 3) }
    ensures numbers { OnSome result (w.new ≡ slice_set w.old 4 (unwrap_or (index_at s.now p there) 0)) }
    ensures bytes { OnSome result (b.new ≡ slice_set b.old 26 (reserved6_at s.now p there)) }
{
    if there {
        let end = reach(s, p + 3)?;
        w[places::SCRAMBLING_SEQUENCE_INDEX] = low18(s, p);
        b[places::RESERVED_ZERO_FUTURE_USE_6] = s[p] / 4 % 64;
        Some(end)
    } else {
        w[places::SCRAMBLING_SEQUENCE_INDEX] = 0;
        b[places::RESERVED_ZERO_FUTURE_USE_6] = 0;
        Some(p)
    }
}

// The second id of bonds, where their header says that there is one, and how many they are.
fn put_second(
    s: &[u8],
    p: usize,
    second: bool,
    w: &mut [u32; 10],
    b: &mut [u8; 36],
) -> Option<usize>
    requires { p + 5 ≤ length s.now }
    ensures end { result ≡ reach (length s.now) (p + bond_size second) }
    ensures numbers { OnSome result (w.new ≡ slice_set w.old 6 (second_id_at s.now p true second)) }
    ensures bytes { OnSome result (b.new ≡ slice_set b.old 22 (count_if true second)) }
{
    if second {
        let end = reach(s, p + 9)?;
        w[places::SECONDARY_DELIVERY_SYSTEM_ID_1] = be32(s, p + 5);
        b[places::NUM_CHANNEL_BONDS] = 2;
        Some(end)
    } else {
        w[places::SECONDARY_DELIVERY_SYSTEM_ID_1] = 0;
        b[places::NUM_CHANNEL_BONDS] = 1;
        Some(p + 5)
    }
}

// The bonds: their header, and one id or two.
pub(crate) fn put_bonds(
    s: &[u8],
    p: usize,
    there: bool,
    w: &mut [u32; 10],
    b: &mut [u8; 36],
) -> Option<usize>
    requires { p ≤ length s.now }
    ensures end { result ≡ reach (length s.now) (p + only there (bond_size (has_second s.now p))) }
    ensures numbers { OnSome result (w.new ≡ bond_numbers w.old s.now p there) }
    ensures bytes { OnSome result (b.new ≡ bond_bytes b.old s.now p there) }
{
    if there {
        reach(s, p + 5)?;
        let header = s[p];
        w[places::SECONDARY_DELIVERY_SYSTEM_ID_0] = be32(s, p + 1);
        b[places::RESERVED_ZERO_FUTURE_USE_7] = header / 2 % 128;
        put_second(s, p, flag(header, 1), w, b)
    } else {
        w[places::SECONDARY_DELIVERY_SYSTEM_ID_0] = 0;
        w[places::SECONDARY_DELIVERY_SYSTEM_ID_1] = 0;
        b[places::RESERVED_ZERO_FUTURE_USE_7] = 0;
        b[places::NUM_CHANNEL_BONDS] = 0;
        Some(p)
    }
}
