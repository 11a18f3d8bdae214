// The superframe block of a body, stored into a lent record.
ghost use Rattle.std.specs.Prelude.{◌≡◌, ◌+◌, ◌<◌, ◌≤◌, length, None, OnSome};
ghost use Rattle.wire.specs.Flags.{only};
ghost use Rattle.wire.specs.Widths.{cut};
ghost use Rattle.s2xv2.specs.Table144b as T;
ghost use Rattle.s2xv2.specs.Read.{has_plan, superframe_size};
ghost use Rattle.s2xv2_reader.specs.Stored.{reach, start_numbers, start_bytes, end_bytes, block_numbers, block_bytes, block_at};

use crate::bytes::{be32, low20, reach};
use s2xv2_plain::places;
use wire::field::{flag, picked};

// The fields before the plan id.
fn put_start(s: &[u8], p: usize, w: &mut [u32; 10], b: &mut [u8; 36])
    requires { p + 8 ≤ length s.now }
    ensures numbers { w.new ≡ start_numbers w.old (cut s.now p T.superframe) }
    ensures bytes { b.new ≡ start_bytes b.old (cut s.now p T.superframe) }
{
    let selectors = s[p + 1];
    let sffi = selectors / 128 % 2;
    let plan = selectors / 64 % 2;
    let nibble = s[p + 4] / 16 % 16;
    w[places::REFERENCE_SCRAMBLING_INDEX] = low20(s, p + 1);
    w[places::PAYLOAD_SCRAMBLING_INDEX] = low20(s, p + 4);
    b[places::SOSF_WH_SEQUENCE_NUMBER] = s[p];
    b[places::SUPERFRAME_RESERVED_ZERO_FUTURE_USE_2] = selectors / 16 % 4;
    b[places::SFFI_SELECTOR] = sffi;
    b[places::BEAM_HOPPING_TIME_PLAN_SELECTOR] = plan;
    b[places::HAS_SFFI] = sffi;
    b[places::HAS_BEAMHOPPING_TIME_PLAN_ID] = plan;
    b[places::SFFI] = picked(sffi, nibble, 0);
    b[places::RESERVED_ZERO_FUTURE_USE_4] = picked(sffi, 0, nibble);
}

// The fields of the last byte, and the bytes that hold nothing.
fn put_end(v: u8, b: &mut [u8; 36])
    ensures { b.new ≡ end_bytes b.old v }
{
    b[places::SUPERFRAME_PILOTS_WH_SEQUENCE_NUMBER] = v / 8 % 32;
    b[places::POSTAMBLE_PLI] = v % 8;
    b[places::FILLER_0] = 0;
    b[places::FILLER_1] = 0;
    b[places::FILLER_2] = 0;
}

// Zeros for a block that is not there.
#[tactic(auto, unfolding(s2xv2::specs::Default::default_superframe))]
fn put_none(w: &mut [u32; 10], b: &mut [u8; 36])
    ensures numbers { w.new ≡ block_numbers w.old None }
    ensures bytes { b.new ≡ block_bytes b.old None }
{
    w[places::REFERENCE_SCRAMBLING_INDEX] = 0;
    w[places::PAYLOAD_SCRAMBLING_INDEX] = 0;
    w[places::BEAMHOPPING_TIME_PLAN_ID] = 0;
    b[places::SOSF_WH_SEQUENCE_NUMBER] = 0;
    b[places::SUPERFRAME_RESERVED_ZERO_FUTURE_USE_2] = 0;
    b[places::SFFI_SELECTOR] = 0;
    b[places::BEAM_HOPPING_TIME_PLAN_SELECTOR] = 0;
    b[places::HAS_SFFI] = 0;
    b[places::HAS_BEAMHOPPING_TIME_PLAN_ID] = 0;
    b[places::SFFI] = 0;
    b[places::RESERVED_ZERO_FUTURE_USE_4] = 0;
    b[places::SUPERFRAME_PILOTS_WH_SEQUENCE_NUMBER] = 0;
    b[places::POSTAMBLE_PLI] = 0;
    b[places::FILLER_0] = 0;
    b[places::FILLER_1] = 0;
    b[places::FILLER_2] = 0;
}

// The block, if it is there. Answers where it ends, or none where the body does not reach that.
pub(crate) fn put_superframe(
    s: &[u8],
    p: usize,
    there: bool,
    w: &mut [u32; 10],
    b: &mut [u8; 36],
) -> Option<usize>
    requires { p ≤ length s.now }
    ensures end { result ≡ reach (length s.now) (p + only there (superframe_size (has_plan s.now p))) }
    ensures numbers { OnSome result (w.new ≡ block_numbers w.old (block_at s.now p there)) }
    ensures bytes { OnSome result (b.new ≡ block_bytes b.old (block_at s.now p there)) }
{
    if there {
        let short = reach(s, p + 8)?;
        put_start(s, p, w, b);
        if flag(s[p + 1], 64) {
            let long = reach(s, p + 12)?;
            w[places::BEAMHOPPING_TIME_PLAN_ID] = be32(s, p + 7);
            put_end(s[p + 11], b);
            Some(long)
        } else {
            w[places::BEAMHOPPING_TIME_PLAN_ID] = 0;
            put_end(s[p + 7], b);
            Some(short)
        }
    } else {
        put_none(w, b);
        Some(p)
    }
}
