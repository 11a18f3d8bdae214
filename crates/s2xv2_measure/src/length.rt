// How many bytes a record takes. Each flag by which they are counted is 0 or 1.
ghost use Rattle.std.specs.Prelude.{◌≡◌, List, ℕ, ◌+◌, ◌*◌, ◌≤◌, ◌<◌, min, eqb};
ghost use Rattle.wire.specs.Flags.{and, only};
ghost use Rattle.wire.specs.Parts.{sizes};
ghost use Rattle.s2xv2.specs.Encode.{parts_of};
ghost use Rattle.s2xv2_plain.specs.Input.{is_set, meant};
ghost use Rattle.s2xv2_measure.specs.Quick.{Counted};

use s2xv2_plain::places;

// A part of one byte: the input stream identifier, and the timeslice number.
fn byte_len(there: u8) -> usize
    requires { there < 2 }
    ensures { (result ≡ only (is_set there) 1) × (result ≤ 1) }
{
    there as usize
}

// The scrambling sequence index, with what is reserved before it, if its selector is there and set.
fn scrambling_len(has: u8, selector: u8) -> usize
    requires { (has < 2) × (selector < 2) }
    ensures { (result ≡ only (and (is_set has) (is_set selector)) 3) × (result ≤ 3) }
{
    3 * ((has & selector) as usize)
}

// The bonds, whatever their count.
fn bond_len(bond: u8, count: u8) -> usize
    ensures { (result ≡ only (eqb bond 1) (1 + 4 * count)) × (result ≤ 1021) }
{
    if bond == 1 {
        1 + 4 * (count as usize)
    } else {
        0
    }
}

// The superframe block, if it is there: 8, or 12 with a plan id.
fn superframe_len(there: u8, plan: u8) -> usize
    requires { plan < 2 }
    ensures { (result ≡ only (is_set there) (8 + 4 * plan)) × (result ≤ 12) }
{
    if there != 0 {
        8 + 4 * (plan as usize)
    } else {
        0
    }
}

// A tail of `n` bytes, with 65,535 for all above that: such a tail is too long whatever the record is, and a sum with it cannot wrap.
pub(crate) fn tail_len(n: usize) -> usize
    ensures { result ≡ min n 65535 }
{
    n.min(65535)
}

// All parts, without the tail, whatever the numbers are.
pub(crate) fn parts_len(b: &[u8; 36]) -> usize
    requires { Counted b.now }
    ensures size { (ws : List ℕ) → result ≡ sizes (parts_of (meant ws b.now)) }
    ensures small { result ≤ 1056 }
{
    18 + byte_len(b[places::HAS_INPUT_STREAM_IDENTIFIER])
        + scrambling_len(
            b[places::HAS_SCRAMBLING_SEQUENCE_SELECTOR],
            b[places::SCRAMBLING_SEQUENCE_SELECTOR],
        )
        + byte_len(b[places::HAS_TIMESLICE_NUMBER])
        + bond_len(b[places::CHANNEL_BOND], b[places::NUM_CHANNEL_BONDS])
        + superframe_len(
            b[places::HAS_SUPERFRAME],
            b[places::BEAM_HOPPING_TIME_PLAN_SELECTOR],
        )
}
