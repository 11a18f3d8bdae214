// Quick tests, four bytes at a time: a record that passes them is consistent, and the wire can carry it. They tell no place, and may fail for a record that
// is right, as for one with a flag above 1.
ghost use Rattle.std.specs.Prelude.{◌≡◌, true, false, List, [], ◌∷◌, ℕ, ◌≤◌, ◌<◌, eqb, ltb, get_or};
ghost use Rattle.wire.specs.Flags.{and, not};
ghost use Rattle.wire.specs.Count.{less_one};
ghost use Rattle.wire.specs.Widths.{wide};
ghost use Rattle.answers.proofs.Tests.{Clear};
ghost use Rattle.s2xv2.specs.ListA.{list_a};
ghost use Rattle.s2xv2.specs.ListB.{core_b, superframe_b, list_b};
ghost use Rattle.s2xv2_plain.specs.Input.{is_set, block_in, meant};
ghost use Rattle.s2xv2_measure.specs.Quick.{Word, WordAt, Agrees, Fits};
ghost use Rattle.std.specs.Prelude.{Some};

use s2xv2_lists::list_b::less_one;
use s2xv2_plain::asked::asked;
use s2xv2_plain::places;
use wire::field::picked;

// Four bytes as one word, the first the lowest.
fn join(a: u8, b: u8, c: u8, d: u8) -> u32
    ensures { Word a b c d result }
{
    u32::from_le_bytes([a, b, c, d])
}

// The four bytes from `i` on as one word.
fn word(b: &[u8; 36], i: usize) -> u32
    requires { i ≤ 32 }
    ensures { WordAt b.now i result }
{
    join(b[i], b[i + 1], b[i + 2], b[i + 3])
}

// What is there is what is said to be there, and what the mode asks for.
fn agrees(b: &[u8; 36]) -> bool
    ensures { result ≡ true → Agrees b.now }
{
    let said = word(b, places::MULTIPLE_INPUT_STREAM_FLAG);
    said == word(b, places::HAS_INPUT_STREAM_IDENTIFIER)
        && said & 0xFEFEFEFE == 0
        && word(b, places::MODE_IS_RESERVED) == asked(b[places::S2XV2_MODE])
}

// A scrambling selector that is set is there.
fn selector_agrees(set: u8, has: u8) -> bool
    ensures { result ≡ true → and (is_set set) (not (is_set has)) ≡ false }
{
    set <= has
}

// There are bonds only under channel_bond 1.
fn bonds_agree(bond: u8, count: u8) -> bool
    ensures { result ≡ true → and (ltb 0 count) (not (eqb bond 1)) ≡ false }
{
    (bond == 1) | (count == 0)
}

// List A finds nothing, whatever the numbers are.
pub(crate) fn is_consistent(b: &[u8; 36]) -> bool
    ensures agrees { result ≡ true → Agrees b.now }
    ensures list { result ≡ true → (ws : List ℕ) → Clear (list_a (meant ws b.now)) }
{
    agrees(b)
        && selector_agrees(
            b[places::SCRAMBLING_SEQUENCE_SELECTOR],
            b[places::HAS_SCRAMBLING_SEQUENCE_SELECTOR],
        )
        && bonds_agree(b[places::CHANNEL_BOND], b[places::NUM_CHANNEL_BONDS])
}

// The wire can carry the core. Each mask has the bits that a field of its word must not have.
fn core_fits(w: &[u32; 10], b: &[u8; 36]) -> bool
    ensures list { result ≡ true → Clear (core_b (meant w.now b.now)) }
    ensures bits { result ≡ true → (get_or b.now 13 0 < 2) × (get_or b.now 14 0 < 2) }
{
    word(b, places::RESERVED_ZERO_FUTURE_USE_2) & 0xFCFEFEFC == 0
        && word(b, places::TS_GS_S2X_MODE) & 0xFCFEE0FC == 0
        && word(b, places::S2XV2_MODE) & 0x0000F8F0 == 0
        && w[places::SATELLITE_ID] < 16777216
}

// A selector that is set is there, and the wire can carry the index behind it.
fn scrambling_fits(set: u8, has: u8, index: u32, reserved: u8) -> bool
    ensures { result ≡ true → Clear (and (is_set set) (not (is_set has)) ∷ and (is_set set) (wide 18 index) ∷ and (is_set set) (wide 6 reserved) ∷ []) }
{
    if set != 0 {
        has != 0 && index < 262144 && reserved < 64
    } else {
        true
    }
}

// Under channel_bond 1 there are one or two bonds, and the wire can carry their header; else there is none.
fn bonds_fit(bond: u8, count: u8, reserved: u8) -> bool
    ensures agree { result ≡ true → and (ltb 0 count) (not (eqb bond 1)) ≡ false }
    ensures fit { result ≡ true → Clear (and (eqb bond 1) (wide 1 (less_one count)) ∷ and (eqb bond 1) (wide 7 reserved) ∷ []) }
{
    if bond == 1 {
        less_one(count) < 2 && reserved < 128
    } else {
        count == 0
    }
}

// The wire can carry the block.
fn block_fits(w: &[u32; 10], b: &[u8; 36]) -> bool
    requires { Agrees b.now }
    ensures { result ≡ true → Clear (superframe_b (Some (block_in w.now b.now))) }
{
    let nibble = picked(
        b[places::SFFI_SELECTOR],
        b[places::SFFI],
        b[places::RESERVED_ZERO_FUTURE_USE_4],
    );
    w[places::REFERENCE_SCRAMBLING_INDEX] < 1048576
        && w[places::PAYLOAD_SCRAMBLING_INDEX] < 1048576
        && b[places::SUPERFRAME_RESERVED_ZERO_FUTURE_USE_2] < 4
        && nibble < 16
        && b[places::SUPERFRAME_PILOTS_WH_SEQUENCE_NUMBER] < 32
        && b[places::POSTAMBLE_PLI] < 8
}

// The same of a block that may be absent.
fn superframe_fits(w: &[u32; 10], b: &[u8; 36]) -> bool
    requires { Agrees b.now }
    ensures { result ≡ true → Clear (superframe_b (meant w.now b.now).superframe) }
{
    if b[places::HAS_SUPERFRAME] != 0 {
        block_fits(w, b)
    } else {
        true
    }
}

// Both lists find nothing, and every flag that is counted or packed is 0 or 1.
#[inline(always)]
pub(crate) fn fits(w: &[u32; 10], b: &[u8; 36]) -> bool
    ensures lists { result ≡ true → Clear (list_a (meant w.now b.now)) × Clear (list_b (meant w.now b.now)) }
    ensures bits { result ≡ true → Fits b.now }
{
    agrees(b)
        && core_fits(w, b)
        && scrambling_fits(
            b[places::SCRAMBLING_SEQUENCE_SELECTOR],
            b[places::HAS_SCRAMBLING_SEQUENCE_SELECTOR],
            w[places::SCRAMBLING_SEQUENCE_INDEX],
            b[places::RESERVED_ZERO_FUTURE_USE_6],
        )
        && bonds_fit(
            b[places::CHANNEL_BOND],
            b[places::NUM_CHANNEL_BONDS],
            b[places::RESERVED_ZERO_FUTURE_USE_7],
        )
        && superframe_fits(w, b)
}
