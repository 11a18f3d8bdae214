// The parts of a record as bytes. Each function stores its part from a place on and answers the place behind it; it requires room for the
// part, that each flag that it packs into a byte is 0 or 1, and that list B found nothing in it. Each asks that of its own part alone: a struct over both arrays
// with all of it for an invariant would have to be taken apart in each.
ghost use Rattle.std.specs.Prelude.{[], ◌∷◌, false, ◌≡◌, ◌+◌, ◌*◌, ◌%◌, ◌≤◌, ◌<◌, length, take, drop, eqb};
ghost use Rattle.wire.specs.Flags.{when, and};
ghost use Rattle.wire.specs.Store.{stored_from};
ghost use Rattle.wire.specs.Widths.{pack, wide};
ghost use Rattle.wire.specs.Parts.{bytes_of, sizes};
ghost use Rattle.s2xv2.specs.Table144b.{core, superframe};
ghost use Rattle.s2xv2.specs.Encode.{core_values, byte_parts, scrambling_parts, bond_parts, superframe_values, plan_parts, block_parts, superframe_of};
ghost use Rattle.wire.specs.Count.{less_one};
ghost use Rattle.s2xv2.specs.ListB.{core_b, superframe_b};
ghost use Rattle.answers.proofs.Tests.{Clear};
ghost use Rattle.s2xv2_plain.specs.Input.{is_set, block_in, meant};
ghost use Rattle.s2xv2_measure.specs.Quick.{Packed};
ghost use Rattle.std.specs.Prelude.{Some};
ghost use Rattle.std.specs.Bool.{then_some};

use crate::store::{copy, put};
use s2xv2_lists::list_b::less_one;
use s2xv2_plain::places;
use wire::number::{be_bytes, be_bytes_24};

// The first number where the flag is set, and the second where it is clear. Not `picked` of wire, for which a flag is set only if it is 1.
fn chosen(flag: u8, first: u8, second: u8) -> u8
    ensures { result ≡ when (is_set flag) first second }
{
    if flag != 0 { first } else { second }
}

// Each function that packs fields into a byte or a word is a line of Table 144b by its name, its widths in its weights, which is how the two are laid side by side:
// with weights for parameters the table would stand at the calls.
// Byte 4: S2Xv2_mode 4, multiple_input_stream_flag 1, roll_off 3.
fn byte_4(mode: u8, flag: u8, roll: u8) -> u8
    requires { (mode < 16) × (flag < 2) × (roll < 8) }
    ensures { result ≡ ((mode * 2 + flag) * 8 + roll) % 256 }
{
    mode * 16 + flag * 8 + roll
}

// Byte 5: reserved 2, NCR_reference 1, NCR_version 1, channel_bond 2, polarization 2.
fn byte_5(reserved: u8, reference: u8, version: u8, bond: u8, polarization: u8) -> u8
    requires { (reserved < 4) × (reference < 2) × (version < 2) × (bond < 4) × (polarization < 4) }
    ensures { result ≡ ((((reserved * 2 + reference) * 2 + version) * 4 + bond) * 4 + polarization) % 256 }
{
    reserved * 64 + reference * 32 + version * 16 + bond * 4 + polarization
}

// Byte 6: the selector or what is reserved in its place 1, TS_GS_S2X_mode 2, receiver_profiles 5.
fn byte_6(top: u8, tsgs: u8, profiles: u8) -> u8
    requires { (top < 2) × (tsgs < 4) × (profiles < 32) }
    ensures { result ≡ ((top * 4 + tsgs) * 32 + profiles) % 256 }
{
    top * 128 + tsgs * 32 + profiles
}

// Bytes 4 to 6.
fn flag_bytes(w: &[u32; 10], b: &[u8; 36]) -> [u8; 3]
    requires { Packed b.now × Clear (core_b (meant w.now b.now)) }
    ensures { result ≡ take 3 (drop 4 (pack core (core_values (meant w.now b.now)))) }
{
    let b4 = byte_4(
        b[places::S2XV2_MODE],
        b[places::MULTIPLE_INPUT_STREAM_FLAG],
        b[places::ROLL_OFF],
    );
    let b5 = byte_5(
        b[places::RESERVED_ZERO_FUTURE_USE_2],
        b[places::NCR_REFERENCE],
        b[places::NCR_VERSION],
        b[places::CHANNEL_BOND],
        b[places::POLARIZATION],
    );
    let top = chosen(
        b[places::HAS_SCRAMBLING_SEQUENCE_SELECTOR],
        b[places::SCRAMBLING_SEQUENCE_SELECTOR],
        b[places::RESERVED_ZERO_FUTURE_USE_1],
    );
    let b6 = byte_6(top, b[places::TS_GS_S2X_MODE], b[places::RECEIVER_PROFILES]);
    [b4, b5, b6]
}

// The core, from the start.
pub(crate) fn put_core(buf: &mut [u8], w: &[u32; 10], b: &[u8; 36])
    requires in_bounds { (18 ≤ length buf.old) × Packed b.now }
    requires clear { Clear (core_b (meant w.now b.now)) }
    ensures { buf.new ≡ stored_from buf.old 0 (pack core (core_values (meant w.now b.now))) }
{
    let flags = flag_bytes(w, b);
    copy(buf, 0, &be_bytes(w[places::DELIVERY_SYSTEM_ID]));
    copy(buf, 4, &flags);
    copy(buf, 7, &be_bytes_24(w[places::SATELLITE_ID]));
    copy(buf, 10, &be_bytes(w[places::FREQUENCY]));
    copy(buf, 14, &be_bytes(w[places::SYMBOL_RATE]));
}

// A part of one byte: the input stream identifier, and the timeslice number.
pub(crate) fn put_byte(buf: &mut [u8], p: usize, there: u8, v: u8) -> usize
    requires { p + sizes (byte_parts (8 ∷ []) (then_some (is_set there) v)) ≤ length buf.old }
    ensures place { result ≡ p + sizes (byte_parts (8 ∷ []) (then_some (is_set there) v)) }
    ensures stored { buf.new ≡ stored_from buf.old p (bytes_of (byte_parts (8 ∷ []) (then_some (is_set there) v)) []) }
{
    if there != 0 {
        put(buf, p, v);
        p + 1
    } else {
        p
    }
}

// reserved 6, scrambling_sequence_index 18.
fn index_word(reserved: u8, index: u32) -> u32
    requires { (reserved < 64) × (index < 262144) }
    ensures { result ≡ reserved * 262144 + index }
{
    (reserved as u32) * 262144 + index
}

// The scrambling sequence index, with what is reserved before it, if its selector is set.
pub(crate) fn put_scrambling(buf: &mut [u8], p: usize, there: u8, reserved: u8, index: u32) -> usize
    requires index_in_bounds { p + sizes (scrambling_parts (is_set there) reserved (Some index)) ≤ length buf.old }
    requires index_value { (and (is_set there) (wide 18 index) ≡ false) × (and (is_set there) (wide 6 reserved) ≡ false) }
    ensures place { result ≡ p + sizes (scrambling_parts (is_set there) reserved (Some index)) }
    ensures stored { buf.new ≡ stored_from buf.old p (bytes_of (scrambling_parts (is_set there) reserved (Some index)) []) }
{
    if there != 0 {
        copy(buf, p, &be_bytes_24(index_word(reserved, index)));
        p + 3
    } else {
        p
    }
}

// reserved 7, num_channel_bonds_minus_one 1.
fn bond_header(reserved: u8, less: u8) -> u8
    requires { (reserved < 128) × (less < 2) }
    ensures { result ≡ reserved * 2 + less }
{
    reserved * 2 + less
}

// The header of the bonds, and one id or two.
pub(crate) fn put_bonds(
    buf: &mut [u8],
    p: usize,
    bond: u8,
    reserved: u8,
    count: u8,
    first: u32,
    second: u32,
) -> usize
    requires second_in_bounds { p + sizes (bond_parts (eqb bond 1) reserved count (first ∷ second ∷ [])) ≤ length buf.old }
    requires count_value { (and (eqb bond 1) (wide 1 (less_one count)) ≡ false) × (and (eqb bond 1) (wide 7 reserved) ≡ false) }
    ensures place { result ≡ p + sizes (bond_parts (eqb bond 1) reserved count (first ∷ second ∷ [])) }
    ensures stored { buf.new ≡ stored_from buf.old p (bytes_of (bond_parts (eqb bond 1) reserved count (first ∷ second ∷ [])) []) }
{
    if bond == 1 {
        put(buf, p, bond_header(reserved, less_one(count)));
        copy(buf, p + 1, &be_bytes(first));
        if count == 2 {
            copy(buf, p + 5, &be_bytes(second));
            p + 9
        } else {
            p + 5
        }
    } else {
        p
    }
}

// SFFI_selector 1, beam_hopping_time_plan_selector 1, reserved 2, reference_scrambling_index 20.
fn reference_word(selector: u8, hopping: u8, reserved: u8, reference: u32) -> u32
    requires { (selector < 2) × (hopping < 2) × (reserved < 4) × (reference < 1048576) }
    ensures { result ≡ ((selector * 2 + hopping) * 4 + reserved) * 1048576 + reference }
{
    (((selector * 2 + hopping) * 4 + reserved) as u32) * 1048576 + reference
}

// SFFI or reserved 4, payload_scrambling_index 20.
fn payload_word(nibble: u8, payload: u32) -> u32
    requires { (nibble < 16) × (payload < 1048576) }
    ensures { result ≡ nibble * 1048576 + payload }
{
    (nibble as u32) * 1048576 + payload
}

// pilots 5, postamble_PLI 3.
fn last_byte(pilots: u8, pli: u8) -> u8
    requires { (pilots < 32) × (pli < 8) }
    ensures { result ≡ pilots * 8 + pli }
{
    pilots * 8 + pli
}

// The block up to its plan id.
fn block_bytes(w: &[u32; 10], b: &[u8; 36]) -> [u8; 7]
    requires { Packed b.now × Clear (superframe_b (Some (block_in w.now b.now))) }
    ensures { result ≡ pack superframe (superframe_values (block_in w.now b.now)) }
{
    let reference = be_bytes_24(reference_word(
        b[places::SFFI_SELECTOR],
        b[places::BEAM_HOPPING_TIME_PLAN_SELECTOR],
        b[places::SUPERFRAME_RESERVED_ZERO_FUTURE_USE_2],
        w[places::REFERENCE_SCRAMBLING_INDEX],
    ));
    let four = chosen(
        b[places::SFFI_SELECTOR],
        b[places::SFFI],
        b[places::RESERVED_ZERO_FUTURE_USE_4],
    );
    let payload = be_bytes_24(payload_word(four, w[places::PAYLOAD_SCRAMBLING_INDEX]));
    [
        b[places::SOSF_WH_SEQUENCE_NUMBER],
        reference[0],
        reference[1],
        reference[2],
        payload[0],
        payload[1],
        payload[2],
    ]
}

// The plan id, if its selector is set.
fn put_plan(buf: &mut [u8], p: usize, there: u8, plan: u32) -> usize
    requires { p + sizes (plan_parts (is_set there) (Some plan)) ≤ length buf.old }
    ensures place { result ≡ p + sizes (plan_parts (is_set there) (Some plan)) }
    ensures stored { buf.new ≡ stored_from buf.old p (bytes_of (plan_parts (is_set there) (Some plan)) []) }
{
    if there != 0 {
        copy(buf, p, &be_bytes(plan));
        p + 4
    } else {
        p
    }
}

// The superframe block: its first seven bytes, the plan id if its selector is set, and the last byte.
fn put_block(buf: &mut [u8], p: usize, w: &[u32; 10], b: &[u8; 36]) -> usize
    requires b_in_bounds { p + sizes (block_parts (block_in w.now b.now)) ≤ length buf.old }
    requires packed { Packed b.now × Clear (superframe_b (Some (block_in w.now b.now))) }
    ensures place { result ≡ p + sizes (block_parts (block_in w.now b.now)) }
    ensures stored { buf.new ≡ stored_from buf.old p (bytes_of (block_parts (block_in w.now b.now)) []) }
{
    let block = block_bytes(w, b);
    let last = last_byte(
        b[places::SUPERFRAME_PILOTS_WH_SEQUENCE_NUMBER],
        b[places::POSTAMBLE_PLI],
    );
    copy(buf, p, &block);
    let q = put_plan(
        buf,
        p + 7,
        b[places::BEAM_HOPPING_TIME_PLAN_SELECTOR],
        w[places::BEAMHOPPING_TIME_PLAN_ID],
    );
    put(buf, q, last);
    q + 1
}

// The superframe block, if it is there.
pub(crate) fn put_superframe(buf: &mut [u8], p: usize, w: &[u32; 10], b: &[u8; 36]) -> usize
    requires b_in_bounds { p + sizes (superframe_of (meant w.now b.now)) ≤ length buf.old }
    requires packed { Packed b.now × Clear (superframe_b (meant w.now b.now).superframe) }
    ensures place { result ≡ p + sizes (superframe_of (meant w.now b.now)) }
    ensures stored { buf.new ≡ stored_from buf.old p (bytes_of (superframe_of (meant w.now b.now)) []) }
{
    if b[places::HAS_SUPERFRAME] != 0 {
        put_block(buf, p, w, b)
    } else {
        p
    }
}
