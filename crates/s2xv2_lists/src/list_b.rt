// List B: a value that the wire cannot carry.
ghost use Rattle.std.specs.Prelude.{◌≡◌, ◌+◌, ◌≤◌, ◌<◌, ◌++◌, length, Some};
ghost use Rattle.wire.specs.Count.{less_one};
ghost use Rattle.s2xv2.specs.Encode.{nibble_of};
ghost use Rattle.answers.specs.Tests.{first_from, place_in};
ghost use Rattle.s2xv2.specs.ListB.{core_b, scrambling_b, bond_b, superframe_b, unwritable};

use s2xv2::record::S2Xv2SatelliteDeliverySystem;
use s2xv2::superframe::S2Xv2Superframe;

// The count minus one is taken with wrap, so that zero becomes the largest number.
pub fn less_one(count: u8) -> u8
    ensures { result ≡ less_one count }
{
    count.wrapping_sub(1)
}

// SFFI, or what is reserved in its place where its selector is clear.
fn nibble(selector: bool, sffi: Option<u8>, reserved: u8) -> u8
    ensures { result ≡ nibble_of selector sffi reserved }
{
    if selector {
        sffi.unwrap_or(0)
    } else {
        reserved
    }
}

// The place, counted from `place`, of the first test that holds, if one does.
pub(crate) fn first_from(place: u8, tests: &[bool]) -> Option<u8>
    requires { (0 < place) × (place + length tests.now ≤ 255) }
    ensures { result ≡ place_in (first_from place tests.now) }
{
    for (i, &holds) in tests.iter().enumerate() {
        if holds {
            return Some(place + i as u8);
        }
    }
    None
}

// The first place of list B that is of the core, the scrambling index or the bonds.
fn parts_place(r: S2Xv2SatelliteDeliverySystem) -> Option<u8>
    ensures { result ≡ place_in (first_from 1 (core_b r ++ (scrambling_b r ++ bond_b r))) }
{
    let selector = r.scrambling_sequence_selector;
    let index = r.scrambling_sequence_index;
    let scrambled = selector.unwrap_or(false);
    let bonded = r.channel_bond == 1;
    let tests = [
        16 <= r.s2xv2_mode.to_u8(),
        8 <= r.roll_off,
        4 <= r.reserved_zero_future_use_2,
        4 <= r.channel_bond,
        4 <= r.polarization,
        selector.is_none() & (2 <= r.reserved_zero_future_use_1),
        4 <= r.ts_gs_s2x_mode,
        32 <= r.receiver_profiles,
        16777216 <= r.satellite_id,
        scrambled & index.is_none(),
        scrambled & (262144 <= index.unwrap_or(0)),
        scrambled & (64 <= r.reserved_zero_future_use_6),
        bonded & (2 <= less_one(r.num_channel_bonds)),
        bonded & (128 <= r.reserved_zero_future_use_7),
    ];
    first_from(1, &tests)
}

// The first place of list B that is of a superframe block.
fn block_place(f: S2Xv2Superframe) -> Option<u8>
    ensures { result ≡ place_in (first_from 15 (superframe_b (Some f))) }
{
    let tests = [
        1048576 <= f.reference_scrambling_index,
        1048576 <= f.payload_scrambling_index,
        4 <= f.reserved_zero_future_use_2,
        f.sffi_selector & f.sffi.is_none(),
        16 <= nibble(f.sffi_selector, f.sffi, f.reserved_zero_future_use_4),
        f.beam_hopping_time_plan_selector & f.beamhopping_time_plan_id.is_none(),
        32 <= f.superframe_pilots_wh_sequence_number,
        8 <= f.postamble_pli,
    ];
    first_from(15, &tests)
}

// The same of a block that may be absent.
fn superframe_place(superframe: Option<S2Xv2Superframe>) -> Option<u8>
    ensures { result ≡ place_in (first_from 15 (superframe_b superframe)) }
{
    block_place(superframe?)
}

// The first place of list B that holds of the record, if the wire cannot carry it.
pub fn unwritable(r: S2Xv2SatelliteDeliverySystem) -> Option<u8>
    ensures { result ≡ place_in (unwritable r) }
{
    match parts_place(r) {
        Some(place) => Some(place),
        None => superframe_place(r.superframe),
    }
}
