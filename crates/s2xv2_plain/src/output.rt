// From a record to plain numbers.
ghost use Rattle.std.specs.Prelude.{◌≡◌, length, get_or, take, drop};
ghost use Rattle.wire.specs.Store.{stored_from};
ghost use Rattle.s2xv2.specs.Default.{default_record};
ghost use Rattle.s2xv2_plain.specs.Input.{meant};
ghost use Rattle.s2xv2_plain.specs.Output.{is_reserved, block_of, numbers_of, bytes_of};

use crate::places;
use crate::types::Plain;
use s2xv2::mode::S2Xv2Mode;
use s2xv2::record::S2Xv2SatelliteDeliverySystem;
use s2xv2::superframe::S2Xv2Superframe;
use wire::field::bit_of;

// Whether a mode is `Reserved`, as a flag.
fn is_reserved(mode: S2Xv2Mode) -> u8
    ensures { result ≡ is_reserved mode }
{
    match mode {
        S2Xv2Mode::Reserved(_) => 1,
        _ => 0,
    }
}

// The block, or the default one where there is none.
fn block_of(superframe: Option<S2Xv2Superframe>) -> S2Xv2Superframe
    ensures { result ≡ block_of superframe }
{
    superframe.unwrap_or_default()
}

// The first id. Ids are two.
fn first_id(ids: [u32; 2]) -> u32
    ensures { (result ≡ get_or ids 0 0) × (length ids ≡ 2) }
{
    ids[0]
}

// The numbers of a record.
fn numbers_of(r: S2Xv2SatelliteDeliverySystem) -> [u32; 10]
    ensures numbers { result ≡ numbers_of r }
    ensures two { length r.secondary_delivery_system_ids ≡ 2 }
{
    let index = r.scrambling_sequence_index;
    let superframe = r.superframe;
    let f = block_of(superframe);
    let plan_id = f.beamhopping_time_plan_id;
    let ids = r.secondary_delivery_system_ids;
    [
        r.delivery_system_id,
        r.satellite_id,
        r.symbol_rate,
        r.frequency,
        index.unwrap_or(0),
        first_id(ids),
        ids[1],
        f.reference_scrambling_index,
        f.payload_scrambling_index,
        plan_id.unwrap_or(0),
    ]
}

// Stores the bytes of a record that say what is there.
fn put_flags(r: S2Xv2SatelliteDeliverySystem, b: &mut [u8; 36])
    ensures { b.new ≡ stored_from b.old 0 (take 12 (bytes_of r)) }
{
    let mode = r.s2xv2_mode;
    let selector = r.scrambling_sequence_selector;
    let stream = r.input_stream_identifier;
    let index = r.scrambling_sequence_index;
    let timeslice = r.timeslice_number;
    let superframe = r.superframe;
    let f = block_of(superframe);
    let sffi = f.sffi;
    let plan_id = f.beamhopping_time_plan_id;
    b[places::MULTIPLE_INPUT_STREAM_FLAG] = bit_of(r.multiple_input_stream_flag);
    b[places::SCRAMBLING_SEQUENCE_SELECTOR] = bit_of(selector.unwrap_or(false));
    b[places::SFFI_SELECTOR] = bit_of(f.sffi_selector);
    b[places::BEAM_HOPPING_TIME_PLAN_SELECTOR] = bit_of(f.beam_hopping_time_plan_selector);
    b[places::HAS_INPUT_STREAM_IDENTIFIER] = bit_of(stream.is_some());
    b[places::HAS_SCRAMBLING_SEQUENCE_INDEX] = bit_of(index.is_some());
    b[places::HAS_SFFI] = bit_of(sffi.is_some());
    b[places::HAS_BEAMHOPPING_TIME_PLAN_ID] = bit_of(plan_id.is_some());
    b[places::MODE_IS_RESERVED] = is_reserved(mode);
    b[places::HAS_SCRAMBLING_SEQUENCE_SELECTOR] = bit_of(selector.is_some());
    b[places::HAS_TIMESLICE_NUMBER] = bit_of(timeslice.is_some());
    b[places::HAS_SUPERFRAME] = bit_of(superframe.is_some());
}

// Stores the bytes of a record that hold a field of the core or of a part behind it.
fn put_fields(r: S2Xv2SatelliteDeliverySystem, b: &mut [u8; 36])
    ensures { b.new ≡ stored_from b.old 12 (take 15 (drop 12 (bytes_of r))) }
{
    let mode = r.s2xv2_mode;
    let stream = r.input_stream_identifier;
    let timeslice = r.timeslice_number;
    b[places::RESERVED_ZERO_FUTURE_USE_2] = r.reserved_zero_future_use_2;
    b[places::NCR_REFERENCE] = bit_of(r.ncr_reference);
    b[places::NCR_VERSION] = bit_of(r.ncr_version);
    b[places::CHANNEL_BOND] = r.channel_bond;
    b[places::TS_GS_S2X_MODE] = r.ts_gs_s2x_mode;
    b[places::RECEIVER_PROFILES] = r.receiver_profiles;
    b[places::RESERVED_ZERO_FUTURE_USE_1] = r.reserved_zero_future_use_1;
    b[places::POLARIZATION] = r.polarization;
    b[places::S2XV2_MODE] = mode.to_u8();
    b[places::ROLL_OFF] = r.roll_off;
    b[places::NUM_CHANNEL_BONDS] = r.num_channel_bonds;
    b[places::RESERVED_ZERO_FUTURE_USE_7] = r.reserved_zero_future_use_7;
    b[places::INPUT_STREAM_IDENTIFIER] = stream.unwrap_or(0);
    b[places::TIMESLICE_NUMBER] = timeslice.unwrap_or(0);
    b[places::RESERVED_ZERO_FUTURE_USE_6] = r.reserved_zero_future_use_6;
}

// Stores the bytes of a record that hold a field of its superframe block.
fn put_block(r: S2Xv2SatelliteDeliverySystem, b: &mut [u8; 36])
    ensures { b.new ≡ stored_from b.old 27 (take 6 (drop 27 (bytes_of r))) }
{
    let superframe = r.superframe;
    let f = block_of(superframe);
    let sffi = f.sffi;
    b[places::SOSF_WH_SEQUENCE_NUMBER] = f.sosf_wh_sequence_number;
    b[places::SUPERFRAME_RESERVED_ZERO_FUTURE_USE_2] = f.reserved_zero_future_use_2;
    b[places::SFFI] = sffi.unwrap_or(0);
    b[places::RESERVED_ZERO_FUTURE_USE_4] = f.reserved_zero_future_use_4;
    b[places::SUPERFRAME_PILOTS_WH_SEQUENCE_NUMBER] = f.superframe_pilots_wh_sequence_number;
    b[places::POSTAMBLE_PLI] = f.postamble_pli;
}

// The record as plain numbers.
pub fn to_plain(r: S2Xv2SatelliteDeliverySystem) -> Plain
    ensures plain { result ≡ record { numbers = numbers_of r; bytes = bytes_of r } }
    ensures back { meant result.numbers result.bytes ≡ r }
{
    let mut bytes = [0u8; 36];
    put_flags(r, &mut bytes);
    put_fields(r, &mut bytes);
    put_block(r, &mut bytes);
    Plain {
        numbers: numbers_of(r),
        bytes,
    }
}

// Stores the default record, which is zeros.
pub fn clear(w: &mut [u32; 10], b: &mut [u8; 36])
    ensures numbers { w.new ≡ numbers_of default_record }
    ensures bytes { b.new ≡ bytes_of default_record }
{
    *w = [0u32; 10];
    *b = [0u8; 36];
}
