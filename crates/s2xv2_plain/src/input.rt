// The record that plain numbers mean.
ghost use Rattle.std.specs.Prelude.{◌≡◌};
ghost use Rattle.s2xv2_plain.specs.Core.{core_of};
ghost use Rattle.s2xv2_plain.specs.Input.{mode_in, block_in, meant};

use crate::places;
use s2xv2::mode::S2Xv2Mode;
use s2xv2::record::S2Xv2SatelliteDeliverySystem;
use s2xv2::superframe::S2Xv2Superframe;

// The mode of a code: `Reserved` with that code if the flag says so.
fn mode_in(reserved: u8, code: u8) -> S2Xv2Mode
    ensures { result ≡ mode_in reserved code }
{
    if reserved != 0 {
        S2Xv2Mode::Reserved(code)
    } else {
        S2Xv2Mode::from_u8(code)
    }
}

// The block that is meant.
fn block_in(w: &[u32; 10], b: &[u8; 36]) -> S2Xv2Superframe
    ensures { result ≡ block_in w.now b.now }
{
    S2Xv2Superframe {
        sosf_wh_sequence_number: b[places::SOSF_WH_SEQUENCE_NUMBER],
        sffi_selector: b[places::SFFI_SELECTOR] != 0,
        beam_hopping_time_plan_selector: b[places::BEAM_HOPPING_TIME_PLAN_SELECTOR] != 0,
        reserved_zero_future_use_2: b[places::SUPERFRAME_RESERVED_ZERO_FUTURE_USE_2],
        reference_scrambling_index: w[places::REFERENCE_SCRAMBLING_INDEX],
        sffi: (b[places::HAS_SFFI] != 0).then_some(b[places::SFFI]),
        reserved_zero_future_use_4: b[places::RESERVED_ZERO_FUTURE_USE_4],
        payload_scrambling_index: w[places::PAYLOAD_SCRAMBLING_INDEX],
        beamhopping_time_plan_id: (b[places::HAS_BEAMHOPPING_TIME_PLAN_ID] != 0).then_some(
            w[places::BEAMHOPPING_TIME_PLAN_ID],
        ),
        superframe_pilots_wh_sequence_number: b[places::SUPERFRAME_PILOTS_WH_SEQUENCE_NUMBER],
        postamble_pli: b[places::POSTAMBLE_PLI],
    }
}

// The core of the record that is meant, and nothing else of it.
fn core_in(w: &[u32; 10], b: &[u8; 36]) -> S2Xv2SatelliteDeliverySystem
    ensures { result ≡ core_of (meant w.now b.now) }
{
    S2Xv2SatelliteDeliverySystem {
        delivery_system_id: w[places::DELIVERY_SYSTEM_ID],
        s2xv2_mode: mode_in(b[places::MODE_IS_RESERVED], b[places::S2XV2_MODE]),
        multiple_input_stream_flag: b[places::MULTIPLE_INPUT_STREAM_FLAG] != 0,
        roll_off: b[places::ROLL_OFF],
        reserved_zero_future_use_2: b[places::RESERVED_ZERO_FUTURE_USE_2],
        ncr_reference: b[places::NCR_REFERENCE] != 0,
        ncr_version: b[places::NCR_VERSION] != 0,
        channel_bond: b[places::CHANNEL_BOND],
        polarization: b[places::POLARIZATION],
        scrambling_sequence_selector: (b[places::HAS_SCRAMBLING_SEQUENCE_SELECTOR] != 0).then_some(
            b[places::SCRAMBLING_SEQUENCE_SELECTOR] != 0,
        ),
        reserved_zero_future_use_1: b[places::RESERVED_ZERO_FUTURE_USE_1],
        ts_gs_s2x_mode: b[places::TS_GS_S2X_MODE],
        receiver_profiles: b[places::RECEIVER_PROFILES],
        satellite_id: w[places::SATELLITE_ID],
        frequency: w[places::FREQUENCY],
        symbol_rate: w[places::SYMBOL_RATE],
        ..S2Xv2SatelliteDeliverySystem::default()
    }
}

// The record that is meant.
pub fn of_plain(w: &[u32; 10], b: &[u8; 36]) -> S2Xv2SatelliteDeliverySystem
    ensures { result ≡ meant w.now b.now }
{
    S2Xv2SatelliteDeliverySystem {
        input_stream_identifier: (b[places::HAS_INPUT_STREAM_IDENTIFIER] != 0).then_some(
            b[places::INPUT_STREAM_IDENTIFIER],
        ),
        reserved_zero_future_use_6: b[places::RESERVED_ZERO_FUTURE_USE_6],
        scrambling_sequence_index: (b[places::HAS_SCRAMBLING_SEQUENCE_INDEX] != 0).then_some(
            w[places::SCRAMBLING_SEQUENCE_INDEX],
        ),
        timeslice_number: (b[places::HAS_TIMESLICE_NUMBER] != 0).then_some(
            b[places::TIMESLICE_NUMBER],
        ),
        reserved_zero_future_use_7: b[places::RESERVED_ZERO_FUTURE_USE_7],
        secondary_delivery_system_ids: [
            w[places::SECONDARY_DELIVERY_SYSTEM_ID_0],
            w[places::SECONDARY_DELIVERY_SYSTEM_ID_1],
        ],
        num_channel_bonds: b[places::NUM_CHANNEL_BONDS],
        superframe: (b[places::HAS_SUPERFRAME] != 0).then_some(block_in(w, b)),
        ..core_in(w, b)
    }
}
