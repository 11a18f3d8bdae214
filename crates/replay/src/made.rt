// A record from plain numbers.
use crate::fields::{
    BLOCK_RESERVED_2, BONDS, CHANNEL_BOND, DELIVERY_SYSTEM_ID, FIRST_ID, FREQUENCY, HAS_BLOCK,
    HAS_INDEX, HAS_PLAN, HAS_SFFI, HAS_STREAM, HAS_TIMESLICE, INDEX, IS_RESERVED, MODE,
    NCR_REFERENCE, NCR_VERSION, PAYLOAD_INDEX, PILOTS, PLAN, PLAN_SELECTOR, POLARIZATION,
    POSTAMBLE, RECEIVER_PROFILES, REFERENCE_INDEX, RESERVED_1, RESERVED_2, RESERVED_4, RESERVED_6,
    RESERVED_7, ROLL_OFF, SATELLITE_ID, SECOND_ID, SELECTOR, SFFI, SFFI_SELECTOR, SOSF, STREAM,
    STREAM_FLAG, SYMBOL_RATE, TIMESLICE, TS_GS_S2X_MODE, Values,
};
use s2xv2::mode::S2Xv2Mode;
use s2xv2::record::S2Xv2SatelliteDeliverySystem;
use s2xv2::superframe::S2Xv2Superframe;

// The lowest byte of a number.
fn byte(v: u32) -> u8 {
    (v % 256) as u8
}

// A mode of its code, `Reserved` where that is asked.
fn mode(v: &Values) -> S2Xv2Mode {
    let code = byte(v[MODE]);
    if v[IS_RESERVED] == 0 {
        S2Xv2Mode::from_u8(code)
    } else {
        S2Xv2Mode::Reserved(code)
    }
}

// The selector: 0 is absent, 1 clear, 2 set.
fn selector(v: u32) -> Option<bool> {
    (v != 0).then_some(2 <= v)
}

// What may be absent, behind the number that says whether it is there.
fn option<T: Drop>(there: u32, v: T) -> Option<T> {
    (there != 0).then_some(v)
}

// The superframe block.
fn superframe(v: &Values) -> S2Xv2Superframe {
    S2Xv2Superframe {
        sosf_wh_sequence_number: byte(v[SOSF]),
        sffi_selector: v[SFFI_SELECTOR] != 0,
        beam_hopping_time_plan_selector: v[PLAN_SELECTOR] != 0,
        reserved_zero_future_use_2: byte(v[BLOCK_RESERVED_2]),
        reference_scrambling_index: v[REFERENCE_INDEX],
        sffi: option(v[HAS_SFFI], byte(v[SFFI])),
        reserved_zero_future_use_4: byte(v[RESERVED_4]),
        payload_scrambling_index: v[PAYLOAD_INDEX],
        beamhopping_time_plan_id: option(v[HAS_PLAN], v[PLAN]),
        superframe_pilots_wh_sequence_number: byte(v[PILOTS]),
        postamble_pli: byte(v[POSTAMBLE]),
    }
}

// The core of the record, and nothing else of it.
fn core(v: &Values) -> S2Xv2SatelliteDeliverySystem {
    S2Xv2SatelliteDeliverySystem {
        delivery_system_id: v[DELIVERY_SYSTEM_ID],
        s2xv2_mode: mode(v),
        multiple_input_stream_flag: v[STREAM_FLAG] != 0,
        roll_off: byte(v[ROLL_OFF]),
        reserved_zero_future_use_2: byte(v[RESERVED_2]),
        ncr_reference: v[NCR_REFERENCE] != 0,
        ncr_version: v[NCR_VERSION] != 0,
        channel_bond: byte(v[CHANNEL_BOND]),
        polarization: byte(v[POLARIZATION]),
        scrambling_sequence_selector: selector(v[SELECTOR]),
        reserved_zero_future_use_1: byte(v[RESERVED_1]),
        ts_gs_s2x_mode: byte(v[TS_GS_S2X_MODE]),
        receiver_profiles: byte(v[RECEIVER_PROFILES]),
        satellite_id: v[SATELLITE_ID],
        frequency: v[FREQUENCY],
        symbol_rate: v[SYMBOL_RATE],
        ..S2Xv2SatelliteDeliverySystem::default()
    }
}

// The record.
pub(crate) fn record(v: &Values) -> S2Xv2SatelliteDeliverySystem {
    S2Xv2SatelliteDeliverySystem {
        input_stream_identifier: option(v[HAS_STREAM], byte(v[STREAM])),
        reserved_zero_future_use_6: byte(v[RESERVED_6]),
        scrambling_sequence_index: option(v[HAS_INDEX], v[INDEX]),
        timeslice_number: option(v[HAS_TIMESLICE], byte(v[TIMESLICE])),
        reserved_zero_future_use_7: byte(v[RESERVED_7]),
        secondary_delivery_system_ids: [v[FIRST_ID], v[SECOND_ID]],
        num_channel_bonds: byte(v[BONDS]),
        superframe: option(v[HAS_BLOCK], superframe(v)),
        ..core(v)
    }
}
