// A record as plain numbers: a flag is 0 or 1, and what may be absent is a number that says whether it is there, followed by its value.
use crate::digest::Digest;
use s2xv2::mode::S2Xv2Mode;
use s2xv2::record::S2Xv2SatelliteDeliverySystem;
use s2xv2::superframe::S2Xv2Superframe;
use std::io;

// A number that may be absent.
fn pair<N: Into<u32>>(v: Option<N>) -> [u32; 2] {
    match v {
        Some(n) => [1, n.into()],
        None => [0, 0],
    }
}

// The selector: 0 is absent, 1 clear, 2 set.
fn selector(v: Option<bool>) -> u32 {
    match v {
        Some(b) => 1 + u32::from(b),
        None => 0,
    }
}

// Whether the mode is `Reserved`, whatever it holds.
fn is_reserved(mode: S2Xv2Mode) -> bool {
    matches!(mode, S2Xv2Mode::Reserved(_))
}

// The fields of the core.
fn core(r: &S2Xv2SatelliteDeliverySystem) -> [u32; 17] {
    [
        r.delivery_system_id,
        u32::from(r.s2xv2_mode.to_u8()),
        u32::from(is_reserved(r.s2xv2_mode)),
        u32::from(r.multiple_input_stream_flag),
        u32::from(r.roll_off),
        u32::from(r.reserved_zero_future_use_2),
        u32::from(r.ncr_reference),
        u32::from(r.ncr_version),
        u32::from(r.channel_bond),
        u32::from(r.polarization),
        selector(r.scrambling_sequence_selector),
        u32::from(r.reserved_zero_future_use_1),
        u32::from(r.ts_gs_s2x_mode),
        u32::from(r.receiver_profiles),
        r.satellite_id,
        r.frequency,
        r.symbol_rate,
    ]
}

// The fields between the core and the superframe block.
fn parts(r: &S2Xv2SatelliteDeliverySystem) -> [u32; 11] {
    let [has_stream, stream] = pair(r.input_stream_identifier);
    let [has_index, index] = pair(r.scrambling_sequence_index);
    let [has_timeslice, timeslice] = pair(r.timeslice_number);
    let [first_id, second_id] = r.secondary_delivery_system_ids;
    [
        has_stream,
        stream,
        u32::from(r.reserved_zero_future_use_6),
        has_index,
        index,
        has_timeslice,
        timeslice,
        u32::from(r.reserved_zero_future_use_7),
        first_id,
        second_id,
        u32::from(r.num_channel_bonds),
    ]
}

// Whether there is a superframe block, and its fields, zeros where there is none.
fn superframe(block: Option<S2Xv2Superframe>) -> [u32; 14] {
    let f = block.unwrap_or(S2Xv2Superframe::default());
    let [has_sffi, sffi] = pair(f.sffi);
    let [has_plan, plan] = pair(f.beamhopping_time_plan_id);
    [
        u32::from(block.is_some()),
        u32::from(f.sosf_wh_sequence_number),
        u32::from(f.sffi_selector),
        u32::from(f.beam_hopping_time_plan_selector),
        u32::from(f.reserved_zero_future_use_2),
        f.reference_scrambling_index,
        has_sffi,
        sffi,
        u32::from(f.reserved_zero_future_use_4),
        f.payload_scrambling_index,
        has_plan,
        plan,
        u32::from(f.superframe_pilots_wh_sequence_number),
        u32::from(f.postamble_pli),
    ]
}

// All fields of a record, into the digest.
pub(crate) fn put_record(
    rt: &impl Print,
    d: Digest,
    r: &S2Xv2SatelliteDeliverySystem,
) -> io::Result<Digest> {
    let d = d.put_all(rt, &core(r))?;
    let d = d.put_all(rt, &parts(r))?;
    d.put_all(rt, &superframe(r.superframe))
}
