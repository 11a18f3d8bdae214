// The body of the descriptor, Tables 144a and 144b, but for its tail, which the calls take and give beside it.
ghost use Rattle.std.specs.Prelude.{◌≡◌};
ghost use Rattle.s2xv2.specs.Default.{default_record};

use crate::mode::S2Xv2Mode;
use crate::superframe::S2Xv2Superframe;

// The record: the fields of a body in wire order.
#[derive(Clone, Copy, PartialEq, Eq)]
pub struct S2Xv2SatelliteDeliverySystem {
    // delivery_system_id, 32 bits.
    pub delivery_system_id: u32,
    // S2Xv2_mode, 4 bits.
    pub s2xv2_mode: S2Xv2Mode,
    // multiple_input_stream_flag: whether `input_stream_identifier` is there.
    pub multiple_input_stream_flag: bool,
    // roll_off, 3 bits: its code in Table 144.
    pub roll_off: u8,
    // The top 2 bits of byte 5.
    pub reserved_zero_future_use_2: u8,
    // NCR_reference.
    pub ncr_reference: bool,
    // NCR_version.
    pub ncr_version: bool,
    // channel_bond, 2 bits: at 1 the secondary ids are there.
    pub channel_bond: u8,
    // polarization, 2 bits: its code.
    pub polarization: u8,
    // scrambling_sequence_selector, in modes 1 and 2: whether `scrambling_sequence_index` is there.
    pub scrambling_sequence_selector: Option<bool>,
    // The bit in the selector's place in the other modes.
    pub reserved_zero_future_use_1: u8,
    // TS_GS_S2X_mode, 2 bits.
    pub ts_gs_s2x_mode: u8,
    // receiver_profiles, 5 bits.
    pub receiver_profiles: u8,
    // satellite_id, 24 bits.
    pub satellite_id: u32,
    // frequency, 32 bits.
    pub frequency: u32,
    // symbol_rate, 32 bits.
    pub symbol_rate: u32,
    // input_stream_identifier, 8 bits.
    pub input_stream_identifier: Option<u8>,
    // The 6 bits before scrambling_sequence_index, on the wire only with it.
    pub reserved_zero_future_use_6: u8,
    // scrambling_sequence_index, 18 bits.
    pub scrambling_sequence_index: Option<u32>,
    // timeslice_number, 8 bits, in modes 2 and 5.
    pub timeslice_number: Option<u8>,
    // The 7 bits before num_channel_bonds_minus_one, on the wire only with it.
    pub reserved_zero_future_use_7: u8,
    // secondary_delivery_system_id, 32 bits each: the first `num_channel_bonds` of the two count. No `Vec`: the record is a value and nothing allocates.
    pub secondary_delivery_system_ids: [u32; 2],
    pub num_channel_bonds: u8,
    // The superframe block, in modes 4 and 5.
    pub superframe: Option<S2Xv2Superframe>,
}

// Mode 0, and all else 0, clear or absent.
const DEFAULT: S2Xv2SatelliteDeliverySystem = S2Xv2SatelliteDeliverySystem {
    delivery_system_id: 0,
    s2xv2_mode: S2Xv2Mode::Reserved0,
    multiple_input_stream_flag: false,
    roll_off: 0,
    reserved_zero_future_use_2: 0,
    ncr_reference: false,
    ncr_version: false,
    channel_bond: 0,
    polarization: 0,
    scrambling_sequence_selector: None,
    reserved_zero_future_use_1: 0,
    ts_gs_s2x_mode: 0,
    receiver_profiles: 0,
    satellite_id: 0,
    frequency: 0,
    symbol_rate: 0,
    input_stream_identifier: None,
    reserved_zero_future_use_6: 0,
    scrambling_sequence_index: None,
    timeslice_number: None,
    reserved_zero_future_use_7: 0,
    secondary_delivery_system_ids: [0, 0],
    num_channel_bonds: 0,
    superframe: None,
};

impl Default for S2Xv2SatelliteDeliverySystem {
    ghost is_default = { λ r. r ≡ default_record };

    // The crate's `Default`.
    fn default() -> S2Xv2SatelliteDeliverySystem {
        DEFAULT
    }
}
