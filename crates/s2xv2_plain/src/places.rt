// Where each number and each byte of a record stands in the two arrays. Four bytes that are judged as one word stand side by side.

// The numbers.
pub const DELIVERY_SYSTEM_ID: usize = 0;

pub const SATELLITE_ID: usize = 1;

pub const SYMBOL_RATE: usize = 2;

pub const FREQUENCY: usize = 3;

pub const SCRAMBLING_SEQUENCE_INDEX: usize = 4;

pub const SECONDARY_DELIVERY_SYSTEM_ID_0: usize = 5;

pub const SECONDARY_DELIVERY_SYSTEM_ID_1: usize = 6;

pub const REFERENCE_SCRAMBLING_INDEX: usize = 7;

pub const PAYLOAD_SCRAMBLING_INDEX: usize = 8;

pub const BEAMHOPPING_TIME_PLAN_ID: usize = 9;

// The bytes: what is said to be there,
pub const MULTIPLE_INPUT_STREAM_FLAG: usize = 0;

pub const SCRAMBLING_SEQUENCE_SELECTOR: usize = 1;

pub const SFFI_SELECTOR: usize = 2;

pub const BEAM_HOPPING_TIME_PLAN_SELECTOR: usize = 3;
// what of that is there, in the same order,
pub const HAS_INPUT_STREAM_IDENTIFIER: usize = 4;

pub const HAS_SCRAMBLING_SEQUENCE_INDEX: usize = 5;

pub const HAS_SFFI: usize = 6;

pub const HAS_BEAMHOPPING_TIME_PLAN_ID: usize = 7;
// what the mode asks for,
pub const MODE_IS_RESERVED: usize = 8;

pub const HAS_SCRAMBLING_SEQUENCE_SELECTOR: usize = 9;

pub const HAS_TIMESLICE_NUMBER: usize = 10;

pub const HAS_SUPERFRAME: usize = 11;
// the fields of the core,
pub const RESERVED_ZERO_FUTURE_USE_2: usize = 12;

pub const NCR_REFERENCE: usize = 13;

pub const NCR_VERSION: usize = 14;

pub const CHANNEL_BOND: usize = 15;

pub const TS_GS_S2X_MODE: usize = 16;

pub const RECEIVER_PROFILES: usize = 17;

pub const RESERVED_ZERO_FUTURE_USE_1: usize = 18;

pub const POLARIZATION: usize = 19;

pub const S2XV2_MODE: usize = 20;

pub const ROLL_OFF: usize = 21;
// those of the parts behind it,
pub const NUM_CHANNEL_BONDS: usize = 22;

pub const RESERVED_ZERO_FUTURE_USE_7: usize = 23;

pub const INPUT_STREAM_IDENTIFIER: usize = 24;

pub const TIMESLICE_NUMBER: usize = 25;

pub const RESERVED_ZERO_FUTURE_USE_6: usize = 26;
// those of the superframe block,
pub const SOSF_WH_SEQUENCE_NUMBER: usize = 27;

pub const SUPERFRAME_RESERVED_ZERO_FUTURE_USE_2: usize = 28;

pub const SFFI: usize = 29;

pub const RESERVED_ZERO_FUTURE_USE_4: usize = 30;

pub const SUPERFRAME_PILOTS_WH_SEQUENCE_NUMBER: usize = 31;

pub const POSTAMBLE_PLI: usize = 32;
// and three that hold nothing.
pub const FILLER_0: usize = 33;

pub const FILLER_1: usize = 34;

pub const FILLER_2: usize = 35;
