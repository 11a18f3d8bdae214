// The fields of a record as plain numbers, in the order of `shown`: their places, their types, and what the wire carries of them.
ghost use Rattle.std.specs.Prelude.{◌<◌, ◌≤◌};

pub(crate) const DELIVERY_SYSTEM_ID: usize = 0;

pub(crate) const MODE: usize = 1;

pub(crate) const IS_RESERVED: usize = 2;

pub(crate) const STREAM_FLAG: usize = 3;

pub(crate) const ROLL_OFF: usize = 4;

pub(crate) const RESERVED_2: usize = 5;

pub(crate) const NCR_REFERENCE: usize = 6;

pub(crate) const NCR_VERSION: usize = 7;

pub(crate) const CHANNEL_BOND: usize = 8;

pub(crate) const POLARIZATION: usize = 9;

pub(crate) const SELECTOR: usize = 10;

pub(crate) const RESERVED_1: usize = 11;

pub(crate) const TS_GS_S2X_MODE: usize = 12;

pub(crate) const RECEIVER_PROFILES: usize = 13;

pub(crate) const SATELLITE_ID: usize = 14;

pub(crate) const FREQUENCY: usize = 15;

pub(crate) const SYMBOL_RATE: usize = 16;

pub(crate) const HAS_STREAM: usize = 17;

pub(crate) const STREAM: usize = 18;

pub(crate) const RESERVED_6: usize = 19;

pub(crate) const HAS_INDEX: usize = 20;

pub(crate) const INDEX: usize = 21;

pub(crate) const HAS_TIMESLICE: usize = 22;

pub(crate) const TIMESLICE: usize = 23;

pub(crate) const RESERVED_7: usize = 24;

pub(crate) const FIRST_ID: usize = 25;

pub(crate) const SECOND_ID: usize = 26;

pub(crate) const BONDS: usize = 27;

pub(crate) const HAS_BLOCK: usize = 28;

pub(crate) const SOSF: usize = 29;

pub(crate) const SFFI_SELECTOR: usize = 30;

pub(crate) const PLAN_SELECTOR: usize = 31;

pub(crate) const BLOCK_RESERVED_2: usize = 32;

pub(crate) const REFERENCE_INDEX: usize = 33;

pub(crate) const HAS_SFFI: usize = 34;

pub(crate) const SFFI: usize = 35;

pub(crate) const RESERVED_4: usize = 36;

pub(crate) const PAYLOAD_INDEX: usize = 37;

pub(crate) const HAS_PLAN: usize = 38;

pub(crate) const PLAN: usize = 39;

pub(crate) const PILOTS: usize = 40;

pub(crate) const POSTAMBLE: usize = 41;

// The fields of a record as plain numbers.
pub(crate) type Values = [u32; 42];

// A field's type, and of a byte or a number the largest that the wire carries, and its place in list B, where it has one.
#[derive(Clone, Copy)]
pub(crate) enum Field {
    Flag,
    Selector,
    Byte(u8, Option<u8>),
    Number(u32, Option<u8>),
}

pub(crate) const FIELDS: [Field; 42] = [
    Field::Number(4_294_967_295, None), // delivery_system_id
    Field::Byte(15, Some(1)), // s2xv2_mode: its code
    Field::Flag, // whether it is held by `Reserved`
    Field::Flag, // multiple_input_stream_flag
    Field::Byte(7, Some(2)), // roll_off
    Field::Byte(3, Some(3)), // reserved_zero_future_use_2
    Field::Flag, // ncr_reference
    Field::Flag, // ncr_version
    Field::Byte(3, Some(4)), // channel_bond
    Field::Byte(3, Some(5)), // polarization
    Field::Selector, // scrambling_sequence_selector: 0 absent, 1 clear, 2 set
    Field::Byte(1, Some(6)), // reserved_zero_future_use_1
    Field::Byte(3, Some(7)), // ts_gs_s2x_mode
    Field::Byte(31, Some(8)), // receiver_profiles
    Field::Number(16_777_215, Some(9)), // satellite_id
    Field::Number(4_294_967_295, None), // frequency
    Field::Number(4_294_967_295, None), // symbol_rate
    Field::Flag, // whether there is an input_stream_identifier
    Field::Byte(255, None), // input_stream_identifier
    Field::Byte(63, Some(12)), // reserved_zero_future_use_6
    Field::Flag, // whether there is a scrambling_sequence_index
    Field::Number(262_143, Some(11)), // scrambling_sequence_index
    Field::Flag, // whether there is a timeslice_number
    Field::Byte(255, None), // timeslice_number
    Field::Byte(127, Some(14)), // reserved_zero_future_use_7
    Field::Number(4_294_967_295, None), // the first of secondary_delivery_system_ids
    Field::Number(4_294_967_295, None), // the second
    Field::Byte(255, None), // num_channel_bonds
    Field::Flag, // whether there is a superframe
    Field::Byte(255, None), // sosf_wh_sequence_number
    Field::Flag, // sffi_selector
    Field::Flag, // beam_hopping_time_plan_selector
    Field::Byte(3, Some(17)), // its reserved_zero_future_use_2
    Field::Number(1_048_575, Some(15)), // reference_scrambling_index
    Field::Flag, // whether there is an sffi
    Field::Byte(15, Some(19)), // sffi
    Field::Byte(15, Some(19)), // reserved_zero_future_use_4
    Field::Number(1_048_575, Some(16)), // payload_scrambling_index
    Field::Flag, // whether there is a beamhopping_time_plan_id
    Field::Number(4_294_967_295, None), // beamhopping_time_plan_id
    Field::Byte(31, Some(21)), // superframe_pilots_wh_sequence_number
    Field::Byte(7, Some(22)), // postamble_pli
];

impl Field {
    // The largest number of its type.
    pub(crate) fn widest(self) -> u32 {
        match self {
            Field::Flag => 1,
            Field::Selector => 3,
            Field::Byte(_, _) => 255,
            Field::Number(_, _) => u32::MAX,
        }
    }

    // How many bits its type has.
    pub(crate) fn bits(self) -> u32
        ensures { (0 < result) × (result ≤ 32) }
    {
        match self {
            Field::Flag => 1,
            Field::Selector => 2,
            Field::Byte(_, _) => 8,
            Field::Number(_, _) => 32,
        }
    }

    // The largest that the wire carries.
    pub(crate) fn largest(self) -> u32 {
        match self {
            Field::Flag => 1,
            Field::Selector => 3,
            Field::Byte(largest, _) => u32::from(largest),
            Field::Number(largest, _) => largest,
        }
    }

    // Its place in list B.
    pub(crate) fn place(self) -> Option<u8> {
        match self {
            Field::Flag | Field::Selector => None,
            Field::Byte(_, place) | Field::Number(_, place) => place,
        }
    }
}
