// The begins with a name: each answer of begin, and their order. Where begin is refused, the job that it gives is
// refused by a step, and the slot stays as it was; where that is for its form, it is then made empty and begun again.
use crate::sample::fill;
use crate::{again, print};
use answers::answer::Refusal;
use begin::Begun;
use lines::digest::put_bytes;
use lines::put::put;
use s2xv2::mode::S2Xv2Mode;
use s2xv2::record::S2Xv2SatelliteDeliverySystem;
use s2xv2::superframe::S2Xv2Superframe;
use std::io;

// The slots, named by their sizes or by what is wrong with them.
#[derive(Clone, Copy)]
enum Slot {
    Empty20,
    Empty21,
    Empty22,
    Held,
    Held258,
    FirstTag,
    Extension,
    Length0,
    SecondTag,
    Broken20,
    Broken258,
}

// The kinds of record: one with no conditional part, one with every part that mode 5 has, and those that have a fault.
#[derive(Clone, Copy)]
enum Kind {
    Core,
    Full,
    Reserved1,
    NoBlock,
    Wide,
    NoBonds,
    BothLists,
}

// A slot's size; the tag, the length and the third byte of its first descriptor; and the tag of the one behind it.
#[derive(Clone, Copy)]
struct Layout(usize, u8, u8, u8, u8);

// A begin: its name, its slot, its record and how long its tail is.
#[derive(Clone, Copy)]
struct Begin(&'static str, Slot, Kind, usize);

const BEGINS: [Begin; 23] = [
    // Accepted: on an empty slot that the descriptor fills, and on one that holds a record.
    Begin("empty slot of 21", Slot::Empty21, Kind::Core, 0),
    Begin("over a record", Slot::Held, Kind::Full, 5),
    // Slots of a wrong size or form.
    Begin("slot of 20", Slot::Empty20, Kind::Core, 0),
    Begin("slot of 258", Slot::Held258, Kind::Core, 3),
    Begin("first tag", Slot::FirstTag, Kind::Core, 2),
    Begin("extension", Slot::Extension, Kind::Core, 2),
    Begin("length 0", Slot::Length0, Kind::Core, 2),
    Begin("second tag", Slot::SecondTag, Kind::Core, 2),
    // Records that contradict themselves, encodings at the limit, descriptors that do not fit, and values that the wire
    // cannot carry.
    Begin("mode Reserved(1)", Slot::Held, Kind::Reserved1, 2),
    Begin("no superframe", Slot::Held, Kind::NoBlock, 2),
    Begin("4097 bytes", Slot::Held, Kind::Core, 4079),
    Begin("4096 bytes", Slot::Held, Kind::Core, 4078),
    Begin("one byte larger", Slot::Empty21, Kind::Core, 1),
    Begin("one byte smaller", Slot::Empty22, Kind::Core, 0),
    Begin("wide satellite_id", Slot::Held, Kind::Wide, 2),
    Begin("bond count 0", Slot::Held, Kind::NoBonds, 2),
    // What is refused for two reasons: the first in the order of begin is told.
    Begin("6 before 12, 20 bytes", Slot::Broken20, Kind::BothLists, 2),
    Begin(
        "6 before 12, 258 bytes",
        Slot::Broken258,
        Kind::BothLists,
        2,
    ),
    Begin("12 before 3", Slot::FirstTag, Kind::Reserved1, 2),
    Begin("12 before both lists", Slot::SecondTag, Kind::BothLists, 2),
    Begin("3 before 2", Slot::Held, Kind::Reserved1, 4079),
    Begin("2 before 7", Slot::Held, Kind::Wide, 4079),
    Begin("7 before 4", Slot::Empty22, Kind::Wide, 0),
];

impl Slot {
    // The layout of a slot.
    fn layout(self) -> Layout {
        match self {
            Slot::Empty20 => Layout(20, 0x42, 18, 0x24, 0x42),
            Slot::Empty21 => Layout(21, 0x42, 19, 0x24, 0x42),
            Slot::Empty22 => Layout(22, 0x42, 20, 0x24, 0x42),
            Slot::Held => Layout(60, 0x7F, 47, 0x24, 0x42),
            Slot::Held258 => Layout(258, 0x7F, 250, 0x24, 0x42),
            Slot::FirstTag => Layout(60, 0x48, 47, 0x24, 0x42),
            Slot::Extension => Layout(60, 0x7F, 47, 0x17, 0x42),
            Slot::Length0 => Layout(60, 0x7F, 0, 0x24, 0x42),
            Slot::SecondTag => Layout(60, 0x7F, 47, 0x24, 0x48),
            Slot::Broken20 => Layout(20, 0x48, 18, 0x24, 0x42),
            Slot::Broken258 => Layout(258, 0x7F, 250, 0x24, 0x48),
        }
    }
}

// Lays a slot out: drawn bytes, with a first descriptor, and behind it one that ends where the slot ends.
fn lay(slot: &mut [u8], Layout(_, tag, length, third, next): Layout) {
    let n = slot.len();
    let end = usize::from(length) + 2;
    fill(slot, u32::from(length));
    put(slot, 0, tag);
    put(slot, 1, length);
    put(slot, 2, third);
    if end + 2 <= n {
        put(slot, end, next);
        put(slot, end + 1, ((n - end - 2) % 256) as u8);
    }
}

// A satellite_id, and one of 25 bits.
const SATELLITE: u32 = 0x000A_0B0C;

const WIDE: u32 = 0x010A_0B0C;

// A superframe block with a plan id and SFFI, no two of its wide fields alike.
fn superframe() -> S2Xv2Superframe {
    S2Xv2Superframe {
        sosf_wh_sequence_number: 154,
        sffi_selector: true,
        beam_hopping_time_plan_selector: true,
        reserved_zero_future_use_2: 1,
        reference_scrambling_index: 703_710,
        sffi: Some(11),
        reserved_zero_future_use_4: 0,
        payload_scrambling_index: 344_865,
        beamhopping_time_plan_id: Some(0xFEDC_BA98),
        superframe_pilots_wh_sequence_number: 19,
        postamble_pli: 5,
    }
}

// A record with no conditional part; what it holds of them all the same is not on the wire.
fn core(mode: S2Xv2Mode, satellite_id: u32) -> S2Xv2SatelliteDeliverySystem {
    S2Xv2SatelliteDeliverySystem {
        delivery_system_id: 0x0102_0304,
        s2xv2_mode: mode,
        roll_off: 6,
        reserved_zero_future_use_2: 2,
        ncr_reference: true,
        ncr_version: true,
        channel_bond: 3,
        polarization: 3,
        reserved_zero_future_use_1: 1,
        ts_gs_s2x_mode: 2,
        receiver_profiles: 21,
        satellite_id,
        frequency: 0x1122_3344,
        symbol_rate: 0x5566_7788,
        reserved_zero_future_use_6: 37,
        reserved_zero_future_use_7: 85,
        secondary_delivery_system_ids: [0xBBCC_DDEE, 0x1234_5678],
        ..S2Xv2SatelliteDeliverySystem::default()
    }
}

// A record with every part that mode 5 has.
fn full(bonds: u8) -> S2Xv2SatelliteDeliverySystem {
    S2Xv2SatelliteDeliverySystem {
        multiple_input_stream_flag: true,
        channel_bond: 1,
        input_stream_identifier: Some(153),
        timeslice_number: Some(170),
        num_channel_bonds: bonds,
        superframe: Some(superframe()),
        ..core(S2Xv2Mode::S2XSuperframeTimeSlicing, SATELLITE)
    }
}

impl Kind {
    // A record of a kind. Mode 9 has no conditional part.
    fn record(self) -> S2Xv2SatelliteDeliverySystem {
        match self {
            Kind::Core => core(S2Xv2Mode::Reserved(9), SATELLITE),
            Kind::Full => full(2),
            Kind::Reserved1 => core(S2Xv2Mode::Reserved(1), SATELLITE),
            Kind::NoBlock => core(S2Xv2Mode::S2XSuperframe, SATELLITE),
            Kind::Wide => core(S2Xv2Mode::Reserved(9), WIDE),
            Kind::NoBonds => full(0),
            Kind::BothLists => core(S2Xv2Mode::Reserved(1), WIDE),
        }
    }
}

// Begins with a tail of drawn bytes, 4,079 of them at most.
fn begun(
    slot: &[u8],
    record: S2Xv2SatelliteDeliverySystem,
    count: usize,
) -> Result<Begun, Refusal> {
    let mut tail = [0; 4079];
    fill(&mut tail, 1);
    begin::begin(slot, record, &tail[..count.min(4079)])
}

// Begins a job on a slot and steps it to its end, and prints the answers and a digest of the slot after the step.
fn tell(
    rt: &impl Print,
    slot: &mut [u8],
    record: S2Xv2SatelliteDeliverySystem,
    count: usize,
) -> io::Result<()> {
    let (answer, job) = again::parted(begun(slot, record, count));
    print::answer(rt, answer)?;
    print::step(rt, job, slot)?;
    print!(rt; "; slot {}", put_bytes(0, slot))?;
    again::tell(rt, answer, slot)?;
    println!(rt; "")
}

// All of them.
pub(crate) fn begins(rt: &impl Print) -> io::Result<()> {
    for Begin(name, slot, kind, count) in BEGINS {
        let mut room = [0; 258];
        let layout = slot.layout();
        let slot = &mut room[..layout.0.min(258)];
        lay(slot, layout);
        print!(rt; "begin {name}: ")?;
        tell(rt, slot, kind.record(), count)?;
    }
    Ok(())
}
