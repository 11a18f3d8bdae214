// S2Xv2_mode, EN 300 468 Table 144c, and what Table 144b has in each mode.
ghost use Rattle.std.specs.Prelude.{◌≡◌, ◌+◌, ◌/◌, ◌%◌};
ghost use Rattle.wire.specs.Flags.{only, is_one};
ghost use Rattle.s2xv2.specs.Table144c.{mode_of, code_of, has_selector, has_timeslice, has_superframe};

// The six codes that the table names, and all others.
#[derive(Clone, Copy, PartialEq, Eq)]
pub enum S2Xv2Mode {
    // Reserved for future use (0).
    Reserved0,
    // S2X (1).
    S2X,
    // S2X + time slicing (2).
    S2XTimeSlicing,
    // Reserved for future use (3).
    Reserved3,
    // S2X superframe, Annex E of EN 302 307-2 (4).
    S2XSuperframe,
    // S2X superframe + timeslicing (5).
    S2XSuperframeTimeSlicing,
    // Reserved for future use (6 to 15).
    Reserved(u8),
}

// A row of the table: which of the parts that Table 144b has in some modes only are there.
#[derive(Clone, Copy, PartialEq, Eq)]
pub struct ModeRow {
    // The top bit of byte 6 is scrambling_sequence_selector.
    pub selector: bool,
    // timeslice_number.
    pub timeslice: bool,
    // The superframe block.
    pub superframe: bool,
}

// What stands in a row: the sum of the parts that are there. A sum, and no struct of flags, so that a row is one line, as in the table.
const NONE: u8 = 0;

const SELECTOR: u8 = 1;

const TIMESLICE: u8 = 2;

const SUPERFRAME: u8 = 4;

// The table, a row for each code of four bits.
const ROWS: [u8; 16] = [
    NONE, // 0
    SELECTOR, // 1
    SELECTOR + TIMESLICE, // 2
    NONE, // 3
    SUPERFRAME, // 4
    TIMESLICE + SUPERFRAME, // 5
    NONE, // 6
    NONE, // 7
    NONE, // 8
    NONE, // 9
    NONE, // 10
    NONE, // 11
    NONE, // 12
    NONE, // 13
    NONE, // 14
    NONE, // 15
];

// What stands in the row of a code; one of more than four bits has none of the parts.
fn row_at(code: u8) -> u8
    ensures { result ≡ only (has_selector (mode_of code)) 1 + only (has_timeslice (mode_of code)) 2 + only (has_superframe (mode_of code)) 4 }
{
    if code < 16 { ROWS[code as usize] } else { NONE }
}

// What stands in the row of `Reserved`: codes from 6 to 15 have their own, and all others none of the parts, also those that have a mode of their own.
#[tactic(auto, unfolding(crate::specs::Table144c::mode_of))]
fn reserved_row(code: u8) -> u8
    ensures { result ≡ 0 }
{
    match code {
        6 => row_at(6),
        7 => row_at(7),
        8 => row_at(8),
        9 => row_at(9),
        10 => row_at(10),
        11 => row_at(11),
        12 => row_at(12),
        13 => row_at(13),
        14 => row_at(14),
        15 => row_at(15),
        _ => NONE,
    }
}

// The parts of which a row is the sum.
fn parts_of(row: u8) -> ModeRow
    ensures { result ≡ record { selector = is_one (row / 1 % 2); timeslice = is_one (row / 2 % 2); superframe = is_one (row / 4 % 2) } }
{
    ModeRow {
        selector: row / SELECTOR % 2 == 1,
        timeslice: row / TIMESLICE % 2 == 1,
        superframe: row / SUPERFRAME % 2 == 1,
    }
}

impl S2Xv2Mode {
    // The mode of a code; every number has one. `from_u8` and `to_u8` are the names that the crate has, and so no `From`.
    #[tactic(auto, unfolding(crate::specs::Table144c::mode_of))]
    pub fn from_u8(v: u8) -> S2Xv2Mode
        ensures { result ≡ mode_of v }
    {
        match v {
            0 => S2Xv2Mode::Reserved0,
            1 => S2Xv2Mode::S2X,
            2 => S2Xv2Mode::S2XTimeSlicing,
            3 => S2Xv2Mode::Reserved3,
            4 => S2Xv2Mode::S2XSuperframe,
            5 => S2Xv2Mode::S2XSuperframeTimeSlicing,
            other => S2Xv2Mode::Reserved(other),
        }
    }

    // The code of a mode; `Reserved` gives the number that it holds.
    pub fn to_u8(self) -> u8
        ensures { result ≡ code_of self }
    {
        match self {
            S2Xv2Mode::Reserved0 => 0,
            S2Xv2Mode::S2X => 1,
            S2Xv2Mode::S2XTimeSlicing => 2,
            S2Xv2Mode::Reserved3 => 3,
            S2Xv2Mode::S2XSuperframe => 4,
            S2Xv2Mode::S2XSuperframeTimeSlicing => 5,
            S2Xv2Mode::Reserved(v) => v,
        }
    }

    // The mode's row. Each mode names its row, so that the compiler knows it, and does not make the table on the stack.
    pub fn row(self) -> ModeRow
        ensures { result ≡ record { selector = has_selector self; timeslice = has_timeslice self; superframe = has_superframe self } }
    {
        match self {
            S2Xv2Mode::Reserved0 => parts_of(row_at(0)),
            S2Xv2Mode::S2X => parts_of(row_at(1)),
            S2Xv2Mode::S2XTimeSlicing => parts_of(row_at(2)),
            S2Xv2Mode::Reserved3 => parts_of(row_at(3)),
            S2Xv2Mode::S2XSuperframe => parts_of(row_at(4)),
            S2Xv2Mode::S2XSuperframeTimeSlicing => parts_of(row_at(5)),
            S2Xv2Mode::Reserved(v) => parts_of(reserved_row(v)),
        }
    }

    // Modes 1 and 2: the top bit of byte 6 is scrambling_sequence_selector.
    pub fn has_scrambling_selector(self) -> bool
        ensures { result ≡ has_selector self }
    {
        self.row().selector
    }

    // Modes 2 and 5: timeslice_number is there.
    pub fn has_timeslice(self) -> bool
        ensures { result ≡ has_timeslice self }
    {
        self.row().timeslice
    }

    // Modes 4 and 5: the superframe block is there.
    pub fn has_superframe(self) -> bool
        ensures { result ≡ has_superframe self }
    {
        self.row().superframe
    }
}
