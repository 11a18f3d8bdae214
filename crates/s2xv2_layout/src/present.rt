// Which parts a body has.
ghost use Rattle.std.specs.Prelude.{◌≡◌};
ghost use Rattle.s2xv2_layout.specs.Layout.{present_now};

use crate::bytes::{byte, flag_at};
use s2xv2::mode::S2Xv2Mode;
use wire::field::field;

// Which of the conditional parts a core asks for.
#[derive(Clone, Copy)]
pub struct Present {
    // The input stream identifier.
    pub stream: bool,
    // The scrambling sequence index.
    pub scrambling: bool,
    // The timeslice number.
    pub timeslice: bool,
    // The channel bonds.
    pub bond: bool,
    // The superframe block.
    pub superframe: bool,
}

// The parts that the core of a body asks for. Bytes behind the end of the body count as 0.
pub fn present_in(s: &[u8]) -> Present
    ensures { result ≡ present_now s.now }
{
    let row = S2Xv2Mode::from_u8(field(byte(s, 4), 16, 16)).row();
    Present {
        stream: flag_at(s, 4, 8),
        scrambling: row.selector & flag_at(s, 6, 128),
        timeslice: row.timeslice,
        bond: field(byte(s, 5), 4, 4) == 1,
        superframe: row.superframe,
    }
}
