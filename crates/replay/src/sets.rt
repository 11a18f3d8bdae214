// The sets of cases.
use crate::digest::Digest;
use crate::run::{Ran, first, run_body, run_record};
use crate::{body, values};
use std::io;

// The buffers that the cases share: the bodies that they make, what they write, and the bytes of which tails are the first.
#[derive(Drop)]
pub(crate) struct Buffers {
    pub(crate) body: [u8; 4097],
    pub(crate) out: [u8; 4200],
    pub(crate) tail: [u8; 65_560],
}

// The cuts, the walk over bits, the bodies by draws, the walk over fields, the records by draws.
#[derive(Clone, Copy)]
pub(crate) enum Set {
    Cuts,
    Bits,
    Bodies,
    Walk,
    Records,
}

impl Set {
    // The set of a number; all above 4 are the last.
    pub(crate) fn numbered(n: u8) -> Set {
        match n {
            0 => Set::Cuts,
            1 => Set::Bits,
            2 => Set::Bodies,
            3 => Set::Walk,
            _ => Set::Records,
        }
    }

    // Its name.
    pub(crate) fn name(self) -> &'static str {
        match self {
            Set::Cuts => "cuts",
            Set::Bits => "bits",
            Set::Bodies => "bodies",
            Set::Walk => "walk",
            Set::Records => "records",
        }
    }

    // How many cases it has.
    pub(crate) fn cases(self) -> u32 {
        match self {
            Set::Cuts => 94_208,
            Set::Bits => 92_160,
            Set::Bodies => 1_048_576,
            Set::Walk => 43_008,
            Set::Records => 262_144,
        }
    }

    // Runs a case.
    pub(crate) fn run(
        self,
        rt: &impl Print,
        d: Digest,
        case: u32,
        buffers: &mut Buffers,
    ) -> io::Result<Ran> {
        match self {
            Set::Cuts => run_made(rt, d, body::cut(case, &mut buffers.body), buffers),
            Set::Bits => run_made(rt, d, body::bit(case, &mut buffers.body), buffers),
            Set::Bodies => run_made(rt, d, body::drawn(case, &mut buffers.body), buffers),
            Set::Walk => run_case(rt, d, &values::walk(case), buffers),
            Set::Records => run_case(rt, d, &values::drawn(case), buffers),
        }
    }
}

// Runs the body that was made in its buffer.
pub(crate) fn run_made(
    rt: &impl Print,
    d: Digest,
    made: body::Made,
    buffers: &mut Buffers,
) -> io::Result<Ran> {
    let body = first(&buffers.body, made.length);
    run_body(rt, d, body, made.spare, &mut buffers.out)
}

// Runs a record, with the tail that it asks for.
pub(crate) fn run_case(
    rt: &impl Print,
    d: Digest,
    case: &values::Case,
    buffers: &mut Buffers,
) -> io::Result<Ran> {
    run_record(rt, d, case, &buffers.tail, &mut buffers.out)
}
