// Where the parts of a body end.
ghost use Rattle.std.specs.Prelude.{◌≡◌, ◌≤◌};
ghost use Rattle.wire.specs.Flags.{only, when};
ghost use Rattle.s2xv2_layout.specs.Layout.{ends_now};

use crate::bytes::flag_at;
use crate::present::Present;

// Where each conditional part ends; one that is not there ends where the part before it does.
#[derive(Clone, Copy)]
pub struct Ends {
    pub stream: usize,
    pub scrambling: usize,
    pub timeslice: usize,
    // The header of the bonds, their first id, whether there is a second, and where the bonds end.
    pub header: usize,
    pub first_id: usize,
    pub second: bool,
    pub bond: usize,
    // The superframe block without a plan id, whether there is one, where it ends, and the block with it.
    pub block: usize,
    pub plan: bool,
    pub plan_id: usize,
    pub superframe: usize,
}

// So many bytes, if the part is there.
fn only(there: bool, n: usize) -> usize
    ensures { (result ≡ only there n) × (result ≤ n) }
{
    if there { n } else { 0 }
}

// One size or the other, by a flag: the longer with what it says is there.
fn size_by(there: bool, long: usize, short: usize) -> usize
    requires { short ≤ long }
    ensures { (result ≡ when there long short) × (result ≤ long) }
{
    if there { long } else { short }
}

// Where the parts of a body end, given which of them it has. Bytes behind the end of the body count as 0.
pub fn ends_of(s: &[u8], k: Present) -> Ends
    ensures { result ≡ ends_now s.now k }
{
    let stream = 18 + only(k.stream, 1);
    let scrambling = stream + only(k.scrambling, 3);
    let timeslice = scrambling + only(k.timeslice, 1);
    let second = flag_at(s, timeslice, 1);
    let bond = timeslice + only(k.bond, size_by(second, 9, 5));
    let plan = flag_at(s, bond + 1, 64);
    Ends {
        stream,
        scrambling,
        timeslice,
        header: timeslice + only(k.bond, 1),
        first_id: timeslice + only(k.bond, 5),
        second,
        bond,
        block: bond + only(k.superframe, 8),
        plan,
        plan_id: bond + only(k.superframe, size_by(plan, 11, 8)),
        superframe: bond + only(k.superframe, size_by(plan, 12, 8)),
    }
}
