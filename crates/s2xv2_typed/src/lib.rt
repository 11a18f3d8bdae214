// What the types say, as facts of the logic. The theorems of demands 2 and 3 speak of lists of natural numbers, and ask two things of a record and its tail
// that every program's record and tail have by their types: that its numbers are within them (`Held`), and that the tail's are bytes (`Bytes`). The two calls
// here take any record and any bytes, and promise just that.
#![tactic(auto)]

ghost use Rattle.std.specs.Prelude.{◌≡◌, true, ◌^◌, ◌<◌, get_or};
ghost use Rattle.wire.specs.Widths.{Bytes};
ghost use Rattle.s2xv2.specs.Held.{HeldBlock, HeldSuperframe, Held};
ghost use Rattle.std.specs.Option.{unwrap_or};

use s2xv2::record::S2Xv2SatelliteDeliverySystem;
use s2xv2::superframe::S2Xv2Superframe;

// A superframe block: its plan id, 0 for one that is absent, which is the number that the clause and the edit of it say.
fn block_held(f: S2Xv2Superframe) -> u32
    ensures plan { result ≡ unwrap_or f.beamhopping_time_plan_id 0 }
    ensures held { HeldBlock f }
{
    f.beamhopping_time_plan_id.unwrap_or(0)
}

// Every record is held: it answers true.
pub fn is_held(r: S2Xv2SatelliteDeliverySystem) -> bool
    ensures answer { result ≡ true }
    ensures held { Held r }
{
    r.superframe.map(block_held);
    true
}

// Every slice of bytes holds bytes: it answers true.
pub fn are_bytes(s: &[u8]) -> bool
    ensures answer { result ≡ true }
    ensures bytes { Bytes s.now }
{
    true
}
