// A byte into a lent buffer.
ghost use Rattle.std.specs.Prelude.{◌∷◌, []};
ghost use Rattle.lines.specs.Out.{◌from◌, Wrote};

// One byte at a place, where the buffer reaches that far. Gives the place behind what it stored. It stands beside the sheet, which is no plainer
// for the single bytes that `replay_jobs` stores at places of its own.
pub fn put(out: &mut [u8], at: usize, b: u8) -> usize
    ensures { Wrote (out.old from at) (b ∷ []) (out.new from result) }
{
    if at < out.len() {
        out[at] = b;
        at + 1
    } else {
        at
    }
}
