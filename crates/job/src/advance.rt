// A step of a job that is kept in parts: what `Job::step` does, for a caller that keeps the job where it stands.
ghost use Rattle.std.specs.Prelude.{◌≡◌, [], length};
ghost use Rattle.job.specs.Job.{job_of, fair};
ghost use Rattle.job.specs.Step.{moved_seen, step_of, slot_after};

use crate::job::{Advanced, OtherSize};
use crate::next::Next;
use form::good::is_size;

// What a step answers that is accepted, but for the bytes and the sizes of the job, which no step changes.
#[derive(Clone, Copy)]
pub struct Moved {
    // How many stores the job has made in all.
    pub made: usize,
    pub advanced: Advanced,
}

// Whether begin and steps could have given a job these numbers, its slot's size, its descriptor's and the stores made, on a slot of `have` bytes.
#[tactic(auto, unfolding(form::specs::Form::good_size, crate::specs::Job::fair, crate::specs::Job::fits_in))]
fn is_fair(n: usize, d: usize, k: usize, have: usize) -> bool
    ensures { result ≡ fair (job_of [] n d k) have }
{
    n == have && is_size(n) && 21 <= d && d <= n && n != d + 1 && k <= n + 2
}

// Makes the smaller of the allowance and the stores left of the job that has these parts, or refuses it with answer 8 and stores nothing.
// The parts stay apart, and no `&Job` is asked for: the call is public, and for a caller whose job stands in parts, as C lends it to begin.
pub fn advance(
    staged: &[u8; 257],
    n: usize,
    d: usize,
    k: usize,
    slot: &mut [u8],
    allowance: usize,
) -> Result<Moved, OtherSize>
    ensures told { moved_seen (job_of staged.now n d k) result
        ≡ step_of (job_of staged.now n d k) (length slot.old) allowance }
    ensures left { slot.new ≡ slot_after (job_of staged.now n d k) slot.old allowance }
{
    let have = slot.len();
    if !is_fair(n, d, k, have) {
        return Err(OtherSize);
    }
    let left = n + 2 - k;
    let count = allowance.min(left);
    Next::new(staged, n, d, k).make_stores(slot, count);
    Ok(Moved {
        made: k + count,
        advanced: Advanced {
            stores: count,
            done: count == left,
        },
    })
}
