// A step of a job that is lent: its caller keeps the job where it stands.
ghost use Rattle.std.specs.Prelude.{◌≡◌, length};
ghost use Rattle.job.specs.Step.{step_seen, step_of, slot_after};

use in_place::step_in_place;
use job::job::{Job, Stepped};

// Lends the job to the step, and hands it back with what the step tells: what `Job::step` answers.
pub(crate) fn step_lent(mut job: Job, slot: &mut [u8], allowance: usize) -> Stepped
    ensures { (step_seen result ≡ step_of job (length slot.old) allowance) × (slot.new ≡ slot_after job slot.old allowance) }
{
    let answer = step_in_place(&mut job, slot, allowance);
    Stepped { job, answer }
}
