// The second stepping call: the job stands where the caller keeps it.
#![tactic(auto)]

ghost use Rattle.in_place.specs.Advanced.{StepsInPlace};

use job::job::{Advanced, Job, OtherSize};

// Steps the job where it stands: the step by value, and the job stored back. A refused step stores nothing and leaves the job as it was.
pub fn step_in_place(
    job: &mut Job,
    slot: &mut [u8],
    allowance: usize,
) -> Result<Advanced, OtherSize>
    ensures { StepsInPlace job.old slot.old allowance result job.new slot.new }
{
    let stepped = job.step(slot, allowance);
    *job = stepped.job;
    stepped.answer
}
