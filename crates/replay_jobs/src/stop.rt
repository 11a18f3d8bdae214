// A job on a slot, stopped after a number of stores.
ghost use Rattle.std.specs.Prelude.{◌≡◌, length};

use crate::lent::step_lent;
use crate::print::step_told;
use crate::seen::{put_reading, put_size};
use crate::start::whole_job;
use answers::answer::Refusal;
use begin::Begun;
use job::job::{Advanced, Job, OtherSize};
use lines::digest::{put, put_bytes};

// What begin answers for the record and tail of a body: the default record for one that is refused.
pub(crate) fn begun(slot: &[u8], body: &[u8]) -> Result<Begun, Refusal> {
    let record = s2xv2_reader::shown_record(s2xv2_reader::parse(body));
    begin::begin(slot, record, s2xv2_reader::reserved_tail(body))
}

// Two steps of a job that is lent: half of the stores, and the others.
fn step_in_two(job: Job, slot: &mut [u8], allowance: usize) -> Result<Advanced, OtherSize> {
    let half = allowance / 2;
    let first = step_lent(job, slot, half);
    let last = step_lent(first.job, slot, allowance - half);
    let Advanced { stores, done } = last.answer?;
    Ok(Advanced {
        stores: stores.wrapping_add(first.answer?.stores),
        done,
    })
}

// So many stores: by one step, or for an odd number of them by two steps of a job that is lent.
fn step_by(job: Job, slot: &mut [u8], allowance: usize) -> Result<Advanced, OtherSize> {
    if allowance % 2 == 0 {
        job.step(slot, allowance).answer
    } else {
        step_in_two(job, slot, allowance)
    }
}

// So many stores, and what the last step tells.
fn put_step(d: u32, slot: &mut [u8], job: Job, allowance: usize) -> u32 {
    let (number, Advanced { stores, done }) = step_told(step_by(job, slot, allowance));
    put(put(put_size(d, stores), u32::from(done)), number)
}

// Stops a job after a number of stores, and puts what is then in the slot.
pub(crate) fn put_stop(d: u32, start: &[u8], slot: &mut [u8], job: Job, made: usize) -> u32
    requires { length slot.old ≡ length start.now }
{
    slot.copy_from_slice(start);
    let after = put_step(d, slot, job, made);
    put_bytes(put_reading(after, slot), slot)
}

// A new job that is begun there.
pub(crate) fn put_again(d: u32, slot: &mut [u8], tail: &[u8]) -> u32 {
    whole_job(slot, tail);
    put_bytes(d, slot)
}
