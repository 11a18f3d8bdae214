// What begin answers, and for slots that it refuses for their form: what it answers once they are made empty.
use crate::print;
use answers::answer::Refusal;
use begin::Begun;
use job::job::Job;
use s2xv2::record::S2Xv2SatelliteDeliverySystem;
use std::io;

// What begin answers: how many stores the job makes.
pub(crate) type Answer = Result<usize, Refusal>;

// What begin answers, and the job that it gives.
pub(crate) fn parted(begun: Result<Begun, Refusal>) -> (Answer, Job) {
    (begun.map(|begun| begun.stores), begin::job_in(begun))
}

// What begin answers for the default record with a tail.
pub(crate) fn begun_default(slot: &[u8], tail: &[u8]) -> Answer {
    begin::begin(slot, S2Xv2SatelliteDeliverySystem::default(), tail).map(|begun| begun.stores)
}

// Whether begin refuses the slot for its form.
pub(crate) fn is_due(answer: Answer) -> bool {
    matches!(answer, Err(Refusal::SlotForm { .. }))
}

// What begin answers once the slot is made empty, for a record that fills it.
pub(crate) fn begun(slot: &mut [u8]) -> Answer {
    let tail = [0; 236];
    slot::empty::make_empty(slot)?;
    let room = slot.len().saturating_sub(21);
    begun_default(slot, &tail[..room.min(236)])
}

// Prints that answer, where begin refuses the slot for its form.
pub(crate) fn tell(rt: &impl Print, answer: Answer, slot: &mut [u8]) -> io::Result<()> {
    if is_due(answer) {
        print!(rt; "; again ")?;
        print::answer(rt, begun(slot))?;
    }
    Ok(())
}
