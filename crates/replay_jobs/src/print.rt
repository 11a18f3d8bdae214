// What is printed.
use crate::again::Answer;
use answers::answer::Refusal;
use job::job::{Advanced, Job, OtherSize, advanced_in};
use std::io;

// Prints a refusal: its number, and what it tells.
fn refusal(rt: &impl Print, why: Refusal) -> io::Result<()> {
    let told = why.told();
    for (i, n) in told.numbers.iter().take(told.count).enumerate() {
        let between = if i == 0 { "" } else { " " };
        print!(rt; "{between}{n}")?;
    }
    Ok(())
}

// Prints what begin answers.
pub(crate) fn answer(rt: &impl Print, answer: Answer) -> io::Result<()> {
    match answer {
        Ok(stores) => print!(rt; "0 {stores}"),
        Err(why) => refusal(rt, why),
    }
}

// Prints what a slot reads as: 0 with the tail's place and length, 9 for an empty one, or a refusal.
pub(crate) fn reading(rt: &impl Print, slot: &[u8]) -> io::Result<()> {
    match slot::read::read(slot) {
        Ok(Some(record)) => print!(rt; "0 {} {}", record.tail.place, record.tail.length),
        Ok(None) => print!(rt; "9"),
        Err(why) => refusal(rt, why),
    }
}

// What a step answers: its number, and what it tells.
pub(crate) fn step_told(answer: Result<Advanced, OtherSize>) -> (u32, Advanced) {
    let number = if answer.is_ok() { 0 } else { 8 };
    (number, advanced_in(answer))
}

// Steps a job to its end, and prints what the step answers: its number, the stores made, and whether the job is done.
pub(crate) fn step(rt: &impl Print, job: Job, slot: &mut [u8]) -> io::Result<()> {
    let (number, Advanced { stores, done }) = step_told(job.step(slot, 1000).answer);
    print!(rt; "; step {number} {stores} {}", u32::from(done))
}
