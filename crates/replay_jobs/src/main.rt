// Slots and jobs: begins with a name, for each answer that begin gives; slots with a name; for every slot size, several
// records and several starts a job that is stopped after every number of stores, made by one step or by two of a job
// that is lent: what the slot then reads as and holds, and what a new job begun there leaves, goes into a digest; and
// slots by draws. What is printed is what a plain model of docs/ANSWERS.md gives if all is right.
#![tactic(auto)]

mod again;
mod cause;
mod damage;
mod drawn;
mod forms;
mod heads;
mod jobs;
mod lent;
mod named;
mod print;
mod sample;
mod seen;
mod start;
mod stop;

use std::io;

// Runs the begins and the slots with a name, all jobs, and the slots by draws.
fn main(rt: HostRuntime) -> io::Result<()> {
    named::begins(&rt)?;
    forms::slots(&rt)?;
    jobs::jobs(&rt)?;
    drawn::slots(&rt)
}
