// A job on a slot of 257 bytes, stepped by value one store at a time to its end, once for each byte of standard input: so the instructions of a step can
// be counted, as the difference of two runs.
#![tactic(auto)]

use job::job::Job;
use s2xv2::record::S2Xv2SatelliteDeliverySystem;
use std::io;
use std::io::Read;

// All stores of the job, each by a step of its own.
fn run(mut job: Job, s: &mut [u8]) {
    for _ in 0..259 {
        job = job.step(s, 1).job;
    }
}

// The same job `n` times.
fn run_often(job: Job, s: &mut [u8], n: usize) {
    for _ in 0..n {
        run(job, s);
    }
}

// Writes whether the slot holds a record.
fn tell(rt: &impl Print, s: &[u8]) -> io::Result<()> {
    match slot::read::read(s) {
        Ok(Some(_)) => println!(rt; "record"),
        Ok(None) => println!(rt; "empty"),
        Err(_) => println!(rt; "refused"),
    }
}

// The job that stores the default record in the slot: the job of zeros where `begin` refuses.
fn begun(s: &[u8]) -> Job {
    begin::job_in(begin::begin(s, S2Xv2SatelliteDeliverySystem::default(), &[]))
}

// Begins a job on an empty slot, runs it as often as there is input, and tells what the slot holds.
fn main(rt: HostRuntime) -> io::Result<()> {
    let mut input = [0u8; 64];
    let n = rt.stdin().read(&mut input)?;
    let mut slot = [0u8; 257];
    let _ = slot::empty::make_empty(&mut slot);
    run_often(begun(&slot), &mut slot, n);
    tell(&rt, &slot)
}
