// Two jobs, store by store: the slot after each, and what it reads as. docs/JOB.md shows what this program writes.
#![tactic(auto)]

use job::job::Job;
use s2xv2::record::S2Xv2SatelliteDeliverySystem;
use std::io;

// Writes what the slot reads as: the low byte of satellite_id, which tells the two records apart, and the tail's length.
fn reading(rt: &impl Print, s: &[u8]) -> io::Result<()> {
    match slot::read::read(s) {
        Ok(Some(held)) => print!(rt;
            "record {:02X} tail {:02}",
            held.body.satellite_id % 256,
            held.tail.length
        ),
        Ok(None) => print!(rt; "empty"),
        Err(_) => print!(rt; "refused"),
    }
}

// Writes how many stores are made, the slot's bytes, and what it reads as.
fn show(rt: &impl Print, k: usize, s: &[u8]) -> io::Result<()> {
    print!(rt; "{k:02}  ")?;
    for b in s {
        print!(rt; "{b:02X} ")?;
    }
    print!(rt; " ")?;
    reading(rt, s)?;
    println!(rt)
}

// The record whose body is 18 bytes of `x`.
fn record(x: u8) -> S2Xv2SatelliteDeliverySystem {
    let four = u32::from_be_bytes([x; 4]);
    S2Xv2SatelliteDeliverySystem {
        delivery_system_id: four,
        roll_off: x,
        polarization: x,
        receiver_profiles: x,
        satellite_id: four % 16_777_216,
        frequency: four,
        symbol_rate: four,
        ..S2Xv2SatelliteDeliverySystem::default()
    }
}

// The job that stores a record with its tail in the slot: the job of zeros where `begin` refuses.
fn begun(s: &[u8], r: S2Xv2SatelliteDeliverySystem, tail: &[u8]) -> Job {
    begin::job_in(begin::begin(s, r, tail))
}

// Stores one record in an empty slot, and then another over it, one store at a time.
fn over_a_record(rt: &impl Print) -> io::Result<()> {
    let mut s = [0u8; 25];
    let _ = slot::empty::make_empty(&mut s);
    begun(&s, record(1), &[171]).step(&mut s, 300);
    let mut job = begun(&s, record(2), &[]);
    show(rt, 0, &s)?;
    for k in 1..=27 {
        job = job.step(&mut s, 1).job;
        show(rt, k, &s)?;
    }
    Ok(())
}

// Makes some stores, and shows the slot after `k` of them.
fn stepped(rt: &impl Print, job: Job, s: &mut [u8], allowance: usize, k: usize) -> io::Result<Job> {
    let stepped = job.step(s, allowance);
    show(rt, k, s)?;
    Ok(stepped.job)
}

// The same record stands behind stuffing of 4 bytes, and another is stored over both. Of the stores in the middle only
// the last is shown.
fn behind_stuffing(rt: &impl Print) -> io::Result<()> {
    let mut s = [1u8; 25];
    s[..7].copy_from_slice(&[0x42, 2, 255, 255, 0x7F, 19, 0x24]);
    let job = begun(&s, record(2), &[]);
    show(rt, 0, &s)?;
    let job = stepped(rt, job, &mut s, 1, 1)?;
    let job = stepped(rt, job, &mut s, 1, 2)?;
    let job = stepped(rt, job, &mut s, 24, 26)?;
    stepped(rt, job, &mut s, 1, 27)?;
    Ok(())
}

// Both jobs, with an empty line between them.
fn main(rt: HostRuntime) -> io::Result<()> {
    over_a_record(&rt)?;
    println!(rt)?;
    behind_stuffing(&rt)
}
