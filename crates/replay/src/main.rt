// Runs the cases with a name and the large sets against the library, and prints what the crate's own code answered to them if all is
// right: the answers of the cases with a name, and of each set the counts of its answers by number and place, and a digest of every number
// and byte that was answered.
//
// Asked by ten bytes on standard input, it shows one set from the inside instead: 1 for the digest after each case or 2 for every number
// that goes into it; the set; the first case and the one after the last, four bytes each.
#![tactic(auto)]

mod body;
mod digest;
mod draw;
mod fields;
mod made;
mod named;
mod run;
mod sets;
mod shown;
mod told;
mod values;

use digest::Digest;
use named::{BODIES, RECORDS};
use run::Ran;
use sets::{Buffers, Set, run_case, run_made};
use std::io;
use std::io::Read;

// Prints a case with a name: its number, its answer, its digest.
fn print_named(rt: &impl Print, kind: &str, k: usize, ran: Ran) -> io::Result<()> {
    print!(rt; "{kind} {k}:")?;
    told::print(rt, ran.answer)?;
    println!(rt; "; {}", ran.digest.value)
}

// Runs the cases with a name, each with a digest of its own.
fn named_cases(rt: &impl Print, buffers: &mut Buffers) -> io::Result<()> {
    let start = Digest::empty(false);
    for (k, body) in (1..).zip(BODIES) {
        let made = body.make(&mut buffers.body);
        print_named(rt, "body", k, run_made(rt, start, made, buffers)?)?;
    }
    for (k, record) in (1..).zip(RECORDS) {
        print_named(
            rt,
            "record",
            k,
            run_case(rt, start, &record.case(), buffers)?,
        )?;
    }
    Ok(())
}

// Counts one answer.
fn count(counts: &mut [u32; 43], cell: usize) {
    if let Some(n) = counts.get_mut(cell) {
        *n = n.wrapping_add(1);
    }
}

// All cases of a set.
fn count_all(
    rt: &impl Print,
    set: Set,
    counts: &mut [u32; 43],
    buffers: &mut Buffers,
) -> io::Result<Digest> {
    let mut d = Digest::empty(false);
    for case in 0..set.cases() {
        let ran = set.run(rt, d, case, buffers)?;
        count(counts, told::cell(ran.answer));
        d = ran.digest;
    }
    Ok(d)
}

// Runs a set and prints its counts and its digest.
fn whole_set(rt: &impl Print, set: Set, buffers: &mut Buffers) -> io::Result<()> {
    let mut counts = [0; 43];
    let d = count_all(rt, set, &mut counts, buffers)?;
    println!(rt; "{} {}", set.name(), set.cases())?;
    told::print_counts(rt, &counts)?;
    println!(rt; "digest {}", d.value)
}

// Runs all cases.
fn all(rt: &impl Print, buffers: &mut Buffers) -> io::Result<()> {
    named_cases(rt, buffers)?;
    for set in [Set::Cuts, Set::Bits, Set::Bodies, Set::Walk, Set::Records] {
        whole_set(rt, set, buffers)?;
    }
    Ok(())
}

// The digest after each case of a set, or the numbers of all of them.
fn show(
    rt: &impl Print,
    numbers: bool,
    set: Set,
    cases: std::ops::Range<u32>,
    buffers: &mut Buffers,
) -> io::Result<()> {
    let mut d = Digest::empty(numbers);
    for case in cases {
        d = set.run(rt, d, case, buffers)?.digest;
        if !numbers {
            digest::show(rt, d.value)?;
        }
    }
    Ok(())
}

// Runs all cases, or shows what it is asked for.
fn main(rt: HostRuntime) -> io::Result<()> {
    let mut buffers = Buffers {
        body: [0; 4097],
        out: [0; 4200],
        tail: [0; 65_560],
    };
    draw::fill(&mut buffers.tail, draw::seed(0));
    let mut question = [0; 10];
    if rt.stdin().read_exact(&mut question).is_err() {
        return all(&rt, &mut buffers);
    }
    let [kind, set, a, b, c, d, e, f, g, h] = question;
    let cases = u32::from_be_bytes([a, b, c, d])..u32::from_be_bytes([e, f, g, h]);
    show(&rt, kind == 2, Set::numbered(set), cases, &mut buffers)
}
