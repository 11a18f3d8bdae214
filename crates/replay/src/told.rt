// Answers as numbers: the answer's own number and what it tells.
use crate::digest::Digest;
use answers::answer::{Refusal, Told};
use std::io;

// What a call answers.
pub(crate) type Answer = Result<usize, Refusal>;

// The low 32 bits of a size.
pub(crate) fn low(n: usize) -> u32 {
    (n % 4_294_967_296) as u32
}

// An answer as numbers.
fn numbers_of(answer: Answer) -> Told {
    match answer {
        Ok(size) => Told {
            count: 2,
            numbers: [0, size, 0, 0, 0],
        },
        Err(why) => why.told(),
    }
}

// Where an answer is counted: by its number, and by its place where it has one.
pub(crate) fn cell(answer: Answer) -> usize {
    match answer {
        Ok(_) => 0,
        Err(Refusal::Short { place, .. }) => usize::from(place),
        Err(Refusal::Long { .. }) => 10,
        Err(Refusal::Inconsistent { place }) => 10 + usize::from(place),
        Err(Refusal::Field { place }) => 19 + usize::from(place),
        Err(_) => 42,
    }
}

// An answer, into the digest.
pub(crate) fn put_answer(rt: &impl Print, start: Digest, answer: Answer) -> io::Result<Digest> {
    let told = numbers_of(answer);
    let mut d = start;
    for n in told.numbers.iter().take(told.count) {
        d = d.put(rt, low(*n))?;
    }
    Ok(d)
}

// Prints a space and a number.
fn word(rt: &impl Print, v: u32) -> io::Result<()> {
    print!(rt; " {v}")
}

// The numbers of an answer, with a space before each.
pub(crate) fn print(rt: &impl Print, answer: Answer) -> io::Result<()> {
    let told = numbers_of(answer);
    for n in told.numbers.iter().take(told.count) {
        word(rt, low(*n))?;
    }
    Ok(())
}

// The counts of an answer: those of its cells.
fn print_row(rt: &impl Print, answer: u32, counts: &[u32]) -> io::Result<()> {
    print!(rt; "{answer}")?;
    for n in counts {
        word(rt, *n)?;
    }
    println!(rt; "")
}

// Prints the counts, a line for each answer.
pub(crate) fn print_counts(rt: &impl Print, counts: &[u32; 43]) -> io::Result<()> {
    print_row(rt, 0, &counts[..1])?;
    print_row(rt, 1, &counts[1..10])?;
    print_row(rt, 2, &counts[10..11])?;
    print_row(rt, 3, &counts[11..20])?;
    print_row(rt, 4, &counts[20..42])?;
    print_row(rt, 5, &counts[42..])
}
