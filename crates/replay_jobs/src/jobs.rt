// Jobs that are stopped after every number of stores, on slots of every size.
ghost use Rattle.std.specs.Prelude.{◌≡◌, ◌≤◌, length};

use crate::again::parted;
use crate::sample::{count, fill};
use crate::seen::{Reading, put_answer, reading_of};
use crate::start::{Start, prepare};
use crate::stop::{begun, put_again, put_stop};
use job::job::Job;
use lines::put::put;
use std::io;

// The begins that are accepted, those that are refused, and the slots that read as a record, as empty, and as neither.
type Counts = [u32; 5];

// The records: one with no part but the core and no tail, those whose descriptor fills the slot, is one or two bytes smaller or one byte
// larger, and one that has all parts.
#[derive(Clone, Copy)]
enum Kind {
    Core,
    Filling,
    OneLess,
    TwoLess,
    OneMore,
    AllParts,
}

// A case: its record, and how its slot is laid out at the start.
#[derive(Clone, Copy)]
struct Case(Kind, Start);

// Each slot size has every one of these: the six kinds of record on an empty slot and over the default record in turn, and then two of them on
// each of the other starts.
const CASES: [Case; 16] = [
    Case(Kind::Core, Start::Empty),
    Case(Kind::Filling, Start::Default),
    Case(Kind::OneLess, Start::Empty),
    Case(Kind::TwoLess, Start::Default),
    Case(Kind::OneMore, Start::Empty),
    Case(Kind::AllParts, Start::Default),
    Case(Kind::Filling, Start::InFront),
    Case(Kind::AllParts, Start::InFront),
    Case(Kind::Filling, Start::BothSides),
    Case(Kind::AllParts, Start::BothSides),
    Case(Kind::Filling, Start::Pieces),
    Case(Kind::AllParts, Start::Pieces),
    Case(Kind::Filling, Start::OursFirst),
    Case(Kind::AllParts, Start::OursFirst),
    Case(Kind::Filling, Start::OursLast),
    Case(Kind::AllParts, Start::OursLast),
];

// How long the body of a record is, in a slot of `n` bytes.
fn body_length(kind: Kind, n: usize) -> usize
    requires { (21 ≤ n) × (n ≤ 257) }
    ensures { result ≤ 257 }
{
    match kind {
        Kind::Core => 18,
        Kind::Filling => n - 3,
        Kind::OneLess => n - 4,
        Kind::TwoLess => n - 5,
        Kind::OneMore => n - 2,
        Kind::AllParts => 18 + (n - 21) / 2,
    }
}

// The body of a case: one with no conditional part, or one that asks for all of them.
fn make_body(body: &mut [u8], kind: Kind, case: u32) {
    let (fourth, fifth) = match kind {
        Kind::AllParts => (95, 247),
        _ => (7, 243),
    };
    fill(body, case % 65_536 + 7);
    put(body, 4, fourth);
    put(body, 5, fifth);
}

// Where a reading is counted.
fn cell(reading: Reading) -> usize {
    match reading {
        Reading::Record => 2,
        Reading::Empty => 3,
        Reading::OtherSize | Reading::RefusedBody | Reading::Broken(_) => 4,
    }
}

// Every number of stores of a job, up to more than it makes. After each a new job is begun there with a tail.
fn stops(
    begun: u32,
    job: Job,
    start: &[u8],
    slot: &mut [u8],
    tail: &[u8],
    counts: &mut Counts,
) -> u32
    requires { (length slot.old ≡ length start.now) × (length start.now ≤ 257) }
{
    let mut d = begun;
    for made in 0..start.len() + 3 {
        d = put_stop(d, start, slot, job, made);
        count(counts, cell(reading_of(slot)));
        d = put_again(d, slot, tail);
    }
    d
}

// A case in a slot of a size: what begin answers, and then every number of stores.
fn run_in(
    d: u32,
    body: &[u8],
    start: &[u8],
    slot: &mut [u8],
    tail: &[u8],
    counts: &mut Counts,
) -> u32
    requires { (length slot.old ≡ length start.now) × (length start.now ≤ 257) }
{
    let (answer, job) = parted(begun(start, body));
    count(counts, usize::from(answer.is_err()));
    stops(put_answer(d, answer), job, start, slot, tail, counts)
}

// A case of a number: its slot has `n` bytes.
fn run(d: u32, case: u32, asked: Case, n: usize, tail: &[u8; 257], counts: &mut Counts) -> u32
    requires { (21 ≤ n) × (n ≤ 257) }
{
    let Case(kind, layout) = asked;
    let count = body_length(kind, n);
    let mut body = [0; 257];
    let mut start = [0; 257];
    let mut slot = [0; 257];
    make_body(&mut body[..count], kind, case);
    prepare(&mut start[..n], layout, case);
    run_in(
        d,
        &body[..count],
        &start[..n],
        &mut slot[..n],
        &tail[..n - 21],
        counts,
    )
}

// Runs all cases, and prints the counts and the digest.
pub(crate) fn jobs(rt: &impl Print) -> io::Result<()> {
    let mut tail = [0; 257];
    let mut counts = [0; 5];
    let mut d = 0;
    fill(&mut tail, 1);
    for case in 0..3792 {
        let asked = CASES[(case / 237) as usize];
        let n = (21 + case % 237) as usize;
        d = run(d, case, asked, n, &tail, &mut counts);
    }
    let [begun, refused, records, empty, neither] = counts;
    println!(rt; "jobs 3792\n{begun} {refused} {records} {empty} {neither}\ndigest {d}")
}
