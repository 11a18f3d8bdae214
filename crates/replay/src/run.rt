// A body or a record: what is asked of the library, and what goes into the digest.
use crate::body::front;
use crate::digest::Digest;
use crate::made::record;
use crate::shown::put_record;
use crate::told::{Answer, low, put_answer};
use crate::values::Case;
use s2xv2::record::S2Xv2SatelliteDeliverySystem;
use s2xv2_reader::shown_record;
use std::io;

// What a case leaves: the digest after it, and its answer.
#[derive(Clone, Copy)]
pub(crate) struct Ran {
    pub(crate) digest: Digest,
    pub(crate) answer: Answer,
}

// The first bytes of a list, as far as it reaches.
pub(crate) fn first(bytes: &[u8], n: usize) -> &[u8] {
    &bytes[..n.min(bytes.len())]
}

// The tail: its length and its bytes.
fn put_tail(rt: &impl Print, d: Digest, tail: &[u8]) -> io::Result<Digest> {
    let d = d.put(rt, low(tail.len()))?;
    d.put_bytes(rt, tail)
}

// All that the reader says of a body: its answer, the record that it shows, and the tail.
fn put_reading(rt: &impl Print, d: Digest, body: &[u8]) -> io::Result<Ran> {
    let parsed = s2xv2_reader::parse(body);
    let answer = parsed.map(|parsed| parsed.tail_start);
    let d = put_answer(rt, d, answer)?;
    let d = put_record(rt, d, &shown_record(parsed))?;
    let digest = put_tail(rt, d, s2xv2_reader::reserved_tail(body))?;
    Ok(Ran { digest, answer })
}

// What was read is written back: the answer of that, and the buffer.
fn put_back(rt: &impl Print, d: Digest, body: &[u8], out: &mut [u8]) -> io::Result<Digest> {
    let record = shown_record(s2xv2_reader::parse(body));
    let tail = s2xv2_reader::reserved_tail(body);
    out.fill(165);
    let d = put_answer(rt, d, s2xv2_writer::serialize_into(record, tail, out))?;
    d.put_bytes(rt, out)
}

// A body is read, and where it is accepted written back into a buffer that is `spare` bytes longer.
pub(crate) fn run_body(
    rt: &impl Print,
    start: Digest,
    body: &[u8],
    spare: usize,
    out: &mut [u8],
) -> io::Result<Ran> {
    let Ran { digest, answer } = put_reading(rt, start, body)?;
    if answer.is_err() {
        return Ok(Ran { digest, answer });
    }
    let room = front(out, body.len().saturating_add(spare));
    let digest = put_back(rt, digest, body, room)?;
    Ok(Ran { digest, answer })
}

// A record is written into a buffer, and where it is accepted read back.
fn run_written(
    rt: &impl Print,
    d: Digest,
    record: S2Xv2SatelliteDeliverySystem,
    tail: &[u8],
    out: &mut [u8],
) -> io::Result<Ran> {
    out.fill(165);
    let answer = s2xv2_writer::serialize_into(record, tail, out);
    let d = put_answer(rt, d, answer)?;
    let mut digest = d.put_bytes(rt, out)?;
    if let Ok(n) = answer {
        digest = put_reading(rt, digest, first(out, n))?.digest;
    }
    Ok(Ran { digest, answer })
}

// A record is measured, written into a buffer of the length that its rule gives, and read back. Where it has no length, the rule takes 64.
pub(crate) fn run_record(
    rt: &impl Print,
    d: Digest,
    case: &Case,
    tails: &[u8],
    out: &mut [u8],
) -> io::Result<Ran> {
    let record = record(&case.values);
    let tail = first(tails, case.tail);
    let measured = s2xv2_measure::serialized_len(record, tail);
    let d = put_answer(rt, d, measured)?;
    let room = case.room.length(measured.unwrap_or(64));
    run_written(rt, d, record, tail, front(out, room))
}
