// Reads the body of an S2Xv2 satellite delivery system descriptor.
#![tactic(auto)]

ghost use Rattle.std.specs.Prelude.{◌≡◌};
ghost use Rattle.answers.specs.Answer.{told};
ghost use Rattle.s2xv2.specs.Read.{read_told, read_of, tail_of};
ghost use Rattle.answers.specs.Plain.{answer_out};
ghost use Rattle.s2xv2_plain.specs.Output.{numbers_of, bytes_of};
ghost use Rattle.s2xv2_reader.specs.Seen.{seen, end_in};

use crate::whole::put_all;
use answers::answer::{Refusal, saturated};
use answers::plain::{PlainAnswer, answer_out};
use s2xv2::record::S2Xv2SatelliteDeliverySystem;
use s2xv2_layout::ends::ends_of;
use s2xv2_layout::missing::missing;
use s2xv2_layout::present::present_in;
use s2xv2_plain::input::of_plain;
use s2xv2_plain::output::clear;

mod bytes;
mod core_part;
mod parts;
mod superframe;
mod whole;

// What a body reads as: where its tail starts, and the record.
#[derive(Clone, Copy)]
pub struct Parsed {
    pub tail_start: usize,
    pub body: S2Xv2SatelliteDeliverySystem,
}

// Stores the record of the body `sel` as the numbers `w` and the bytes `b`, and answers where its tail starts: the reader itself. For a body that `parse`
// refuses it answers none, and stores the default record.
pub fn read_into(sel: &[u8], w: &mut [u32; 10], b: &mut [u8; 36]) -> Option<usize>
    ensures end { result ≡ end_in (read_of sel.now).told }
    ensures numbers { w.new ≡ numbers_of (read_of sel.now).body }
    ensures bytes { b.new ≡ bytes_of (read_of sel.now).body }
{
    let have = sel.len();
    if 18 <= have && have <= 4096 {
        if let Some(end) = put_all(sel, w, b) {
            return Some(end);
        }
    }
    clear(w, b);
    None
}

// What `parse` answers, with the record as the numbers `w` and the bytes `b`.
pub fn parse_into(sel: &[u8], w: &mut [u32; 10], b: &mut [u8; 36]) -> PlainAnswer
    ensures answer { result ≡ answer_out (read_of sel.now).told }
    ensures numbers { w.new ≡ numbers_of (read_of sel.now).body }
    ensures bytes { b.new ≡ bytes_of (read_of sel.now).body }
{
    match read_into(sel, w, b) {
        Some(end) => answer_out(Ok(end)),
        None => answer_out(parse_answer(sel)),
    }
}

// The record of the body `sel`. Refuses a body of more than 4,096 bytes, and one that ends inside a part that its mode, flags
// and bond count ask for.
pub fn parse(sel: &[u8]) -> Result<Parsed, Refusal>
    ensures { seen result ≡ read_of sel.now }
{
    let mut w = [0u32; 10];
    let mut b = [0u8; 36];
    let tail_start = match read_into(sel, &mut w, &mut b) {
        Some(end) => end,
        None => parse_answer(sel)?,
    };
    Ok(Parsed {
        tail_start,
        body: of_plain(&w, &b),
    })
}

// The record that an answer of `parse` shows: the default one for a body that is refused.
pub fn shown_record(parsed: Result<Parsed, Refusal>) -> S2Xv2SatelliteDeliverySystem
    ensures { result ≡ (seen parsed).body }
{
    match parsed {
        Ok(parsed) => parsed.body,
        Err(_) => S2Xv2SatelliteDeliverySystem::default(),
    }
}

// What `parse` answers for the body `sel`, without the record.
pub fn parse_answer(sel: &[u8]) -> Result<usize, Refusal>
    ensures { told result ≡ read_told sel.now }
{
    if 4096 < sel.len() {
        return Err(Refusal::Long {
            length: saturated(sel.len()),
        });
    }
    missing(sel.len(), ends_of(sel, present_in(sel)))
}

// Where the tail of the body `sel` starts. None for a body that `parse` refuses.
pub fn tail_start(sel: &[u8]) -> Option<usize>
    ensures { result ≡ end_in (read_told sel.now) }
{
    let end = ends_of(sel, present_in(sel)).superframe;
    (end <= sel.len() && sel.len() <= 4096).then_some(end)
}

// The tail of the body `sel`: all that is left behind its parts. Nothing of a body that `parse` refuses.
pub fn reserved_tail(sel: &[u8]) -> &[u8]
    ensures { result.now ≡ tail_of sel.now }
{
    match tail_start(sel) {
        Some(start) => &sel[start..],
        None => &sel[..0],
    }
}
