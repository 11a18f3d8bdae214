// What the input holds, printed.
use crate::descriptor::body_in;
use crate::sentence;
use answers::answer::Refusal;
use std::{fmt, io};

// The line of a slot that is refused: the word, the number of the refusal, and the numbers that it tells.
#[derive(Clone, Copy)]
struct Refused(Refusal);

impl fmt::Display for Refused {
    fn fmt<W: fmt::Write>(&self, f: &mut fmt::Formatter<W>) -> fmt::Result {
        let told = self.0.told();
        f.write_str("refused")?;
        for n in told.numbers.iter().take(told.count) {
            write!(f, " {n}")?;
        }
        f.write_str("\n")
    }
}

// Says that a text could not be written, if it could not.
fn written(rt: &HostRuntime, done: io::Result<()>) {
    if done.is_err() {
        sentence::say(rt, "cannot write");
    }
}

// Prints the text of a body, or the line of one that is refused, and says why.
pub(crate) fn body(rt: &HostRuntime, sel: &[u8]) {
    // Room for the longest text.
    let mut out = [0u8; 2048];
    if let Ok(length) = s2xv2_text::dump(sel, &mut out) {
        written(rt, rt.write_all(&out[..length]));
    }
    if let Err(why) = s2xv2_reader::parse_answer(sel) {
        sentence::refusal(rt, why);
    }
}

// Prints the body of a descriptor, or says why the input is none of S2Xv2.
pub(crate) fn descriptor(rt: &HostRuntime, s: &[u8]) {
    match body_in(s) {
        Ok(sel) => body(rt, sel),
        Err(why) => sentence::say(rt, why),
    }
}

// Prints what a slot holds: the text of its body, that it is empty, or the line of one that is refused, and says why.
pub(crate) fn slot(rt: &HostRuntime, s: &[u8]) {
    match slot::read::read(s) {
        Ok(Some(_)) => body(rt, slot::read::body_in(s)),
        Ok(None) => written(rt, rt.println("empty")),
        Err(why) => {
            written(rt, rt.print(Refused(why)));
            sentence::refusal(rt, why);
        }
    }
}
