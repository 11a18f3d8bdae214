// What is said on standard error, in sentences. Where one cannot be written, there is nowhere left to say so.
use crate::input::Failed;
use crate::options::Options;
use answers::answer::Refusal;
use hexadecimal::decode::NotHex;
use std::env::FillError;
use std::fmt::Display;
use std::io;

// Says a sentence, with the program's name before it.
pub(crate) fn say(rt: &HostRuntime, text: impl Display + Drop) {
    let _ = eprintln!(rt; "s2xv2dump: {text}");
}

// What an error says, without the system's number of it, which stands at the end.
fn words_of(text: &str) -> &str {
    text.split_once(" (os error ")
        .map_or(text, |(words, _)| words)
}

// Says that the input with this name cannot be read, or opened, and why, with the error's number only where there is no
// memory to leave that out. The name is put as it is, and need not be text.
fn cannot(rt: &HostRuntime, what: &str, name: &[u8], why: io::Error) {
    let _ = eprint!(rt; "s2xv2dump: cannot {what} ");
    let _ = rt.stderr().write_all(name);
    let _ = match why.to_string(rt.alloc()) {
        Ok(text) => eprintln!(rt; ": {}", words_of(text.as_str())),
        Err(_) => eprintln!(rt; ": {why}"),
    };
}

// Says why a text is not hexadecimal.
fn no_hex(rt: &HostRuntime, why: NotHex) {
    match why {
        NotHex::Character { at } => say(
            rt,
            format_args!(
                "the text has a character at offset {at} that is neither a hexadecimal digit nor a blank"
            ),
        ),
        NotHex::Odd { length: _ } => say(
            rt,
            "the text ends inside a byte: it has an odd number of digits",
        ),
    }
}

// Says why there is no input.
pub(crate) fn failed(rt: &HostRuntime, why: Failed) {
    match why {
        Failed::Word(FillError::TooLong) => say(rt, "the file's name: File name too long"),
        Failed::Word(FillError::NotPresent) => say(rt, "the file's name: Invalid argument"),
        Failed::Open { name, why } => cannot(rt, "open", name, why),
        Failed::Read { name, why } => cannot(rt, "read", name, why),
        Failed::TooLong => say(rt, "the hexadecimal text has more than 65536 bytes"),
        Failed::Text(why) => no_hex(rt, why),
    }
}

// Says what is waited for.
pub(crate) fn waiting(rt: &HostRuntime, o: Options) {
    let kind = o.kind;
    let how = if o.hex { " in hexadecimal" } else { "" };
    say(
        rt,
        format_args!("waiting for a {kind}{how}, up to the end of the input (Ctrl-D)"),
    );
}

// The part of a body that has this place in answer 1, as what the body ends inside of, or, if it is one byte, before.
fn part(place: u8) -> &'static str {
    match place {
        1 => "inside the core",
        2 => "before the input stream identifier",
        3 => "inside the scrambling index",
        4 => "before the timeslice number",
        5 => "before the bond header",
        6 => "inside a secondary id",
        7 => "inside the superframe block",
        8 => "inside the plan id",
        _ => "before the last byte of the superframe block",
    }
}

// Says which part a body of `have` bytes lacks, which would end at byte `need`, and how long the whole is at the least.
fn short(rt: &HostRuntime, place: u8, need: usize, have: usize, least: usize) {
    let part = part(place);
    let are = if have == 1 { "is" } else { "are" };
    say(
        rt,
        format_args!(
            "the body ends {part}: {need} bytes are needed, {have} {are} there, and the whole has at least {least}"
        ),
    );
}

// Says a refusal. Reading a body gives no other than the first two, and reading a slot the next two beside them.
pub(crate) fn refusal(rt: &HostRuntime, why: Refusal) {
    match why {
        Refusal::Short {
            place,
            need,
            have,
            least,
        } => short(rt, place, need, have, least),
        Refusal::Long { length: _ } => say(rt, "the body has more than 4096 bytes"),
        Refusal::Slot => say(rt, "the slot has a wrong size: a slot has 21 to 257 bytes"),
        Refusal::SlotForm { offset } => say(
            rt,
            format_args!(
                "the slot is not in good form: the descriptor at offset {offset} breaks it"
            ),
        ),
        Refusal::Inconsistent { place: _ }
        | Refusal::Field { place: _ }
        | Refusal::Room { need: _, have: _ }
        | Refusal::NoFit { size: _ } => say(rt, "the input is refused"),
    }
}
