// What the words of the command line ask for.
use std::env::FillError;
use std::fmt;
use std::rt::Env;

// What the input is.
#[derive(Clone, Copy, Default, PartialEq, Eq)]
pub enum Kind {
    #[default]
    Body,
    Descriptor,
    Slot,
}

impl fmt::Display for Kind {
    fn fmt<W: fmt::Write>(&self, f: &mut fmt::Formatter<W>) -> fmt::Result {
        f.write_str(match self {
            Kind::Body => "body",
            Kind::Descriptor => "descriptor",
            Kind::Slot => "slot",
        })
    }
}

// What one word says.
#[derive(Clone, Copy)]
enum Word {
    Help,
    Hex,
    // What the input is.
    Kind(Kind),
    // It names a file.
    File,
    // It begins as an option does, and is none.
    Unknown,
}

// What all words together say: with no word at all, a body on standard input.
#[derive(Clone, Copy, Default)]
pub struct Options {
    pub help: bool,
    pub hex: bool,
    pub kind: Kind,
    // Which word names the file, if it is not standard input.
    pub file: Option<usize>,
}

// What a word says.
fn word_of(word: &[u8]) -> Word {
    match word {
        b"--help" => Word::Help,
        b"--hex" => Word::Hex,
        b"--descriptor" => Word::Kind(Kind::Descriptor),
        b"--slot" => Word::Kind(Kind::Slot),
        [b'-', ..] => Word::Unknown,
        _ => Word::File,
    }
}

// What word `i` of the command line says, if there is one. One of more than 4,096 bytes, which is at best a file's name,
// reads as empty.
fn word_at(rt: &impl Env, i: usize) -> Option<Word> {
    let mut space = [0u8; 4096];
    match rt.arg(i, &mut space) {
        Ok(n) => Some(word_of(&space[..n])),
        Err(FillError::TooLong) => Some(word_of(&[])),
        Err(FillError::NotPresent) => None,
    }
}

// The options with one more word, the word `i`, unless it is unknown or does not go with those before it: there is one file, and an input is not both a
// descriptor and a slot.
fn with(mut o: Options, word: Word, i: usize) -> Option<Options> {
    match word {
        Word::Help => o.help = true,
        Word::Hex => o.hex = true,
        Word::Kind(kind) => {
            if o.kind != Kind::Body && o.kind != kind {
                return None;
            }
            o.kind = kind;
        }
        Word::File => {
            if o.file.replace(i).is_some() {
                return None;
            }
        }
        Word::Unknown => return None,
    }
    Some(o)
}

// What all words of the command line but the program's own name ask for, if they go together.
pub(crate) fn given(rt: &impl Env) -> Option<Options> {
    let mut o = Options::default();
    for i in 1..usize::MAX {
        let Some(word) = word_at(rt, i) else {
            break;
        };
        o = with(o, word, i)?;
    }
    Some(o)
}
