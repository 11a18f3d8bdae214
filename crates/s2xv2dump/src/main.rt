// Prints the text of a body, which it reads from a file or from standard input: at most 4,097 bytes. The body may stand
// in a descriptor or in a slot, and the input may be hexadecimal text.
#![tactic(auto)]

use options::{Kind, Options};

mod descriptor;
mod input;
mod options;
mod sentence;
mod show;
mod usage;

// Prints what the input holds, by what the options say that it is.
fn print(rt: &HostRuntime, kind: Kind, s: &[u8]) {
    match kind {
        Kind::Body => show::body(rt, s),
        Kind::Descriptor => show::descriptor(rt, s),
        Kind::Slot => show::slot(rt, s),
    }
}

// Reads the input and prints what it holds, or says why there is none.
fn run(rt: &HostRuntime, o: Options) {
    let mut name = [0u8; 4096];
    // One byte more than a body may have, so that a longer one is seen to be.
    let mut bytes = [0u8; 4097];
    match input::take(rt, o, &mut name, &mut bytes) {
        Ok(n) => print(rt, o.kind, &bytes[..n]),
        Err(why) => sentence::failed(rt, why),
    }
}

// Does what the words of the command line ask for, or says how the program is called.
fn main(rt: HostRuntime) {
    match options::given(&rt) {
        None => usage::wrong(&rt),
        Some(o) if o.help => usage::help(&rt),
        Some(o) => run(&rt, o),
    }
}
