// How the program is called. Where a line cannot be written, there is nowhere left to say so.

// The line that shows every word.
const USAGE: &str = "usage: s2xv2dump [--hex] [--descriptor | --slot] [FILE]";

// The lines of the longer text behind that one.
const HELP: [&str; 5] = [
    "Prints the text of the S2Xv2 body in FILE, or on standard input.",
    "  --hex         the input is hexadecimal text, with blanks anywhere",
    "  --descriptor  the input is a descriptor: 0x7F, a length, 0x24 and the body",
    "  --slot        the input is a slot, which holds a descriptor or is empty",
    "  --help        prints this text",
];

// Says the line on standard error, for words that cannot be followed.
pub(crate) fn wrong(rt: &impl Eprint) {
    let _ = rt.eprintln(USAGE);
}

// Prints the longer text.
pub(crate) fn help(rt: &impl Print) {
    let _ = rt.println(USAGE);
    for line in HELP {
        let _ = rt.println(line);
    }
}
