// The input: from a file or from standard input, as bytes or as hexadecimal text.
ghost use Rattle.std.specs.Prelude.{◌≤◌, length, IfOk};

use crate::options::Options;
use crate::sentence;
use hexadecimal::decode::{NotHex, decode};
use std::env::FillError;
use std::fs::File;
use std::io;
use std::io::{IsTerminal, Read};
use std::rt::Env;

// Why there is no input.
#[derive(Drop)]
pub enum Failed<'a> {
    // The word that names the file cannot be had.
    Word(FillError),
    // What has this name cannot be opened.
    Open { name: &'a [u8], why: io::Error },
    // What has this name cannot be read.
    Read { name: &'a [u8], why: io::Error },
    // The hexadecimal text has more than 65,536 bytes.
    TooLong,
    // The text is not hexadecimal.
    Text(NotHex),
}

impl From<FillError> for Failed<'_> {
    fn from(why: FillError) -> Self {
        Failed::Word(why)
    }
}

impl From<NotHex> for Failed<'_> {
    fn from(why: NotHex) -> Self {
        Failed::Text(why)
    }
}

// One read into `buf` from `at` on. It comes no further at the input's end.
fn read_some(from: &mut impl Read, buf: &mut [u8], at: usize) -> io::Result<usize>
    requires { at ≤ length buf.old }
    ensures { IfOk result (λ next. (at ≤ next) × (next ≤ length buf.old)) }
{
    let n = from.read(&mut buf[at..])?;
    Ok(at + n)
}

// Reads until `buf` is full, the input ends or a read fails. The loop is by hand: `read_exact` does not tell how much came before the input's end, and
// `read_to_end` allocates.
fn read_all(from: &mut impl Read, buf: &mut [u8]) -> io::Result<usize>
    ensures { IfOk result (λ at. at ≤ length buf.old) }
{
    let mut at = 0;
    while at < buf.len() {
        let next = read_some(from, buf, at)?;
        if next == at {
            return Ok(next);
        }
        at = next;
    }
    Ok(at)
}

// Reads what has this name into `buf`.
fn read<'a>(from: &mut impl Read, name: &'a [u8], buf: &mut [u8]) -> Result<usize, Failed<'a>>
    ensures { IfOk result (λ at. at ≤ length buf.old) }
{
    read_all(from, buf).map_err(|why| Failed::Read { name, why })
}

// Reads hexadecimal text, of which there may be 65,536 bytes, and gives what it stands for.
fn read_hex<'a>(from: &mut impl Read, name: &'a [u8], out: &mut [u8]) -> Result<usize, Failed<'a>>
    ensures { IfOk result (λ at. at ≤ length out.old) }
{
    // One byte more than a text may have, so that a longer one is seen to be.
    let mut text = [0u8; 65537];
    let n = read(from, name, &mut text)?;
    if 65536 < n {
        return Err(Failed::TooLong);
    }
    Ok(decode(&text[..n], out)?)
}

// Reads what is open and has this name. Before a terminal says what is waited for.
fn read_open<'a, R: Read + IsTerminal>(
    rt: &HostRuntime,
    from: &mut R,
    name: &'a [u8],
    o: Options,
    out: &mut [u8],
) -> Result<usize, Failed<'a>>
    ensures { IfOk result (λ at. at ≤ length out.old) }
{
    if from.is_terminal() {
        sentence::waiting(rt, o);
    }
    if o.hex {
        read_hex(from, name, out)
    } else {
        read(from, name, out)
    }
}

// Opens the file with this name, which must be text: every path is.
fn open(rt: &HostRuntime, name: &[u8]) -> io::Result<File> {
    match str::from_utf8(name) {
        Ok(path) => File::open(rt, path),
        Err(_) => Err(io::Error::new(io::ErrorKind::InvalidInput, "The name is not UTF-8")),
    }
}

// Reads the input that the options name, as far as `out` reaches. `space` is for the file's name.
pub(crate) fn take<'a>(
    rt: &HostRuntime,
    o: Options,
    space: &'a mut [u8],
    out: &mut [u8],
) -> Result<usize, Failed<'a>>
    ensures { IfOk result (λ at. at ≤ length out.old) }
{
    let Some(i) = o.file else {
        return read_open(rt, &mut rt.stdin(), b"standard input", o, out);
    };
    let n = rt.arg(i, space)?;
    let name = &space[..n];
    let mut file = open(rt, name).map_err(|why| Failed::Open { name, why })?;
    read_open(rt, &mut file, name, o, out)
}
