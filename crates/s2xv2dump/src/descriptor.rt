// A descriptor of S2Xv2, with its envelope and nothing behind it.
use form::envelope::{EXTENSION, TAG};
use std::fmt;

// Why an input is no descriptor whose body can be printed.
#[derive(Clone, Copy)]
pub enum NoDescriptor {
    // Before the body stand the tag, the length and the extension.
    Short,
    // Behind the length are at most 255 bytes.
    Long,
    // The first byte.
    Tag,
    // The third byte.
    Extension,
    // It tells another number of bytes than are there.
    Length { told: usize, have: usize },
}

impl fmt::Display for NoDescriptor {
    fn fmt<W: fmt::Write>(&self, f: &mut fmt::Formatter<W>) -> fmt::Result {
        let why = match self {
            NoDescriptor::Short => "it has less than 3 bytes",
            NoDescriptor::Long => "it has more than 257 bytes",
            NoDescriptor::Tag => "its first byte is not 0x7F",
            NoDescriptor::Extension => "its third byte is not 0x24",
            NoDescriptor::Length { told, have } => {
                return write!(
                    f,
                    "the descriptor has {told} bytes by its length, and {have} are there"
                );
            }
        };
        write!(f, "the input is no descriptor of S2Xv2: {why}")
    }
}

// The body of a descriptor that has our envelope and as many bytes as its length tells.
pub(crate) fn body_in(s: &[u8]) -> Result<&[u8], NoDescriptor> {
    let [tag, length, extension, body @ ..] = s else {
        return Err(NoDescriptor::Short);
    };
    let have = s.len();
    if 257 < have {
        return Err(NoDescriptor::Long);
    }
    if *tag != TAG {
        return Err(NoDescriptor::Tag);
    }
    if *extension != EXTENSION {
        return Err(NoDescriptor::Extension);
    }
    let told = usize::from(*length) + 2;
    if told != have {
        return Err(NoDescriptor::Length { told, have });
    }
    Ok(body)
}
