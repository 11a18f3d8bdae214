// A digest of what the library answers, and whether each number that goes into it is printed too.
use std::io;

// The digest, and whether it shows each number.
#[derive(Clone, Copy)]
pub(crate) struct Digest {
    pub(crate) value: u32,
    shows: bool,
}

// A number on a line of its own.
pub(crate) fn show(rt: &impl Print, v: u32) -> io::Result<()> {
    println!(rt; "{v}")
}

// The bytes of a part, each on a line of its own.
fn show_bytes(rt: &impl Print, bytes: &[u8]) -> io::Result<()> {
    for b in bytes {
        show(rt, u32::from(*b))?;
    }
    Ok(())
}

impl Digest {
    // The digest of nothing.
    pub(crate) fn empty(shows: bool) -> Digest {
        Digest { value: 0, shows }
    }

    // The digest with one number more.
    pub(crate) fn put(self, rt: &impl Print, v: u32) -> io::Result<Digest> {
        if self.shows {
            show(rt, v)?;
        }
        Ok(Digest {
            value: lines::digest::put(self.value, v),
            ..self
        })
    }

    // The digest with all bytes of a part more.
    pub(crate) fn put_bytes(self, rt: &impl Print, bytes: &[u8]) -> io::Result<Digest> {
        if self.shows {
            show_bytes(rt, bytes)?;
        }
        Ok(Digest {
            value: lines::digest::put_bytes(self.value, bytes),
            ..self
        })
    }

    // The digest with all numbers of a list more.
    pub(crate) fn put_all(self, rt: &impl Print, values: &[u32]) -> io::Result<Digest> {
        let mut d = self;
        for v in values {
            d = d.put(rt, *v)?;
        }
        Ok(d)
    }
}
