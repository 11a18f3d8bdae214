// A lent buffer that is filled from a place on, as far as it reaches.
ghost use Rattle.std.specs.Prelude.{◌≡◌, ◌∷◌, []};
ghost use Rattle.lines.specs.Out.{◌from◌};
ghost use Rattle.lines.specs.Sheet.{buffer_of, out_of, Put};

use crate::put;

// A lent buffer, and the place where the next byte goes. It has no model: that was tried, and a caller could not prove what its buffer holds when
// the sheet ends.
#[derive(Drop)]
pub struct Sheet<'a> {
    out: &'a mut [u8],
    at: usize,
}

impl<'a> Sheet<'a> {
    // A sheet that is filled from the start of the buffer on.
    pub fn new(out: &'a mut [u8]) -> Self
        ensures same { buffer_of result ≡ out.entry.ghost_name }
        ensures start { out_of result ≡ out.old from 0 }
    {
        Sheet { out, at: 0 }
    }

    // A sheet that is filled from a place on. That may lie behind the buffer's end: nothing is put then, and the place stays.
    pub fn from_place(out: &'a mut [u8], at: usize) -> Self
        ensures same { buffer_of result ≡ out.entry.ghost_name }
        ensures start { out_of result ≡ out.old from at }
    {
        Sheet { out, at }
    }

    // The place behind what was put.
    pub fn at(&self) -> usize
        ensures { result ≡ (out_of self.now).at }
    {
        self.at
    }

    // One byte.
    pub fn put(&mut self, b: u8)
        ensures { Put self.old (b ∷ []) self.new }
    {
        self.at = put::put(self.out, self.at, b);
    }

    // All bytes of a text.
    pub fn copy(&mut self, text: &[u8])
        ensures { Put self.old text.now self.new }
    {
        for b in text {
            self.put(*b);
        }
    }
}
