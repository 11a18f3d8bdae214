// The bodies of the sets.
use crate::draw::{fill, mode_of, next, seed};

// A body that stands at the start of a buffer: its length, and how much longer than it the buffer is into which it is written back.
#[derive(Clone, Copy)]
pub(crate) struct Made {
    pub(crate) length: usize,
    pub(crate) spare: usize,
}

// What the core asks for, and whether the other bits are set.
#[derive(Clone, Copy)]
struct Shape {
    mode: u8,
    flag: bool,
    bond: u8,
    top: bool,
    second: bool,
    hop: bool,
    full: bool,
}

// The first bytes of a buffer, as far as it reaches.
pub(crate) fn front(bytes: &mut [u8], n: usize) -> &mut [u8] {
    let end = n.min(bytes.len());
    &mut bytes[..end]
}

// Whether a number is odd.
fn odd(v: u32) -> bool {
    v % 2 == 1
}

// Some bits, where they are set.
fn bits_if(set: bool, bits: u8) -> u8 {
    if set { bits } else { 0 }
}

impl Shape {
    // Byte `k`: those after the core are all alike, so that the bond header and the superframe block find their bits wherever they stand.
    fn byte(self, k: usize) -> u8 {
        match k {
            4 => self.mode % 16 * 16 | bits_if(self.flag, 8) | bits_if(self.full, 7),
            5 => self.bond % 4 * 4 | bits_if(self.full, 243),
            6 => bits_if(self.top, 128) | bits_if(self.full, 127),
            0..=17 => bits_if(self.full, 255),
            _ => bits_if(self.second, 1) | bits_if(self.hop, 64) | bits_if(self.full, 190),
        }
    }

    // The first `n` bytes.
    fn lay(self, bytes: &mut [u8], n: usize) {
        for (k, b) in bytes.iter_mut().enumerate().take(n) {
            *b = self.byte(k);
        }
    }
}

// Every shape cut at every length.
pub(crate) fn cut(case: u32, body: &mut [u8]) -> Made {
    let s = case / 46;
    let asked = Shape {
        mode: (s % 16) as u8,
        flag: odd(s / 16),
        bond: (s / 32 % 4) as u8,
        top: odd(s / 128),
        second: odd(s / 256),
        hop: odd(s / 512),
        full: odd(s / 1024),
    };
    asked.lay(body, 46);
    Made {
        length: (case % 46) as usize,
        spare: 1,
    }
}

// The walk over a body's bits: each one turned over alone, the others clear or set.
pub(crate) fn bit(case: u32, body: &mut [u8]) -> Made {
    let s = case / 360;
    let asked = Shape {
        mode: (s % 8) as u8,
        flag: odd(s / 8),
        bond: (s / 16 % 2) as u8,
        top: odd(s / 32),
        second: odd(s / 64),
        hop: odd(s / 64),
        full: odd(s / 128),
    };
    asked.lay(body, 45);
    let at = case % 360;
    if let Some(b) = body.get_mut((at / 8) as usize) {
        *b ^= 1 << (at % 8);
    }
    Made {
        length: 45,
        spare: 0,
    }
}

// How long a drawn body is: mostly below 64, in one case of 1,024 longer, half of these at the limit.
fn length_of(case: u32, draw: u32) -> usize {
    if case % 1024 != 1023 {
        return (draw % 64) as usize;
    }
    if draw % 2 == 0 {
        (4090 + draw / 2 % 8) as usize
    } else {
        (64 + draw / 2 % 4034) as usize
    }
}

// The mode, and in every second case a list of bonds: channel_bond 1.
fn set_core(case: u32, draw: u32, body: &mut [u8]) {
    if body.len() <= 5 {
        return;
    }
    body[4] = mode_of(draw) % 16 * 16 | body[4] % 16;
    if case % 2 == 0 {
        body[5] = body[5] / 16 * 16 | 4 | body[5] % 4;
    }
}

// Bodies by draws.
pub(crate) fn drawn(case: u32, body: &mut [u8]) -> Made {
    let first = next(seed(case));
    let length = length_of(case, first / 65_536);
    let body = front(body, length);
    let x = next(fill(body, first));
    set_core(case, x / 65_536, body);
    Made {
        length,
        spare: (next(x) / 65_536 % 3) as usize,
    }
}
