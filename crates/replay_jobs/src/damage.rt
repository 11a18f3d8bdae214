// Other bytes at drawn places.
use crate::sample::{draw, next};

// Another byte in place of `b`.
fn other(b: u8, e: usize) -> u8 {
    match e % 8 {
        0 => 0x42,
        1 => 0x7F,
        2 => 0x24,
        3 => 0,
        4 => 1,
        5 => b.wrapping_add(1),
        6 => b.wrapping_sub(1),
        _ => (e / 256 % 256) as u8,
    }
}

// Where asked, another byte at one place, which is more often one of the first four.
pub(crate) fn damage(slot: &mut [u8], asked: bool, x: u32) {
    let n = slot.len();
    if n == 0 || !asked {
        return;
    }
    let d = draw(x);
    let at = if d % 4 == 0 { d / 4 % 4 } else { d / 4 % n };
    if let Some(b) = slot.get_mut(at) {
        *b = other(*b, draw(next(x)));
    }
}
