// The generator: a congruence modulo 2^32, of which only the high bits are used. `replay_jobs` has one alike: two programs share the library alone, which has
// no use for it.

// The state after one.
pub(crate) fn next(x: u32) -> u32 {
    x.wrapping_mul(1_664_525).wrapping_add(1_013_904_223)
}

// Where the generator starts for a case.
pub(crate) fn seed(case: u32) -> u32 {
    next(next(case))
}

// Fills a buffer from a state on, and gives the state after it.
pub(crate) fn fill(bytes: &mut [u8], start: u32) -> u32 {
    let mut x = start;
    for b in bytes {
        x = next(x);
        *b = (x >> 24) as u8;
    }
    x
}

// The draws of a record: states with their halves exchanged.
pub(crate) fn draws(case: u32) -> [u32; 48] {
    let mut drawn = [0; 48];
    let mut x = seed(case);
    for d in &mut drawn {
        x = next(x);
        *d = x.rotate_left(16);
    }
    drawn
}

// A mode: those that have a meaning come up more often than the others.
pub(crate) fn mode_of(draw: u32) -> u8 {
    let m = (draw % 46) as u8;
    if m < 16 { m } else { (m - 16) % 6 }
}
