// The generator of `replay`, and counts.

// The state of the generator after one.
pub(crate) fn next(x: u32) -> u32 {
    x.wrapping_mul(1_664_525).wrapping_add(1_013_904_223)
}

// Where the generator starts for a case.
pub(crate) fn seed(case: u32) -> u32 {
    next(next(case))
}

// The high half of a state.
pub(crate) fn draw(x: u32) -> usize {
    (x >> 16) as usize
}

// Fills a buffer.
pub(crate) fn fill(bytes: &mut [u8], case: u32) {
    let mut x = seed(case);
    for b in bytes {
        x = next(x);
        *b = (x >> 24) as u8;
    }
}

// Counts one answer.
pub(crate) fn count(counts: &mut [u32], cell: usize) {
    if let Some(n) = counts.get_mut(cell) {
        *n = n.wrapping_add(1);
    }
}
