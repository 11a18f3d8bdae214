// One byte, and the place where it goes.
#[derive(Clone, Copy)]
pub struct Store {
    pub place: usize,
    pub byte: u8,
}
