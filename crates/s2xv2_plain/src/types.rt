// A record that crosses to C and back. Both arrays cross as references of their own, `w` and `b`, which is why they go beside one another wherever they are lent:
// to put them into one struct would copy them.

// Its numbers and its bytes, at the places that `places` names. A flag is a byte, 0 or 1; a number that may be absent has a flag `HAS_` beside
// it, and is 0 where it is absent.
#[derive(Clone, Copy)]
pub struct Plain {
    pub numbers: [u32; 10],
    pub bytes: [u8; 36],
}
