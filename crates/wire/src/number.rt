// Numbers of several bytes, most significant first.
ghost use Rattle.std.specs.Prelude.{◌≡◌, [], ◌∷◌};
ghost use Rattle.wire.specs.Bits.{bits};
ghost use Rattle.wire.specs.Widths.{be};

// Three bytes as a number.
pub fn be24(a: u8, b: u8, c: u8) -> u32
    ensures { result ≡ bits (a ∷ b ∷ c ∷ []) 0 0 24 }
{
    u32::from_be_bytes([0, a, b, c])
}

// Four bytes as a number.
pub fn be32(a: u8, b: u8, c: u8, d: u8) -> u32
    ensures { result ≡ bits (a ∷ b ∷ c ∷ d ∷ []) 0 0 32 }
{
    u32::from_be_bytes([a, b, c, d])
}

// A number as its four bytes.
pub fn be_bytes(v: u32) -> [u8; 4]
    ensures { result ≡ be 4 v }
{
    v.to_be_bytes()
}

// The lower 24 bits of a number as three bytes.
pub fn be_bytes_24(v: u32) -> [u8; 3]
    ensures { result ≡ be 3 v }
{
    let [_, a, b, c] = v.to_be_bytes();
    [a, b, c]
}
