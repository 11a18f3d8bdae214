// Fields inside one byte, and bytes that are flags.
ghost use Rattle.std.specs.Prelude.{◌≡◌, ◌/◌, ◌%◌, ◌<◌};
ghost use Rattle.wire.specs.Flags.{when, bit, is_one, joined_of};

// The field of `b` below `m` that stands above `d`: both are powers of two, as 16 and 4 for bits 5 and 4 (from the right, 0 first).
// Nothing stands above a `d` of 0, and an `m` of 0 bounds nothing.
pub fn field(b: u8, d: u8, m: u8) -> u8
    ensures { result ≡ b / d % m }
{
    if d == 0 {
        0
    } else if m == 0 {
        b / d
    } else {
        b / d % m
    }
}

// Whether the bit of weight `d` is set in `b`.
pub fn flag(b: u8, d: u8) -> bool
    ensures { result ≡ is_one (b / d % 2) }
{
    d != 0 && b / d % 2 == 1
}

// A flag as a bit.
pub fn bit_of(b: bool) -> u8
    ensures { (result ≡ bit b) × (result < 2) }
{
    u8::from(b)
}

// The first number where the flag is set, and the second where it is clear.
pub fn picked(flag: u8, first: u8, second: u8) -> u8
    ensures { result ≡ when (is_one flag) first second }
{
    if flag == 1 { first } else { second }
}

// The bits of both bytes: below a power of two only if both are.
#[tactic(auto, unfolding(crate::specs::Flags::joined_of))]
pub fn joined(a: u8, b: u8) -> u8
    ensures { result ≡ joined_of a b }
{
    a | b
}
