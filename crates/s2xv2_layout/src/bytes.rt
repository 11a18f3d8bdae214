// Bytes of a body that may end before them.
ghost use Rattle.std.specs.Prelude.{◌≡◌, ◌/◌, ◌%◌, get_or};
ghost use Rattle.wire.specs.Flags.{is_one};

use wire::field::flag;

// Byte `i`; behind the end it counts as 0.
pub(crate) fn byte(s: &[u8], i: usize) -> u8
    ensures { result ≡ get_or s.now i 0 }
{
    s.get(i).copied().unwrap_or(0)
}

// Whether the bit of weight `d` is set in byte `i`.
pub(crate) fn flag_at(s: &[u8], i: usize, d: u8) -> bool
    ensures { result ≡ is_one (get_or s.now i 0 / d % 2) }
{
    flag(byte(s, i), d)
}
