// What a mode asks for, as the bytes of a record say it.
ghost use Rattle.std.specs.Prelude.{◌≡◌, ◌+◌, ◌*◌};
ghost use Rattle.wire.specs.Flags.{bit};
ghost use Rattle.s2xv2.specs.Table144c.{mode_of, has_selector, has_timeslice, has_superframe};
ghost use Rattle.s2xv2_plain.specs.Output.{is_reserved};

use s2xv2::mode::{ModeRow, S2Xv2Mode};
use wire::field::bit_of;

// Four bytes as one word: `reserved`, which is the lowest, and those of a row.
fn word(reserved: u8, row: ModeRow) -> u32
    ensures { result ≡ ((bit row.superframe * 256 + bit row.timeslice) * 256 + bit row.selector) * 256 + reserved }
{
    u32::from_le_bytes([
        reserved,
        bit_of(row.selector),
        bit_of(row.timeslice),
        bit_of(row.superframe),
    ])
}

// What the mode of a code asks for, as one word: the four bytes of a record from `MODE_IS_RESERVED` on, the first the lowest. The codes that have a name
// are told apart first, so that the compiler knows their rows.
pub fn asked(code: u8) -> u32
    ensures { result ≡
        ((bit (has_superframe (mode_of code)) * 256 + bit (has_timeslice (mode_of code))) * 256 + bit (has_selector (mode_of code))) * 256
        + is_reserved (mode_of code) }
{
    if 5 < code {
        word(1, S2Xv2Mode::Reserved(code).row())
    } else {
        word(0, S2Xv2Mode::from_u8(code).row())
    }
}
