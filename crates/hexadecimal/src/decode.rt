// Text to bytes.
ghost use Rattle.std.specs.Prelude.{◌≡◌, ◌<◌, ◌≤◌, ◌∷◌, [], length, position};
ghost use Rattle.lines.specs.Out.{◌from◌, Wrote};
ghost use Rattle.lines.specs.Sheet.{Put};
ghost use Rattle.hexadecimal.specs.Glyph.{glyph_of, digit_in, is_other};
ghost use Rattle.hexadecimal.specs.Text.{digits_of, hex_bytes, answer_of, decoded_into};
ghost use Rattle.hexadecimal.specs.Pen.{held_in, Low, Moved};

use crate::glyph::{Glyph, glyph_of, is_digit, is_other};
use lines::sheet::Sheet;

// Why a text stands for no bytes.
#[derive(Clone, Copy, PartialEq, Eq)]
pub enum NotHex {
    // The first character that is neither a digit nor a blank stands at this offset.
    Character { at: usize },
    // The text, of this length, ends inside a byte.
    Odd { length: usize },
}

// The offset of the first character that is neither a digit nor a blank.
fn first_other(text: &[u8]) -> Option<usize>
    ensures { result ≡ position (λ c. is_other (glyph_of c)) text.now }
{
    text.iter().position(|c| is_other(*c))
}

// How many digits a part of a text has. It is short enough for a byte to count them, so that the compiler takes many characters at once.
fn count_part(part: &[u8]) -> u8
    requires { length part.now ≤ 240 }
    ensures { result ≡ length (digits_of part.now) }
{
    let mut n = 0;
    for c in part {
        n += u8::from(is_digit(*c));
    }
    n
}

// How many digits the text has: those of its parts together. A part has 240 characters, the most that a byte counts in multiples of sixteen.
fn count(text: &[u8]) -> usize
    ensures { result ≡ length (digits_of text.now) }
{
    let mut n = 0;
    for part in text.chunks(240) {
        n += usize::from(count_part(part));
    }
    n
}

// One more digit, behind the first one of its byte if that has come: that one is kept, and the second makes the byte whole. Gives what is kept
// then.
fn add(sheet: &mut Sheet, high: Option<u8>, d: u8) -> Option<u8>
    requires { Low (held_in high) × (d < 16) }
    ensures { Moved sheet.old high (d ∷ []) sheet.new result }
{
    match high {
        None => Some(d),
        Some(h) => {
            sheet.put(h * 16 + d);
            None
        }
    }
}

// One more character.
fn step(sheet: &mut Sheet, high: Option<u8>, c: u8) -> Option<u8>
    requires { Low (held_in high) }
    ensures { Moved sheet.old high (digit_in (glyph_of c)) sheet.new result }
{
    match glyph_of(c) {
        Glyph::Digit(d) => add(sheet, high, d),
        Glyph::Blank | Glyph::Other => high,
    }
}

// The bytes of the text.
fn bytes(sheet: &mut Sheet, text: &[u8])
    ensures { Put sheet.old (hex_bytes text.now) sheet.new }
{
    let mut high = None;
    for c in text {
        high = step(sheet, high, *c);
    }
}

// Stores the bytes of the text from the start of the buffer on, as far as it reaches, and gives the place behind them.
fn store(text: &[u8], out: &mut [u8]) -> usize
    ensures { Wrote (out.old from 0) (hex_bytes text.now) (out.new from result) }
{
    let mut sheet = Sheet::new(out);
    bytes(&mut sheet, text);
    sheet.at()
}

// Puts the bytes that the text stands for at the start of `out`, as far as it reaches, and tells how many they are there. A refused text
// stores nothing.
#[tactic(auto, using(std::proofs::lemmas::Bool::Decides::nat_tests), unfolding(crate::specs::Text::is_sound, crate::specs::Text::fault_of, crate::specs::Text::answer_of, crate::specs::Text::decoded_into))]
pub fn decode(text: &[u8], out: &mut [u8]) -> Result<usize, NotHex>
    ensures answer { result ≡ answer_of text.now out.old }
    ensures bytes { out.new ≡ decoded_into text.now out.old }
{
    if let Some(at) = first_other(text) {
        return Err(NotHex::Character { at });
    }
    if count(text) % 2 == 1 {
        return Err(NotHex::Odd { length: text.len() });
    }
    Ok(store(text, out))
}
