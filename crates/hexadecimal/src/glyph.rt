// What one character of the text stands for.
ghost use Rattle.std.specs.Prelude.{◌≡◌};
ghost use Rattle.hexadecimal.specs.Glyph.{is_blank, glyph_of, is_digit, is_other};

// A digit with its value, a blank, or anything else.
#[derive(Clone, Copy)]
pub enum Glyph {
    Digit(u8),
    Blank,
    Other,
}

// Whether the character is a space, a tab, a newline or a carriage return.
#[tactic(auto, using(std::proofs::lemmas::Bool::Decides::nat_tests), unfolding(crate::specs::Glyph::is_blank))]
fn is_blank(c: u8) -> bool
    ensures { result ≡ is_blank c }
{
    matches!(c, b' ' | b'\t' | b'\n' | b'\r')
}

// What the character stands for. A digit above 9 is a letter, large or small.
#[tactic(auto, using(std::proofs::lemmas::Bool::Decides::nat_tests), unfolding(crate::specs::Glyph::glyph_of))]
pub fn glyph_of(c: u8) -> Glyph
    ensures { result ≡ glyph_of c }
{
    match c {
        b'0'..=b'9' => Glyph::Digit(c - 48),
        b'A'..=b'F' => Glyph::Digit(c - 55),
        b'a'..=b'f' => Glyph::Digit(c - 87),
        _ if is_blank(c) => Glyph::Blank,
        _ => Glyph::Other,
    }
}

// Whether a character is a digit.
#[tactic(auto, using(std::proofs::lemmas::Bool::Decides::nat_tests), unfolding(crate::specs::Glyph::glyph_of, crate::specs::Glyph::is_blank))]
pub(crate) fn is_digit(c: u8) -> bool
    ensures { result ≡ is_digit (glyph_of c) }
{
    c.is_ascii_hexdigit()
}

// Whether a character is neither a digit nor a blank.
#[tactic(auto, using(std::proofs::lemmas::Bool::Decides::nat_tests), unfolding(crate::specs::Glyph::glyph_of, crate::specs::Glyph::is_blank))]
pub(crate) fn is_other(c: u8) -> bool
    ensures { result ≡ is_other (glyph_of c) }
{
    !(c.is_ascii_hexdigit() || is_blank(c))
}
