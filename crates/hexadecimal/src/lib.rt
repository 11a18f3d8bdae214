// Hexadecimal text: two digits for each byte, with blanks anywhere between the digits.
#![tactic(auto)]

pub mod decode;
pub mod glyph;
