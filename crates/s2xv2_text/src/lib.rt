// The dump of a body, as text: a line for its length, one for each field on the wire in wire order, one for the tail's length; or the one
// line of a body that is refused.
#![tactic(auto)]

ghost use Rattle.std.specs.Prelude.{◌≡◌};
ghost use Rattle.answers.specs.Answer.{told};
ghost use Rattle.s2xv2_text.specs.Dump.{dump_told, dumped_into};

use answers::answer::Refusal;

mod body;

// Puts the text of the body `sel` at the start of `out` and answers its length. Refuses a buffer of less than 2,048 bytes, which hold any
// text, and leaves it as it was.
pub fn dump(sel: &[u8], out: &mut [u8]) -> Result<usize, Refusal>
    ensures answer { told result ≡ dump_told sel.now out.old }
    ensures text { out.new ≡ dumped_into sel.now out.old }
{
    let have = out.len();
    if have < 2048 {
        return Err(Refusal::Room { need: 2048, have });
    }
    Ok(body::text_of(sel, out))
}
