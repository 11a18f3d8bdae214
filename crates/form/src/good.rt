// Good form.
ghost use Rattle.std.specs.Prelude.{◌≡◌, ◌+◌, ◌≤◌, length};
ghost use Rattle.form.specs.Form.{byte_at, good_size, form_of};
ghost use Rattle.form.specs.Bytewise.{ours_at};

use crate::envelope::{EXTENSION, STUFFING_TAG, TAG};

// The form of a slot: good, and then empty or not, or else what is wrong. One enum of the four, and no `Result` of an `Option`: the definition goes by its cases.
#[derive(Clone, Copy, PartialEq, Eq)]
pub enum Form {
    // The size is outside 21 to 257.
    Size,
    // The first descriptor that breaks the form starts here.
    Broken { at: usize },
    // Good form, with no descriptor of ours.
    Empty,
    // Good form, with the one of ours that starts here.
    Ours { at: usize },
}

// Whether a slot may have `n` bytes.
#[tactic(auto, unfolding(crate::specs::Form::good_size))]
pub fn is_size(n: usize) -> bool
    ensures { result ≡ good_size n }
{
    (21..=257).contains(&n)
}

// Whether the descriptor at `at`, which lies whole, is one of ours.
#[tactic(auto, unfolding(crate::specs::Bytewise::ours_at))]
fn is_ours(s: &[u8], at: usize) -> bool
    requires { (length s.now ≤ 257) × (at + 2 + byte_at s.now (at + 1) ≤ length s.now) }
    ensures { result ≡ ours_at s.now at }
{
    s[at] == TAG && s[at + 1] != 0 && s[at + 2] == EXTENSION
}

// The form of a slot of a good size. `ours` is where the one of ours starts, once there is one. The loop goes from descriptor to descriptor by their lengths,
// and counts no index.
fn walk(s: &[u8]) -> Form
    requires { (21 ≤ length s.now) × (length s.now ≤ 257) }
    ensures { result ≡ form_of s.now }
{
    let n = s.len();
    let mut at: usize = 0;
    let mut ours: Option<usize> = None;
    while at + 2 <= n {
        let end = at + 2 + usize::from(s[at + 1]);
        if n < end {
            return Form::Broken { at };
        }
        if s[at] != STUFFING_TAG {
            if ours.is_some() || !is_ours(s, at) {
                return Form::Broken { at };
            }
            ours = Some(at);
        }
        at = end;
    }
    if at < n {
        return Form::Broken { at };
    }
    match ours {
        Some(at) => Form::Ours { at },
        None => Form::Empty,
    }
}

// The form of any slot.
pub fn form_of(s: &[u8]) -> Form
    ensures { result ≡ form_of s.now }
{
    if is_size(s.len()) {
        return walk(s);
    }
    Form::Size
}
