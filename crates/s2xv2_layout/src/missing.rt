// Which part of a body is missing.
ghost use Rattle.std.specs.Prelude.{◌≡◌, [], ◌∷◌};
ghost use Rattle.answers.specs.Answer.{told};
ghost use Rattle.answers.specs.Short.{short_told};
ghost use Rattle.s2xv2_layout.specs.Layout.{needs_to, least_to, short_to, reached};

use crate::ends::Ends;
use answers::answer::Refusal;

// How long the whole has to be at the least, by what is there of it: the core; then all that it asks for, with a superframe block counted without a plan
// id until that much of it is there.
fn least_total(have: usize, e: Ends) -> usize
    ensures { result ≡ least_to have e }
{
    if have < 18 {
        18
    } else if have < e.block {
        e.block
    } else {
        e.superframe
    }
}

// Refuses a body of `have` bytes if it does not reach `need`, where the part at `place` ends.
fn reach(place: u8, need: usize, have: usize, least: usize) -> Result<(), Refusal>
    ensures { result ≡ reached place need have least }
{
    if have < need {
        return Err(Refusal::Short {
            place,
            need,
            have,
            least,
        });
    }
    Ok(())
}

// Refuses a body of `have` bytes at the first part, in wire order, whose end it does not reach. Accepts one that reaches them
// all, and tells where the last one ends.
pub fn missing(have: usize, e: Ends) -> Result<usize, Refusal>
    ensures { told result ≡ short_told (short_to have e) have (needs_to e) (0 ∷ e.superframe ∷ []) }
{
    let least = least_total(have, e);
    reach(1, 18, have, least)?;
    reach(2, e.stream, have, least)?;
    reach(3, e.scrambling, have, least)?;
    reach(4, e.timeslice, have, least)?;
    reach(5, e.header, have, least)?;
    reach(6, e.first_id, have, least)?;
    reach(6, e.bond, have, least)?;
    reach(7, e.block, have, least)?;
    reach(8, e.plan_id, have, least)?;
    reach(9, e.superframe, have, least)?;
    Ok(e.superframe)
}
