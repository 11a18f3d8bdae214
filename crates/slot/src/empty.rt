// Making a slot empty. A cut inside this call is not covered: it is for a slot that is not yet in use.
ghost use Rattle.std.specs.Prelude.{◌≡◌, length};
ghost use Rattle.slot.specs.Answer.{made_told};
ghost use Rattle.slot.specs.Empty.{empty_told, emptied};

use answers::answer::Refusal;
use form::envelope::{FILLER, STUFFING_TAG};
use form::good::is_size;

// Makes a slot of any bytes empty. Refuses only a wrong size, with answer 6, and then stores nothing.
pub fn make_empty(slot: &mut [u8]) -> Result<(), Refusal>
    ensures told { made_told result ≡ empty_told (length slot.old) }
    ensures left { slot.new ≡ emptied slot.old }
{
    let n = slot.len();
    if !is_size(n) {
        return Err(Refusal::Slot);
    }
    slot.fill(FILLER);
    slot[0] = STUFFING_TAG;
    slot[1] = (n - 2) as u8;
    Ok(())
}
