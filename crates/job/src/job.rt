// A job, and its step.
ghost use Rattle.std.specs.Prelude.{◌≡◌, length};
ghost use Rattle.job.specs.Step.{step_seen, step_made, step_done, step_of, slot_after};

use crate::advance::{Moved, advance};

// A job is a value: whoever holds it may step it, keep it or drop it. It crosses to C as it is.
#[repr(C)]
#[derive(Clone, Copy)]
pub struct Job {
    // The descriptor to be stored, and 0 after it.
    pub staged: [u8; 257],
    // The slot's size and the descriptor's, in bytes.
    pub slot_size: usize,
    pub descriptor_size: usize,
    // How many of the slot's size + 2 stores are made.
    pub stores_made: usize,
}

// The error of a step, answer 8: the slot has another size than at begin, or no begin and steps could give the job's numbers.
#[derive(Clone, Copy, PartialEq, Eq)]
pub struct OtherSize;

// What a step tells that is accepted.
#[derive(Clone, Copy)]
pub struct Advanced {
    // How many stores the step made, and whether the job has none left.
    pub stores: usize,
    pub done: bool,
}

// What a step answers. The job stands beside the answer, and not in it: the requirement hands it back from a refused step too.
#[derive(Clone, Copy)]
pub struct Stepped {
    // The job after the step.
    pub job: Job,
    pub answer: Result<Advanced, OtherSize>,
}

// What an answer of a step tells: no store and not done where it is refused.
pub fn advanced_in(answer: Result<Advanced, OtherSize>) -> Advanced
    ensures { result ≡ record { stores = step_made answer; done = step_done answer } }
{
    match answer {
        Ok(advanced) => advanced,
        Err(_) => Advanced {
            stores: 0,
            done: false,
        },
    }
}

impl Job {
    // Makes the smaller of the allowance and the stores left. Refuses with answer 8 alone: then it stores nothing, and the job comes back as it came.
    pub fn step(self, slot: &mut [u8], allowance: usize) -> Stepped
        ensures told { step_seen result ≡ step_of self (length slot.old) allowance }
        ensures left { slot.new ≡ slot_after self slot.old allowance }
    {
        let moved = advance(
            &self.staged,
            self.slot_size,
            self.descriptor_size,
            self.stores_made,
            slot,
            allowance,
        );
        let (stores_made, answer) = match moved {
            Ok(Moved { made, advanced }) => (made, Ok(advanced)),
            Err(why) => (self.stores_made, Err(why)),
        };
        Stepped {
            job: Job {
                stores_made,
                ..self
            },
            answer,
        }
    }
}
