// Why a call refuses: `Result<T, Refusal>` is what it answers. `specs/Answer.antt` gives the number of each answer and the numbers that it tells.
ghost use Rattle.std.specs.Prelude.{◌≡◌};
ghost use Rattle.answers.specs.Answer.{numbers, saturated, told_now};

// Why a call was refused: answers 1 to 7, and 12. A step has an answer of its own, which has number 8. A place is a number, and no enum of names: docs/ANSWERS.md
// and the C interface tell it as it is, and the lists of tests count it.
#[derive(Clone, Copy, PartialEq, Eq)]
pub enum Refusal {
    // The body ends inside a part: which one, where that part ends, how long the body is, and how long the whole has to be at the least.
    Short {
        place: u8,
        need: usize,
        have: usize,
        least: usize,
    },
    // A body or an encoding of more than 4,096 bytes: its length, or 65,535 where it is above that.
    Long {
        length: u16,
    },
    // A record that contradicts itself: the first place of list A.
    Inconsistent {
        place: u8,
    },
    // A value that the wire cannot carry: the first place of list B.
    Field {
        place: u8,
    },
    // An output buffer below the length: the length, and the buffer's.
    Room {
        need: usize,
        have: usize,
    },
    // A slot of a wrong size.
    Slot,
    // A descriptor that is larger than the slot, or exactly one byte smaller: its size.
    NoFit {
        size: usize,
    },
    // A slot of a good size that is not in good form: where the first descriptor starts that breaks it, counted from the slot's start.
    SlotForm {
        offset: usize,
    },
}

// The numbers that a refusal tells, its own first: how many there are, and these, with 0 behind them. An array with its count, since nothing here allocates;
// what crosses to C takes the first four whatever they are.
#[derive(Clone, Copy)]
pub struct Told {
    pub count: usize,
    pub numbers: [usize; 5],
}

impl Refusal {
    // Its numbers.
    pub fn told(self) -> Told
        ensures { result ≡ told_now (numbers self) }
    {
        match self {
            Refusal::Short {
                place,
                need,
                have,
                least,
            } => Told {
                count: 5,
                numbers: [1, place as usize, need, have, least],
            },
            Refusal::Long { length } => Told {
                count: 2,
                numbers: [2, length as usize, 0, 0, 0],
            },
            Refusal::Inconsistent { place } => Told {
                count: 2,
                numbers: [3, place as usize, 0, 0, 0],
            },
            Refusal::Field { place } => Told {
                count: 2,
                numbers: [4, place as usize, 0, 0, 0],
            },
            Refusal::Room { need, have } => Told {
                count: 3,
                numbers: [5, need, have, 0, 0],
            },
            Refusal::Slot => Told {
                count: 1,
                numbers: [6, 0, 0, 0, 0],
            },
            Refusal::NoFit { size } => Told {
                count: 2,
                numbers: [7, size, 0, 0, 0],
            },
            Refusal::SlotForm { offset } => Told {
                count: 2,
                numbers: [12, offset, 0, 0, 0],
            },
        }
    }
}

// A length as answer 2 tells it: 65,535 for all above that.
pub fn saturated(n: usize) -> u16
    ensures { result ≡ saturated n }
{
    u16::try_from(n).unwrap_or(u16::MAX)
}
