// An answer, and a part of what was lent, as plain numbers: what crosses to C.
ghost use Rattle.std.specs.Prelude.{◌≡◌, [], ◌∷◌};
ghost use Rattle.answers.specs.Answer.{numbers, told};
ghost use Rattle.answers.specs.Plain.{answer_out};

use crate::answer::{Refusal, saturated};

// An answer: its number, and up to four numbers that it tells, 0 where it tells fewer. It goes in two registers.
#[repr(C)]
#[derive(Clone, Copy, PartialEq, Eq)]
pub struct PlainAnswer {
    pub number: u16,
    pub first: u16,
    pub second: u16,
    pub third: u16,
    pub fourth: u16,
}

// A part of what was lent: where it starts, and how many bytes it has.
#[repr(C)]
#[derive(Clone, Copy, PartialEq, Eq)]
pub struct PlainPart {
    pub place: usize,
    pub length: usize,
}

// Accepted, with a result that is small.
pub fn accepted(res: u16) -> PlainAnswer
    ensures { result ≡ answer_out (0 ∷ res ∷ []) }
{
    PlainAnswer {
        number: 0,
        first: res,
        second: 0,
        third: 0,
        fourth: 0,
    }
}

// A refusal: its number, and the numbers that it tells.
pub fn refusal_out(why: Refusal) -> PlainAnswer
    ensures { result ≡ answer_out (numbers why) }
{
    let told = why.told();
    let numbers = told.numbers;
    PlainAnswer {
        number: saturated(numbers[0]),
        first: saturated(numbers[1]),
        second: saturated(numbers[2]),
        third: saturated(numbers[3]),
        fourth: saturated(numbers[4]),
    }
}

// An answer: 0 with the result, or the refusal.
pub fn answer_out(answer: Result<usize, Refusal>) -> PlainAnswer
    ensures { result ≡ answer_out (told answer) }
{
    match answer {
        Ok(result) => accepted(saturated(result)),
        Err(why) => refusal_out(why),
    }
}
