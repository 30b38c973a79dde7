// What a call answers in two numbers: to a host, and in a run. A crate of its own, since nothing can stand on a static library, and two of these answer it.
#![tactic(auto)]

ghost use Rattle.std.specs.Prelude.{◌≡◌};
ghost use Rattle.answers.specs.Values.{answer_of, answer_of_none};

use refusals::Refusal;

// refusal: 0 for accepted; where it is not, the value is 0.
#[repr(C)]
#[derive(Clone, Copy)]
pub struct Answer {
    pub refusal: u32,
    pub value: u32,
}

impl From<Result<u32, Refusal>> for Answer {
    ghost from_gives = { λ r a. a ≡ answer_of r };

    #[inline(always)]
    fn from(answer: Result<u32, Refusal>) -> Answer {
        match answer {
            Ok(value) => Answer { refusal: 0, value },
            Err(refusal) => Answer {
                refusal: u32::from(refusal),
                value: 0,
            },
        }
    }
}

// Of a call that has no value to answer.
impl From<Result<(), Refusal>> for Answer {
    ghost from_gives = { λ r a. a ≡ answer_of_none r };

    #[inline(always)]
    fn from(answer: Result<(), Refusal>) -> Answer {
        Answer::from(answer.map(|()| 0u32))
    }
}
