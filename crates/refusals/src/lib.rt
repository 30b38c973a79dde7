// The refusals: each names a question whose answer is no, by the number that the papers give it.
#![tactic(auto)]

ghost use Rattle.std.specs.Prelude.{◌≡◌};
ghost use Rattle.refusals.specs.Numbers.{number};

// In the order of their numbers, which are not the order in which the questions are asked.
#[derive(Clone, Copy, Debug, PartialEq, Eq)]
pub enum Refusal {
    // Of a domain that is to be made, the first of a trace too.
    ParameterOutOfRange = 1,
    WordCount = 2,
    // Of words that are no domain.
    Malformed = 3,
    // Of a step.
    UnknownKind = 4,
    NoSuchProcess = 5,
    NoSuchHazard = 6,
    NoSuchNode = 7,
    WrongState = 8,
    NotOwner = 9,
    NothingAssigned = 10,
    NotReachable = 11,
    NotValidated = 12,
    BufferFull = 13,
    NoStorePending = 14,
    ClockAtEnd = 15,
    StoreTooOld = 16,
    StillAssigned = 17,
    // Of a trace.
    TooLong = 18,
    NoTrailer = 19,
    // Of a step.
    WrongAttendance = 20,
    Burdened = 21,
    NobodyTakesOver = 22,
    LimitOutOfRange = 23,
}

// The papers' number.
impl From<Refusal> for u32 {
    ghost from_gives = { λ r n. n ≡ number r };

    fn from(refusal: Refusal) -> u32 {
        refusal as u32
    }
}
