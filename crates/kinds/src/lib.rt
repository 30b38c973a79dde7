// The table of kinds: for each what its process, hazard, node and guest fields are to it, the state that its node
// needs, and whether the process must own that node.
#![tactic(auto)]

ghost use Rattle.std.specs.Prelude.{◌≡◌, not};
ghost use Rattle.model.specs.Kinds.{kind_of, number_of, is, Unknown};
ghost use Rattle.refusals.specs.Numbers.{refusal_in};
ghost use Rattle.kinds.specs.Table.{kind_value, kind_in, kind_refusal, reading, needing, owning, row_code, guest_code};

use self::Meaning::{Hazard, Limit, Node, Number, Process, Unread};
use layout::State;
use refusals::Refusal;

// Each with its number.
#[derive(Clone, Copy, Debug, PartialEq, Eq)]
pub enum Kind {
    Allocate = 1,
    Publish = 2,
    Protect = 3,
    Check = 4,
    Use = 5,
    Clear = 6,
    Remove = 7,
    Retire = 8,
    Drain = 9,
    Flush = 10,
    Tick = 11,
    Manage = 12,
    ClearPresence = 13,
    Reinsert = 14,
    Leave = 15,
    Join = 16,
    Portion = 17,
}

impl TryFrom<u32> for Kind {
    type Error = Refusal;

    ghost try_from_gives = { λ n r. (kind_in r ≡ kind_of n) × (refusal_in r ≡ kind_refusal (kind_of n)) };

    fn try_from(number: u32) -> Result<Kind, Refusal> {
        match number {
            1 => Ok(Kind::Allocate),
            2 => Ok(Kind::Publish),
            3 => Ok(Kind::Protect),
            4 => Ok(Kind::Check),
            5 => Ok(Kind::Use),
            6 => Ok(Kind::Clear),
            7 => Ok(Kind::Remove),
            8 => Ok(Kind::Retire),
            9 => Ok(Kind::Drain),
            10 => Ok(Kind::Flush),
            11 => Ok(Kind::Tick),
            12 => Ok(Kind::Manage),
            13 => Ok(Kind::ClearPresence),
            14 => Ok(Kind::Reinsert),
            15 => Ok(Kind::Leave),
            16 => Ok(Kind::Join),
            17 => Ok(Kind::Portion),
            _ => Err(Refusal::UnknownKind),
        }
    }
}

impl From<Kind> for u32 {
    ghost from_gives = { λ k n. n ≡ number_of (kind_value k) };

    fn from(kind: Kind) -> u32 {
        kind as u32
    }
}

// What a field of a step is to a kind. A number has no range of its own; a limit is how many nodes a portion may examine.
#[derive(Clone, Copy, Debug, PartialEq, Eq)]
pub enum Meaning {
    Unread,
    Process,
    Hazard,
    Node,
    Number,
    Limit,
}

// What the fields of a step are to a kind, the state that its node must be in, if any, and whether the process must own that node.
#[derive(Clone, Copy, Debug, PartialEq, Eq)]
pub struct Row {
    pub process: Meaning,
    pub hazard: Meaning,
    pub node: Meaning,
    pub guest: Meaning,
    pub needs: Option<State>,
    pub owns: bool,
}

// A row of what is read.
fn reading(process: Meaning, hazard: Meaning, node: Meaning, guest: Meaning) -> Row
    ensures { result ≡ reading process hazard node guest }
{
    Row {
        process,
        hazard,
        node,
        guest,
        needs: None,
        owns: false,
    }
}

impl Row {
    // Its node in this state.
    fn needing(self, state: State) -> Row
        ensures { result ≡ needing state self }
    {
        Row {
            needs: Some(state),
            ..self
        }
    }

    // Its node in this state, and the process's own.
    fn owning(self, state: State) -> Row
        ensures { result ≡ owning state self }
    {
        Row {
            owns: true,
            ..self.needing(state)
        }
    }
}

impl Kind {
    // Where the kind is a variant that is known the table folds away: where it is not, it is laid out anew at each use, which takes longer than a
    // step.
    pub fn row(self) -> Row
        ensures { result ≡ row_code (kind_value self) }
    {
        match self {
            Kind::Allocate => reading(Process, Unread, Node, Number).needing(State::Free),
            Kind::Publish => reading(Process, Unread, Node, Unread).owning(State::Allocated),
            Kind::Protect => reading(Process, Hazard, Node, Unread),
            Kind::Check => reading(Process, Hazard, Unread, Unread),
            Kind::Use => reading(Process, Hazard, Unread, Unread),
            Kind::Clear => reading(Process, Hazard, Unread, Unread),
            Kind::Remove => reading(Process, Unread, Node, Unread).needing(State::Reachable),
            Kind::Retire => reading(Process, Unread, Node, Unread).owning(State::Removed),
            Kind::Drain => reading(Process, Unread, Unread, Unread),
            Kind::Flush => reading(Process, Unread, Unread, Unread),
            Kind::Tick => reading(Unread, Unread, Unread, Unread),
            Kind::Manage => reading(Process, Unread, Unread, Unread),
            Kind::ClearPresence => reading(Unread, Unread, Unread, Unread),
            Kind::Reinsert => reading(Process, Unread, Node, Unread).owning(State::Removed),
            // Its node field is a second process, which takes over.
            Kind::Leave => reading(Process, Unread, Process, Unread),
            Kind::Join => reading(Process, Unread, Unread, Unread),
            // Its node field is where it starts, its guest field a limit.
            Kind::Portion => reading(Process, Unread, Node, Limit),
        }
    }
}

// Question 4: is there such a kind?
pub fn known(kind: u32) -> bool
    ensures { result ≡ not (is (kind_of kind) Unknown) }
{
    Kind::try_from(kind).is_ok()
}

// The row of the kind with this number; of a number that is none's, one that reads nothing.
pub fn row_of(kind: u32) -> Row
    ensures { result ≡ row_code (kind_of kind) }
{
    match Kind::try_from(kind) {
        Ok(kind) => kind.row(),
        Err(_) => reading(Unread, Unread, Unread, Unread),
    }
}

// The guest as a kind reads it: 0 where it reads none.
pub fn guest_read(kind: u32, guest: u32) -> u32
    ensures { result ≡ guest_code (kind_of kind) guest }
{
    if row_of(kind).guest == Number {
        guest
    } else {
        0
    }
}
