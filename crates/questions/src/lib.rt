// The questions before a step, numbers 5 to 17 and 20 to 23 in the papers' order: a step is refused by the first with the answer no. (4 is whether
// its number makes a kind.)
// A question that a kind is not asked has the answer yes and reads nothing, so that with the kind as a literal only its own are left. The list
// and the three longest questions are marked, to be folded into each kind's arm of the dispatch; the others are without a mark.
#![tactic(auto)]

pub mod read;

ghost use Rattle.std.specs.Prelude.{[], ◌≡◌, MatchResult, true, false};
ghost use Rattle.model.specs.Kinds.{kind_of};
ghost use Rattle.model.specs.Questions.{refusal_of};
ghost use Rattle.layout.specs.Encode.{decode};
ghost use Rattle.layout.specs.Sound.{Sound};
ghost use Rattle.layout.specs.Values.{step_value};
ghost use Rattle.refusals.specs.Numbers.{refusal_in};
ghost use Rattle.kinds.specs.Table.{kind_value};
ghost use Rattle.questions.specs.Answers.{answer_to, asked};

use kinds::{Kind, Meaning};
use layout::words::most;
use layout::{HazardId, NodeId, ProcessId, State, Step};
use refusals::Refusal;

// 5: is the process one of the domain's?
fn process_in_range(words: &[u32], kind: Kind, p: ProcessId) -> bool
    requires { Sound words.now }
    ensures { result ≡ answer_to 5 (asked (kind_value kind) words.now p.0 0 0 0) }
{
    kind.row().process != Meaning::Process || p.0 < domain::bounds(words).processes
}

// 20: is the process present, or absent where it is to join?
fn present_or_joins(words: &[u32], kind: Kind, p: ProcessId) -> bool
    requires { Sound words.now }
    ensures { result ≡ answer_to 20 (asked (kind_value kind) words.now p.0 0 0 0) }
{
    let wanted = u32::from(kind != Kind::Join);
    kind.row().process != Meaning::Process || read::lead(words, p).present == wanted
}

// 21: has the process no hazard assigned, no store pending and no node under way?
#[inline(always)]
fn unburdened(words: &[u32], kind: Kind, p: ProcessId) -> bool
    requires { Sound words.now }
    ensures { result ≡ answer_to 21 (asked (kind_value kind) words.now p.0 0 0 0) }
{
    kind != Kind::Leave
        || read::unassigned(words, p)
            & ((read::lead(words, p).stores == 0) & domain::none_under_way(words, p))
}

// 22: is the second process, which the node field names, another one of the domain's and present?
fn takes_over(words: &[u32], kind: Kind, p: ProcessId, c: NodeId) -> bool
    requires { Sound words.now }
    ensures { result ≡ answer_to 22 (asked (kind_value kind) words.now p.0 0 c.0 0) }
{
    kind != Kind::Leave
        || (c.0 < domain::bounds(words).processes)
            & ((c.0 != p.0) & (read::lead(words, ProcessId(c.0)).present == 1))
}

// 6: is the hazard one of a process's?
fn hazard_in_range(words: &[u32], kind: Kind, h: HazardId) -> bool
    requires { Sound words.now }
    ensures { result ≡ answer_to 6 (asked (kind_value kind) words.now 0 h.0 0 0) }
{
    kind.row().hazard != Meaning::Hazard || h.0 < domain::bounds(words).hazards
}

// 7: is the node one of the domain's?
fn node_in_range(words: &[u32], kind: Kind, c: NodeId) -> bool
    requires { Sound words.now }
    ensures { result ≡ answer_to 7 (asked (kind_value kind) words.now 0 0 c.0 0) }
{
    kind.row().node != Meaning::Node || c.0 < domain::bounds(words).nodes
}

// 23: is the limit one that a portion may have?
fn limit_in_range(kind: Kind, limit: u32) -> bool
    ensures { result ≡ answer_to 23 (asked (kind_value kind) [] 0 0 0 limit) }
{
    kind.row().guest != Meaning::Limit || (1..=most::EXAMINED).contains(&limit)
}

// 8: is the node in the state that the kind needs?
fn state_met(words: &[u32], kind: Kind, c: NodeId) -> bool
    requires { Sound words.now }
    ensures { result ≡ answer_to 8 (asked (kind_value kind) words.now 0 0 c.0 0) }
{
    match kind.row().needs {
        None => true,
        Some(state) => read::node(words, c).state == u32::from(state),
    }
}

// 9: does the process own the node?
fn owned(words: &[u32], kind: Kind, p: ProcessId, c: NodeId) -> bool
    requires { Sound words.now }
    ensures { result ≡ answer_to 9 (asked (kind_value kind) words.now p.0 0 c.0 0) }
{
    !kind.row().owns || read::node(words, c).owner == p.0
}

// 10: has the hazard a node assigned?
fn assigned(words: &[u32], kind: Kind, p: ProcessId, h: HazardId) -> bool
    requires { Sound words.now }
    ensures { result ≡ answer_to 10 (asked (kind_value kind) words.now p.0 h.0 0 0) }
{
    kind != Kind::Check || read::hazard(words, p, h).assigned != 0
}

// 11: is that node Reachable?
#[inline(always)]
fn reachable(words: &[u32], kind: Kind, p: ProcessId, h: HazardId) -> bool
    requires { Sound words.now }
    ensures { result ≡ answer_to 11 (asked (kind_value kind) words.now p.0 h.0 0 0) }
{
    kind != Kind::Check || read::hazard_node(words, p, h).state == u32::from(State::Reachable)
}

// 12: is the hazard validated?
fn validated(words: &[u32], kind: Kind, p: ProcessId, h: HazardId) -> bool
    requires { Sound words.now }
    ensures { result ≡ answer_to 12 (asked (kind_value kind) words.now p.0 h.0 0 0) }
{
    kind != Kind::Use || read::hazard(words, p, h).validated == 1
}

// 13: is there room in the buffer?
fn room(words: &[u32], kind: Kind, p: ProcessId) -> bool
    requires { Sound words.now }
    ensures { result ≡ answer_to 13 (asked (kind_value kind) words.now p.0 0 0 0) }
{
    !matches!(kind, Kind::Protect | Kind::Clear) || read::lead(words, p).stores < most::STORES
}

// 14: is a store pending?
fn store_pending(words: &[u32], kind: Kind, p: ProcessId) -> bool
    requires { Sound words.now }
    ensures { result ≡ answer_to 14 (asked (kind_value kind) words.now p.0 0 0 0) }
{
    kind != Kind::Drain || read::lead(words, p).stores != 0
}

// 15: can the clock go on?
fn clock_goes_on(words: &[u32], kind: Kind) -> bool
    requires { Sound words.now }
    ensures { result ≡ answer_to 15 (asked (kind_value kind) words.now 0 0 0 0) }
{
    kind != Kind::Tick || domain::clock(words) < most::CLOCK
}

// 16: is every pending store younger than the delay?
#[inline(always)]
fn stores_young(words: &[u32], kind: Kind) -> bool
    requires { Sound words.now }
    ensures { result ≡ answer_to 16 (asked (kind_value kind) words.now 0 0 0 0) }
{
    kind != Kind::Tick || domain::processes::all_young(words)
}

// 17: has no hazard of the process a node assigned?
fn none_assigned(words: &[u32], kind: Kind, p: ProcessId) -> bool
    requires { Sound words.now }
    ensures { result ≡ answer_to 17 (asked (kind_value kind) words.now p.0 0 0 0) }
{
    kind != Kind::Manage || read::unassigned(words, p)
}

// Refused where the answer to its question is no.
#[inline(always)]
fn holds(answer: bool, refusal: Refusal) -> Result<(), Refusal>
    ensures { MatchResult result (λ _. answer ≡ true) (λ r. (answer ≡ false) × (r ≡ refusal)) }
{
    if answer { Ok(()) } else { Err(refusal) }
}

// Asks a step of this kind, whatever its kind field: one list, to be folded into each kind's arm of the dispatch.
#[inline(always)]
pub fn ask(words: &[u32], kind: Kind, step: Step) -> Result<(), Refusal>
    requires { Sound words.now }
    ensures { refusal_in result ≡ refusal_of (kind_value kind) (decode words.now) (step_value step) }
{
    let (p, h, c) = (step.process, step.hazard, step.node);
    holds(process_in_range(words, kind, p), Refusal::NoSuchProcess)?;
    holds(present_or_joins(words, kind, p), Refusal::WrongAttendance)?;
    holds(unburdened(words, kind, p), Refusal::Burdened)?;
    holds(takes_over(words, kind, p, c), Refusal::NobodyTakesOver)?;
    holds(hazard_in_range(words, kind, h), Refusal::NoSuchHazard)?;
    holds(node_in_range(words, kind, c), Refusal::NoSuchNode)?;
    holds(limit_in_range(kind, step.guest), Refusal::LimitOutOfRange)?;
    holds(state_met(words, kind, c), Refusal::WrongState)?;
    holds(owned(words, kind, p, c), Refusal::NotOwner)?;
    holds(assigned(words, kind, p, h), Refusal::NothingAssigned)?;
    holds(reachable(words, kind, p, h), Refusal::NotReachable)?;
    holds(validated(words, kind, p, h), Refusal::NotValidated)?;
    holds(room(words, kind, p), Refusal::BufferFull)?;
    holds(store_pending(words, kind, p), Refusal::NoStorePending)?;
    holds(clock_goes_on(words, kind), Refusal::ClockAtEnd)?;
    holds(stores_young(words, kind), Refusal::StoreTooOld)?;
    holds(none_assigned(words, kind, p), Refusal::StillAssigned)
}

// Asks a step of the kind that its kind field names.
pub fn refusal(words: &[u32], step: Step) -> Result<(), Refusal>
    requires { Sound words.now }
    ensures { refusal_in result ≡ refusal_of (kind_of step.kind) (decode words.now) (step_value step) }
{
    ask(words, Kind::try_from(step.kind)?, step)
}
