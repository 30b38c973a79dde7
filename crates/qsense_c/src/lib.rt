// The calls for C and Rust hosts: thin exports over the library. A slice travels as a pointer and a length in words.
#![tactic(auto)]

ghost use Rattle.std.specs.Prelude.{◌≡◌};
ghost use Rattle.model.specs.Params.{params_of};
ghost use Rattle.layout.specs.Ranges.{length_for};
ghost use Rattle.model.specs.Why.{Told, NotAsked};
ghost use Rattle.waiting.specs.Values.{reason_value, why_value, explained_value};
ghost use Rattle.qsense.specs.Calls.{make_words, step_words, portion_words, reachable_words, why_words};
ghost use Rattle.qsense.specs.Numbers.{told, numbers_of};
ghost use Rattle.qsense.specs.Runs.{ran_of, run_into};
ghost use Rattle.domain.specs.Effects.{given};
ghost use Rattle.qsense.specs.Values.{answer_reply};
ghost use Rattle.qsense_c.specs.Values.{portioned_of, portion_reply_of, numbers_in};

use answers::Answer;
use layout::words::answer_word;
use layout::{NodeId, Params, ProcessId};
use refusals::Refusal;
use retire::portion::Portion;
use waiting::{Behind, Reason};

// The words that a domain takes; 0 unless N, K and M are in their ranges.
#[unsafe(no_mangle)]
pub extern "C" fn qsense_length(n: u32, k: u32, m: u32) -> u32
    ensures { result ≡ length_for n k m }
{
    qsense::length(n, k, m)
}

// Makes a fresh domain of the words.
#[unsafe(no_mangle)]
pub extern "C" fn qsense_make(
    words: &mut [u32],
    n: u32,
    k: u32,
    m: u32,
    t: u32,
    q: u32,
    c: u32,
    e: u32,
) -> Answer
    ensures { answer_reply result words.new ≡ make_words words.old (params_of n k m t q c e) }
{
    let params = Params {
        processes: n,
        hazards: k,
        nodes: m,
        visibility: t,
        quiescence: q,
        fallback: c,
        lateness: e,
    };
    qsense::make(words, params).into()
}

// One step, as a run of one: so the dispatch has one caller, the loop of a run, and is folded into it. By `qsense::step` it would have two, and be
// folded into neither (docs/DECISIONS.md 174).
#[unsafe(no_mangle)]
pub extern "C" fn qsense_step(
    words: &mut [u32],
    kind: u32,
    process: u32,
    hazard: u32,
    node: u32,
    guest: u32,
) -> Answer
    ensures { answer_reply result words.new ≡ step_words words.old (given kind process hazard node guest) }
{
    let mut answer = [0; answer_word::WIDTH];
    qsense::run(words, &[kind, process, hazard, node, guest], &mut answer);
    Answer {
        refusal: answer[answer_word::REFUSAL],
        value: answer[answer_word::VALUE],
    }
}

// A list of steps.
#[unsafe(no_mangle)]
pub extern "C" fn qsense_run(words: &mut [u32], steps: &[u32], answers: &mut [u32]) -> bool
    ensures { ran_of result words.new answers.new ≡ run_into words.old steps.now answers.old }
{
    qsense::run(words, steps, answers)
}

// ---- a portion of a scan

// Every number is 0 where it is refused, but for the refusal.
#[repr(C)]
#[derive(Clone, Copy)]
pub struct Portioned {
    pub refusal: u32,
    pub freed: u32,
    pub examined: u32,
    pub next: u32,
    pub left: u32,
}

impl From<Result<Portion, Refusal>> for Portioned {
    ghost from_gives = { λ r p. p ≡ portioned_of r };

    fn from(answer: Result<Portion, Refusal>) -> Portioned {
        match answer {
            Ok(x) => Portioned {
                refusal: 0,
                freed: x.freed,
                examined: x.examined,
                next: x.next,
                left: x.left,
            },
            Err(refusal) => Portioned {
                refusal: u32::from(refusal),
                freed: 0,
                examined: 0,
                next: 0,
                left: 0,
            },
        }
    }
}

// At most so many Retired nodes of a process, from one on, examined.
#[unsafe(no_mangle)]
pub extern "C" fn qsense_portion(
    words: &mut [u32],
    process: u32,
    start: u32,
    limit: u32,
) -> Portioned
    ensures { portion_reply_of result words.new ≡ portion_words words.old process start limit }
{
    qsense::portion(words, ProcessId(process), NodeId(start), limit).into()
}

// ---- the reachable count

// How many nodes are Reachable.
#[unsafe(no_mangle)]
pub extern "C" fn qsense_reachable(words: &[u32]) -> Answer
    ensures { answer_reply result words.now ≡ reachable_words words.now }
{
    qsense::reachable(words).into()
}

// ---- why a node waits

// answer: 0 refused, 1 not Retired, 2 too young, 3 visible, 4 ready. behind: 0 not asked, 1 no process is behind, 2 there is one. A number
// that a case does not have is 0.
#[repr(C)]
#[derive(Clone, Copy)]
pub struct Why {
    pub refusal: u32,
    pub answer: u32,
    pub state: u32,
    pub ticks: u32,
    pub process: u32,
    pub hazard: u32,
    pub behind: u32,
    pub behind_process: u32,
}

const NOTHING: Why = Why {
    refusal: 0,
    answer: 0,
    state: 0,
    ticks: 0,
    process: 0,
    hazard: 0,
    behind: 0,
    behind_process: 0,
};

// Who is behind is not asked.
impl From<Reason> for Why {
    ghost from_gives = { λ r w. numbers_in w ≡ told (reason_value r) NotAsked };

    fn from(reason: Reason) -> Why {
        match reason {
            Reason::NotRetired(state) => Why {
                answer: 1,
                state: state.into(),
                ..NOTHING
            },
            Reason::Young(ticks) => Why {
                answer: 2,
                ticks,
                ..NOTHING
            },
            Reason::Visible(p, h) => Why {
                answer: 3,
                process: p.0,
                hazard: h.0,
                ..NOTHING
            },
            Reason::Ready => Why {
                answer: 4,
                ..NOTHING
            },
        }
    }
}

impl From<waiting::Why> for Why {
    ghost from_gives = { λ a w. numbers_in w ≡ numbers_of (Told (why_value a)) };

    fn from(told: waiting::Why) -> Why {
        let why = Why::from(told.reason);
        match told.behind {
            Behind::NotAsked => why,
            Behind::Nobody => Why { behind: 1, ..why },
            Behind::Lagging(p) => Why {
                behind: 2,
                behind_process: p.0,
                ..why
            },
        }
    }
}

impl From<Result<waiting::Why, Refusal>> for Why {
    ghost from_gives = { λ r w. numbers_in w ≡ numbers_of (explained_value r) };

    fn from(explained: Result<waiting::Why, Refusal>) -> Why {
        match explained {
            Ok(told) => Why::from(told),
            Err(refusal) => Why {
                refusal: u32::from(refusal),
                ..NOTHING
            },
        }
    }
}

// Why a node is still waiting.
#[unsafe(no_mangle)]
pub extern "C" fn qsense_why(words: &[u32], node: u32) -> Why
    ensures { numbers_in result ≡ numbers_of (why_words words.now node) }
{
    qsense::why(words, NodeId(node)).into()
}
