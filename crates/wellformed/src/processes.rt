// Whether the words of the processes are those of a well-formed domain: each word at most a limit that goes by its place. The limits are
// numbers, which the compiler keeps in registers: a table of them would be laid out at each call and read back before it is there.
ghost use Rattle.std.specs.Prelude.{◌≡◌, ◌+◌, ◌*◌, ◌≤◌, ◌&&◌, length};
ghost use Rattle.model.specs.Params.{most_hazards, hazard_width, buffer_width};
ghost use Rattle.layout.specs.Shape.{process_width};
ghost use Rattle.layout.specs.Encode.{shape};
ghost use Rattle.layout.specs.Words.{processes_fit};
ghost use Rattle.limits.specs.Limits.{none};
ghost use Rattle.wellformed.specs.ProcessLimits.{cut_at, cuts_at, half_size, half_width, half_within, stores_within};
ghost use Rattle.wellformed.specs.ProcessLimits.{hazard_within, hazards_within, lead_within, process_within, Ready};

use layout::words::{hazard_word, head_word, lead_word, most, store_word};
use limits::Faults;

// What a process's words go by: the last count of calls, the last hazard, the number of nodes, the clock.
#[derive(Clone, Copy)]
struct Limits {
    calls: u32,
    hazard: u32,
    nodes: u32,
    clock: u32,
}

// The limits of one place of a buffer.
#[derive(Clone, Copy)]
struct Cuts {
    hazard: u32,
    node: u32,
    time: u32,
}

// Half the places of a buffer, and their words: three pieces of four.
const HALF: usize = most::BUFFER / 2;

const HALF_PLACES: u32 = most::STORES / 2;

// The limit of a word of place e of a buffer: 0 past the stores. (The top bit of e - stores, in all bits.)
fn cut(limit: u32, e: u32, stores: u32) -> u32
    ensures { result ≡ cut_at limit e stores }
{
    limit & 0u32.wrapping_sub(e.wrapping_sub(stores) >> 31)
}

// Those of place e.
fn cuts_of(limits: Limits, e: u32, stores: u32) -> Cuts
    ensures { result ≡ cuts_at limits e stores }
{
    Cuts {
        hazard: cut(limits.hazard, e, stores),
        node: cut(limits.nodes, e, stores),
        time: cut(limits.clock, e, stores),
    }
}

// Four places of a buffer, from place e, at `at`, on.
fn half(faults: Faults, words: &[u32], at: usize, e: u32, stores: u32, limits: Limits) -> Faults
    requires { (at + half_width ≤ length words.now) × (e ≤ half_size) }
    ensures { none result ≡ (none faults && half_within limits stores words.now at e) }
{
    let a = cuts_of(limits, e, stores);
    let b = cuts_of(limits, e + 1, stores);
    let c = cuts_of(limits, e + 2, stores);
    let d = cuts_of(limits, e + 3, stores);
    faults
        .piece(words, at, a.hazard, a.node, a.time, b.hazard)
        .piece(words, at + 4, b.node, b.time, c.hazard, c.node)
        .piece(words, at + 8, c.time, d.hazard, d.node, d.time)
}

// All places of a buffer.
fn buffer(faults: Faults, words: &[u32], at: usize, stores: u32, limits: Limits) -> Faults
    requires { at + buffer_width ≤ length words.now }
    ensures { none result ≡ (none faults && stores_within limits stores words.now at) }
{
    let one = half(faults, words, at, 0, stores, limits);
    half(one, words, at + HALF, HALF_PLACES, stores, limits)
}

// A hazard, with the word before it, so that it is a piece of four: that word is whether the process is present, or whether the hazard
// before is validated. Only where a node is assigned may it be validated.
fn hazard(faults: Faults, words: &[u32], before: usize, m: u32) -> Faults
    requires { before + 4 ≤ length words.now }
    ensures { none result ≡ (none faults && hazard_within m words.now before) }
{
    let at = before + 1;
    let unbacked = words[at + hazard_word::VALIDATED] > words[at + hazard_word::ASSIGNED];
    faults.noted(unbacked).piece(words, before, 1, m, m, 1)
}

// The k hazards after the word `before`.
fn hazards(mut faults: Faults, words: &[u32], before: usize, k: usize, m: u32) -> Faults
    requires { (k ≤ most_hazards) × (before + 1 + hazard_width * k ≤ length words.now) }
    ensures { none result ≡ (none faults && hazards_within m words.now before k) }
{
    for h in 0..k {
        faults = hazard(faults, words, before + hazard_word::WIDTH * h, m);
    }
    faults
}

// A process's lead but for its last word, which is looked at with the first hazard.
fn lead(faults: Faults, words: &[u32], at: usize, calls: u32) -> Faults
    requires { at + shape.lead_width ≤ length words.now }
    ensures { none result ≡ (none faults && lead_within calls words.now at) }
{
    faults.piece(words, at, most::EPOCH, calls, 1, most::STORES)
}

// The process whose words start at `at`.
fn process(faults: Faults, words: &[u32], at: usize, k: usize, limits: Limits) -> Faults
    requires { (k ≤ most_hazards) × (at + process_width shape k ≤ length words.now) }
    ensures { none result ≡ (none faults && process_within limits k words.now at) }
{
    let from = at + lead_word::WIDTH;
    let one = lead(faults, words, at, limits.calls);
    let two = hazards(one, words, from - 1, k, limits.nodes);
    buffer(
        two,
        words,
        from + hazard_word::WIDTH * k,
        words[at + lead_word::STORES],
        limits,
    )
}

// What is amiss with the processes.
pub fn processes_faults(words: &[u32]) -> Faults
    requires { Ready words.now }
    ensures { none result ≡ processes_fit words.now }
{
    let hazards = words[head_word::HAZARDS];
    let limits = Limits {
        calls: words[head_word::QUIESCENCE] - 1,
        hazard: hazards - 1,
        nodes: words[head_word::NODES],
        clock: words[head_word::CLOCK],
    };
    let mut faults = Faults::NONE;
    for p in 0..words[head_word::PROCESSES] {
        let at = layout::process_start(hazards, p);
        faults = process(faults, words, at, layout::wide(hazards), limits);
    }
    faults
}
