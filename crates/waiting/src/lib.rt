// Why a node is still waiting, and which process is behind in epochs: asked of sound words, of which nothing is written.
#![tactic(auto)]

ghost use Rattle.std.specs.Prelude.{◌≡◌, suc, ◌<◌, ◌≤◌};
ghost use Rattle.model.specs.State.{node_of, Retired};
ghost use Rattle.model.specs.Why.{ticks_left, seen_by, reason_of, behind_in, explained};
ghost use Rattle.layout.specs.Encode.{decode, params_in};
ghost use Rattle.layout.specs.Sound.{Sound};
ghost use Rattle.layout.specs.Values.{node_value, state_number};
ghost use Rattle.waiting.specs.Values.{reason_value, behind_value, explained_value};

use layout::{HazardId, Node, NodeId, Path, ProcessId, State};
use refusals::Refusal;

// Why a node is still waiting: the first of these that is true.
#[derive(Clone, Copy)]
pub enum Reason {
    // Its state.
    NotRetired(State),
    // The ticks until a scan could free it.
    Young(u32),
    // The lowest process, and then its lowest hazard, that shows it to its owner.
    Visible(ProcessId, HazardId),
    // A scan by its owner now would free it.
    Ready,
}

// The lowest present process whose local epoch differs from the global one.
#[derive(Clone, Copy)]
pub enum Behind {
    // On the fallback path.
    NotAsked,
    Nobody,
    Lagging(ProcessId),
}

#[derive(Clone, Copy)]
pub struct Why {
    pub reason: Reason,
    pub behind: Behind,
}

// ---- the four answers

// What the age of a node lacks to be old enough: 0 where it is.
fn ticks_left(words: &[u32], node: Node) -> u32
    requires { Sound words.now × (node.retired ≤ (decode words.now).clock) }
    ensures { result ≡ ticks_left (decode words.now) (node_value node) }
{
    let age = domain::clock(words) - node.retired;
    let delay = domain::delay(words);
    if delay < age { 0 } else { delay + 1 - age }
}

// Of node c, Retired by process p and old enough: which hazard shows it to p, or that none does.
fn seen(words: &[u32], p: ProcessId, c: NodeId) -> Reason
    requires { Sound words.now × (c.0 < (params_in words.now).nodes) }
    ensures { reason_value result ≡ seen_by (decode words.now) p.0 (suc c.0) }
{
    let v = c.0 + 1;
    match retire::shown::process(words, p, v) {
        Some(q) => Reason::Visible(q, retire::shown::hazard(words, p, v, q).unwrap()),
        None => Reason::Ready,
    }
}

// The state with this number.
fn state_of(number: u32) -> State
    requires { number ≤ Retired }
    ensures { state_number result ≡ number }
{
    match number {
        0 => State::Free,
        1 => State::Allocated,
        2 => State::Reachable,
        3 => State::Removed,
        _ => State::Retired,
    }
}

// Why node c is still waiting.
fn reason_of(words: &[u32], c: NodeId) -> Reason
    requires { Sound words.now × (c.0 < (params_in words.now).nodes) }
    ensures { let d = decode words.now in reason_value result ≡ reason_of d c.0 (node_of d c.0) }
{
    let node = domain::node(words, c);
    if node.state != u32::from(State::Retired) {
        return Reason::NotRetired(state_of(node.state));
    }
    let left = ticks_left(words, node);
    if 0 < left {
        return Reason::Young(left);
    }
    seen(words, ProcessId(node.owner), c)
}

// ---- who is behind

fn behind_in(words: &[u32]) -> Behind
    requires { Sound words.now }
    ensures { behind_value result ≡ behind_in (decode words.now) }
{
    if domain::path(words) != Path::Fast {
        return Behind::NotAsked;
    }
    match domain::processes::laggard(words) {
        Some(p) => Behind::Lagging(p),
        None => Behind::Nobody,
    }
}

// ---- both

// Why node c is still waiting, and who is behind; refused with 7 unless the node is one of the domain's.
pub fn explain(words: &[u32], c: NodeId) -> Result<Why, Refusal>
    requires { Sound words.now }
    ensures { explained_value result ≡ explained (decode words.now) c.0 }
{
    if domain::bounds(words).nodes <= c.0 {
        return Err(Refusal::NoSuchNode);
    }
    let reason = reason_of(words, c);
    let behind = behind_in(words);
    Ok(Why { reason, behind })
}
