// A domain's words: the head and the nodes here, the processes in the modules. Every call speaks of the domain that the words hold, and no
// caller knows an address.
#![tactic(auto)]

pub mod process;
pub mod processes;
pub mod stores;

ghost use Rattle.std.specs.Prelude.{◌≡◌, ◌+◌, ◌-◌, ◌<◌, ◌≤◌, length, not};
ghost use Rattle.lists.specs.Tests.{every, count};
ghost use Rattle.model.specs.Params.{delay};
ghost use Rattle.model.specs.State.{node_of, set_node, with_clock, with_path, with_epoch};
ghost use Rattle.model.specs.Retire.{retired_by, freeing};
ghost use Rattle.model.specs.Portion.{nodes_from};
ghost use Rattle.model.specs.Epochs.{expired};
ghost use Rattle.model.specs.Leave.{under_way, hand_over};
ghost use Rattle.model.specs.Claims.{reachable_count};
ghost use Rattle.layout.specs.Shape.{nodes_start};
ghost use Rattle.layout.specs.Encode.{shape, decode, params_in};
ghost use Rattle.layout.specs.Sound.{Sound};
ghost use Rattle.layout.specs.Values.{params_value, node_value, path_number};
ghost use Rattle.nodes.specs.Portions.{Reached};
ghost use Rattle.domain.specs.Effects.{Does, changed, unmarked};

use layout::words::{head_word, most};
use layout::{Node, NodeId, Params, Path, ProcessId};
use nodes::portions::End;

// ---- the head

// The parameters.
pub fn bounds(words: &[u32]) -> Params
    requires { Sound words.now }
    ensures { params_value result ≡ (decode words.now).params }
{
    Params {
        processes: words[head_word::PROCESSES],
        hazards: words[head_word::HAZARDS],
        nodes: words[head_word::NODES],
        visibility: words[head_word::VISIBILITY],
        quiescence: words[head_word::QUIESCENCE],
        fallback: words[head_word::FALLBACK],
        lateness: words[head_word::LATENESS],
    }
}

pub fn clock(words: &[u32]) -> u32
    requires { Sound words.now }
    ensures { result ≡ (decode words.now).clock }
{
    words[head_word::CLOCK]
}

pub fn path(words: &[u32]) -> Path
    requires { Sound words.now }
    ensures { path_number result ≡ (decode words.now).path }
{
    if words[head_word::PATH] == u32::from(Path::Fast) {
        Path::Fast
    } else {
        Path::Fallback
    }
}

// The global epoch.
pub fn epoch(words: &[u32]) -> u32
    requires { Sound words.now }
    ensures { result ≡ (decode words.now).epoch }
{
    words[head_word::EPOCH]
}

pub fn set_clock(words: &mut [u32], v: u32)
    requires { Sound words.old }
    ensures { words.new ≡ changed (λ d. with_clock d v) words.old }
{
    words[head_word::CLOCK] = v;
}

pub fn set_path(words: &mut [u32], v: u32)
    requires { Sound words.old }
    ensures { words.new ≡ changed (λ d. with_path d v) words.old }
{
    words[head_word::PATH] = v;
}

pub fn set_epoch(words: &mut [u32], v: u32)
    requires { Sound words.old }
    ensures { words.new ≡ changed (λ d. with_epoch d v) words.old }
{
    words[head_word::EPOCH] = v;
}

// T + E, the ticks within which every store has become visible: the one age that flushes and scans go by.
pub fn delay(words: &[u32]) -> u32
    requires { Sound words.now }
    ensures { result ≡ delay (decode words.now).params }
{
    words[head_word::VISIBILITY] + words[head_word::LATENESS]
}

// The clock below which a node must have been retired to be older than the delay.
fn aged_before(clock: u32, delay: u32) -> u32
    ensures { result ≡ clock - delay }
{
    if delay < clock { clock - delay } else { 0 }
}

// ---- nodes

// Where the nodes start.
fn nodes_at(words: &[u32]) -> usize
    requires { Sound words.now }
    ensures value { result ≡ nodes_start shape (params_in words.now).processes (params_in words.now).hazards }
    ensures words_value { result + shape.nodes.width (params_in words.now).nodes ≡ length words.now }
{
    layout::process_start(words[head_word::HAZARDS], words[head_word::PROCESSES])
}

// Node c.
pub fn node(words: &[u32], c: NodeId) -> Node
    requires { Sound words.now × (c.0 < (params_in words.now).nodes) }
    ensures { node_value result ≡ node_of (decode words.now) c.0 }
{
    let m = words[head_word::NODES];
    let a = nodes_at(words);
    nodes::node(&words[a..], m, c)
}

// Node c becomes x.
pub fn set_node(words: &mut [u32], c: NodeId, x: Node)
    requires { Sound words.old × (c.0 < (params_in words.old).nodes) }
    ensures { words.new ≡ changed (λ d. set_node d c.0 (node_value x)) words.old }
{
    let m = words[head_word::NODES];
    let a = nodes_at(words);
    nodes::put(&mut words[a..], m, c, x);
}

// How many nodes are Reachable.
pub fn reachable_count(words: &[u32]) -> u32
    requires { Sound words.now }
    ensures { result ≡ reachable_count (decode words.now) }
{
    let m = words[head_word::NODES];
    let a = nodes_at(words);
    nodes::counts::reachable_count(&words[a..], m)
}

// How many Retired nodes process p has, from node `from` on.
pub fn retired_count(words: &[u32], p: ProcessId, from: u32) -> u32
    requires { Sound words.now × (from ≤ (params_in words.now).nodes) }
    ensures { result ≡ count (retired_by p.0) (nodes_from (decode words.now) from) }
{
    let m = words[head_word::NODES];
    let a = nodes_at(words);
    nodes::counts::retired_count(&words[a..], m, p, from)
}

// Where a portion of a scan by process p ends that starts at node c.
pub fn reach(words: &[u32], p: ProcessId, c: NodeId, limit: u32) -> End
    requires { Sound words.now × (c.0 < (params_in words.now).nodes) }
    ensures { Reached (retired_by p.0) limit c.0 (params_in words.now).nodes (decode words.now).nodes result }
{
    let m = words[head_word::NODES];
    let a = nodes_at(words);
    nodes::portions::reach(&words[a..], m, p, c.0, limit)
}

// Has process p no node under way?
pub fn none_under_way(words: &[u32], p: ProcessId) -> bool
    requires { Sound words.now }
    ensures { result ≡ every (λ n. not (under_way p.0 n)) (decode words.now).nodes }
{
    let m = words[head_word::NODES];
    let a = nodes_at(words);
    nodes::counts::none_under_way(&words[a..], m, p)
}

// Each Retired node of process p becomes one of process q, which retires it now, at its local epoch.
pub fn hand_over(words: &mut [u32], p: ProcessId, q: ProcessId)
    requires { Sound words.old × (q.0 < (params_in words.old).processes) }
    ensures { words.new ≡ changed (λ d. hand_over d p.0 q.0) words.old }
{
    let m = words[head_word::NODES];
    let time = words[head_word::CLOCK];
    let epoch = process::lead(words, q).epoch;
    let a = nodes_at(words);
    nodes::handing::hand_over(&mut words[a..], m, p, q, time, epoch);
}

// ---- sweeps

// Frees each Retired node of process p from node `from` up to node `to`, that one left out, that is older than the delay and not marked,
// and answers how many.
pub fn sweep_due(
    words: &mut [u32],
    p: ProcessId,
    from: u32,
    to: u32,
    marks: &[bool; most::MARKS],
) -> u32
    requires { Sound words.old × (from ≤ to) × (to ≤ (params_in words.old).nodes) }
    ensures { let d = decode words.old in Does (freeing d (unmarked d p.0 from to marks.now)) words.new result }
{
    let m = words[head_word::NODES];
    let limit = aged_before(words[head_word::CLOCK], delay(words));
    let a = nodes_at(words);
    nodes::sweeps::sweep_due(&mut words[a..], m, p, from, to, limit, marks)
}

// Frees each Retired node of process p in the limbo list of the global epoch, and answers how many.
pub fn sweep_expired(words: &mut [u32], p: ProcessId) -> u32
    requires { Sound words.old }
    ensures { let d = decode words.old in Does (freeing d (expired d p.0)) words.new result }
{
    let m = words[head_word::NODES];
    let epoch = words[head_word::EPOCH];
    let a = nodes_at(words);
    nodes::sweeps::sweep_expired(&mut words[a..], m, p, epoch)
}
