// One pass over the nodes: after each it is known whether all so far are well formed and, if it is asked, how many are Reachable.
ghost use Rattle.std.specs.Prelude.{◌≡◌, ◌≤◌, ◌<◌, length};
ghost use Rattle.model.specs.State.{Retired};
ghost use Rattle.limits.specs.Limits.{none};
ghost use Rattle.nodes.specs.Part.{node_in, Part};
ghost use Rattle.nodes.specs.NodeLimits.{limit_count};
ghost use Rattle.nodes.specs.Pass.{state_weights, Further, Finds};

use layout::words::most;
use layout::{NodeId, State};
use limits::Faults;

// What is known of the nodes gone over so far, and of the words before them.
#[derive(Clone, Copy)]
pub struct Known {
    pub faults: Faults,
    pub reachable: u32,
}

// By state, what a node counts for: to look it up takes less than to compare the state (docs/BENCH.md, 'Request 5').
fn weights() -> [u32; most::STATES]
    ensures { result ≡ state_weights }
{
    let mut weights = [0u32; most::STATES];
    weights[State::Reachable as usize] = 1;
    weights
}

// One node further: node c, whose state is one of the five.
fn further(
    known: Known,
    nodes: &[u32],
    m: u32,
    c: NodeId,
    limits: &[u32],
    weights: &[u32],
    counting: bool,
) -> Known
    requires part { Part m nodes.now × (c.0 < m) × ((node_in m nodes.now c.0).state ≤ Retired) }
    requires limits_len { (length limits.now ≡ limit_count) × (weights.now ≡ state_weights) × (known.reachable ≤ c.0) }
    ensures { Further counting m nodes.now limits.now c.0 known result }
{
    let faults = crate::fits::node(known.faults, nodes, m, c, limits);
    let mut reachable = known.reachable;
    if counting {
        reachable += weights[layout::wide(crate::state_of(nodes, m, c))];
    }
    Known { faults, reachable }
}

// All m nodes: the count, or none where one does not fit. The limits are laid out by the caller, long before they are read. A state that is
// none ends the pass.
pub fn go_over(faults: Faults, nodes: &[u32], m: u32, limits: &[u32], counting: bool) -> Option<u32>
    requires { Part m nodes.now × (length limits.now ≡ limit_count) }
    ensures { Finds (none faults) counting m nodes.now limits.now result }
{
    let weights = weights();
    let mut known = Known {
        faults,
        reachable: 0,
    };
    for i in 0..m {
        if crate::state_of(nodes, m, NodeId(i)) > u32::from(State::Retired) {
            return None;
        }
        known = further(known, nodes, m, NodeId(i), limits, &weights, counting);
    }
    if known.faults.is_clean() {
        Some(known.reachable)
    } else {
        None
    }
}
