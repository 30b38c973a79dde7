// Whether the words of a node are those of a well-formed domain: each at most a limit that goes by the node's state.
ghost use Rattle.std.specs.Prelude.{◌≡◌, ◌&&◌, ◌≤◌, ◌<◌, length};
ghost use Rattle.model.specs.State.{Retired};
ghost use Rattle.limits.specs.Limits.{none};
ghost use Rattle.nodes.specs.Part.{node_in, Part};
ghost use Rattle.nodes.specs.NodeLimits.{limit_count, node_limits, in_limits};

use layout::NodeId;
use layout::words::{most, node_word};
use limits::Faults;

// The limits of a node's words but the state, four a row and a row for each state.
pub const LIMITS: usize = 20;

// Those limits, turned; last is the last process.
pub fn node_limits(last: u32, clock: u32) -> [u32; LIMITS]
    ensures { result ≡ node_limits last clock }
{
    let owner = limits::turned(last);
    let any = limits::turned(most::CLOCK);
    let time = limits::turned(clock);
    let list = limits::turned(most::EPOCH);
    let mut limits = [limits::turned(0); LIMITS];
    limits[4] = owner; // of Allocated
    limits[5] = any;
    limits[9] = any; // of Reachable, which has no owner
    limits[12] = owner; // of Removed, which has no time of retirement
    limits[13] = any;
    limits[16] = owner; // of Retired
    limits[17] = any;
    limits[18] = time;
    limits[19] = list;
    limits
}

// Node c, whose state is one of the five.
pub fn node(faults: Faults, nodes: &[u32], m: u32, c: NodeId, limits: &[u32]) -> Faults
    requires { Part m nodes.now × (c.0 < m) × ((node_in m nodes.now c.0).state ≤ Retired) × (length limits.now ≡ limit_count) }
    ensures { none result ≡ (none faults && in_limits limits.now m nodes.now c.0) }
{
    let state = crate::state_of(nodes, m, c);
    let at = crate::offset(m, c);
    faults.row(
        nodes,
        at + node_word::OWNER,
        limits,
        layout::wide(state) * 4,
    )
}
