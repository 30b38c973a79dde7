// Nodes that pass from one process to another.
ghost use Rattle.std.specs.Prelude.{◌≡◌, map, ◌<◌};
ghost use Rattle.model.specs.State.{Retired};
ghost use Rattle.model.specs.Retire.{retiring};
ghost use Rattle.model.specs.Leave.{owned_by, handed};
ghost use Rattle.layout.specs.Nodes.{nodes_in, nodes_words};
ghost use Rattle.nodes.specs.Part.{node_in, Part, with_node};

use layout::words::node_word;
use layout::{NodeId, ProcessId};

// Node c, which is Retired, becomes one of q: its state and guest stay.
fn pass(nodes: &mut [u32], m: u32, c: NodeId, q: ProcessId, time: u32, epoch: u32)
    requires { Part m nodes.old × (c.0 < m) × ((node_in m nodes.old c.0).state ≡ Retired) }
    ensures { let ns = nodes.old in nodes.new ≡ with_node m ns c.0 (retiring time epoch (owned_by q.0 (node_in m ns c.0))) }
{
    let at = crate::offset(m, c);
    nodes[at + node_word::OWNER] = q.0;
    nodes[at + node_word::RETIRED] = time;
    nodes[at + node_word::LIMBO] = epoch;
}

// Each Retired node of p becomes one of q, as if q with local epoch `epoch` had retired it at clock `time`.
pub fn hand_over(nodes: &mut [u32], m: u32, p: ProcessId, q: ProcessId, time: u32, epoch: u32)
    requires { Part m nodes.old }
    ensures { nodes.new ≡ nodes_words (map (handed p.0 q.0 time epoch) (nodes_in m nodes.old)) }
{
    for i in 0..m {
        if crate::counts::retired_by(nodes, m, NodeId(i), p) {
            pass(nodes, m, NodeId(i), q, time, epoch);
        }
    }
}
