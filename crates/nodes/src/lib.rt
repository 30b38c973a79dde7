// The nodes' part of a domain's words: a node read and written. Each function takes the words from where the nodes start to the end, and
// m, the number of nodes. No other crate reads a node's words: `state_of` gives a state, `set_state` sets it, here and in the check.
#![tactic(auto)]

pub mod counts;
pub mod fits;
pub mod handing;
pub mod pass;
pub mod portions;
pub mod sweeps;

ghost use Rattle.std.specs.Prelude.{◌≡◌, ◌+◌, ◌*◌, ◌≤◌, ◌<◌};
ghost use Rattle.model.specs.Params.{most_nodes, node_width};
ghost use Rattle.layout.specs.Values.{node_value};
ghost use Rattle.nodes.specs.Part.{node_in, Part, with_node, in_state};

use layout::words::node_word;
use layout::{Node, NodeId};

// Where node c starts.
pub fn offset(m: u32, c: NodeId) -> usize
    requires { (m ≤ most_nodes) × (c.0 < m) }
    ensures { (result ≡ node_width * c.0) × (result + node_width ≤ node_width * m) }
{
    node_word::WIDTH * layout::wide(c.0)
}

// The state of node c.
pub fn state_of(nodes: &[u32], m: u32, c: NodeId) -> u32
    requires { Part m nodes.now × (c.0 < m) }
    ensures { result ≡ (node_in m nodes.now c.0).state }
{
    nodes[offset(m, c) + node_word::STATE]
}

// Node c is in state v from now on.
pub fn set_state(nodes: &mut [u32], m: u32, c: NodeId, v: u32)
    requires { Part m nodes.old × (c.0 < m) }
    ensures { nodes.new ≡ with_node m nodes.old c.0 (in_state v (node_in m nodes.old c.0)) }
{
    let at = offset(m, c);
    nodes[at + node_word::STATE] = v;
}

// Node c.
pub fn node(nodes: &[u32], m: u32, c: NodeId) -> Node
    requires { Part m nodes.now × (c.0 < m) }
    ensures { node_value result ≡ node_in m nodes.now c.0 }
{
    let at = offset(m, c);
    Node {
        state: state_of(nodes, m, c),
        owner: nodes[at + node_word::OWNER],
        guest: nodes[at + node_word::GUEST],
        retired: nodes[at + node_word::RETIRED],
        limbo: nodes[at + node_word::LIMBO],
    }
}

// Node c becomes x.
pub fn put(nodes: &mut [u32], m: u32, c: NodeId, x: Node)
    requires { Part m nodes.old × (c.0 < m) }
    ensures { nodes.new ≡ with_node m nodes.old c.0 (node_value x) }
{
    let at = offset(m, c);
    set_state(nodes, m, c, x.state);
    nodes[at + node_word::OWNER] = x.owner;
    nodes[at + node_word::GUEST] = x.guest;
    nodes[at + node_word::RETIRED] = x.retired;
    nodes[at + node_word::LIMBO] = x.limbo;
}
