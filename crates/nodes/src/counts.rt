// Counts over the nodes' part of a domain's words: Reachable nodes, and the Retired nodes of a process; and whether a process has a
// node under way.
ghost use Rattle.std.specs.Prelude.{◌≡◌, ℕ, Bool, List, not, ◌≤◌, ◌<◌, drop, eqb};
ghost use Rattle.lists.specs.Tests.{every, count};
ghost use Rattle.model.specs.State.{Node, Reachable};
ghost use Rattle.model.specs.Retire.{retired_by};
ghost use Rattle.model.specs.Leave.{under_way};
ghost use Rattle.layout.specs.Nodes.{nodes_in};
ghost use Rattle.nodes.specs.Part.{node_in, Part};

use layout::words::node_word;
use layout::{NodeId, ProcessId, State};

// How many nodes pass a test, from node `from` on. What the test answers is added: the loop has no branch of its own.
#[inline(always)]
fn count_passing<F: Fn(NodeId) -> bool>(m: u32, from: u32, passes: F) -> u32
    requires range { from ≤ m }
    requires may { (c : NodeId) → c.0 < m → F.pre passes c }
    ensures { (f : Node → Bool) (r : List ℕ) → Part m r
        → ((c : NodeId) (b : Bool) → c.0 < m → F.post passes c b → b ≡ f (node_in m r c.0))
        → result ≡ count f (drop from (nodes_in m r)) }
{
    let mut found: u32 = 0;
    for i in from..m {
        found += u32::from(passes(NodeId(i)));
    }
    found
}

// How many nodes are Reachable.
pub fn reachable_count(nodes: &[u32], m: u32) -> u32
    requires { Part m nodes.now }
    ensures { result ≡ count (λ n. eqb n.state Reachable) (nodes_in m nodes.now) }
{
    count_passing(
        m,
        0,
        |c| crate::state_of(nodes, m, c) == u32::from(State::Reachable),
    )
}

// Is node c a Retired node of p? State and owner are compared at once.
pub fn retired_by(nodes: &[u32], m: u32, c: NodeId, p: ProcessId) -> bool
    requires { Part m nodes.now × (c.0 < m) }
    ensures { result ≡ retired_by p.0 (node_in m nodes.now c.0) }
{
    let at = crate::offset(m, c);
    layout::pair(crate::state_of(nodes, m, c), nodes[at + node_word::OWNER])
        == layout::pair(State::Retired.into(), p.0)
}

// How many Retired nodes p has, from node `from` on.
pub fn retired_count(nodes: &[u32], m: u32, p: ProcessId, from: u32) -> u32
    requires { Part m nodes.now × (from ≤ m) }
    ensures { result ≡ count (retired_by p.0) (drop from (nodes_in m nodes.now)) }
{
    count_passing(m, from, |c| retired_by(nodes, m, c, p))
}

// Does p have node c under way: is it Allocated or Removed, and p's own?
fn under_way(nodes: &[u32], m: u32, c: NodeId, p: ProcessId) -> bool
    requires { Part m nodes.now × (c.0 < m) }
    ensures { result ≡ under_way p.0 (node_in m nodes.now c.0) }
{
    let at = crate::offset(m, c);
    let state = crate::state_of(nodes, m, c);
    ((state == u32::from(State::Allocated)) | (state == u32::from(State::Removed)))
        & (nodes[at + node_word::OWNER] == p.0)
}

// Has p no node under way: none that is Allocated or Removed and its own?
pub fn none_under_way(nodes: &[u32], m: u32, p: ProcessId) -> bool
    requires { Part m nodes.now }
    ensures { result ≡ every (λ n. not (under_way p.0 n)) (nodes_in m nodes.now) }
{
    let mut ok = true;
    for i in 0..m {
        ok &= !under_way(nodes, m, NodeId(i), p);
    }
    ok
}
