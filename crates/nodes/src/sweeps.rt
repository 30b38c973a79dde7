// Sweeps over the nodes' part of a domain's words: Retired nodes freed, by age and marks or by limbo list.
ghost use Rattle.std.specs.Prelude.{◌≡◌, Bool, cond, ◌+◌, ◌≤◌, ◌<◌, set};
ghost use Rattle.lists.specs.Tests.{All};
ghost use Rattle.model.specs.Params.{most_nodes};
ghost use Rattle.model.specs.State.{free_node};
ghost use Rattle.nodes.specs.Part.{node_in, Part, with_node};
ghost use Rattle.nodes.specs.Sweeps.{due_unmarked, due_between, expired_in, freed_at, OnlyBetween, Swept};

use layout::words::{most, node_word};
use layout::{Node, NodeId, ProcessId, State};

// Is node c due: Retired by p at a clock below the limit, its mark not set?
fn due(
    nodes: &[u32],
    m: u32,
    c: NodeId,
    p: ProcessId,
    limit: u32,
    marks: &[bool; most::MARKS],
) -> bool
    requires { Part m nodes.now × (c.0 < m) }
    ensures { result ≡ due_unmarked p.0 limit marks.now c.0 (node_in m nodes.now c.0) }
{
    let at = crate::offset(m, c);
    crate::counts::retired_by(nodes, m, c, p)
        & ((nodes[at + node_word::RETIRED] < limit) & !marks[layout::wide(c.0) + 1])
}

// Is node c a Retired node of p in the limbo list of `epoch`?
fn expired(nodes: &[u32], m: u32, c: NodeId, p: ProcessId, epoch: u32) -> bool
    requires { Part m nodes.now × (c.0 < m) }
    ensures { result ≡ expired_in p.0 epoch c.0 (node_in m nodes.now c.0) }
{
    let at = crate::offset(m, c);
    crate::counts::retired_by(nodes, m, c, p) & (nodes[at + node_word::LIMBO] == epoch)
}

// Writes place i after the `count` places that are noted, and answers how many are noted now: i is one of them where the test is
// passed. There is no branch, since the nodes that pass may stand anywhere.
fn note(places: &mut [u8; most::NODES as usize], count: u32, i: u32, passed: bool) -> u32
    requires { (count ≤ i) × (i < most_nodes) }
    ensures { (places.new ≡ set places.old count i) × (result ≡ count + cond passed 1 0) }
{
    places[layout::wide(count)] = i as u8;
    count + u32::from(passed)
}

// Frees node c.
fn free(nodes: &mut [u32], m: u32, c: NodeId)
    requires { Part m nodes.old × (c.0 < m) }
    ensures { nodes.new ≡ with_node m nodes.old c.0 free_node }
{
    let x = Node {
        state: State::Free.into(),
        owner: 0,
        guest: 0,
        retired: 0,
        limbo: 0,
    };
    crate::put(nodes, m, c, x);
}

// Frees the nodes that are noted.
fn free_noted(nodes: &mut [u32], m: u32, noted: &[u8])
    requires { Part m nodes.old × All (λ c. c < m) noted.now }
    ensures { nodes.new ≡ freed_at noted.now m nodes.old }
{
    for &c in noted {
        free(nodes, m, NodeId(u32::from(c)));
    }
}

// Frees each node from `from` up to `to`, that one left out, that passes a test, and answers how many.
#[inline(always)]
fn sweep<F: Fn(&[u32], NodeId) -> bool>(
    nodes: &mut [u32],
    m: u32,
    from: u32,
    to: u32,
    passes: F,
) -> u32
    requires range { Part m nodes.old × (from ≤ to) × (to ≤ m) }
    requires may { (x : _) (c : NodeId) → Part m x.now → c.0 < m → F.pre passes x c }
    ensures { (f : _) → OnlyBetween from to m f
        → ((x : _) (c : NodeId) (b : Bool) → x.now ≡ nodes.old → from ≤ c.0 → c.0 < to
        → F.post passes x c b → b ≡ f c.0 (node_in m nodes.old c.0))
        → Swept f m nodes.old nodes.new result }
{
    let mut places = [0u8; most::NODES as usize];
    let mut count: u32 = 0;
    for i in from..to {
        let passed = passes(nodes, NodeId(i));
        count = note(&mut places, count, i, passed);
    }
    free_noted(nodes, m, &places[..layout::wide(count)]);
    count
}

// Frees each node of p from `from` up to `to`, that one left out, that is due, and answers how many.
pub fn sweep_due(
    nodes: &mut [u32],
    m: u32,
    p: ProcessId,
    from: u32,
    to: u32,
    limit: u32,
    marks: &[bool; most::MARKS],
) -> u32
    requires { Part m nodes.old × (from ≤ to) × (to ≤ m) }
    ensures { Swept (due_between p.0 from to limit marks.now) m nodes.old nodes.new result }
{
    sweep(nodes, m, from, to, |x, c| due(x, m, c, p, limit, marks))
}

// Frees each Retired node of p in the limbo list of `epoch`, and answers how many.
pub fn sweep_expired(nodes: &mut [u32], m: u32, p: ProcessId, epoch: u32) -> u32
    requires { Part m nodes.old }
    ensures { Swept (expired_in p.0 epoch) m nodes.old nodes.new result }
{
    sweep(nodes, m, 0, m, |x, c| expired(x, m, c, p, epoch))
}
