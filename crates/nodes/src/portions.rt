// Where a portion of a scan ends: after so many Retired nodes of a process.
ghost use Rattle.std.specs.Prelude.{◌≤◌};
ghost use Rattle.model.specs.Retire.{retired_by};
ghost use Rattle.layout.specs.Nodes.{nodes_in};
ghost use Rattle.nodes.specs.Part.{Part};
ghost use Rattle.nodes.specs.Portions.{Reached};

use layout::{NodeId, ProcessId};

// next: the node after the last of them. examined: how many there are.
#[derive(Clone, Copy)]
pub struct End {
    pub next: u32,
    pub examined: u32,
}

// Goes from node `from` past `limit` Retired nodes of p, or to the end where there are fewer.
pub fn reach(nodes: &[u32], m: u32, p: ProcessId, from: u32, limit: u32) -> End
    requires { Part m nodes.now × (from ≤ m) }
    ensures { Reached (retired_by p.0) limit from m (nodes_in m nodes.now) result }
{
    let mut examined: u32 = 0;
    for i in from..m {
        if examined == limit {
            return End { next: i, examined };
        }
        examined += u32::from(crate::counts::retired_by(nodes, m, NodeId(i), p));
    }
    End { next: m, examined }
}
