// A portion of a scan (kind 17): a process's Retired nodes from one on examined, up to a limit.
ghost use Rattle.std.specs.Prelude.{◌<◌};
ghost use Rattle.model.specs.Portion.{portion};
ghost use Rattle.layout.specs.Encode.{decode, params_in};
ghost use Rattle.layout.specs.Sound.{Sound};
ghost use Rattle.retire.specs.Portions.{Scans};

use layout::{NodeId, ProcessId};

// freed: nodes freed. examined: the Retired nodes of the process that were met. next: the node to go on from. left: its Retired nodes
// from there on.
#[derive(Clone, Copy)]
pub struct Portion {
    pub freed: u32,
    pub examined: u32,
    pub next: u32,
    pub left: u32,
}

// Frees those of the first `limit` Retired nodes of process p from node c on that a scan by it would free. Where it has none there, the
// hazards are not looked at.
pub fn scan(words: &mut [u32], p: ProcessId, c: NodeId, limit: u32) -> Portion
    requires { Sound words.old × (p.0 < (params_in words.old).processes) × (c.0 < (params_in words.old).nodes) }
    ensures { Scans (portion (decode words.old) p.0 c.0 limit) result words.new }
{
    let reached = domain::reach(words, p, c, limit);
    let left = domain::retired_count(words, p, reached.next);
    if reached.examined == 0 {
        let next = reached.next;
        return Portion {
            freed: 0,
            examined: 0,
            next,
            left,
        };
    }
    let freed = crate::scan::scan(words, p, c.0, reached.next);
    Portion {
        freed,
        examined: reached.examined,
        next: reached.next,
        left,
    }
}
