// The scan: a process's Retired nodes that are old enough and that it sees in no hazard freed.
ghost use Rattle.std.specs.Prelude.{◌≤◌, ◌<◌};
ghost use Rattle.model.specs.Retire.{partial_scan};
ghost use Rattle.layout.specs.Encode.{decode, params_in};
ghost use Rattle.layout.specs.Sound.{Sound};
ghost use Rattle.domain.specs.Effects.{Does};

use layout::ProcessId;
use layout::words::most;

// A scan by process p of the nodes from one up to another: frees each of its Retired nodes that is older than the delay and that
// it sees in no hazard, and answers how many.
pub fn scan(words: &mut [u32], p: ProcessId, from: u32, to: u32) -> u32
    requires { Sound words.old × (p.0 < (params_in words.old).processes) × (from ≤ to) × (to ≤ (params_in words.old).nodes) }
    ensures { Does (partial_scan (decode words.old) p.0 from to) words.new result }
{
    let mut marks = [false; most::MARKS];
    crate::marks::mark_visible(words, p, &mut marks);
    // Past the delay every store of a claim is visible: clauses (H), (T) and (B) of the invariant.
    domain::sweep_due(words, p, from, to, &marks)
}
