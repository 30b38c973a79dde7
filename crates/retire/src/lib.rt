// Retire (kind 8): a node marked Retired, the switch to the fallback path, and the scan.
#![tactic(auto)]

mod marks;
pub mod portion;
pub mod scan;
pub mod shown;

ghost use Rattle.std.specs.Prelude.{◌≡◌, ◌<◌};
ghost use Rattle.model.specs.Kinds.{Retire};
ghost use Rattle.model.specs.Retire.{fall_back, reclaim};
ghost use Rattle.layout.specs.Encode.{encode, decode, params_in};
ghost use Rattle.layout.specs.Sound.{Sound};
ghost use Rattle.domain.specs.Effects.{Does};
ghost use Rattle.questions.specs.Acted.{Ready, Acted};

use layout::{Node, NodeId, Path, ProcessId, State};

// Goes over to the fallback path and forgets presence.
fn fall_back(words: &mut [u32])
    requires { Sound words.old }
    ensures { words.new ≡ encode (fall_back (decode words.old)) }
{
    domain::set_path(words, Path::Fallback.into());
    domain::processes::clear_presence(words);
}

// After a retire by process p: on the fallback path a scan; on the fast path, where p is overfull, the switch and then a scan.
fn reclaim(words: &mut [u32], p: ProcessId) -> u32
    requires { Sound words.old × (p.0 < (params_in words.old).processes) }
    ensures { Does (reclaim (decode words.old) p.0) words.new result }
{
    let a = domain::bounds(words);
    if domain::path(words) == Path::Fallback {
        return scan::scan(words, p, 0, a.nodes);
    }
    if domain::retired_count(words, p, 0) < a.fallback {
        return 0;
    }
    fall_back(words);
    scan::scan(words, p, 0, a.nodes)
}

// The node becomes Retired, on the limbo list of the process's epoch; answers how many nodes were freed.
pub fn retire(words: &mut [u32], p: ProcessId, c: NodeId) -> u32
    requires { Ready Retire words.old p.0 0 c.0 0 }
    ensures { Acted Retire words.old p.0 0 c.0 0 words.new result }
{
    let l = domain::process::lead(words, p);
    let clock = domain::clock(words);
    let x = domain::node(words, c);
    domain::set_node(
        words,
        c,
        Node {
            state: State::Retired.into(),
            retired: clock,
            limbo: l.epoch,
            ..x
        },
    );
    reclaim(words, p)
}
