// A scan in portions (kind 17). It answers more than a step does, and is a call of its own too.
ghost use Rattle.model.specs.Machine.{portioned};
ghost use Rattle.layout.specs.Encode.{decode};
ghost use Rattle.layout.specs.Sound.{Sound};
ghost use Rattle.steps.specs.Portioned.{Portions};

use kinds::Kind;
use layout::{HazardId, NodeId, ProcessId, Step};
use refusals::Refusal;
use retire::portion::Portion;

// Examines at most `limit` Retired nodes of process p from node c on, and frees those that a scan by it would free. On words known to be sound,
// which are sound again after it.
pub fn portion(words: &mut [u32], p: ProcessId, c: NodeId, limit: u32) -> Result<Portion, Refusal>
    requires { Sound words.old }
    ensures { Portions (portioned (decode words.old) p.0 c.0 limit) result words.new }
{
    let step = Step {
        kind: Kind::Portion.into(),
        process: p,
        hazard: HazardId(0),
        node: c,
        guest: limit,
    };
    questions::ask(words, Kind::Portion, step)?;
    Ok(retire::portion::scan(words, p, c, limit))
}
