// The kinds by which a process goes and comes back: leave (15), join (16). Each is asked for and done.
ghost use Rattle.std.specs.Prelude.{◌≡◌};
ghost use Rattle.model.specs.Kinds.{kind_of, Leave, Join};
ghost use Rattle.layout.specs.Sound.{Sound};
ghost use Rattle.layout.specs.Values.{step_value};
ghost use Rattle.steps.specs.Stepped.{SteppedTo};

use kinds::Kind;
use layout::{ProcessId, Step};
use refusals::Refusal;

// The process hands its Retired nodes over to the second one, which the node field names, and is absent.
#[inline(always)]
pub fn leave(words: &mut [u32], step: Step) -> Result<u32, Refusal>
    requires { Sound words.old × (kind_of step.kind ≡ Leave) }
    ensures { SteppedTo words.old (step_value step) result words.new }
{
    questions::ask(words, Kind::Leave, step)?;
    domain::hand_over(words, step.process, ProcessId(step.node.0));
    domain::process::set_words(words, step.process, 0, 0, 0, 0);
    Ok(0)
}

// The process is present again, at the global epoch.
#[inline(always)]
pub fn join(words: &mut [u32], step: Step) -> Result<u32, Refusal>
    requires { Sound words.old × (kind_of step.kind ≡ Join) }
    ensures { SteppedTo words.old (step_value step) result words.new }
{
    questions::ask(words, Kind::Join, step)?;
    let p = step.process;
    let epoch = domain::epoch(words);
    let lead = domain::process::lead(words, p);
    domain::process::set_words(words, p, epoch, lead.calls, lead.presence, 1);
    Ok(0)
}
