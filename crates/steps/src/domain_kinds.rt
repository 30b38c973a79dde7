// The kinds that touch the head or every process: tick (11), clear presence (13). Each is asked for and done.
ghost use Rattle.std.specs.Prelude.{◌≡◌};
ghost use Rattle.model.specs.Kinds.{kind_of, Tick, ClearPresence};
ghost use Rattle.layout.specs.Sound.{Sound};
ghost use Rattle.layout.specs.Values.{step_value};
ghost use Rattle.steps.specs.Stepped.{SteppedTo};

use kinds::Kind;
use layout::Step;
use refusals::Refusal;

// One tick more.
#[inline(always)]
pub fn tick(words: &mut [u32], step: Step) -> Result<u32, Refusal>
    requires { Sound words.old × (kind_of step.kind ≡ Tick) }
    ensures { SteppedTo words.old (step_value step) result words.new }
{
    questions::ask(words, Kind::Tick, step)?;
    let clock = domain::clock(words);
    domain::set_clock(words, clock + 1);
    Ok(0)
}

// All presence words become 0.
#[inline(always)]
pub fn clear_presence(words: &mut [u32], step: Step) -> Result<u32, Refusal>
    requires { Sound words.old × (kind_of step.kind ≡ ClearPresence) }
    ensures { SteppedTo words.old (step_value step) result words.new }
{
    questions::ask(words, Kind::ClearPresence, step)?;
    domain::processes::clear_presence(words);
    Ok(0)
}
