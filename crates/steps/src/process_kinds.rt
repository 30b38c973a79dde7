// The kinds that touch one process: protect (3), check (4), use (5), clear (6), drain (9), flush (10), manage (12). Each is asked for and done.
ghost use Rattle.std.specs.Prelude.{◌≡◌};
ghost use Rattle.model.specs.Kinds.{kind_of, Protect, Check, Use, Clear, Drain, Flush, Manage};
ghost use Rattle.layout.specs.Sound.{Sound};
ghost use Rattle.layout.specs.Values.{step_value};
ghost use Rattle.steps.specs.Stepped.{SteppedTo};

use kinds::Kind;
use layout::Step;
use refusals::Refusal;

// The node is assigned to the hazard, and the store of it is pending.
#[inline(always)]
pub fn protect(words: &mut [u32], step: Step) -> Result<u32, Refusal>
    requires { Sound words.old × (kind_of step.kind ≡ Protect) }
    ensures { SteppedTo words.old (step_value step) result words.new }
{
    questions::ask(words, Kind::Protect, step)?;
    domain::stores::assign(words, step.process, step.hazard, step.node.0 + 1);
    Ok(0)
}

// The hazard is validated.
#[inline(always)]
pub fn check(words: &mut [u32], step: Step) -> Result<u32, Refusal>
    requires { Sound words.old × (kind_of step.kind ≡ Check) }
    ensures { SteppedTo words.old (step_value step) result words.new }
{
    questions::ask(words, Kind::Check, step)?;
    domain::process::validate(words, step.process, step.hazard);
    Ok(0)
}

// The value is the guest of the node assigned to the hazard.
#[inline(always)]
pub fn use_hazard(words: &mut [u32], step: Step) -> Result<u32, Refusal>
    requires { Sound words.old × (kind_of step.kind ≡ Use) }
    ensures { SteppedTo words.old (step_value step) result words.new }
{
    questions::ask(words, Kind::Use, step)?;
    Ok(questions::read::hazard_node(words, step.process, step.hazard).guest)
}

// No node is assigned to the hazard, and the store of none is pending.
#[inline(always)]
pub fn clear(words: &mut [u32], step: Step) -> Result<u32, Refusal>
    requires { Sound words.old × (kind_of step.kind ≡ Clear) }
    ensures { SteppedTo words.old (step_value step) result words.new }
{
    questions::ask(words, Kind::Clear, step)?;
    domain::stores::assign(words, step.process, step.hazard, 0);
    Ok(0)
}

// The oldest pending store is committed.
#[inline(always)]
pub fn drain(words: &mut [u32], step: Step) -> Result<u32, Refusal>
    requires { Sound words.old × (kind_of step.kind ≡ Drain) }
    ensures { SteppedTo words.old (step_value step) result words.new }
{
    questions::ask(words, Kind::Drain, step)?;
    domain::stores::drain(words, step.process);
    Ok(0)
}

// All pending stores are committed.
#[inline(always)]
pub fn flush(words: &mut [u32], step: Step) -> Result<u32, Refusal>
    requires { Sound words.old × (kind_of step.kind ≡ Flush) }
    ensures { SteppedTo words.old (step_value step) result words.new }
{
    questions::ask(words, Kind::Flush, step)?;
    domain::stores::flush(words, step.process);
    Ok(0)
}

// A call of manage; the value is how many nodes were freed.
#[inline(always)]
pub fn manage(words: &mut [u32], step: Step) -> Result<u32, Refusal>
    requires { Sound words.old × (kind_of step.kind ≡ Manage) }
    ensures { SteppedTo words.old (step_value step) result words.new }
{
    questions::ask(words, Kind::Manage, step)?;
    Ok(epochs::manage(words, step.process))
}
