// The kinds that name a node: allocate (1), publish (2), remove (7), retire (8), reinsert (14), portion (17). Each is asked for and done.
ghost use Rattle.std.specs.Prelude.{◌<◌, ◌≡◌};
ghost use Rattle.model.specs.State.{node_of, set_node};
ghost use Rattle.model.specs.Kinds.{kind_of, Allocate, Publish, Remove, Retire, Reinsert, Portion};
ghost use Rattle.model.specs.Machine.{publishing};
ghost use Rattle.layout.specs.Encode.{params_in};
ghost use Rattle.layout.specs.Sound.{Sound};
ghost use Rattle.layout.specs.Values.{step_value};
ghost use Rattle.domain.specs.Effects.{changed};
ghost use Rattle.steps.specs.Stepped.{SteppedTo};

use kinds::Kind;
use layout::{Node, NodeId, State, Step};
use refusals::Refusal;

// The node becomes Allocated by the process, for the guest.
#[inline(always)]
pub fn allocate(words: &mut [u32], step: Step) -> Result<u32, Refusal>
    requires { Sound words.old × (kind_of step.kind ≡ Allocate) }
    ensures { SteppedTo words.old (step_value step) result words.new }
{
    questions::ask(words, Kind::Allocate, step)?;
    domain::set_node(
        words,
        step.node,
        Node {
            state: State::Allocated.into(),
            owner: step.process.0,
            guest: kinds::guest_read(step.kind, step.guest),
            retired: 0,
            limbo: 0,
        },
    );
    Ok(0)
}

// The node becomes Reachable, owned by nobody.
#[inline(always)]
fn make_reachable(words: &mut [u32], c: NodeId)
    requires { Sound words.old × (c.0 < (params_in words.old).nodes) }
    ensures { words.new ≡ changed (λ d. set_node d c.0 (publishing (node_of d c.0))) words.old }
{
    let was = domain::node(words, c);
    domain::set_node(
        words,
        c,
        Node {
            state: State::Reachable.into(),
            owner: 0,
            guest: was.guest,
            retired: was.retired,
            limbo: was.limbo,
        },
    );
}

// The node, Allocated by the process, becomes Reachable.
#[inline(always)]
pub fn publish(words: &mut [u32], step: Step) -> Result<u32, Refusal>
    requires { Sound words.old × (kind_of step.kind ≡ Publish) }
    ensures { SteppedTo words.old (step_value step) result words.new }
{
    questions::ask(words, Kind::Publish, step)?;
    make_reachable(words, step.node);
    Ok(0)
}

// The node, Removed by the process, becomes Reachable again.
#[inline(always)]
pub fn reinsert(words: &mut [u32], step: Step) -> Result<u32, Refusal>
    requires { Sound words.old × (kind_of step.kind ≡ Reinsert) }
    ensures { SteppedTo words.old (step_value step) result words.new }
{
    questions::ask(words, Kind::Reinsert, step)?;
    make_reachable(words, step.node);
    Ok(0)
}

// The node becomes Removed by the process.
#[inline(always)]
pub fn remove(words: &mut [u32], step: Step) -> Result<u32, Refusal>
    requires { Sound words.old × (kind_of step.kind ≡ Remove) }
    ensures { SteppedTo words.old (step_value step) result words.new }
{
    questions::ask(words, Kind::Remove, step)?;
    let x = domain::node(words, step.node);
    domain::set_node(
        words,
        step.node,
        Node {
            state: State::Removed.into(),
            owner: step.process.0,
            guest: x.guest,
            retired: x.retired,
            limbo: x.limbo,
        },
    );
    Ok(0)
}

// The node becomes Retired; the value is how many nodes were freed.
#[inline(always)]
pub fn retire(words: &mut [u32], step: Step) -> Result<u32, Refusal>
    requires { Sound words.old × (kind_of step.kind ≡ Retire) }
    ensures { SteppedTo words.old (step_value step) result words.new }
{
    questions::ask(words, Kind::Retire, step)?;
    Ok(retire::retire(words, step.process, step.node))
}

// A portion of a scan from the node on; the value is how many nodes were freed.
#[inline(always)]
pub fn portion(words: &mut [u32], step: Step) -> Result<u32, Refusal>
    requires { Sound words.old × (kind_of step.kind ≡ Portion) }
    ensures { SteppedTo words.old (step_value step) result words.new }
{
    let portion = crate::portion::portion(words, step.process, step.node, step.guest)?;
    Ok(portion.freed)
}
