// A step on words that are known to be sound: one dispatch over the kind. What a kind does is a function that asks the questions with that kind as
// a literal, of which only its own are left, and then does it. All but the portion are to be folded into the dispatch, and that into its caller.
#![tactic(auto)]

mod attendance;
mod domain_kinds;
mod node_kinds;
pub mod portion;
mod process_kinds;

ghost use Rattle.layout.specs.Sound.{Sound};
ghost use Rattle.layout.specs.Values.{step_value};
ghost use Rattle.steps.specs.Stepped.{SteppedTo};

use kinds::Kind;
use layout::Step;
use refusals::Refusal;

// A step on words known to be sound, which are sound again after it: its value, or why it is refused.
#[inline(always)]
pub fn take_step(words: &mut [u32], step: Step) -> Result<u32, Refusal>
    requires { Sound words.old }
    ensures { SteppedTo words.old (step_value step) result words.new }
{
    match Kind::try_from(step.kind)? {
        Kind::Allocate => node_kinds::allocate(words, step),
        Kind::Publish => node_kinds::publish(words, step),
        Kind::Protect => process_kinds::protect(words, step),
        Kind::Check => process_kinds::check(words, step),
        Kind::Use => process_kinds::use_hazard(words, step),
        Kind::Clear => process_kinds::clear(words, step),
        Kind::Remove => node_kinds::remove(words, step),
        Kind::Retire => node_kinds::retire(words, step),
        Kind::Drain => process_kinds::drain(words, step),
        Kind::Flush => process_kinds::flush(words, step),
        Kind::Tick => domain_kinds::tick(words, step),
        Kind::Manage => process_kinds::manage(words, step),
        Kind::ClearPresence => domain_kinds::clear_presence(words, step),
        Kind::Reinsert => node_kinds::reinsert(words, step),
        Kind::Leave => attendance::leave(words, step),
        Kind::Join => attendance::join(words, step),
        Kind::Portion => node_kinds::portion(words, step),
    }
}
