// Steps one after another, on words that are checked once.
ghost use Rattle.std.specs.Prelude.{◌≡◌, ◌<◌};
ghost use Rattle.layout.specs.Values.{step_value};
ghost use Rattle.layout.specs.Words.{well_formed};
ghost use Rattle.qsense.specs.Values.{Stepped};
ghost use Rattle.qsense.specs.Runs.{step_in, HoldsStep, HoldsTurn, HoldsRun, Taken, RunOn};

use answers::Answer;
use layout::words::{answer_word, step_word};
use layout::{HazardId, NodeId, ProcessId, Step};
use refusals::Refusal;

// One step, on words of which it is known whether they are those of a well-formed domain. Folded into its callers: as a
// call it would be given the step through memory.
#[inline(always)]
pub fn step_checked(words: &mut [u32], good: bool, step: Step) -> Result<u32, Refusal>
    requires { good ≡ well_formed words.old }
    ensures { Stepped good (step_value step) words.old result words.new }
{
    if !good {
        return Err(Refusal::Malformed);
    }
    steps::take_step(words, step)
}

// Step i of a list.
#[inline(always)]
fn step_at(steps: &[u32], i: usize) -> Step
    requires { HoldsStep i steps.now }
    ensures { step_value result ≡ step_in steps.now i }
{
    let at = step_word::WIDTH * i;
    Step {
        kind: steps[at + step_word::KIND],
        process: ProcessId(steps[at + step_word::PROCESS]),
        hazard: HazardId(steps[at + step_word::HAZARD]),
        node: NodeId(steps[at + step_word::NODE]),
        guest: steps[at + step_word::GUEST],
    }
}

// Takes step i of a list and writes its answer.
#[inline(always)]
fn run_step(words: &mut [u32], good: bool, steps: &[u32], answers: &mut [u32], i: usize)
    requires { (good ≡ well_formed words.old) × HoldsTurn i steps.now answers.old }
    ensures { Taken good (step_in steps.now i) i words.old answers.old words.new answers.new }
{
    let step = step_at(steps, i);
    let answer = Answer::from(step_checked(words, good, step));
    let to = answer_word::WIDTH * i;
    answers[to + answer_word::REFUSAL] = answer.refusal;
    answers[to + answer_word::VALUE] = answer.value;
}

// Takes a list of so many steps on any words, which are checked once, and writes their answers.
pub fn run_all(words: &mut [u32], steps: &[u32], answers: &mut [u32], count: usize)
    requires { HoldsRun count steps.now answers.old }
    ensures { RunOn count words.old steps.now words.new answers.new }
{
    let good = wellformed::well_formed(words);
    for i in 0..count {
        run_step(words, good, steps, answers, i);
    }
}
