// The calls: make a domain, how many words it takes, a step, a list of steps, a portion of a scan, the reachable count, and why a node is
// still waiting. Each takes any words and any numbers.
#![tactic(auto)]

mod runs;
pub mod two_passes;

ghost use Rattle.std.specs.Prelude.{◌≡◌};
ghost use Rattle.layout.specs.Values.{params_value, step_value};
ghost use Rattle.layout.specs.Ranges.{length_for};
ghost use Rattle.qsense.specs.Calls.{make_words, reachable_words, portion_words, step_words, why_words};
ghost use Rattle.waiting.specs.Values.{explained_value};
ghost use Rattle.qsense.specs.Values.{reply_of, reply_of_none, portion_reply_of};
ghost use Rattle.qsense.specs.Runs.{ran_of, run_into};

use layout::words::{answer_word, step_word};
use layout::{NodeId, Params, ProcessId, Step};
use refusals::Refusal;
use retire::portion::Portion;
use waiting::Why;

// Makes a fresh domain of the words. Refused with 1 unless every parameter is in its range, then with 2 unless the words are exactly as
// many as such a domain takes; refused, it writes nothing.
pub fn make(words: &mut [u32], params: Params) -> Result<(), Refusal>
    ensures { reply_of_none result words.new ≡ make_words words.old (params_value params) }
{
    if !layout::fresh::in_range(params) {
        return Err(Refusal::ParameterOutOfRange);
    }
    if words.len()
        != layout::wide(layout::fresh::length(params.processes, params.hazards, params.nodes))
    {
        return Err(Refusal::WordCount);
    }
    layout::fresh::write_fresh(words, params);
    Ok(())
}

// The words that a domain of N processes, K hazards a process and M nodes takes; 0 unless each is in its range.
pub fn length(n: u32, k: u32, m: u32) -> u32
    ensures { result ≡ length_for n k m }
{
    layout::fresh::length(n, k, m)
}

// How many nodes are Reachable, in one pass over them. Refused with 3 unless the words are those of a well-formed domain.
pub fn reachable(words: &[u32]) -> Result<u32, Refusal>
    ensures { reply_of result words.now ≡ reachable_words words.now }
{
    wellformed::reachable(words).ok_or(Refusal::Malformed)
}

// Why a node is still waiting, and which process is behind in epochs. Refused with 3 unless the words are those of a well-formed domain, then
// with 7 unless the node is one of its nodes.
pub fn why(words: &[u32], node: NodeId) -> Result<Why, Refusal>
    ensures { explained_value result ≡ why_words words.now node.0 }
{
    if !wellformed::well_formed(words) {
        return Err(Refusal::Malformed);
    }
    waiting::explain(words, node)
}

// A portion of a scan (kind 17) by a process, from a node on, that examines at most so many of its Retired nodes. Refused with 3 unless the words
// are those of a well-formed domain, then as the step is; refused, nothing is written.
pub fn portion(
    words: &mut [u32],
    process: ProcessId,
    start: NodeId,
    limit: u32,
) -> Result<Portion, Refusal>
    ensures { portion_reply_of result words.new ≡ portion_words words.old process.0 start.0 limit }
{
    let good = wellformed::well_formed(words);
    if good {
        steps::portion::portion(words, process, start, limit)
    } else {
        Err(Refusal::Malformed)
    }
}

// One step. Refused with 3 unless the words are those of a well-formed domain, then with the number of the first of the questions 4 to
// 23 whose answer is no; refused, nothing is written.
pub fn step(words: &mut [u32], step: Step) -> Result<u32, Refusal>
    ensures { reply_of result words.new ≡ step_words words.old (step_value step) }
{
    let good = wellformed::well_formed(words);
    runs::step_checked(words, good, step)
}

// Takes a list of steps, five words each, one after another, and writes their answers, two words each: the words are checked once, and
// all is as if `step` were called for each. Not taken, and nothing written, unless the lengths are those of a whole number of steps and
// of as many answers.
pub fn run(words: &mut [u32], steps: &[u32], answers: &mut [u32]) -> bool
    ensures { ran_of result words.new answers.new ≡ run_into words.old steps.now answers.old }
{
    let count = steps.len() / step_word::WIDTH;
    if steps.len() != step_word::WIDTH * count {
        return false;
    }
    if answers.len() != answer_word::WIDTH * count {
        return false;
    }
    runs::run_all(words, steps, answers, count);
    true
}
