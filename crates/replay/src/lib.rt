// The running of a trace (the paper's step book) on words of its own: each step's line is put into the print as the step is taken.
#![tactic(auto)]

pub mod end;
pub mod most;

ghost use Rattle.std.specs.Prelude.{◌≡◌, ◌+◌, ◌*◌, ◌≤◌, ◌<◌, length};
ghost use Rattle.model.specs.Params.{last_clock};
ghost use Rattle.model.specs.Claims.{lowers, accepted_as};
ghost use Rattle.refusals.specs.Numbers.{refusal_in, value_in};
ghost use Rattle.layout.specs.Sound.{Sound};
ghost use Rattle.trace.specs.Bytes.{step_at, steps_from};
ghost use Rattle.trace.specs.Claims.{led_from};
ghost use Rattle.trace.specs.Values.{header_value};
ghost use Rattle.trace.specs.Widths.{step_size, most_steps};
ghost use Rattle.replay.specs.Most.{most_step_line};
ghost use Rattle.replay.specs.Turn.{count_after, Counted, Taken, Ran, Ready, Replayed};

use answers::Answer;
use kinds::Kind;
use refusals::Refusal;
use trace::Header;
use trace::widths::step_byte;

// Where the next line goes, and the reachable count (the paper's panel).
#[derive(Clone, Copy)]
struct Turn {
    at: usize,
    reachable: u32,
}

// The reachable count after a step, from the one before it: one more after an accepted publish or reinsert, one less after an accepted
// remove.
fn counted(reachable: u32, kind: u32, answer: Result<u32, Refusal>) -> u32
    requires { (reachable < last_clock) × (accepted_as lowers kind (refusal_in answer) ≤ reachable) }
    ensures { result ≡ count_after reachable kind (refusal_in answer) }
{
    if answer.is_err() {
        return reachable;
    }
    match Kind::try_from(kind) {
        Ok(Kind::Publish | Kind::Reinsert) => reachable + 1,
        Ok(Kind::Remove) => reachable - 1,
        _ => reachable,
    }
}

// Takes the step that stands in the bytes from `from` on, the i-th, and puts its line into the print from `at` on.
fn replay_step(
    words: &mut [u32],
    bytes: &[u8],
    from: usize,
    i: u32,
    reachable: u32,
    out: &mut [u8],
    at: usize,
) -> Turn
    requires { Counted words.old reachable × (i < most_steps) × (at + most_step_line ≤ length out.old) }
    ensures { Taken (step_at bytes.now from) i at words.old out.old words.new out.new result }
{
    let step = trace::step_at(bytes, from);
    let taken = steps::take_step(words, step);
    let after = counted(reachable, step.kind, taken);
    let answer = Answer::from(taken);
    let end = text::put_step(out, at, i, step.kind, answer.refusal, answer.value, after);
    Turn {
        at: end,
        reachable: after,
    }
}

// Takes the steps one after another, the first at an offset, and puts their lines into the print from start on. The words are sound, so
// no step checks them again.
fn replay_steps(
    words: &mut [u32],
    bytes: &[u8],
    first: usize,
    count: u32,
    out: &mut [u8],
    start: usize,
) -> Turn
    requires sound { Sound words.old × (first + step_size * count ≤ length bytes.now) }
    requires count_le_most_steps { (count ≤ most_steps) × (start + most_step_line * count ≤ length out.old) }
    ensures { Ran (steps_from bytes.now first count) start words.old out.old words.new out.new result }
{
    let mut reachable = domain::reachable_count(words);
    let mut at = start;
    for i in 0..count {
        let from = first + step_byte::WIDTH * layout::wide(i);
        let turn = replay_step(words, bytes, from, i, reachable, out, at);
        at = turn.at;
        reachable = turn.reachable;
    }
    Turn { at, reachable }
}

// Runs the steps that a header leads to on a fresh domain of its parameters and puts the book's lines into the print: the parameters, a
// line a step, and the last line. Answers the bytes of the print. The words are as many as the domain takes.
pub fn replay(words: &mut [u32], bytes: &[u8], header: Header, out: &mut [u8]) -> usize
    requires { Ready bytes.now (header_value header) words.old out.old }
    ensures { Replayed (led_from bytes.now (header_value header)) words.new out.new result }
{
    layout::fresh::write_fresh(words, header.params);
    let start = text::put_params(out, header.params);
    let turn = replay_steps(words, bytes, header.first, header.count, out, start);
    let clock = domain::clock(words);
    let path = u32::from(domain::path(words));
    text::put_end(out, turn.at, clock, path, turn.reachable)
}
