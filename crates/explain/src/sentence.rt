// The line that the program `why` prints, in the paper's words.
ghost use Rattle.std.specs.Prelude.{◌+◌, ◌≤◌, length};
ghost use Rattle.layout.specs.Values.{state_number};
ghost use Rattle.text.specs.Text.{number_text};
ghost use Rattle.waiting.specs.Values.{reason_value, behind_value, why_value, explained_value};
ghost use Rattle.explain.specs.Sentence.{state_text, ticks_text, young_text, visible_text, reason_text, lagging_text, behind_text, why_text};
ghost use Rattle.explain.specs.Sentence.{most_number, most_state, most_ticks, most_reason, most_behind, most_line, PutUpto, Said};

use layout::{HazardId, ProcessId, State};
use refusals::Refusal;
use waiting::{Behind, Reason, Why};

// ---- each puts its part from a place on, and answers the place after it

// A number, and a byte after it.
fn put_number(out: &mut [u8], at: usize, n: u32, after: u8) -> usize
    requires { at + most_number ≤ length out.old }
    ensures { PutUpto most_number out.old at (number_text n after) out.new result }
{
    text::put_number(out, at, n, after)
}

// The name of a state that is not Retired.
fn put_state(out: &mut [u8], at: usize, state: State) -> usize
    requires { at + most_state ≤ length out.old }
    ensures { PutUpto most_state out.old at (state_text (state_number state)) out.new result }
{
    match state {
        State::Free => text::put_bytes(out, at, b"Free"),
        State::Allocated => text::put_bytes(out, at, b"Allocated"),
        State::Reachable => text::put_bytes(out, at, b"Reachable"),
        State::Removed | State::Retired => text::put_bytes(out, at, b"Removed"),
    }
}

// One tick, and any other number of ticks.
fn put_ticks(out: &mut [u8], at: usize, ticks: u32) -> usize
    requires { at + most_ticks ≤ length out.old }
    ensures { PutUpto most_ticks out.old at (ticks_text ticks) out.new result }
{
    if ticks == 1 {
        text::put_bytes(out, at, b"tick")
    } else {
        text::put_bytes(out, at, b"ticks")
    }
}

fn put_young(out: &mut [u8], from: usize, ticks: u32) -> usize
    requires { from + most_reason ≤ length out.old }
    ensures { PutUpto most_reason out.old from (young_text ticks) out.new result }
{
    let mut at = text::put_bytes(out, from, b"too young, ");
    at = put_number(out, at, ticks, b' ');
    at = put_ticks(out, at, ticks);
    text::put_bytes(out, at, b" until a scan can free it")
}

fn put_visible(out: &mut [u8], from: usize, process: ProcessId, hazard: HazardId) -> usize
    requires { from + most_reason ≤ length out.old }
    ensures { PutUpto most_reason out.old from (visible_text process.0 hazard.0) out.new result }
{
    let mut at = text::put_bytes(out, from, b"on the board as its owner sees it, worker ");
    at = put_number(out, at, process.0, b' ');
    at = text::put_bytes(out, at, b"slot ");
    at = put_number(out, at, hazard.0, b' ');
    text::put_bytes(out, at, b"names it")
}

fn put_reason(out: &mut [u8], from: usize, reason: Reason) -> usize
    requires { from + most_reason ≤ length out.old }
    ensures { PutUpto most_reason out.old from (reason_text (reason_value reason)) out.new result }
{
    match reason {
        Reason::NotRetired(state) => {
            let at = text::put_bytes(out, from, b"not Retired, it is ");
            put_state(out, at, state)
        }
        Reason::Young(ticks) => put_young(out, from, ticks),
        Reason::Visible(process, hazard) => put_visible(out, from, process, hazard),
        Reason::Ready => text::put_bytes(
            out,
            from,
            b"ready, a scan by its owner would free it now",
        ),
    }
}

fn put_lagging(out: &mut [u8], from: usize, process: ProcessId) -> usize
    requires { from + most_behind ≤ length out.old }
    ensures { PutUpto most_behind out.old from (lagging_text process.0) out.new result }
{
    let mut at = text::put_bytes(out, from, b"; worker ");
    at = put_number(out, at, process.0, b' ');
    text::put_bytes(out, at, b"has not seen the new epoch")
}

fn put_behind(out: &mut [u8], from: usize, behind: Behind) -> usize
    requires { from + most_behind ≤ length out.old }
    ensures { PutUpto most_behind out.old from (behind_text (behind_value behind)) out.new result }
{
    match behind {
        Behind::NotAsked => from,
        Behind::Nobody => text::put_bytes(
            out,
            from,
            b"; every present worker has seen the new epoch",
        ),
        Behind::Lagging(process) => put_lagging(out, from, process),
    }
}

// ---- the line, at the start

fn put_why(out: &mut [u8], card: u32, why: Why) -> usize
    requires { most_line ≤ length out.old }
    ensures { PutUpto most_line out.old 0 (why_text card (why_value why)) out.new result }
{
    let reason = why.reason;
    let behind = why.behind;
    let mut at = text::put_bytes(out, 0, b"card ");
    at = put_number(out, at, card, b':');
    at = text::put_bytes(out, at, b" ");
    at = put_reason(out, at, reason);
    at = put_behind(out, at, behind);
    text::put_bytes(out, at, b"\n")
}

// Puts what is said of a card, and answers how many bytes it is.
pub fn put_sentence(out: &mut [u8], card: u32, answer: Result<Why, Refusal>) -> usize
    requires { most_line ≤ length out.old }
    ensures { Said card (explained_value answer) out.new result }
{
    match answer {
        Ok(why) => put_why(out, card, why),
        Err(refusal) => text::put_refused(out, u32::from(refusal)),
    }
}
