// The program `why`: takes a card's number as its argument, reads a step book (a trace) or a domain's words from standard input, and writes
// one line: why the card is still waiting, or `refused` and the number. What it writes is `explain::explain` of what was read; the arguments,
// the reading and the writing are the system's. Called otherwise, or with a terminal as standard input, it says how it is called.
#![tactic(auto)]

ghost use Rattle.std.specs.Prelude.{◌≤◌, length};
ghost use Rattle.explain.specs.Sentence.{most_line};
ghost use Rattle.explain.specs.Explains.{Says};
ghost use Rattle.why.specs.Written.{IsGiven, IsNumber, IsLine};

use explain::number;
use input::Input;
use std::env::Env;
use std::io::{IsTerminal, Read};
use trace::widths::most;

fn complain(rt: &impl Eprint, text: &str) {
    let _done = rt.eprint(text);
}

// The line of a card and of what was read, at the start of the buffer.
fn line_of<'a>(card: u32, book: &[u8], out: &'a mut [u8]) -> &'a [u8]
    requires { most_line ≤ length out.old }
    ensures { Says card book.now result.now (length result.now) }
{
    let size = explain::explain(card, book, out);
    &out[..size]
}

// Writes a line and answers whether it was written.
fn write_line(rt: &impl Print, line: &[u8]) -> bool
    requires { IsLine line.now (length line.now) }
{
    rt.write_all(line).is_ok()
}

// Writes the line of a card and of what was read; a write that fails is told.
fn answer(rt: &(impl Print + Eprint), card: u32, book: &[u8])
    requires { IsNumber card }
{
    let mut space = [0u8; explain::LINE];
    if !write_line(rt, line_of(card, book, &mut space)) {
        complain(rt, "why: cannot write standard output\n");
    }
}

// Answers for a card by what is read; a read that fails is told.
fn read_and_answer(rt: &(impl Print + Eprint), reader: &mut impl Read, card: u32)
    requires { IsNumber card }
{
    let mut book = [0u8; most::READ];
    match input::read_all(reader, &mut book) {
        Ok(Input::Whole(n) | Input::Full(n)) => answer(rt, card, input::start(&book, n)),
        Err(_) => complain(rt, "why: cannot read standard input\n"),
    }
}

// The argument's number; none unless there is one argument, and it is a number, and standard input is no terminal.
fn asked(env: &impl Env, stdin: &impl IsTerminal) -> Option<u32>
    ensures { IsGiven result }
{
    if !input::has_argument(env, 1) || input::has_argument(env, 2) || input::is_terminal(stdin) {
        return None;
    }
    let mut arg = [0u8; number::DIGITS];
    let n = env.arg(1, &mut arg).ok()?;
    number::read(input::start(&arg, n))
}

fn main(rt: HostRuntime) {
    let mut stdin = rt.stdin();
    match asked(&rt, &stdin) {
        Some(card) => read_and_answer(&rt, &mut stdin, card),
        None => complain(
            &rt,
            "why: called as 'why CARD < FILE': CARD is a card's number, FILE a step book or a desk's words\n",
        ),
    }
}
