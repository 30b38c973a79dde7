// The program `desk`: reads a step book (a trace) from standard input and writes its print once: the paper's lines, or `refused` and the
// number. What it writes is `print::print_book` of what was read; the reading and the writing are the system's. With an argument, or a
// terminal as standard input, it says how it is called.
#![tactic(auto)]

ghost use Rattle.std.specs.Prelude.{◌≤◌, length};
ghost use Rattle.print.specs.Printed.{print_room, Prints};
ghost use Rattle.desk.specs.Sizes.{most_read};
ghost use Rattle.desk.specs.Written.{IsPrint};

use input::Input;
use print::rooms;
use std::io::Read;
use trace::widths::most;

fn complain(rt: &impl Eprint, text: &str) {
    let _done = rt.eprint(text);
}

// The print of a book, at the start of the buffer.
fn print_of<'a>(book: &[u8], out: &'a mut [u8]) -> &'a [u8]
    requires { print_room (length book.now) ≤ length out.old }
    ensures { Prints book.now result.now (length result.now) }
{
    let size = print::print_book(book, out);
    &out[..size]
}

// Writes a print and answers whether it was written.
fn write_print(rt: &impl Print, print: &[u8]) -> bool
    requires { IsPrint print.now (length print.now) }
{
    rt.write_all(print).is_ok()
}

// Prints a book by a buffer of N; a write that fails is told. Never a part of its caller: the pages of a frame are touched as it is entered,
// and a short book does without those of the long buffer.
#[inline(never)]
fn print_by<const N: usize>(rt: &(impl Print + Eprint), book: &[u8])
    requires { (print_room (length book.now) ≤ N) × (N ≤ print_room most_read) }
{
    let mut space = [0u8; N];
    if !write_print(rt, print_of(book, &mut space)) {
        complain(rt, "desk: cannot write standard output\n");
    }
}

// Prints a book.
fn print_input(rt: &(impl Print + Eprint), book: &[u8])
    requires { length book.now ≤ most_read }
{
    if book.len() <= rooms::SHORT_BOOK {
        print_by::<{ rooms::SHORT_PRINT }>(rt, book);
    } else {
        print_by::<{ rooms::PRINT }>(rt, book);
    }
}

// Prints what is read; a read that fails is told.
fn read_and_print(rt: &(impl Print + Eprint), reader: &mut impl Read) {
    let mut book = [0u8; most::READ];
    match input::read_all(reader, &mut book) {
        Ok(Input::Whole(n) | Input::Full(n)) => print_input(rt, input::start(&book, n)),
        Err(_) => complain(rt, "desk: cannot read standard input\n"),
    }
}

fn main(rt: HostRuntime) {
    let mut stdin = rt.stdin();
    if input::has_argument(&rt, 1) || input::is_terminal(&stdin) {
        complain(&rt, "desk: called as 'desk < FILE': FILE is a step book\n");
    } else {
        read_and_print(&rt, &mut stdin);
    }
}
