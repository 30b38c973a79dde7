// The print of a book, put into a buffer: what the program `desk` writes for any bytes that it reads.
#![tactic(auto)]

pub mod rooms;

ghost use Rattle.std.specs.Prelude.{◌≡◌, ◌≤◌, length};
ghost use Rattle.trace.specs.Trace.{given, front_of};
ghost use Rattle.trace.specs.Values.{header_value};
ghost use Rattle.print.specs.Printed.{print_room, Prints};

use layout::words::most;
use trace::Header;

// Prints a book that was found, replayed on words of its own.
fn print_found(bytes: &[u8], header: Header, out: &mut [u8]) -> usize
    requires { (front_of bytes.now ≡ given (header_value header)) × (print_room (length bytes.now) ≤ length out.old) }
    ensures { Prints bytes.now out.new result }
{
    let params = header.params;
    let long = layout::wide(layout::fresh::length(params.processes, params.hazards, params.nodes));
    let mut words = [0u32; most::WORDS];
    replay::replay(&mut words[0..long], bytes, header, out)
}

// Prints a book, or `refused` and its number; answers how many bytes the print has.
pub fn print_book(bytes: &[u8], out: &mut [u8]) -> usize
    requires { print_room (length bytes.now) ≤ length out.old }
    ensures { Prints bytes.now out.new result }
{
    match trace::open_trace(bytes) {
        Ok(header) => print_found(bytes, header, out),
        Err(refusal) => text::put_refused(out, u32::from(refusal)),
    }
}
