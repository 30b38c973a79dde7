// Standard input read whole, up to the size of a buffer, in whatever chunks it comes, whether it is a terminal, and whether there is an
// argument. What the bytes are is outside of any contract: the system's read says it.
#![tactic(auto)]

ghost use Rattle.std.specs.Prelude.{◌≡◌, ◌≤◌, length, take};
ghost use Rattle.input.specs.Count.{read_count};

use std::env::{Env, FillError};
use std::io;
use std::io::{IsTerminal, Read};

// What was read: so many bytes at the start of the buffer, and they are all of the input; or the buffer is full, and there may be more.
#[derive(Clone, Copy, Debug, PartialEq, Eq)]
pub enum Input {
    Whole(usize),
    Full(usize),
}

// Reads until buf is full, the input ends, or a read fails. The count is never more than the buffer holds; that so many bytes were read,
// and which, is not stated, since no contract says what a read leaves.
pub fn read_all(reader: &mut impl Read, buf: &mut [u8]) -> io::Result<Input>
    ensures { read_count result ≤ length buf.new }
{
    let mut done = 0;
    while done < buf.len() {
        let count = reader.read(&mut buf[done..])?;
        if count == 0 {
            return Ok(Input::Whole(done));
        }
        done += count;
    }
    Ok(Input::Full(done))
}

// What was read: the first n bytes of the buffer.
pub fn start(buf: &[u8], n: usize) -> &[u8]
    requires { n ≤ length buf.now }
    ensures { result.now ≡ take n buf.now }
{
    &buf[..n]
}

// Whether what would be read is typed at a terminal: a person has called the program without a file.
pub fn is_terminal(stream: &impl IsTerminal) -> bool {
    stream.is_terminal()
}

// Whether the program was called with argument i; argument 0 is its own name.
pub fn has_argument(env: &impl Env, i: usize) -> bool {
    !matches!(env.arg(i, &mut []), Err(FillError::NotPresent))
}
