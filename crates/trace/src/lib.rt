// A trace (the paper's step book) read from its trailer back, on a slice of bytes and an offset. Any bytes and any offset will do.
#![tactic(auto)]

pub mod widths;

ghost use Rattle.std.specs.Prelude.{◌≡◌, ◌+◌, ◌<◌, ◌≤◌, length, leb};
ghost use Rattle.layout.specs.Values.{params_value, step_value};
ghost use Rattle.trace.specs.Widths.{byte_range, word_size, params_size, step_size, least_size};
ghost use Rattle.trace.specs.Bytes.{word_at, mark_at, params_at, step_in, step_at};
ghost use Rattle.trace.specs.Trace.{distance_of, trailer_right, front_at, front_of};
ghost use Rattle.trace.specs.Values.{header_value, opened_value};

use layout::{HazardId, NodeId, Params, ProcessId, Step};
use refusals::Refusal;
use widths::{most, params_byte, step_byte, trailer_byte};

// What stands before the steps: the parameters, how many steps there are, and the offset of the first; each next one is 12 bytes on.
#[derive(Clone, Copy)]
pub struct Header {
    pub params: Params,
    pub count: u32,
    pub first: usize,
}

// The number of the four bytes from at on, the lowest first.
pub fn word_at(bytes: &[u8], at: usize) -> u32
    requires { at + word_size ≤ length bytes.now }
    ensures { result ≡ word_at bytes.now at }
{
    u32::from_le_bytes([bytes[at], bytes[at + 1], bytes[at + 2], bytes[at + 3]])
}

// Do the bytes QBAK stand from at on?
pub fn mark_at(bytes: &[u8], at: usize) -> bool
    requires { at + word_size ≤ length bytes.now }
    ensures { result ≡ mark_at bytes.now at }
{
    bytes[at..].starts_with(b"QBAK")
}

// Are there so many bytes from at on? Neither number is too large.
pub fn holds(bytes: &[u8], at: usize, size: usize) -> bool
    ensures { result ≡ leb (at + size) (length bytes.now) }
{
    if bytes.len() < size {
        return false;
    }
    at <= bytes.len() - size
}

// The seven parameters from at on.
fn params_at(bytes: &[u8], at: usize) -> Params
    requires { at + params_size ≤ length bytes.now }
    ensures { params_value result ≡ params_at bytes.now at }
{
    Params {
        processes: word_at(bytes, at),
        hazards: word_at(bytes, at + params_byte::HAZARDS),
        nodes: word_at(bytes, at + params_byte::NODES),
        visibility: word_at(bytes, at + params_byte::VISIBILITY),
        quiescence: word_at(bytes, at + params_byte::QUIESCENCE),
        fallback: word_at(bytes, at + params_byte::FALLBACK),
        lateness: word_at(bytes, at + params_byte::LATENESS),
    }
}

// Does the trailer fit, with its mark and a distance that is 40 + 12 × count and not beyond the start?
fn trailer_right(bytes: &[u8]) -> bool
    ensures { result ≡ trailer_right bytes.now }
{
    if bytes.len() < trailer_byte::WIDTH {
        return false;
    }
    let at = bytes.len() - trailer_byte::WIDTH;
    let count = layout::wide(word_at(bytes, at));
    let distance = layout::wide(word_at(bytes, at + trailer_byte::DISTANCE));
    mark_at(bytes, at + trailer_byte::MARK)
        & ((distance == params_byte::WIDTH + trailer_byte::WIDTH + step_byte::WIDTH * count)
            & (distance <= bytes.len()))
}

// Reads what stands before the steps.
fn header_of(bytes: &[u8]) -> Header
    requires { (least_size ≤ distance_of bytes.now) × (distance_of bytes.now ≤ length bytes.now) }
    ensures { header_value result ≡ front_at bytes.now }
{
    let at = bytes.len() - trailer_byte::WIDTH;
    let count = word_at(bytes, at);
    let start = bytes.len() - layout::wide(word_at(bytes, at + trailer_byte::DISTANCE));
    let params = params_at(bytes, start);
    Header {
        params,
        count,
        first: start + params_byte::WIDTH,
    }
}

// Opens a trace: finds its parameters, the count of its steps and the first of them, or which question has the answer no. Bytes in front
// of the parameters are not read.
pub fn open_trace(bytes: &[u8]) -> Result<Header, Refusal>
    ensures { opened_value result ≡ front_of bytes.now }
{
    if most::BYTES < bytes.len() {
        return Err(Refusal::TooLong);
    }
    if !trailer_right(bytes) {
        return Err(Refusal::NoTrailer);
    }
    let header = header_of(bytes);
    let params = header.params;
    if !layout::fresh::in_range(params) {
        return Err(Refusal::ParameterOutOfRange);
    }
    Ok(header)
}

// The step in the 12 bytes from at on, of which the fourth is not read.
fn step_inside(bytes: &[u8], at: usize) -> Step
    requires { at + step_size ≤ length bytes.now }
    ensures { (step_value result ≡ step_in bytes.now at) × (result.kind < byte_range) }
{
    Step {
        kind: u32::from(bytes[at]),
        process: ProcessId(u32::from(bytes[at + step_byte::PROCESS])),
        hazard: HazardId(u32::from(bytes[at + step_byte::HAZARD])),
        node: NodeId(word_at(bytes, at + step_byte::NODE)),
        guest: word_at(bytes, at + step_byte::GUEST),
    }
}

// The step that stands at an offset; zeros where the bytes end before it does.
pub fn step_at(bytes: &[u8], at: usize) -> Step
    ensures { (step_value result ≡ step_at bytes.now at) × (result.kind < byte_range) }
{
    if !holds(bytes, at, step_byte::WIDTH) {
        return Step {
            kind: 0,
            process: ProcessId(0),
            hazard: HazardId(0),
            node: NodeId(0),
            guest: 0,
        };
    }
    step_inside(bytes, at)
}
