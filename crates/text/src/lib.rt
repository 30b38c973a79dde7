// The lines of a book's print as bytes, put one after another into a buffer of the caller: decimal digits, and the four kinds of lines.
#![tactic(auto)]

ghost use Rattle.std.specs.Prelude.{◌≡◌, ◌+◌, ◌≤◌, ◌<◌, length};
ghost use Rattle.layout.specs.Values.{params_value};
ghost use Rattle.text.specs.Text.{digit_count, Put, number_text, number_size};
ghost use Rattle.text.specs.Text.{params_text, params_text_size, step_text, step_text_size, end_text, end_text_size, refused_text, refused_text_size};

use layout::Params;

// The byte of a digit.
fn digit(n: u32) -> u8
    requires { n < 10 }
    ensures { result ≡ 48 + n }
{
    (48 + n) as u8
}

// How many decimal digits n has.
#[tactic(auto, unfolding(crate::specs::Text::digit_count))]
fn digit_count(n: u32) -> usize
    ensures { (result ≡ digit_count n) × (1 ≤ result) × (result ≤ 10) }
{
    match n {
        0..=9 => 1,
        10..=99 => 2,
        100..=999 => 3,
        1000..=9999 => 4,
        10000..=99999 => 5,
        100000..=999999 => 6,
        1000000..=9999999 => 7,
        10000000..=99999999 => 8,
        100000000..=999999999 => 9,
        _ => 10,
    }
}

// Puts n's digits from `at` on, then the byte `after`, and answers the place after it.
pub fn put_number(out: &mut [u8], at: usize, n: u32, after: u8) -> usize
    requires { at + number_size n ≤ length out.old }
    ensures { Put out.old at (number_text n after) (number_size n) out.new result }
{
    if n < 10 {
        out[at] = digit(n);
        out[at + 1] = after;
        return at + 2;
    }
    let end = at + digit_count(n);
    out[end] = after;
    let mut rest = n;
    for i in (at..end).rev() {
        out[i] = digit(rest % 10);
        rest /= 10;
    }
    end + 1
}

// Puts a text from `at` on, and answers the place after it.
#[tactic(auto, using(crate::proofs::Digits::copied))]
pub fn put_bytes(out: &mut [u8], at: usize, text: &[u8]) -> usize
    requires { at + length text.now ≤ length out.old }
    ensures { Put out.old at text.now (length text.now) out.new result }
{
    let end = at + text.len();
    out[at..end].copy_from_slice(text);
    end
}

// The first line, at the start: the seven parameters.
pub fn put_params(out: &mut [u8], params: Params) -> usize
    requires { params_text_size (params_value params) ≤ length out.old }
    ensures { Put out.old 0 (params_text (params_value params)) (params_text_size (params_value params)) out.new result }
{
    let mut at = put_bytes(out, 0, b"desk ");
    at = put_number(out, at, params.processes, b' ');
    at = put_number(out, at, params.hazards, b' ');
    at = put_number(out, at, params.nodes, b' ');
    at = put_number(out, at, params.visibility, b' ');
    at = put_number(out, at, params.quiescence, b' ');
    at = put_number(out, at, params.fallback, b' ');
    put_number(out, at, params.lateness, b'\n')
}

// The line of a step: its number, its kind, its refusal and value, and the reachable count after it.
pub fn put_step(
    out: &mut [u8],
    from: usize,
    i: u32,
    kind: u32,
    refusal: u32,
    value: u32,
    reachable: u32,
) -> usize
    requires { from + step_text_size i kind refusal value reachable ≤ length out.old }
    ensures { Put out.old from (step_text i kind refusal value reachable) (step_text_size i kind refusal value reachable) out.new result }
{
    let mut at = put_number(out, from, i, b' ');
    at = put_number(out, at, kind, b' ');
    at = put_number(out, at, refusal, b' ');
    at = put_number(out, at, value, b' ');
    put_number(out, at, reachable, b'\n')
}

// The last line.
pub fn put_end(out: &mut [u8], start: usize, clock: u32, path: u32, reachable: u32) -> usize
    requires { start + end_text_size clock path reachable ≤ length out.old }
    ensures { Put out.old start (end_text clock path reachable) (end_text_size clock path reachable) out.new result }
{
    let mut at = put_bytes(out, start, b"end ");
    at = put_number(out, at, clock, b' ');
    at = put_number(out, at, path, b' ');
    put_number(out, at, reachable, b'\n')
}

// The one line of a book that is refused, at the start.
#[tactic(auto, using(crate::proofs::Digits::put_then))]
pub fn put_refused(out: &mut [u8], refusal: u32) -> usize
    requires { refused_text_size refusal ≤ length out.old }
    ensures { Put out.old 0 (refused_text refusal) (refused_text_size refusal) out.new result }
{
    let at = put_bytes(out, 0, b"refused ");
    put_number(out, at, refusal, b'\n')
}
