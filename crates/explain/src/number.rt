// A card's number as the program `why` is given it: the bytes of its argument.
ghost use Rattle.std.specs.Prelude.{◌≡◌};
ghost use Rattle.explain.specs.Number.{is_digit, number_in};

// The most digits: so many fit a word.
pub const DIGITS: usize = 9;

// Whether a byte is a digit.
fn is_digit(b: u8) -> bool
    ensures { result ≡ is_digit b }
{
    b.is_ascii_digit()
}

// The number of one to nine decimal digits; none of any other bytes.
#[tactic(auto, using(crate::proofs::Digits::no_number))]
pub fn read(bytes: &[u8]) -> Option<u32>
    ensures { result ≡ number_in bytes.now }
{
    let len = bytes.len();
    if len == 0 || DIGITS < len {
        return None;
    }
    let mut n: u32 = 0;
    for &b in bytes {
        if !is_digit(b) {
            return None;
        }
        n = 10 * n + u32::from(b - b'0');
    }
    Some(n)
}
