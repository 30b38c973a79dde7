// Words against limits, four at a time and without a branch, so that the compiler makes vectors of it. A limit in a table is kept with its
// top bit turned, as a vector compares it: it need not be turned again for each word.
#![tactic(auto)]

ghost use Rattle.std.specs.Prelude.{◌≡◌, ◌+◌, ◌≤◌, true, not, ◌&&◌, length};
ghost use Rattle.limits.specs.Limits.{none, turned, within, in_row};

// Whether a word was over its limit, by the word's place in its piece of four, and whether anything else was amiss.
#[derive(Clone, Copy)]
pub struct Faults {
    pub first: bool,
    pub second: bool,
    pub third: bool,
    pub fourth: bool,
    pub other: bool,
}

impl Faults {
    // No fault yet.
    pub const NONE: Faults = Faults {
        first: false,
        second: false,
        third: false,
        fourth: false,
        other: false,
    };

    // Whether there is no fault.
    pub fn is_clean(self) -> bool
        ensures { result ≡ none self }
    {
        !self.first & (!self.second & (!self.third & (!self.fourth & !self.other)))
    }

    // The faults and one more, if it is one.
    pub fn noted(self, fault: bool) -> Faults
        ensures { none result ≡ (none self && not fault) }
    {
        Faults {
            other: self.other | fault,
            ..self
        }
    }

    // Four words, from `at` on, against four limits.
    pub fn piece(self, words: &[u32], at: usize, a: u32, b: u32, c: u32, d: u32) -> Faults
        requires { at + 4 ≤ length words.now }
        ensures { none result ≡ (none self && within words.now at a b c d) }
    {
        Faults {
            first: self.first | (words[at] > a),
            second: self.second | (words[at + 1] > b),
            third: self.third | (words[at + 2] > c),
            fourth: self.fourth | (words[at + 3] > d),
            other: self.other,
        }
    }

    // Four words against four limits of a table, from `from` on.
    pub fn row(self, words: &[u32], at: usize, limits: &[u32], from: usize) -> Faults
        requires { (at + 4 ≤ length words.now) × (from + 4 ≤ length limits.now) }
        ensures { none result ≡ (none self && in_row words.now at limits.now from) }
    {
        self.piece(
            words,
            at,
            turned(limits[from]),
            turned(limits[from + 1]),
            turned(limits[from + 2]),
            turned(limits[from + 3]),
        )
    }
}

// No fault yet: what the constant is, by itself.
#[tactic(auto, unfolding(crate::specs::Limits::none))]
pub fn no_faults() -> Faults
    ensures { none result ≡ true }
{
    Faults::NONE
}

// A number with its top bit turned: a limit as it is kept, and as it was.
pub fn turned(x: u32) -> u32
    ensures { result ≡ turned x }
{
    x.wrapping_add(2147483648)
}
