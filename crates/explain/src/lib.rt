// What the program `why` prints: the line that says why a card is still waiting, by the card's number and the bytes of a step book or of a
// domain's words.
#![tactic(auto)]

pub mod number;
mod reading;
mod sentence;

ghost use Rattle.std.specs.Prelude.{◌≤◌, length};
ghost use Rattle.explain.specs.Sentence.{most_line};
ghost use Rattle.explain.specs.Explains.{Says};

// The most bytes of a line; specs/Sentence.antt has the same for the definitions.
pub const LINE: usize = 141;

// Puts the line of a card and of any bytes, and answers how many bytes it has.
pub fn explain(card: u32, bytes: &[u8], out: &mut [u8]) -> usize
    requires { most_line ≤ length out.old }
    ensures { Says card bytes.now out.new result }
{
    let answer = reading::asked(bytes, card);
    sentence::put_sentence(out, card, answer)
}
