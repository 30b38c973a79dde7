// The domain that a trace (the paper's step book) ends in: its steps taken, without a print.
ghost use Rattle.std.specs.Prelude.{◌≡◌, ◌+◌, ◌*◌, ◌≤◌, length};
ghost use Rattle.model.specs.Params.{word_count};
ghost use Rattle.model.specs.Machine.{run};
ghost use Rattle.layout.specs.Encode.{decode};
ghost use Rattle.layout.specs.Sound.{Sound};
ghost use Rattle.trace.specs.Bytes.{steps_from};
ghost use Rattle.trace.specs.Claims.{led_from};
ghost use Rattle.trace.specs.Trace.{given, front_of};
ghost use Rattle.trace.specs.Values.{header_value};
ghost use Rattle.trace.specs.Widths.{step_size, most_steps};
ghost use Rattle.replay.specs.Turn.{end_of};

use trace::Header;
use trace::widths::step_byte;

// Takes the steps one after another, the first at an offset. The words are sound, so no step checks them again.
fn take_steps(words: &mut [u32], bytes: &[u8], first: usize, count: u32)
    requires { Sound words.old × (first + step_size * count ≤ length bytes.now) × (count ≤ most_steps) }
    ensures sound { Sound words.new }
    ensures words_after { decode words.new ≡ run (decode words.old) (steps_from bytes.now first count) }
{
    for i in 0..count {
        let step = trace::step_at(bytes, first + step_byte::WIDTH * layout::wide(i));
        let _answer = steps::take_step(words, step);
    }
}

// Runs the steps that a header leads to on a fresh domain of its parameters. The words are as many as the domain takes.
pub fn run_to_end(words: &mut [u32], bytes: &[u8], header: Header)
    requires { (front_of bytes.now ≡ given (header_value header)) × (length words.old ≡ word_count (header_value header).params) }
    ensures { Sound words.new × (decode words.new ≡ end_of (led_from bytes.now (header_value header))) }
{
    layout::fresh::write_fresh(words, header.params);
    take_steps(words, bytes, header.first, header.count);
}
