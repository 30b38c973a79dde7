// The pending stores of one process of a domain's words, by its own stretch.
ghost use Rattle.std.specs.Prelude.{◌≡◌, ◌≢◌, ◌<◌, length};
ghost use Rattle.model.specs.Params.{buffer_size};
ghost use Rattle.model.specs.Hazards.{assigning, drained, flushed, young};
ghost use Rattle.layout.specs.Encode.{decode, params_in};
ghost use Rattle.layout.specs.Sound.{Sound};
ghost use Rattle.domain.specs.Effects.{process_in, process_changed};

use crate::process;
use layout::words::head_word;
use layout::{HazardId, ProcessId};

// Assigns a node to hazard h of process p, not validated, and adds the store of it to the buffer.
pub fn assign(words: &mut [u32], p: ProcessId, h: HazardId, node: u32)
    requires sound { Sound words.old × (p.0 < (params_in words.old).processes) × (h.0 < (params_in words.old).hazards) }
    requires p_len_bound { length (process_in words.old p.0).buffer < buffer_size }
    ensures { let ws = words.old in words.new ≡ process_changed p.0 (λ x. assigning x h.0 node (decode ws).clock) ws }
{
    let time = words[head_word::CLOCK];
    let at = process::place_of(words, p);
    stretch::assign(&mut words[at.from..at.to], at, h, node, time);
}

// Commits the oldest pending store of process p. It writes only inside that process's stretch.
pub fn drain(words: &mut [u32], p: ProcessId)
    requires sound { Sound words.old × (p.0 < (params_in words.old).processes) }
    requires p_nonzero { length (process_in words.old p.0).buffer ≢ 0 }
    ensures { words.new ≡ process_changed p.0 (λ x. drained x x.buffer) words.old }
{
    let at = process::place_of(words, p);
    stretch::buffer::drain(&mut words[at.from..at.to], at);
}

// Commits all pending stores of process p, the oldest first. It writes only inside that process's stretch.
pub fn flush(words: &mut [u32], p: ProcessId)
    requires { Sound words.old × (p.0 < (params_in words.old).processes) }
    ensures { words.new ≡ process_changed p.0 (λ x. flushed x x.buffer) words.old }
{
    let at = process::place_of(words, p);
    stretch::buffer::flush(&mut words[at.from..at.to], at);
}

// Is every pending store of process p younger than the delay?
pub fn young(words: &[u32], p: ProcessId) -> bool
    requires { Sound words.now × (p.0 < (params_in words.now).processes) }
    ensures { result ≡ young (decode words.now) (process_in words.now p.0) }
{
    let clock = crate::clock(words);
    let delay = crate::delay(words);
    let at = process::place_of(words, p);
    stretch::buffer::young(&words[at.from..at.to], at, clock, delay)
}
