// One process of a domain's words, by its own stretch: its lead and its hazards.
ghost use Rattle.std.specs.Prelude.{◌≡◌, ◌<◌};
ghost use Rattle.model.specs.State.{hazard_of, with_words, with_present};
ghost use Rattle.model.specs.Hazards.{validating, unassigned};
ghost use Rattle.layout.specs.Shape.{lead_of};
ghost use Rattle.layout.specs.Encode.{params_in};
ghost use Rattle.layout.specs.Sound.{Sound};
ghost use Rattle.layout.specs.Values.{lead_value, hazard_value};
ghost use Rattle.domain.specs.Effects.{process_in, process_changed};
ghost use Rattle.domain.specs.Places.{Placed};

use layout::words::{hazard_word, head_word, lead_word};
use layout::{Hazard, HazardId, Lead, ProcessId};
use stretch::Place;

// The place of process p.
pub fn place_of(words: &[u32], p: ProcessId) -> Place
    requires { Sound words.now × (p.0 < (params_in words.now).processes) }
    ensures { Placed words.now p.0 result }
{
    let k = layout::wide(words[head_word::HAZARDS]);
    let from = layout::process_start(words[head_word::HAZARDS], p.0);
    Place {
        k,
        from,
        to: from + layout::process_width(k),
        hazards: lead_word::WIDTH,
        stores: lead_word::WIDTH + hazard_word::WIDTH * k,
    }
}

// The words of process p before its hazards.
pub fn lead(words: &[u32], p: ProcessId) -> Lead
    requires { Sound words.now × (p.0 < (params_in words.now).processes) }
    ensures { lead_value result ≡ lead_of (process_in words.now p.0) }
{
    let at = place_of(words, p);
    stretch::lead(&words[at.from..at.to])
}

// Hazard h of process p.
pub fn hazard(words: &[u32], p: ProcessId, h: HazardId) -> Hazard
    requires { Sound words.now × (p.0 < (params_in words.now).processes) × (h.0 < (params_in words.now).hazards) }
    ensures { hazard_value result ≡ hazard_of (process_in words.now p.0) h.0 }
{
    let at = place_of(words, p);
    stretch::hazard(&words[at.from..at.to], at, h)
}

// Has no hazard of process p a node assigned?
pub fn unassigned(words: &[u32], p: ProcessId) -> bool
    requires { Sound words.now × (p.0 < (params_in words.now).processes) }
    ensures { result ≡ unassigned (process_in words.now p.0) }
{
    let at = place_of(words, p);
    stretch::unassigned(&words[at.from..at.to], at)
}

// Writes the epoch, calls and presence of process p.
pub fn set_lead(words: &mut [u32], p: ProcessId, epoch: u32, calls: u32, presence: u32)
    requires { Sound words.old × (p.0 < (params_in words.old).processes) }
    ensures { words.new ≡ process_changed p.0 (λ x. with_words x epoch calls presence) words.old }
{
    let at = place_of(words, p);
    stretch::set_lead(&mut words[at.from..at.to], at, epoch, calls, presence);
}

// Writes these and whether process p is present.
pub fn set_words(
    words: &mut [u32],
    p: ProcessId,
    epoch: u32,
    calls: u32,
    presence: u32,
    present: u32,
)
    requires { Sound words.old × (p.0 < (params_in words.old).processes) }
    ensures { words.new ≡ process_changed p.0 (λ x. with_present (with_words x epoch calls presence) present) words.old }
{
    let at = place_of(words, p);
    stretch::set_words(
        &mut words[at.from..at.to],
        at,
        epoch,
        calls,
        presence,
        present,
    );
}

// Validates hazard h of process p.
pub fn validate(words: &mut [u32], p: ProcessId, h: HazardId)
    requires { Sound words.old × (p.0 < (params_in words.old).processes) × (h.0 < (params_in words.old).hazards) }
    ensures { words.new ≡ process_changed p.0 (λ x. validating x h.0) words.old }
{
    let at = place_of(words, p);
    stretch::validate(&mut words[at.from..at.to], at, h);
}
