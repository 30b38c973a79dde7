// A process's own stretch of the words, lent as a slice of exactly its words, so that no function here can write another's: the lead, the
// hazards, and the places of pending stores (module `buffer`).
#![tactic(auto)]

pub mod buffer;
pub mod view;

ghost use Rattle.std.specs.Prelude.{◌≡◌, ℕ, ◌<◌, ◌≤◌, length};
ghost use Rattle.model.specs.Params.{buffer_size};
ghost use Rattle.model.specs.State.{with_words, with_present, hazard_of};
ghost use Rattle.model.specs.Hazards.{assigning, validating, unassigned};
ghost use Rattle.layout.specs.Shape.{lead_of};
ghost use Rattle.layout.specs.Values.{lead_value, hazard_value};
ghost use Rattle.layout.specs.Encode.{shape, process_words, process_at};
ghost use Rattle.stretch.specs.Stretch.{Stretched, held_in};

use layout::words::{hazard_word, lead_word, store_word};
use layout::{Hazard, HazardId, Lead};

// How many hazards a process has; where its stretch starts and ends in the words; and where in the stretch its hazards and its pending
// stores start.
#[derive(Clone, Copy)]
pub struct Place {
    pub k: usize,
    pub from: usize,
    pub to: usize,
    pub hazards: usize,
    pub stores: usize,
}

// The words before the hazards.
pub fn lead(row: &[u32]) -> Lead
    requires { shape.lead_width ≤ length row.now }
    ensures { (k : ℕ) → lead_value result ≡ lead_of (process_at k row.now) }
{
    Lead {
        epoch: row[lead_word::EPOCH],
        calls: row[lead_word::CALLS],
        presence: row[lead_word::PRESENCE],
        stores: row[lead_word::STORES],
        present: row[lead_word::PRESENT],
    }
}

// Writes the epoch, the calls and the presence.
pub fn set_lead(row: &mut [u32], at: Place, epoch: u32, calls: u32, presence: u32)
    requires { Stretched at row.old }
    ensures { row.new ≡ process_words (with_words (held_in at row.old) epoch calls presence) }
{
    row[lead_word::EPOCH] = epoch;
    row[lead_word::CALLS] = calls;
    row[lead_word::PRESENCE] = presence;
}

// Writes these and whether the process is present: all words before the hazards but for how many stores are pending.
pub fn set_words(row: &mut [u32], at: Place, epoch: u32, calls: u32, presence: u32, present: u32)
    requires { Stretched at row.old }
    ensures { row.new ≡ process_words (with_present (with_words (held_in at row.old) epoch calls presence) present) }
{
    set_lead(row, at, epoch, calls, presence);
    row[lead_word::PRESENT] = present;
}

// Hazard h.
pub fn hazard(row: &[u32], at: Place, h: HazardId) -> Hazard
    requires { Stretched at row.now × (h.0 < at.k) }
    ensures { hazard_value result ≡ hazard_of (held_in at row.now) h.0 }
{
    let from = at.hazards + hazard_word::WIDTH * layout::wide(h.0);
    Hazard {
        visible: row[from + hazard_word::VISIBLE],
        assigned: row[from + hazard_word::ASSIGNED],
        validated: row[from + hazard_word::VALIDATED],
    }
}

// Assigns a node to hazard h, not validated, and adds the store of it to the buffer.
pub fn assign(row: &mut [u32], at: Place, h: HazardId, node: u32, time: u32)
    requires { Stretched at row.old × (h.0 < at.k) × (length (held_in at row.old).buffer < buffer_size) }
    ensures { row.new ≡ process_words (assigning (held_in at row.old) h.0 node time) }
{
    let stores = row[lead_word::STORES];
    let from = at.hazards + hazard_word::WIDTH * layout::wide(h.0);
    let end = at.stores + store_word::WIDTH * layout::wide(stores);
    row[from + hazard_word::ASSIGNED] = node;
    row[from + hazard_word::VALIDATED] = 0;
    row[lead_word::STORES] = stores + 1;
    row[end + store_word::HAZARD] = h.0;
    row[end + store_word::NODE] = node;
    row[end + store_word::TIME] = time;
}

// Validates hazard h.
pub fn validate(row: &mut [u32], at: Place, h: HazardId)
    requires { Stretched at row.old × (h.0 < at.k) }
    ensures { row.new ≡ process_words (validating (held_in at row.old) h.0) }
{
    let from = at.hazards + hazard_word::WIDTH * layout::wide(h.0);
    row[from + hazard_word::VALIDATED] = 1;
}

// Has no hazard a node assigned?
pub fn unassigned(row: &[u32], at: Place) -> bool
    requires { Stretched at row.now }
    ensures { result ≡ unassigned (held_in at row.now) }
{
    let mut ok = true;
    for h in 0..at.k {
        ok &= row[at.hazards + hazard_word::WIDTH * h + hazard_word::ASSIGNED] == 0;
    }
    ok
}
