// The store buffer of a process, in its own stretch of the words: stores committed and dropped, and their ages.
ghost use Rattle.std.specs.Prelude.{◌≡◌, ◌≢◌, [], ◌∷◌, ◌++◌, ◌-◌, ◌<◌, length, drop, ltb};
ghost use Rattle.lists.specs.Tests.{every};
ghost use Rattle.model.specs.Params.{store_width, buffer_width};
ghost use Rattle.model.specs.Hazards.{committing, drained, flushed};
ghost use Rattle.layout.specs.Encode.{process_words};
ghost use Rattle.stretch.specs.Stretch.{Stretched, held_in};
ghost use Rattle.stretch.specs.Stores.{store_of};

use crate::Place;
use layout::words::{hazard_word, lead_word, most, store_word};

// Where a buffer's last place starts.
const LAST: usize = most::BUFFER - store_word::WIDTH;

// Makes the node of pending store e visible in its hazard; the store stays in the buffer.
fn commit(row: &mut [u32], at: Place, e: usize)
    requires { Stretched at row.old × (e < length (held_in at row.old).buffer) }
    ensures { let x = held_in at row.old in row.new ≡ process_words (committing x (store_of x e) x.buffer) }
{
    let from = at.stores + store_word::WIDTH * e;
    let h = layout::wide(row[from + store_word::HAZARD]);
    row[at.hazards + hazard_word::WIDTH * h + hazard_word::VISIBLE] = row[from + store_word::NODE];
}

// Moves the stores of a buffer up by one; the last place becomes 0.
fn shift(buffer: &mut [u32])
    requires { length buffer.old ≡ buffer_width }
    ensures { buffer.new ≡ drop store_width buffer.old ++ (0 ∷ 0 ∷ 0 ∷ []) }
{
    buffer.copy_within(store_word::WIDTH.., 0);
    buffer[LAST..].fill(0);
}

// Commits the oldest pending store.
pub fn drain(row: &mut [u32], at: Place)
    requires { Stretched at row.old × (length (held_in at row.old).buffer ≢ 0) }
    ensures { let x = held_in at row.old in row.new ≡ process_words (drained x x.buffer) }
{
    let stores = row[lead_word::STORES];
    let from = at.stores;
    commit(row, at, 0);
    row[lead_word::STORES] = stores - 1;
    shift(&mut row[from..]);
}

// Commits all pending stores, the oldest first.
pub fn flush(row: &mut [u32], at: Place)
    requires { Stretched at row.old }
    ensures { let x = held_in at row.old in row.new ≡ process_words (flushed x x.buffer) }
{
    let stores = layout::wide(row[lead_word::STORES]);
    for e in 0..stores {
        commit(row, at, e);
    }
    row[lead_word::STORES] = 0;
    let from = at.stores;
    let end = from + store_word::WIDTH * stores;
    row[from..end].fill(0);
}

// Is pending store e younger than the delay?
fn young_store(row: &[u32], at: Place, e: usize, clock: u32, delay: u32) -> bool
    requires { Stretched at row.now × (e < length (held_in at row.now).buffer) }
    ensures { result ≡ ltb (clock - (store_of (held_in at row.now) e).time) delay }
{
    let from = at.stores + store_word::WIDTH * e;
    let time = layout::wide(row[from + store_word::TIME]);
    (0 < delay) & (layout::wide(clock) < layout::wide(delay) + time)
}

// Is every pending store younger than the delay?
pub fn young(row: &[u32], at: Place, clock: u32, delay: u32) -> bool
    requires { Stretched at row.now }
    ensures { result ≡ every (λ e. ltb (clock - e.time) delay) (held_in at row.now).buffer }
{
    let stores = layout::wide(row[lead_word::STORES]);
    let mut ok = true;
    for e in 0..stores {
        ok &= young_store(row, at, e, clock, delay);
    }
    ok
}
