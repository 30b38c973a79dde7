// The hazards of a process as their own process and as others see them: a node for each, as its number + 1, or 0 for none.
ghost use Rattle.std.specs.Prelude.{◌≡◌, true, false, not, ◌+◌, ◌<◌, ◌≤◌, length, eqb};
ghost use Rattle.lists.specs.Tests.{every, lacks};
ghost use Rattle.model.specs.Params.{buffer_size};
ghost use Rattle.model.specs.Retire.{visible_in};
ghost use Rattle.stretch.specs.Stretch.{Stretched, held_in};
ghost use Rattle.stretch.specs.Stores.{store_of};
ghost use Rattle.stretch.specs.View.{overlaid, shows_at, hide};

use crate::Place;
use layout::words::{hazard_word, lead_word, store_word};

// The visible node of each hazard: what others see.
pub fn visible(row: &[u32], at: Place, nodes: &mut [u32])
    requires { Stretched at row.now × (length nodes.old ≡ at.k) }
    ensures { nodes.new ≡ visible_in false (held_in at row.now) }
{
    for h in 0..at.k {
        nodes[h] = row[at.hazards + hazard_word::WIDTH * h + hazard_word::VISIBLE];
    }
}

// Puts the node of each pending store in its hazard's place, the oldest first, so that the last one stays.
fn overlay(row: &[u32], at: Place, nodes: &mut [u32])
    requires { Stretched at row.now × (length nodes.old ≡ at.k) }
    ensures { nodes.new ≡ overlaid (held_in at row.now).buffer nodes.old }
{
    let stores = layout::wide(row[lead_word::STORES]);
    for e in 0..stores {
        let from = at.stores + store_word::WIDTH * e;
        let h = layout::wide(row[from + store_word::HAZARD]);
        nodes[h] = row[from + store_word::NODE];
    }
}

// The node of the last pending store to each hazard, or else the visible one.
pub fn own(row: &[u32], at: Place, nodes: &mut [u32])
    requires { Stretched at row.now × (length nodes.old ≡ at.k) }
    ensures { nodes.new ≡ visible_in true (held_in at row.now) }
{
    visible(row, at, nodes);
    overlay(row, at, nodes);
}

// Does hazard h show node v to others?
fn shows_at(row: &[u32], at: Place, h: usize, v: u32) -> bool
    requires { Stretched at row.now × (h < at.k) }
    ensures { result ≡ shows_at (held_in at row.now) v h }
{
    row[at.hazards + hazard_word::WIDTH * h + hazard_word::VISIBLE] == v
}

// Does one of the four hazards from h on?
fn four_show(row: &[u32], at: Place, h: usize, v: u32) -> bool
    requires { Stretched at row.now × (h + 4 ≤ at.k) }
    ensures { result ≡ not (hide (held_in at row.now) v h 4) }
{
    let one = shows_at(row, at, h, v);
    let two = shows_at(row, at, h + 1, v);
    let three = shows_at(row, at, h + 2, v);
    let four = shows_at(row, at, h + 3, v);
    ((one | two) | three) | four
}

// Does one of the few hazards that there are?
fn few_show(row: &[u32], at: Place, v: u32) -> bool
    requires { Stretched at row.now }
    ensures { result ≡ not (hide (held_in at row.now) v 0 at.k) }
{
    let few = at.k;
    let mut found = false;
    for h in 0..few {
        found |= shows_at(row, at, h, v);
    }
    found
}

// Does a hazard show node v to others? The first four and the last four, which may be among the first, without a branch between.
pub fn shows(row: &[u32], at: Place, v: u32) -> bool
    requires { Stretched at row.now }
    ensures { result ≡ not (lacks (visible_in false (held_in at row.now)) v) }
{
    let k = at.k;
    if k < 4 {
        return few_show(row, at, v);
    }
    let first = four_show(row, at, 0, v);
    let last = four_show(row, at, k - 4, v);
    first | last
}

// Is v another number than the node of pending store e?
fn other_store(row: &[u32], at: Place, e: usize, v: u32) -> bool
    requires { Stretched at row.now × (e < buffer_size) }
    ensures { e < length (held_in at row.now).buffer → result ≡ not (eqb (store_of (held_in at row.now) e).node v) }
{
    row[at.stores + store_word::WIDTH * e + store_word::NODE] != v
}

// Is v the node of no pending store? Every place is looked at, those past the stores too: so there is no loop.
fn unstored(row: &[u32], at: Place, v: u32) -> bool
    requires { Stretched at row.now }
    ensures { result ≡ true → every (λ e. not (eqb e.node v)) (held_in at row.now).buffer ≡ true }
{
    let one = other_store(row, at, 0, v);
    let two = other_store(row, at, 1, v);
    let three = other_store(row, at, 2, v);
    let four = other_store(row, at, 3, v);
    let five = other_store(row, at, 4, v);
    let six = other_store(row, at, 5, v);
    let seven = other_store(row, at, 6, v);
    let eight = other_store(row, at, 7, v);
    (((one & two) & three) & four) & (((five & six) & seven) & eight)
}

// May a hazard show node v to its own process? Not if it is neither visible nor the node of a pending store.
pub fn may_show(row: &[u32], at: Place, v: u32) -> bool
    requires { Stretched at row.now }
    ensures { result ≡ false → lacks (visible_in true (held_in at row.now)) v ≡ true }
{
    let visible = shows(row, at, v);
    let clear = unstored(row, at, v);
    visible | !clear
}
