// What a scan sees, as marks of nodes: its own hazards as the process knows them, with its pending stores, and those of others as they are
// visible.
ghost use Rattle.std.specs.Prelude.{◌≡◌, true, false, ◌≤◌, ◌<◌, length, set};
ghost use Rattle.lists.specs.Tests.{All};
ghost use Rattle.model.specs.Params.{most_nodes};
ghost use Rattle.model.specs.Retire.{visible_in, visible_to};
ghost use Rattle.layout.specs.Encode.{decode, params_in};
ghost use Rattle.layout.specs.Sound.{Sound};
ghost use Rattle.stretch.specs.Stretch.{Stretched, held_in};
ghost use Rattle.domain.specs.Effects.{process_in};
ghost use Rattle.retire.specs.Marks.{marking, Markable, shown_from};

use layout::words::most;
use layout::{HazardId, ProcessId};
use stretch::Place;

// Sets the mark of a node, given as its number + 1, or the mark 0 of none.
fn mark(marks: &mut [bool; most::MARKS], v: u32)
    requires { v ≤ most_nodes }
    ensures { marks.new ≡ set marks.old v true }
{
    marks[layout::wide(v)] = true;
}

// ---- the scanning process

// Marks each of the nodes.
fn mark_all(nodes: &[u32], marks: &mut [bool; most::MARKS])
    requires { All (λ v. v ≤ most_nodes) nodes.now }
    ensures { marks.new ≡ marking marks.old nodes.now }
{
    for &v in nodes {
        mark(marks, v);
    }
}

// Marks each node that the hazards of a process's words show to their own process. nodes: room for them.
fn mark_seen(row: &[u32], at: Place, nodes: &mut [u32], marks: &mut [bool; most::MARKS])
    requires { Stretched at row.now × Markable true (held_in at row.now) × (length nodes.old ≡ at.k) }
    ensures marks_after { marks.new ≡ marking marks.old (visible_in true (held_in at row.now)) }
    ensures nodes_after { nodes.new ≡ visible_in true (held_in at row.now) }
{
    stretch::view::own(row, at, nodes);
    mark_all(nodes, marks);
}

// Marks each node that process p sees in its own hazards.
fn mark_own(words: &[u32], p: ProcessId, marks: &mut [bool; most::MARKS])
    requires { Sound words.now × (p.0 < (params_in words.now).processes) }
    ensures { marks.new ≡ marking marks.old (visible_in true (process_in words.now p.0)) }
{
    let at = domain::process::place_of(words, p);
    let mut nodes = [0; most::VIEW];
    mark_seen(&words[at.from..at.to], at, &mut nodes[..at.k], marks);
}

// ---- the others

// Marks each node that the hazards of a process's words show to others.
fn mark_row(row: &[u32], at: Place, marks: &mut [bool; most::MARKS])
    requires { Stretched at row.now × Markable false (held_in at row.now) }
    ensures { marks.new ≡ marking marks.old (visible_in false (held_in at row.now)) }
{
    for h in 0..at.k as u32 {
        let hazard = stretch::hazard(row, at, HazardId(h));
        mark(marks, hazard.visible);
    }
}

// Marks each node that the hazards of process q show to others.
fn mark_process(words: &[u32], q: ProcessId, marks: &mut [bool; most::MARKS])
    requires { Sound words.now × (q.0 < (params_in words.now).processes) }
    ensures { marks.new ≡ marking marks.old (visible_in false (process_in words.now q.0)) }
{
    let at = domain::process::place_of(words, q);
    mark_row(&words[at.from..at.to], at, marks);
}

// Marks each node that the hazards of the processes from one up to another show to others.
fn mark_others(words: &[u32], from: u32, to: u32, marks: &mut [bool; most::MARKS])
    requires { Sound words.now × (from ≤ to) × (to ≤ (params_in words.now).processes) }
    ensures { marks.new ≡ marking marks.old (shown_from (decode words.now).processes from to) }
{
    for q in from..to {
        mark_process(words, ProcessId(q), marks);
    }
}

// ---- all

// Marks each node that a scan by process p sees in a hazard.
pub fn mark_visible(words: &[u32], p: ProcessId, marks: &mut [bool; most::MARKS])
    requires { Sound words.now × (p.0 < (params_in words.now).processes) }
    ensures { marks.new ≡ marking marks.old (visible_to (decode words.now) p.0) }
{
    let n = domain::bounds(words).processes;
    mark_others(words, 0, p.0, marks);
    mark_own(words, p, marks);
    mark_others(words, p.0 + 1, n, marks);
}
