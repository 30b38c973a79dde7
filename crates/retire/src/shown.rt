// Where a scan sees one node: the lowest process and its lowest hazard that show it. A node is given as its number + 1.
ghost use Rattle.std.specs.Prelude.{◌≡◌, ◌<◌, ◌≤◌, length, eqb};
ghost use Rattle.lists.specs.Tests.{first_from};
ghost use Rattle.model.specs.Params.{most_hazards};
ghost use Rattle.model.specs.Retire.{visible_in};
ghost use Rattle.model.specs.Why.{shows, showing_process, showing_hazard};
ghost use Rattle.layout.specs.Encode.{decode, params_in};
ghost use Rattle.layout.specs.Sound.{Sound};
ghost use Rattle.domain.specs.Effects.{process_in};
ghost use Rattle.domain.specs.Found.{process_below, hazard_below};

use layout::words::most;
use layout::{HazardId, ProcessId};

// The first hazard whose node is v.
fn first(nodes: &[u32], v: u32) -> Option<HazardId>
    requires { length nodes.now ≤ most_hazards }
    ensures { result ≡ hazard_below (length nodes.now) (first_from (λ _ u. eqb u v) 0 nodes.now) }
{
    for (h, &u) in nodes.iter().enumerate() {
        if u == v {
            return Some(HazardId(h as u32));
        }
    }
    None
}

// The hazards of process q as process p sees them.
fn view(words: &[u32], p: ProcessId, q: ProcessId, nodes: &mut [u32])
    requires { Sound words.now × (q.0 < (params_in words.now).processes) × (length nodes.old ≡ (params_in words.now).hazards) }
    ensures { nodes.new ≡ visible_in (eqb q.0 p.0) (process_in words.now q.0) }
{
    let at = domain::process::place_of(words, q);
    if q.0 == p.0 {
        stretch::view::own(&words[at.from..at.to], at, nodes);
    } else {
        stretch::view::visible(&words[at.from..at.to], at, nodes);
    }
}

// The lowest hazard of process q that shows v to process p, by room for what its hazards show.
fn hazard_in(
    words: &[u32],
    p: ProcessId,
    v: u32,
    q: ProcessId,
    nodes: &mut [u32],
) -> Option<HazardId>
    requires { Sound words.now × (q.0 < (params_in words.now).processes) × (length nodes.old ≡ (params_in words.now).hazards) }
    ensures { result ≡ hazard_below (params_in words.now).hazards (showing_hazard (decode words.now) p.0 v q.0) }
{
    view(words, p, q, nodes);
    first(nodes, v)
}

// The lowest hazard of process q that shows v to process p.
pub fn hazard(words: &[u32], p: ProcessId, v: u32, q: ProcessId) -> Option<HazardId>
    requires { Sound words.now × (q.0 < (params_in words.now).processes) }
    ensures { result ≡ hazard_below (params_in words.now).hazards (showing_hazard (decode words.now) p.0 v q.0) }
{
    let k = layout::wide(domain::bounds(words).hazards);
    let mut nodes = [0; most::VIEW];
    hazard_in(words, p, v, q, &mut nodes[..k])
}

// Does process q show v to process p? What p knows of its own hazards is put together only where it may show v.
fn shows(words: &[u32], p: ProcessId, v: u32, q: ProcessId) -> bool
    requires { Sound words.now × (q.0 < (params_in words.now).processes) }
    ensures { result ≡ shows p.0 v q.0 (process_in words.now q.0) }
{
    let at = domain::process::place_of(words, q);
    if q.0 != p.0 {
        return stretch::view::shows(&words[at.from..at.to], at, v);
    }
    if !stretch::view::may_show(&words[at.from..at.to], at, v) {
        return false;
    }
    hazard(words, p, v, q).is_some()
}

// The lowest process that shows v to process p.
pub fn process(words: &[u32], p: ProcessId, v: u32) -> Option<ProcessId>
    requires { Sound words.now }
    ensures { result ≡ process_below (params_in words.now).processes (showing_process (decode words.now) p.0 v) }
{
    let n = domain::bounds(words).processes;
    for q in 0..n {
        if shows(words, p, v, ProcessId(q)) {
            return Some(ProcessId(q));
        }
    }
    None
}
