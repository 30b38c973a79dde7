// Manage (kind 12): calls counted, presence, the switch back to the fast path, and then the quiescent state, in which a process comes to
// the global epoch or the global epoch moves on.
#![tactic(auto)]

ghost use Rattle.std.specs.Prelude.{◌<◌};
ghost use Rattle.model.specs.Kinds.{Manage};
ghost use Rattle.model.specs.Epochs.{adopt, quiescent, managing};
ghost use Rattle.layout.specs.Encode.{decode, params_in};
ghost use Rattle.layout.specs.Sound.{Sound};
ghost use Rattle.domain.specs.Effects.{Does};
ghost use Rattle.questions.specs.Acted.{Ready, Acted};

use layout::words::most;
use layout::{Path, ProcessId};

// Brings process p to the global epoch: its expired nodes are freed; answers how many.
fn adopt(words: &mut [u32], p: ProcessId) -> u32
    requires { Sound words.old × (p.0 < (params_in words.old).processes) }
    ensures { Does (adopt (decode words.old) p.0) words.new result }
{
    // A claimed node on this list would have its owner in this epoch already: clause (G) of the invariant.
    let freed = domain::sweep_expired(words, p);
    let l = domain::process::lead(words, p);
    let global = domain::epoch(words);
    domain::process::set_lead(words, p, global, l.calls, l.presence);
    freed
}

// The quiescent state of process p; answers how many nodes it freed.
fn quiescent(words: &mut [u32], p: ProcessId) -> u32
    requires { Sound words.old × (p.0 < (params_in words.old).processes) }
    ensures { Does (quiescent (decode words.old) p.0) words.new result }
{
    let l = domain::process::lead(words, p);
    let global = domain::epoch(words);
    if l.epoch != global {
        return adopt(words, p);
    }
    if !domain::processes::caught_up(words) {
        return 0;
    }
    // Every local epoch is the global one, so no claimed node is on the list that comes next: clauses (E) and (G) of the invariant.
    domain::set_epoch(words, (global + 1) % most::EPOCHS);
    0
}

// A manage that acts, presence being set.
fn managing(words: &mut [u32], p: ProcessId) -> u32
    requires { Sound words.old × (p.0 < (params_in words.old).processes) }
    ensures { Does (managing (decode words.old) p.0) words.new result }
{
    if domain::path(words) != Path::Fallback {
        return quiescent(words, p);
    }
    if !domain::processes::all_checked_in(words) {
        return 0;
    }
    domain::set_path(words, Path::Fast.into());
    quiescent(words, p)
}

// The call counted, modulo the quiescence threshold; where it comes round to 0, presence and what follows. Answers how many nodes were
// freed.
pub fn manage(words: &mut [u32], p: ProcessId) -> u32
    requires { Ready Manage words.old p.0 0 0 0 }
    ensures { Acted Manage words.old p.0 0 0 0 words.new result }
{
    let l = domain::process::lead(words, p);
    let a = domain::bounds(words);
    let calls = (l.calls + 1) % a.quiescence;
    if calls != 0 {
        domain::process::set_lead(words, p, l.epoch, calls, l.presence);
        return 0;
    }
    domain::process::set_lead(words, p, l.epoch, 0, 1);
    managing(words, p)
}
