// The loops over all processes of a domain's words.
ghost use Rattle.std.specs.Prelude.{◌≡◌};
ghost use Rattle.lists.specs.Tests.{every};
ghost use Rattle.model.specs.State.{clear_presence};
ghost use Rattle.model.specs.Hazards.{young};
ghost use Rattle.model.specs.Epochs.{caught_up, all_checked_in};
ghost use Rattle.model.specs.Why.{laggard};
ghost use Rattle.layout.specs.Encode.{decode, params_in};
ghost use Rattle.layout.specs.Sound.{Sound};
ghost use Rattle.domain.specs.Effects.{changed};
ghost use Rattle.domain.specs.Found.{process_below};

use layout::ProcessId;

// ---- tests of all processes

// Is every pending store of every process younger than the delay?
pub fn all_young(words: &[u32]) -> bool
    requires { Sound words.now }
    ensures { let d = decode words.now in result ≡ every (young d) d.processes }
{
    let n = crate::bounds(words).processes;
    let mut ok = true;
    for p in 0..n {
        ok &= crate::stores::young(words, ProcessId(p));
    }
    ok
}

// The lowest present process whose local epoch differs from the global one.
pub fn laggard(words: &[u32]) -> Option<ProcessId>
    requires { Sound words.now }
    ensures { result ≡ process_below (params_in words.now).processes (laggard (decode words.now)) }
{
    let n = crate::bounds(words).processes;
    let epoch = crate::epoch(words);
    for q in 0..n {
        let lead = crate::process::lead(words, ProcessId(q));
        if (lead.present == 1) & (lead.epoch != epoch) {
            return Some(ProcessId(q));
        }
    }
    None
}

// Do the local epochs of all processes that are present equal the global one?
pub fn caught_up(words: &[u32]) -> bool
    requires { Sound words.now }
    ensures { result ≡ caught_up (decode words.now) }
{
    laggard(words).is_none()
}

// Have all processes that are present checked in: is each of their presence words 1?
pub fn all_checked_in(words: &[u32]) -> bool
    requires { Sound words.now }
    ensures { result ≡ all_checked_in (decode words.now) }
{
    let n = crate::bounds(words).processes;
    for p in 0..n {
        let lead = crate::process::lead(words, ProcessId(p));
        if (lead.present == 1) & (lead.presence != 1) {
            return false;
        }
    }
    true
}

// All presence words become 0, of absent processes too.
pub fn clear_presence(words: &mut [u32])
    requires { Sound words.old }
    ensures { words.new ≡ changed clear_presence words.old }
{
    let n = crate::bounds(words).processes;
    for p in 0..n {
        let lead = crate::process::lead(words, ProcessId(p));
        crate::process::set_lead(words, ProcessId(p), lead.epoch, lead.calls, 0);
    }
}
