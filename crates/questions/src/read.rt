// What a question looks at, for any process, hazard and node: past the last, zeros, as in the model.
#![tactic(auto, unfolding(layout::specs::Encode::decode_by))]

ghost use Rattle.std.specs.Prelude.{◌≡◌, ◌-◌};
ghost use Rattle.model.specs.Hazards.{unassigned};
ghost use Rattle.layout.specs.Shape.{lead_of};
ghost use Rattle.layout.specs.Sound.{Sound};
ghost use Rattle.layout.specs.Values.{lead_value, hazard_value, node_value};
ghost use Rattle.domain.specs.Effects.{process_in};
ghost use Rattle.questions.specs.Answers.{hazard_in, target_in, node_in};

use layout::{Hazard, HazardId, Lead, Node, NodeId, ProcessId, State};

// The words of process p before its hazards.
pub fn lead(words: &[u32], p: ProcessId) -> Lead
    requires { Sound words.now }
    ensures { lead_value result ≡ lead_of (process_in words.now p.0) }
{
    if domain::bounds(words).processes <= p.0 {
        return Lead {
            epoch: 0,
            calls: 0,
            presence: 0,
            stores: 0,
            present: 0,
        };
    }
    domain::process::lead(words, p)
}

// Has no hazard of process p a node assigned?
pub fn unassigned(words: &[u32], p: ProcessId) -> bool
    requires { Sound words.now }
    ensures { result ≡ unassigned (process_in words.now p.0) }
{
    if domain::bounds(words).processes <= p.0 {
        return true;
    }
    domain::process::unassigned(words, p)
}

// Hazard h of process p.
pub fn hazard(words: &[u32], p: ProcessId, h: HazardId) -> Hazard
    requires { Sound words.now }
    ensures { hazard_value result ≡ hazard_in words.now p.0 h.0 }
{
    let a = domain::bounds(words);
    if (a.processes <= p.0) | (a.hazards <= h.0) {
        return Hazard {
            visible: 0,
            assigned: 0,
            validated: 0,
        };
    }
    domain::process::hazard(words, p, h)
}

// The node assigned to hazard h of process p, stored as its number + 1; the first where none is.
#[inline(always)]
pub fn hazard_node(words: &[u32], p: ProcessId, h: HazardId) -> Node
    requires { Sound words.now }
    ensures { node_value result ≡ target_in words.now p.0 h.0 }
{
    let node = hazard(words, p, h).assigned.saturating_sub(1);
    domain::node(words, NodeId(node))
}

// Node c.
pub fn node(words: &[u32], c: NodeId) -> Node
    requires { Sound words.now }
    ensures { node_value result ≡ node_in words.now c.0 }
{
    if domain::bounds(words).nodes <= c.0 {
        return Node {
            state: State::Free.into(),
            owner: 0,
            guest: 0,
            retired: 0,
            limbo: 0,
        };
    }
    domain::node(words, c)
}
