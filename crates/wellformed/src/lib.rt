// Whether words are those of a well-formed domain, and how many of its nodes are Reachable: the head and the length here, the processes
// in a module, the nodes in crate `nodes`.
#![tactic(auto)]

pub mod processes;

ghost use Rattle.std.specs.Prelude.{◌≡◌, ◌≤◌, true, length};
ghost use Rattle.layout.specs.Encode.{shape};
ghost use Rattle.layout.specs.Words.{head_fits, well_formed};
ghost use Rattle.wellformed.specs.Answers.{counted_in, reachable_in};

use layout::Path;
use layout::fresh::up_to;
use layout::words::{head_word, most};

// Whether the head's words are in their ranges. Word by word, the first six with a way out: all taken together they are made into a vector, and the
// vector unit is what the rest of the check waits for.
#[tactic(auto, unfolding(layout::specs::Words::head_fits))]
fn head_fits(words: &[u32]) -> bool
    requires { shape.head_width ≤ length words.now }
    ensures { result ≡ head_fits (shape.head.get words.now) }
{
    if !up_to(most::PROCESSES, words[head_word::PROCESSES]) {
        return false;
    }
    if !up_to(most::HAZARDS, words[head_word::HAZARDS]) {
        return false;
    }
    if !up_to(most::NODES, words[head_word::NODES]) {
        return false;
    }
    if !up_to(most::VISIBILITY, words[head_word::VISIBILITY]) {
        return false;
    }
    if !up_to(most::QUIESCENCE, words[head_word::QUIESCENCE]) {
        return false;
    }
    if !up_to(most::FALLBACK, words[head_word::FALLBACK]) {
        return false;
    }
    (words[head_word::LATENESS] <= most::LATENESS)
        & ((words[head_word::CLOCK] <= most::CLOCK)
            & ((words[head_word::PATH] <= u32::from(Path::Fallback))
                & (words[head_word::EPOCH] <= most::EPOCH)))
}

// How many nodes are Reachable, if it is asked, else 0; none unless the words are those of a well-formed domain. One function for both: with a
// function for each, the processes' check would be folded into neither (docs/DECISIONS.md 112). Where the limits are laid out, and how many words of the head
// have a way out of their own, put the loops over the nodes where none of their jumps lies across 32 bytes, in the archive for hosts as today's toolchain makes it (185 there).
fn checked(words: &[u32], counting: bool) -> Option<u32>
    ensures { result ≡ counted_in counting words.now }
{
    if words.len() < head_word::WIDTH {
        return None;
    }
    if !head_fits(words) {
        return None;
    }
    let n = words[head_word::PROCESSES];
    let m = words[head_word::NODES];
    let a = layout::process_start(words[head_word::HAZARDS], n);
    let limits = nodes::fits::node_limits(n - 1, words[head_word::CLOCK]);
    if words.len() != a + layout::nodes_width(m) {
        return None;
    }
    let faults = processes::processes_faults(words);
    nodes::pass::go_over(faults, &words[a..], m, &limits, counting)
}

// Whether the words are those of a well-formed domain.
pub fn well_formed(words: &[u32]) -> bool
    ensures { result ≡ well_formed words.now }
{
    checked(words, false).is_some()
}

// How many nodes are Reachable (the panel); none unless the words are those of a well-formed domain.
pub fn reachable(words: &[u32]) -> Option<u32>
    ensures { result ≡ reachable_in words.now }
{
    checked(words, true)
}
