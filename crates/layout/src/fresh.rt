// A domain before its first step: which parameters it may have, how many words it takes, and its words.
ghost use Rattle.std.specs.Prelude.{true, ◌≡◌, ◌≤◌, length};
ghost use Rattle.model.specs.Params.{InRange, word_count};
ghost use Rattle.model.specs.Machine.{fresh};
ghost use Rattle.layout.specs.Encode.{encode};
ghost use Rattle.layout.specs.Values.{params_value};
ghost use Rattle.layout.specs.Words.{between};
ghost use Rattle.layout.specs.Ranges.{sizes_in_range, in_range, sized, length_for};

use crate::Params;
use crate::words::{head_word, lead_word, most};

// Is n one of 1 to high?
pub fn up_to(high: u32, n: u32) -> bool
    ensures { result ≡ between 1 high n }
{
    (1 <= n) & (n <= high)
}

// Are N, K and M in their ranges?
fn sizes_in_range(n: u32, k: u32, m: u32) -> bool
    ensures { result ≡ sizes_in_range n k m }
{
    up_to(most::PROCESSES, n) & (up_to(most::HAZARDS, k) & up_to(most::NODES, m))
}

// Are all parameters in their ranges?
pub fn in_range(params: Params) -> bool
    ensures { result ≡ in_range (params_value params) }
{
    sizes_in_range(params.processes, params.hazards, params.nodes)
        & (up_to(most::VISIBILITY, params.visibility)
            & (up_to(most::QUIESCENCE, params.quiescence)
                & (up_to(most::FALLBACK, params.fallback) & (params.lateness <= most::LATENESS))))
}

// The words of a domain of N processes, K hazards a process and M nodes.
fn word_count(n: u32, k: u32, m: u32) -> u32
    requires { sizes_in_range n k m ≡ true }
    ensures { result ≡ word_count (sized n k m) }
{
    (crate::process_start(k, n) + crate::nodes_width(m)) as u32
}

// Writes the words of a fresh domain: the parameters, 1 for each process that it is present, and 0 elsewhere.
pub fn write_fresh(words: &mut [u32], params: Params)
    requires { InRange (params_value params) × (length words.old ≡ word_count (params_value params)) }
    ensures { words.new ≡ encode (fresh (params_value params)) }
{
    words.fill(0);
    words[head_word::PROCESSES] = params.processes;
    words[head_word::HAZARDS] = params.hazards;
    words[head_word::NODES] = params.nodes;
    words[head_word::VISIBILITY] = params.visibility;
    words[head_word::QUIESCENCE] = params.quiescence;
    words[head_word::FALLBACK] = params.fallback;
    words[head_word::LATENESS] = params.lateness;
    for p in 0..params.processes {
        words[crate::process_start(params.hazards, p) + lead_word::PRESENT] = 1;
    }
}

// The words that a domain of N processes, K hazards a process and M nodes takes; 0 unless each is in its range.
pub fn length(n: u32, k: u32, m: u32) -> u32
    ensures { result ≡ length_for n k m }
{
    if sizes_in_range(n, k, m) {
        word_count(n, k, m)
    } else {
        0
    }
}
