// What the benchmark links beside the library: the check by itself, and the reachable count in two passes. No part of the library.
#![tactic(auto)]

ghost use Rattle.std.specs.Prelude.{◌≡◌};
ghost use Rattle.layout.specs.Words.{well_formed};
ghost use Rattle.qsense.specs.Calls.{reachable_words};
ghost use Rattle.qsense.specs.Values.{answer_reply};

use answers::Answer;

// Whether the words are those of a well-formed domain.
#[unsafe(no_mangle)]
pub extern "C" fn bench_well_formed(words: &[u32]) -> bool
    ensures { result ≡ well_formed words.now }
{
    wellformed::well_formed(words)
}

// How many nodes are Reachable, by a check and then a count.
#[unsafe(no_mangle)]
pub extern "C" fn bench_reachable_in_two(words: &[u32]) -> Answer
    ensures { answer_reply result words.now ≡ reachable_words words.now }
{
    qsense::two_passes::reachable(words).into()
}
