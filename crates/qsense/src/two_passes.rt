// The reachable count in two passes, the words checked and then the nodes counted: what `reachable` was before it went over the nodes once. No
// part of the library: for the benchmark, and to say that both answer the same.
ghost use Rattle.std.specs.Prelude.{◌≡◌, true};
ghost use Rattle.qsense.specs.Calls.{reachable_words};
ghost use Rattle.qsense.specs.Values.{reply_of};

use refusals::Refusal;

// How many nodes are Reachable. Refused with 3 unless the words are those of a well-formed domain.
pub fn reachable(words: &[u32]) -> Result<u32, Refusal>
    ensures { reply_of result words.now ≡ reachable_words words.now }
{
    if !wellformed::well_formed(words) {
        return Err(Refusal::Malformed);
    }
    Ok(domain::reachable_count(words))
}

// Do one pass and two answer the same? They do, on every slice: nobody need call this.
pub fn agree(words: &[u32]) -> bool
    ensures { result ≡ true }
{
    let one = crate::reachable(words);
    let two = reachable(words);
    one == two
}
