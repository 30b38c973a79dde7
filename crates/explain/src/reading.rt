// What the program `why` makes of its input's bytes: a step book (a trace) or a domain's words, told by the book's mark.
ghost use Rattle.std.specs.Prelude.{◌≡◌, ◌/◌, length};
ghost use Rattle.model.specs.Params.{word_count};
ghost use Rattle.model.specs.Why.{explained};
ghost use Rattle.trace.specs.Claims.{led_from};
ghost use Rattle.trace.specs.Trace.{given, front_of, trace_of};
ghost use Rattle.trace.specs.Values.{header_value};
ghost use Rattle.trace.specs.Widths.{word_size};
ghost use Rattle.waiting.specs.Values.{explained_value};
ghost use Rattle.replay.specs.Turn.{end_of};
ghost use Rattle.qsense.specs.Calls.{why_words};
ghost use Rattle.explain.specs.Input.{marked, words_in, in_book, in_words, explained_in};

use layout::NodeId;
use layout::words::most;
use refusals::Refusal;
use trace::widths::WORD;
use trace::{Header, widths};
use waiting::Why;

// ---- a step book

// Of a card in the domain that a book which was found ends in. The words are as many as that domain takes.
fn at_end(words: &mut [u32], bytes: &[u8], header: Header, card: u32) -> Result<Why, Refusal>
    requires { (front_of bytes.now ≡ given (header_value header)) × (length words.old ≡ word_count (header_value header).params) }
    ensures { explained_value result ≡ explained (end_of (led_from bytes.now (header_value header))) card }
{
    replay::end::run_to_end(words, bytes, header);
    waiting::explain(words, NodeId(card))
}

// The same on words of its own.
fn in_found(bytes: &[u8], header: Header, card: u32) -> Result<Why, Refusal>
    requires { front_of bytes.now ≡ given (header_value header) }
    ensures { explained_value result ≡ explained (end_of (led_from bytes.now (header_value header))) card }
{
    let params = header.params;
    let long = layout::wide(layout::fresh::length(params.processes, params.hazards, params.nodes));
    let mut words = [0u32; most::WORDS];
    at_end(&mut words[0..long], bytes, header, card)
}

// Of a card after the last step of a book, or the book's number.
fn in_book(bytes: &[u8], card: u32) -> Result<Why, Refusal>
    ensures { explained_value result ≡ in_book card (trace_of bytes.now) }
{
    let header = trace::open_trace(bytes)?;
    in_found(bytes, header, card)
}

// ---- a domain's words

// Puts the words that the bytes are.
fn put_words(bytes: &[u8], words: &mut [u32])
    requires { length words.old ≡ length bytes.now / word_size }
    ensures { words.new ≡ words_in bytes.now }
{
    for (i, word) in words.iter_mut().enumerate() {
        *word = trace::word_at(bytes, WORD * i);
    }
}

// Of a card in the words that the bytes are, put where there is room for them.
fn of_words(words: &mut [u32], bytes: &[u8], card: u32) -> Result<Why, Refusal>
    requires { length words.old ≡ length bytes.now / word_size }
    ensures { explained_value result ≡ why_words (words_in bytes.now) card }
{
    put_words(bytes, words);
    qsense::why(words, NodeId(card))
}

// Of a card in the bytes of a domain's words. Bytes that are no whole words, or more words than any domain has, are malformed.
fn in_words(bytes: &[u8], card: u32) -> Result<Why, Refusal>
    ensures { explained_value result ≡ in_words card bytes.now }
{
    let long = bytes.len() / WORD;
    if (bytes.len() % WORD != 0) | (most::WORDS < long) {
        return Err(Refusal::Malformed);
    }
    let mut words = [0u32; most::WORDS];
    of_words(&mut words[0..long], bytes, card)
}

// ---- any bytes

// Do the last four bytes mark a step book?
fn marked(bytes: &[u8]) -> bool
    ensures { result ≡ marked bytes.now }
{
    if bytes.len() < WORD {
        return false;
    }
    trace::mark_at(bytes, bytes.len() - WORD)
}

// Why a card is still waiting, by the bytes of a step book or of a domain's words.
pub fn asked(bytes: &[u8], card: u32) -> Result<Why, Refusal>
    ensures { explained_value result ≡ explained_in card bytes.now }
{
    if widths::most::BYTES < bytes.len() {
        return Err(Refusal::TooLong);
    }
    if marked(bytes) {
        return in_book(bytes, card);
    }
    in_words(bytes, card)
}
