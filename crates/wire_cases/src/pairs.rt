//! Cases of the lists of AV_PAIRs in messages.

ghost use Rattle.std.specs.Prelude.{◌≡◌, true};
ghost use Rattle.ntlm_messages.specs.Pairs.{IsPair, ArePairs};

use crate::outcomes::not_to_be_written;
use case_words::{blob, bytes, debug_text, long_text, no_case, number16, word};
use ntlm_messages::{Pairs, pair_value, read_pairs, timestamp, write_pairs};
use std::alloc::Global;
use wire_base::Blob;

/// The bytes of pairs that were read.
fn pairs_again(alloc: Global, bytes: &[u8]) -> anyhow::Result<String> {
    let read = read_pairs(alloc, bytes)?;
    let again = write_pairs(alloc, &read)?;
    long_text(alloc, again.bytes())
}

/// The time of pairs that were read.
fn time(alloc: Global, bytes: &[u8]) -> anyhow::Result<String> {
    let read = read_pairs(alloc, bytes)?;
    debug_text(alloc, timestamp(&read))
}

/// What an operation on bytes gives: `pairs`, `pairs_again`, `timestamp`.
pub(crate) fn answer_to_bytes(
    alloc: Global,
    operation: &str,
    bytes: &[u8],
) -> anyhow::Result<String> {
    match operation {
        "pairs" => debug_text(alloc, read_pairs(alloc, bytes)),
        "pairs_again" => pairs_again(alloc, bytes),
        "timestamp" => time(alloc, bytes),
        _ => no_case(alloc),
    }
}

/// The value of the first pair of an id, of pairs that are read.
fn value_text(alloc: Global, id: u16, bytes: &[u8]) -> anyhow::Result<String> {
    let read = read_pairs(alloc, bytes)?;
    debug_text(alloc, pair_value(&read, id))
}

/// `pair_value ID BYTES`: the value of the first pair of an id.
pub(crate) fn value_of_id(alloc: Global, words: &[&str]) -> anyhow::Result<String> {
    let id = number16(word(words, 1))?;
    let bytes = bytes(alloc, word(words, 2))?;
    value_text(alloc, id, &bytes)
}

/// A pair of a word.
fn pair(alloc: Global, word: &str) -> anyhow::Result<(u16, Blob)> {
    let (id, value) = word.split_once('=').unwrap_or(("", ""));
    Ok((number16(id)?, blob(alloc, value)?))
}

/// Whether the pair may be written.
fn may_write_pair(pair: &(u16, Blob)) -> bool
    ensures { result ≡ true → IsPair pair.now }
{
    let id = pair.0;
    let len = pair.1.bytes().len();
    if id == 0 || len > 65535 {
        return false;
    }
    if id == 6 && len != 4 {
        return false;
    }
    id != 7 || len == 8
}

/// Whether the pairs may be written.
fn may_write_pairs(pairs: &[(u16, Blob)]) -> bool
    ensures { result ≡ true → ArePairs pairs.now }
{
    pairs.iter().all(may_write_pair)
}

/// Puts the pair of a word behind the others.
fn put_pair(alloc: Global, pairs: &mut Pairs, word: &str) -> anyhow::Result<()> {
    let pair = pair(alloc, word)?;
    Ok(pairs.push(pair)?)
}

/// The pairs of the words.
fn pairs_in(alloc: Global, words: &[&str]) -> anyhow::Result<Pairs> {
    let mut pairs = Pairs::new(alloc);
    for word in words.iter().skip(1) {
        put_pair(alloc, &mut pairs, word)?;
    }
    Ok(pairs)
}

/// The bytes of the pairs, where they may be written.
fn pairs_text(alloc: Global, pairs: &Pairs) -> anyhow::Result<String> {
    if !may_write_pairs(pairs.items()) {
        return not_to_be_written(alloc);
    }
    let bytes = write_pairs(alloc, pairs)?;
    long_text(alloc, bytes.bytes())
}

/// `pairs_of ID=BYTES ..`.
pub(crate) fn pairs_of(alloc: Global, words: &[&str]) -> anyhow::Result<String> {
    let pairs = pairs_in(alloc, words)?;
    pairs_text(alloc, &pairs)
}
