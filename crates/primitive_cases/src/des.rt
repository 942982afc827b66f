//! Cases of `des_cipher`: keys, blocks and answers in hex.

use case_words::{eight, no_case, seven, text, word};
use des_cipher::{Schedule, des_back, des_block, des_block8, plain, spread_key};
use std::alloc::Global;

/// `block8 KEY BLOCK`: the block under a key of 8 bytes.
fn block8(alloc: Global, words: &[&str]) -> anyhow::Result<String> {
    let key = eight(word(words, 1))?;
    let block = eight(word(words, 2))?;
    text(alloc, &des_block8(key, block))
}

/// `block KEY BLOCK`: the block under a key of 7 bytes.
fn block(alloc: Global, words: &[&str]) -> anyhow::Result<String> {
    let key = seven(word(words, 1))?;
    let block = eight(word(words, 2))?;
    text(alloc, &des_block(key, block))
}

/// `back KEY BLOCK`: the block deciphered under a key of 7 bytes.
fn back(alloc: Global, words: &[&str]) -> anyhow::Result<String> {
    let key = seven(word(words, 1))?;
    let block = eight(word(words, 2))?;
    text(alloc, &des_back(key, block))
}

/// `spread KEY`: a key of 7 bytes spread over 8.
fn spread(alloc: Global, words: &[&str]) -> anyhow::Result<String> {
    let key = seven(word(words, 1))?;
    text(alloc, &spread_key(key))
}

/// `schedule KEY BLOCK`: the block under a kept schedule of a key of 7 bytes, and what the same schedule makes of that
/// again.
fn schedule(alloc: Global, words: &[&str]) -> anyhow::Result<String> {
    let key = seven(word(words, 1))?;
    let block = eight(word(words, 2))?;
    let schedule = Schedule::new(key);
    let enciphered = schedule.block(block);
    let back = text(alloc, &schedule.back(enciphered))?;
    let enciphered = text(alloc, &enciphered)?;
    Ok(format!(in alloc; "{enciphered};{back}")?)
}

/// `schedule_back KEY BLOCK`: the block deciphered under a kept schedule of a key of 7 bytes, and what the same
/// schedule makes of that again.
fn schedule_back(alloc: Global, words: &[&str]) -> anyhow::Result<String> {
    let key = seven(word(words, 1))?;
    let block = eight(word(words, 2))?;
    let schedule = Schedule::new(key);
    let deciphered = schedule.back(block);
    let again = text(alloc, &schedule.block(deciphered))?;
    let deciphered = text(alloc, &deciphered)?;
    Ok(format!(in alloc; "{deciphered};{again}")?)
}

/// `plain_block8 KEY BLOCK`: as `block8`, over bits.
fn plain_block8(alloc: Global, words: &[&str]) -> anyhow::Result<String> {
    let key = eight(word(words, 1))?;
    let block = eight(word(words, 2))?;
    text(alloc, &plain::des_block8(key, block))
}

/// `plain_block KEY BLOCK`: as `block`, over bits.
fn plain_block(alloc: Global, words: &[&str]) -> anyhow::Result<String> {
    let key = seven(word(words, 1))?;
    let block = eight(word(words, 2))?;
    text(alloc, &plain::des_block(key, block))
}

/// `plain_back KEY BLOCK`: as `back`, over bits.
fn plain_back(alloc: Global, words: &[&str]) -> anyhow::Result<String> {
    let key = seven(word(words, 1))?;
    let block = eight(word(words, 2))?;
    text(alloc, &plain::des_back(key, block))
}

/// `plain_spread KEY`: as `spread`, over bits.
fn plain_spread(alloc: Global, words: &[&str]) -> anyhow::Result<String> {
    let key = seven(word(words, 1))?;
    text(alloc, &plain::spread_key(key))
}

/// What an operation gives.
pub(crate) fn answer(alloc: Global, operation: &str, words: &[&str]) -> anyhow::Result<String> {
    match operation {
        "block8" => block8(alloc, words),
        "block" => block(alloc, words),
        "back" => back(alloc, words),
        "spread" => spread(alloc, words),
        "schedule" => schedule(alloc, words),
        "schedule_back" => schedule_back(alloc, words),
        "plain_block8" => plain_block8(alloc, words),
        "plain_block" => plain_block(alloc, words),
        "plain_back" => plain_back(alloc, words),
        "plain_spread" => plain_spread(alloc, words),
        _ => no_case(alloc),
    }
}
