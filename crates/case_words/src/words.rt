//! The words of a line: values in hex, numbers in decimal digits, and `-` for what is empty. A part of a long byte
//! string that repeats is `COUNT*HEX`, and its parts are joined by `+`; so are the bytes of `long_text`.

ghost use Rattle.std.specs.Prelude.{◌≤◌, length};

use hex::FromHex;
use std::alloc::Global;
use std::fmt::Debug;
use wire_base::{Blob, Units};

/// A run of so many equal bytes or more is answered as a count.
const RUN: usize = 32;

/// The word at a place; an empty one behind the last.
pub fn word<'a>(words: &[&'a str], at: usize) -> &'a str {
    match words.get(at) {
        Some(word) => *word,
        None => "",
    }
}

/// The part in front of the first `/`, and what stands behind it; all and nothing where there is none.
pub fn halves(word: &str) -> (&str, &str) {
    match word.split_once('/') {
        Some(halves) => halves,
        None => (word, ""),
    }
}

/// The answer to an operation that there is not.
pub fn no_case(alloc: Global) -> anyhow::Result<String> {
    Ok("no such case".to_string(alloc)?)
}

// ---- values

/// A number of 64 bits.
pub fn number64(word: &str) -> anyhow::Result<u64> {
    Ok(word.parse::<u64>()?)
}

/// A number of 32 bits.
pub fn number(word: &str) -> anyhow::Result<u32> {
    Ok(word.parse::<u32>()?)
}

/// A number of 16 bits.
pub fn number16(word: &str) -> anyhow::Result<u16> {
    Ok(word.parse::<u16>()?)
}

/// A number of 8 bits.
pub fn number8(word: &str) -> anyhow::Result<u8> {
    Ok(word.parse::<u8>()?)
}

/// A size or a place.
pub fn size(word: &str) -> anyhow::Result<usize> {
    Ok(word.parse::<usize>()?)
}

/// A number of 32 bits, of eight hex digits.
pub fn flags(word: &str) -> anyhow::Result<u32> {
    Ok(u32::from_be_bytes(<[u8; 4]>::from_hex(word)?))
}

/// Seven bytes.
pub fn seven(word: &str) -> anyhow::Result<[u8; 7]> {
    Ok(<[u8; 7]>::from_hex(word)?)
}

/// Eight bytes.
pub fn eight(word: &str) -> anyhow::Result<[u8; 8]> {
    Ok(<[u8; 8]>::from_hex(word)?)
}

/// Sixteen bytes.
pub fn sixteen(word: &str) -> anyhow::Result<[u8; 16]> {
    Ok(<[u8; 16]>::from_hex(word)?)
}

/// How often a part stands, and the part.
pub fn counted(part: &str) -> anyhow::Result<(u64, &str)> {
    match part.split_once('*') {
        Some((count, rest)) => Ok((number64(count)?, rest)),
        None => Ok((1, part)),
    }
}

/// Appends the bytes of a part.
fn push_part(alloc: Global, bytes: &mut Vec<u8>, part: &str) -> anyhow::Result<()> {
    let (count, digits) = counted(part)?;
    let piece = hex::decode(alloc, digits)?;
    for _ in 0..count {
        bytes.extend_from_slice(&piece)?;
    }
    Ok(())
}

/// The bytes of a word.
pub fn bytes(alloc: Global, word: &str) -> anyhow::Result<Vec<u8>> {
    let mut bytes = Vec::new(alloc);
    if word == "-" {
        return Ok(bytes);
    }
    for part in word.split('+') {
        push_part(alloc, &mut bytes, part)?;
    }
    Ok(bytes)
}

/// The bytes of a word, kept.
pub fn blob(alloc: Global, word: &str) -> anyhow::Result<Blob> {
    Ok(Blob::from_vec(bytes(alloc, word)?))
}

/// The 16-bit units of a word, little-endian.
pub fn text_units(alloc: Global, word: &str) -> anyhow::Result<Units> {
    let bytes = bytes(alloc, word)?;
    Ok(Units::read(alloc, &bytes)?)
}

// ---- answers

/// How many bytes in front are equal to the first; one at least.
fn run_of(bytes: &[u8]) -> usize
    requires { 1 ≤ length bytes.now }
    ensures least { 1 ≤ result }
    ensures most { result ≤ length bytes.now }
{
    let first = bytes[0];
    match bytes.iter().position(|byte| *byte != first) {
        Some(0) => 1,
        Some(place) => place,
        None => bytes.len(),
    }
}

/// Appends a part of a long answer.
fn push_text(text: &mut String, part: &str) -> anyhow::Result<()> {
    if part.is_empty() {
        return Ok(());
    }
    if !text.is_empty() {
        text.push('+')?;
    }
    text.push_str(part)?;
    Ok(())
}

/// Appends a run of a byte.
fn push_run(alloc: Global, text: &mut String, count: usize, byte: u8) -> anyhow::Result<()> {
    let part = format!(in alloc; "{count}*{byte:02x}")?;
    push_text(text, part.as_str())
}

/// Appends bytes in hex.
fn push_plain(alloc: Global, text: &mut String, bytes: &[u8]) -> anyhow::Result<()> {
    let part = hex::encode(alloc, bytes)?;
    push_text(text, part.as_str())
}

/// The hex digits of bytes, or `-` where there are none.
pub fn text(alloc: Global, bytes: &[u8]) -> anyhow::Result<String> {
    if bytes.is_empty() {
        return Ok("-".to_string(alloc)?);
    }
    Ok(hex::encode(alloc, bytes)?)
}

/// Bytes as a word in which long runs of a byte are counted.
pub fn long_text(alloc: Global, bytes: &[u8]) -> anyhow::Result<String> {
    if bytes.is_empty() {
        return Ok("-".to_string(alloc)?);
    }
    let mut text = String::new(alloc);
    let mut plain = bytes;
    let mut rest = bytes;
    while !rest.is_empty() {
        let run = run_of(rest);
        if run >= RUN {
            let front = plain.len().saturating_sub(rest.len());
            push_plain(alloc, &mut text, plain.get(..front).unwrap_or(plain))?;
            push_run(alloc, &mut text, run, rest[0])?;
            plain = &rest[run..];
        }
        rest = &rest[run..];
    }
    push_plain(alloc, &mut text, plain)?;
    Ok(text)
}

/// A value as `{:?}` prints it.
pub fn debug_text<T: Debug + Drop>(alloc: Global, value: T) -> anyhow::Result<String> {
    Ok(format!(in alloc; "{value:?}")?)
}

/// A value as `{:?}` prints the `Ok` of it.
pub fn ok_text<T: Debug + Drop>(alloc: Global, value: T) -> anyhow::Result<String> {
    Ok(format!(in alloc; "Ok({value:?})")?)
}

/// A refusal as `{:?}` prints the `Err` of it.
pub fn refusal_text<T: Debug + Drop>(alloc: Global, refused: T) -> anyhow::Result<String> {
    Ok(format!(in alloc; "Err({refused:?})")?)
}

/// A truth value.
pub fn truth(value: bool) -> &'static str {
    if value { "true" } else { "false" }
}

/// Whether all that was kept is told.
pub fn told(tells: bool) -> &'static str {
    if tells { "told" } else { "not told" }
}

/// Appends the answer of a step of a scenario.
pub fn add_answer(text: &mut String, step: &str) -> anyhow::Result<()> {
    if !text.is_empty() {
        text.push(';')?;
    }
    text.push_str(step)?;
    Ok(())
}

/// Appends a value, as `{:?}` prints it, as the answer of a step of a scenario.
pub fn add_debug<T: Debug + Drop>(
    alloc: Global,
    text: &mut String,
    value: T,
) -> anyhow::Result<()> {
    let step = debug_text(alloc, value)?;
    add_answer(text, step.as_str())
}

/// Appends bytes, as `long_text` writes them, as the answer of a step of a scenario.
pub fn add_bytes(alloc: Global, text: &mut String, bytes: &[u8]) -> anyhow::Result<()> {
    let step = long_text(alloc, bytes)?;
    add_answer(text, &step)
}
