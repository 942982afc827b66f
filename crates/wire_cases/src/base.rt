//! Cases of `wire_base`. `maps` has the maps.

ghost use Rattle.std.specs.Prelude.{◌≡◌, ◌<◌, ◌≤◌, ◌^◌, true, length};

use crate::maps;
use case_words::{
    add_bytes, add_debug, bytes, debug_text, long_text, number, number16, number64, ok_text,
    refusal_text, size, text_units, truth, word,
};
use std::alloc::Global;
use wire_base::{
    Blob, Name, Numbers, Sid, Units, same_units as same_texts, u16_at, u32_at, u64_at, upper_unit,
};

// ---- numbers and bytes

/// The number at a place of bytes.
fn number_at(alloc: Global, operation: &str, bytes: &[u8], at: usize) -> anyhow::Result<String> {
    match operation {
        "u16" => debug_text(alloc, u16_at(bytes, at)),
        "u32" => debug_text(alloc, u32_at(bytes, at)),
        _ => debug_text(alloc, u64_at(bytes, at)),
    }
}

/// `u16 BYTES PLACE`, and `u32` and `u64`.
fn number_in(alloc: Global, operation: &str, words: &[&str]) -> anyhow::Result<String> {
    let at = size(word(words, 2))?;
    let bytes = bytes(alloc, word(words, 1))?;
    number_at(alloc, operation, &bytes, at)
}

/// The bytes copied, and given back.
fn blob(alloc: Global, bytes: &[u8]) -> anyhow::Result<String> {
    let copy = Blob::copy(alloc, bytes)?;
    let mut answer = debug_text(alloc, &copy)?;
    add_bytes(alloc, &mut answer, copy.bytes())?;
    Ok(answer)
}

/// `upper UNIT`.
fn upper(alloc: Global, words: &[&str]) -> anyhow::Result<String> {
    debug_text(alloc, upper_unit(number16(word(words, 1))?))
}

// ---- lists

/// The numbers from the second word on.
fn numbers(alloc: Global, words: &[&str]) -> anyhow::Result<Vec<u32>> {
    let mut numbers = Vec::new(alloc);
    for word in words.iter().skip(2) {
        numbers.push(number(word)?)?;
    }
    Ok(numbers)
}

/// The items of a list by their places, and what stands behind the last.
fn add_items(alloc: Global, answer: &mut String, list: &Numbers) -> anyhow::Result<()> {
    for at in 0..list.len() {
        add_debug(alloc, answer, list.get(at))?;
    }
    add_debug(alloc, answer, list.get(list.len()))
}

/// Whether a list has no items, before the numbers were put and after, and how many it has.
fn size_text(alloc: Global, list: &Numbers) -> anyhow::Result<String> {
    let before = truth(Numbers::new(alloc).is_empty());
    let after = truth(list.is_empty());
    let count = list.len();
    Ok(format!(in alloc; "{before};{after};{count}")?)
}

/// Appends a copy of a list, and the vector that a list made of the copy's vector gives back.
fn add_copy(alloc: Global, answer: &mut String, list: &Numbers) -> anyhow::Result<()> {
    let copy = Numbers::copy(alloc, list.items())?;
    add_debug(alloc, answer, &copy)?;
    add_debug(alloc, answer, Numbers::from_vec(copy.into_vec()).into_vec())
}

/// A list, its items, and a copy.
fn list_text(alloc: Global, list: &Numbers) -> anyhow::Result<String> {
    let mut answer = size_text(alloc, list)?;
    add_items(alloc, &mut answer, list)?;
    add_copy(alloc, &mut answer, list)?;
    Ok(answer)
}

/// The list of the numbers from the first word on, put one by one.
fn list_of(alloc: Global, words: &[&str]) -> anyhow::Result<Numbers> {
    let mut list = Numbers::new(alloc);
    for word in words.iter().skip(1) {
        list.push(number(word)?)?;
    }
    Ok(list)
}

/// `list NUMBER ..`.
fn list(alloc: Global, words: &[&str]) -> anyhow::Result<String> {
    let list = list_of(alloc, words)?;
    list_text(alloc, &list)
}

// ---- texts

/// Appends the bytes of a text.
fn add_written(alloc: Global, answer: &mut String, units: &Units) -> anyhow::Result<()> {
    let bytes = units.bytes(alloc)?;
    add_bytes(alloc, answer, bytes.bytes())
}

/// A text that was read, its duplicate's bytes, and its units.
fn units_text(alloc: Global, read: Units) -> anyhow::Result<String> {
    let copy = read.duplicate(alloc)?;
    let mut answer = ok_text(alloc, &read)?;
    add_written(alloc, &mut answer, &copy)?;
    add_debug(alloc, &mut answer, read.into_vec())?;
    Ok(answer)
}

/// The text that is read of bytes.
fn units(alloc: Global, bytes: &[u8]) -> anyhow::Result<String> {
    match Units::read(alloc, bytes) {
        Ok(read) => units_text(alloc, read),
        Err(refused) => refusal_text(alloc, refused),
    }
}

/// The bytes of a text that was read, copied.
fn units_back(alloc: Global, bytes: &[u8]) -> anyhow::Result<String> {
    let read = Units::read(alloc, bytes)?;
    let copy = Units::copy(alloc, read.units())?;
    let back = Units::from_vec(copy.into_vec()).bytes(alloc)?;
    long_text(alloc, back.bytes())
}

/// `same_texts UNITS UNITS`.
fn same_text(alloc: Global, words: &[&str]) -> anyhow::Result<String> {
    let one = text_units(alloc, word(words, 1))?;
    let other = text_units(alloc, word(words, 2))?;
    debug_text(alloc, same_texts(one.units(), other.units()))
}

// ---- names

/// Appends the bytes of a name's copy, and its units.
fn add_name(alloc: Global, answer: &mut String, read: &Name) -> anyhow::Result<()> {
    let copy = read.copy(alloc)?;
    add_bytes(alloc, answer, copy.bytes())?;
    add_debug(alloc, answer, read.units(alloc)?)
}

/// A name that was read, its copy's bytes, and its units.
fn name_text(alloc: Global, read: &Name) -> anyhow::Result<String> {
    let mut answer = ok_text(alloc, read)?;
    add_name(alloc, &mut answer, read)?;
    Ok(answer)
}

/// The name that is read of bytes.
fn name(alloc: Global, bytes: &[u8]) -> anyhow::Result<String> {
    match Name::read(alloc, bytes) {
        Ok(read) => name_text(alloc, &read),
        Err(refused) => refusal_text(alloc, refused),
    }
}

/// The name of a word.
fn name_of(alloc: Global, word: &str) -> anyhow::Result<Name> {
    let bytes = bytes(alloc, word)?;
    Ok(Name::read(alloc, &bytes)?)
}

/// `same BYTES BYTES`.
fn same(alloc: Global, words: &[&str]) -> anyhow::Result<String> {
    let one = name_of(alloc, word(words, 1))?;
    let other = name_of(alloc, word(words, 2))?;
    debug_text(alloc, one.same(&other))
}

/// `same_units BYTES UNITS`.
fn same_units(alloc: Global, words: &[&str]) -> anyhow::Result<String> {
    let one = name_of(alloc, word(words, 1))?;
    let other = text_units(alloc, word(words, 2))?;
    debug_text(alloc, one.same_units(other.units()))
}

// ---- identifiers

/// Appends an identifier's parts, and a copy.
fn add_sid(alloc: Global, answer: &mut String, sid: &Sid) -> anyhow::Result<()> {
    add_debug(alloc, answer, sid.authority())?;
    add_debug(alloc, answer, sid.numbers())?;
    add_debug(alloc, answer, sid.copy(alloc)?)
}

/// An identifier that was read, its parts, and a copy.
fn sid_text(alloc: Global, read: &Sid) -> anyhow::Result<String> {
    let mut answer = ok_text(alloc, read)?;
    add_sid(alloc, &mut answer, read)?;
    Ok(answer)
}

/// The identifier that is read of a text.
fn sid(alloc: Global, bytes: &[u8]) -> anyhow::Result<String> {
    match Sid::read(alloc, bytes) {
        Ok(read) => sid_text(alloc, &read),
        Err(refused) => refusal_text(alloc, refused),
    }
}

/// Whether there is an identifier of these parts.
fn is_sid(authority: u64, numbers: &[u32]) -> bool
    ensures { result ≡ true → (authority < 2 ^ 48) × (1 ≤ length numbers.now) ×
        (length numbers.now ≤ 15) }
{
    authority < 1 << 48 && !numbers.is_empty() && numbers.len() <= 15
}

/// The identifier of these parts, where there is one, its parts, and a copy.
fn sid_of_parts(alloc: Global, authority: u64, numbers: &[u32]) -> anyhow::Result<String> {
    if !is_sid(authority, numbers) {
        return Ok("out of range".to_string(alloc)?);
    }
    let sid = Sid::new(alloc, authority, numbers)?;
    let mut answer = debug_text(alloc, &sid)?;
    add_sid(alloc, &mut answer, &sid)?;
    Ok(answer)
}

/// `sid_of AUTHORITY NUMBER ..`.
fn sid_of(alloc: Global, words: &[&str]) -> anyhow::Result<String> {
    let authority = number64(word(words, 1))?;
    let numbers = numbers(alloc, words)?;
    sid_of_parts(alloc, authority, &numbers)
}

// ---- operations

/// What an operation on bytes gives.
fn answer_to_bytes(alloc: Global, operation: &str, bytes: &[u8]) -> anyhow::Result<String> {
    match operation {
        "blob" => blob(alloc, bytes),
        "units" => units(alloc, bytes),
        "units_back" => units_back(alloc, bytes),
        "name" => name(alloc, bytes),
        _ => sid(alloc, bytes),
    }
}

/// What the operation on the bytes of a line gives: `blob`, `units`, `units_back`, `name`, and of a text `sid`.
fn answer_to_word(alloc: Global, operation: &str, words: &[&str]) -> anyhow::Result<String> {
    let bytes = bytes(alloc, word(words, 1))?;
    answer_to_bytes(alloc, operation, &bytes)
}

/// `blob_back BYTES`: the bytes of a vector, given back as one.
fn blob_back(alloc: Global, words: &[&str]) -> anyhow::Result<String> {
    let bytes = bytes(alloc, word(words, 1))?;
    long_text(alloc, &Blob::from_vec(bytes).into_vec())
}

/// What an operation gives.
pub(crate) fn answer(alloc: Global, operation: &str, words: &[&str]) -> anyhow::Result<String> {
    match operation {
        "u16" | "u32" | "u64" => number_in(alloc, operation, words),
        "blob" | "units" | "units_back" | "name" | "sid" => {
            answer_to_word(alloc, operation, words)
        }
        "blob_back" => blob_back(alloc, words),
        "list" => list(alloc, words),
        "upper" => upper(alloc, words),
        "same" => same(alloc, words),
        "same_units" => same_units(alloc, words),
        "same_texts" => same_text(alloc, words),
        "sid_of" => sid_of(alloc, words),
        _ => maps::answer(alloc, operation, words),
    }
}
