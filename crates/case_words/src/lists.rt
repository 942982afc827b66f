//! Lists in a word: the parts are between commas, and `-` is an empty list.

use crate::words::{eight, number, text};
use std::alloc::Global;
use wire_base::{Blob, List, Numbers};

/// The numbers of a word.
pub fn number_list(alloc: Global, word: &str) -> anyhow::Result<Numbers> {
    let mut numbers = Numbers::new(alloc);
    if word != "-" {
        for part in word.split(',') {
            numbers.push(number(part)?)?;
        }
    }
    Ok(numbers)
}

/// The parts of eight bytes each of a word.
pub fn eight_list(alloc: Global, word: &str) -> anyhow::Result<List<[u8; 8]>> {
    let mut eights = List::new(alloc);
    if word != "-" {
        for part in word.split(',') {
            eights.push(eight(part)?)?;
        }
    }
    Ok(eights)
}

/// Puts a part behind the others.
pub fn add_part(list: &mut String, part: &str) -> anyhow::Result<()> {
    if !list.is_empty() {
        list.push(',')?;
    }
    list.push_str(part)?;
    Ok(())
}

/// A list as a word, of the parts that were put.
pub fn list_text(alloc: Global, list: String) -> anyhow::Result<String> {
    if list.is_empty() {
        return Ok("-".to_string(alloc)?);
    }
    Ok(list)
}

/// Puts a send `LINK:BYTES` behind the others.
fn add_send(alloc: Global, list: &mut String, link: u32, bytes: &[u8]) -> anyhow::Result<()> {
    let bytes = text(alloc, bytes)?;
    let part = format!(in alloc; "{link}:{bytes}")?;
    add_part(list, &part)
}

/// What was sent, as a word of parts `LINK:BYTES`.
pub fn sends_text(alloc: Global, sends: &[(u32, Blob)]) -> anyhow::Result<String> {
    let mut list = String::new(alloc);
    for (link, bytes) in sends {
        add_send(alloc, &mut list, *link, bytes.bytes())?;
    }
    list_text(alloc, list)
}
