//! Cases of `ndr_codec`: the steps of a reader. `ndr_writing` has those of a writer.

use crate::ndr_writing;
use case_words::{answer_steps, bytes, debug_text, halves, no_case, number, number16, size, word};
use ndr_codec::{
    Head, Reader, read_bytes, read_halves, read_head, read_reserved, read_some_pointer,
    read_unique_text, read_units,
};
use std::alloc::Global;

/// The head of a counted string of items of so many bytes.
fn head(alloc: Global, reader: &mut Reader<'_>, size: u16) -> anyhow::Result<String> {
    if size == 0 {
        return no_case(alloc);
    }
    debug_text(alloc, read_head(reader, size))
}

/// A head of a word: its length, and 1 where it has a target.
fn head_of(value: &str) -> anyhow::Result<Head> {
    let (len, there) = halves(value);
    Ok(Head {
        len: number16(len)?,
        there: there == "1",
    })
}

/// What a reader gives of a part of several items.
fn part(alloc: Global, reader: &mut Reader<'_>, name: &str, value: &str) -> anyhow::Result<String> {
    match name {
        "some_pointer" => debug_text(alloc, read_some_pointer(reader)),
        "unique_text" => debug_text(alloc, read_unique_text(alloc, reader)),
        "halves" => debug_text(alloc, read_halves(reader)),
        "reserved" => debug_text(alloc, read_reserved(reader, number(value)?)),
        "head" => head(alloc, reader, number16(value)?),
        "units" => debug_text(alloc, read_units(alloc, reader, head_of(value)?)),
        "bytes" => debug_text(alloc, read_bytes(alloc, reader, head_of(value)?)),
        _ => no_case(alloc),
    }
}

/// What a reader gives of a text, of bytes or of an identifier.
fn long_item(
    alloc: Global,
    reader: &mut Reader<'_>,
    name: &str,
    value: &str,
) -> anyhow::Result<String> {
    match name {
        "text" => debug_text(alloc, reader.text(alloc)),
        "counted" => debug_text(alloc, reader.counted(alloc, number16(value)?)),
        "counted_bytes" => debug_text(alloc, reader.counted_bytes(alloc, number16(value)?)),
        "sid" => debug_text(alloc, reader.sid(alloc)),
        "take" => debug_text(alloc, reader.take(size(value)?)),
        _ => part(alloc, reader, name, value),
    }
}

/// What a reader gives of an item.
fn item(alloc: Global, reader: &mut Reader<'_>, name: &str, value: &str) -> anyhow::Result<String> {
    match name {
        "byte" => debug_text(alloc, reader.byte()),
        "short" => debug_text(alloc, reader.short()),
        "long" => debug_text(alloc, reader.long()),
        "pointer" => debug_text(alloc, reader.pointer()),
        _ => long_item(alloc, reader, name, value),
    }
}

/// What a reader gives of a step, and the place where it then stands.
fn step_text(alloc: Global, reader: &mut Reader<'_>, step: &str) -> anyhow::Result<String> {
    let (name, value) = halves(step);
    let read = item(alloc, reader, name, value)?;
    let place = reader.place();
    Ok(format!(in alloc; "{read} {place}")?)
}

/// `read STUB STEP ..`: each step an item's name, and behind a `/` its length, its count or its head.
fn read(alloc: Global, words: &[&str]) -> anyhow::Result<String> {
    let stub = bytes(alloc, word(words, 1))?;
    let mut reader = Reader::new(&stub);
    answer_steps(alloc, words, 2, &mut reader, step_text)
}

/// What an operation gives.
pub(crate) fn answer(alloc: Global, operation: &str, words: &[&str]) -> anyhow::Result<String> {
    match operation {
        "read" => read(alloc, words),
        "write" => ndr_writing::write(alloc, words),
        _ => no_case(alloc),
    }
}
