//! Cases of the maps of `wire_base`: a scenario of steps each.

use case_words::{answer_steps, debug_text, halves, no_case, number, text_units};
use std::alloc::Global;
use std::fmt::Debug;
use std::mem;
use wire_base::{List, Units, find_number, put_named, put_number, take_named, take_number};

/// Numbers by numbers.
type ByNumber = List<(u32, u32)>;

/// Numbers by names.
type ByName = List<(Units, u32)>;

/// A value that was taken, and the entries that are left.
fn taken_text<E: Debug + Drop>(
    alloc: Global,
    value: Option<u32>,
    left: E,
) -> anyhow::Result<String> {
    Ok(format!(in alloc; "{value:?} {left:?}")?)
}

// ---- by numbers

/// `add/KEY/VALUE`: an entry behind the others, whatever its key.
fn add_number(
    alloc: Global,
    entries: &mut ByNumber,
    key: u32,
    value: u32,
) -> anyhow::Result<String> {
    entries.push((key, value))?;
    debug_text(alloc, &*entries)
}

/// `put/KEY/VALUE`.
fn put_by_number(
    alloc: Global,
    entries: &mut ByNumber,
    key: u32,
    value: u32,
) -> anyhow::Result<String> {
    *entries = put_number(mem::replace(entries, List::new(alloc)), key, value)?;
    debug_text(alloc, &*entries)
}

/// `take/KEY`.
fn take_by_number(alloc: Global, entries: &mut ByNumber, key: u32) -> anyhow::Result<String> {
    let (rest, value) = take_number(mem::replace(entries, List::new(alloc)), key);
    *entries = rest;
    taken_text(alloc, value, &*entries)
}

/// What a step on a map by numbers gives.
fn number_step(alloc: Global, entries: &mut ByNumber, step: &str) -> anyhow::Result<String> {
    let (name, rest) = halves(step);
    let (key, value) = halves(rest);
    let key = number(key)?;
    match name {
        "add" => add_number(alloc, entries, key, number(value)?),
        "put" => put_by_number(alloc, entries, key, number(value)?),
        "take" => take_by_number(alloc, entries, key),
        _ => debug_text(alloc, find_number(entries.items(), key)),
    }
}

/// `numbers STEP ..`: the steps `add/KEY/VALUE`, `put/KEY/VALUE`, `take/KEY` and `find/KEY`.
fn numbers(alloc: Global, words: &[&str]) -> anyhow::Result<String> {
    let mut entries = ByNumber::new(alloc);
    answer_steps(alloc, words, 1, &mut entries, number_step)
}

// ---- by names

/// `add/UNITS/VALUE`: an entry behind the others, whatever its key.
fn add_named(
    alloc: Global,
    entries: &mut ByName,
    key: Units,
    value: u32,
) -> anyhow::Result<String> {
    entries.push((key, value))?;
    debug_text(alloc, &*entries)
}

/// `put/UNITS/VALUE`.
fn put_by_name(
    alloc: Global,
    entries: &mut ByName,
    key: Units,
    value: u32,
) -> anyhow::Result<String> {
    *entries = put_named(mem::replace(entries, List::new(alloc)), key, value)?;
    debug_text(alloc, &*entries)
}

/// `take/UNITS`.
fn take_by_name(alloc: Global, entries: &mut ByName, key: &Units) -> anyhow::Result<String> {
    let (rest, value) = take_named(mem::replace(entries, List::new(alloc)), key.units());
    *entries = rest;
    taken_text(alloc, value, &*entries)
}

/// What a step on a map by names gives: `add/UNITS/VALUE`, `put/UNITS/VALUE`, `take/UNITS`.
fn name_step(alloc: Global, entries: &mut ByName, step: &str) -> anyhow::Result<String> {
    let (name, rest) = halves(step);
    let (key, value) = halves(rest);
    match name {
        "add" => {
            let value = number(value)?;
            add_named(alloc, entries, text_units(alloc, key)?, value)
        }
        "put" => {
            let value = number(value)?;
            put_by_name(alloc, entries, text_units(alloc, key)?, value)
        }
        _ => take_by_name(alloc, entries, &text_units(alloc, key)?),
    }
}

/// `names STEP ..`.
fn names(alloc: Global, words: &[&str]) -> anyhow::Result<String> {
    let mut entries = ByName::new(alloc);
    answer_steps(alloc, words, 1, &mut entries, name_step)
}

/// What an operation gives.
pub(crate) fn answer(alloc: Global, operation: &str, words: &[&str]) -> anyhow::Result<String> {
    match operation {
        "numbers" => numbers(alloc, words),
        "names" => names(alloc, words),
        _ => no_case(alloc),
    }
}
