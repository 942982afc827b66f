//! Cases of `rpc_units`: the bytes of a unit. `joining` has the fragments of a call, and `streams` the streams.

ghost use Rattle.std.specs.Prelude.{◌≡◌, ◌<◌, true, length};
ghost use Rattle.std.specs.List.{AllByRecursion};
ghost use Rattle.rpc_units.specs.declared.unit.Syntax.{Syntax as RpcSyntax};
ghost use Rattle.rpc_units.specs.Writing.{HasCounts, HasPieces, HasValue, IsWritable};

use crate::joining;
use crate::outcomes::{not_to_be_written, written_text};
use crate::unit_words::unit;
use case_words::{bytes, debug_text, long_text, no_case, sixteen, word};
use rpc_units::{
    Body, Contexts, Syntax, Syntaxes, Trailer, Unit, copy_unit, read_unit, sealed_range, set_value,
    view_unit, write_unit,
};
use std::alloc::Global;

/// Whether each context has at most 255 transfer syntaxes.
fn are_short(contexts: &[(u16, Syntax, Syntaxes)]) -> bool
    ensures { result ≡ true → AllByRecursion (λ context. length context.2 < 256) contexts.now }
{
    contexts.iter().all(|context| context.2.len() < 256)
}

/// Whether a body's lists may be written.
fn has_counts(body: &Body) -> bool
    ensures { result ≡ true → HasCounts body.now }
{
    match body {
        Body::Bind { contexts, .. } => are_short(contexts.items()),
        _ => true,
    }
}

/// Whether a unit that comes in one piece has FIRST and LAST.
fn has_pieces(body: &Body, first: bool, last: bool) -> bool
    ensures { result ≡ true → HasPieces body.now first last }
{
    match body {
        Body::Request { .. } | Body::Response { .. } => true,
        _ => first && last,
    }
}

/// Whether a trailer has a value.
fn has_value(trailer: &Option<Trailer>) -> bool
    ensures { result ≡ true → HasValue trailer.now }
{
    match trailer {
        Some(trailer) => !trailer.value.bytes().is_empty(),
        None => true,
    }
}

/// Whether the unit may be written.
pub(crate) fn may_write(unit: &Unit) -> bool
    ensures { result ≡ true → IsWritable unit.now }
{
    has_pieces(&unit.body, unit.first, unit.last)
        && has_counts(&unit.body)
        && has_value(&unit.trailer)
}

/// The bytes of a unit, where it may be written.
fn unit_text(alloc: Global, unit: &Unit) -> anyhow::Result<String> {
    if !may_write(unit) {
        return not_to_be_written(alloc);
    }
    written_text(alloc, write_unit(alloc, unit))
}

/// The unit that a view lends, copied.
fn copy(alloc: Global, bytes: &[u8]) -> anyhow::Result<String> {
    let view = view_unit(bytes)?;
    debug_text(alloc, copy_unit(alloc, &view)?)
}

/// The bytes of a unit that was read.
fn again(alloc: Global, bytes: &[u8]) -> anyhow::Result<String> {
    let read = read_unit(alloc, bytes)?;
    unit_text(alloc, &read)
}

/// What an operation on the bytes of a unit gives: `read`, `view`, `copy`, `again`, `range`.
fn answer_to_bytes(alloc: Global, operation: &str, bytes: &[u8]) -> anyhow::Result<String> {
    match operation {
        "read" => debug_text(alloc, read_unit(alloc, bytes)),
        "view" => debug_text(alloc, view_unit(bytes)),
        "copy" => copy(alloc, bytes),
        "again" => again(alloc, bytes),
        "range" => debug_text(alloc, sealed_range(bytes)),
        _ => no_case(alloc),
    }
}

/// What the operation on the bytes of a line gives.
fn answer_to_word(alloc: Global, operation: &str, words: &[&str]) -> anyhow::Result<String> {
    let bytes = bytes(alloc, word(words, 1))?;
    answer_to_bytes(alloc, operation, &bytes)
}

/// Bytes at whose end a value is set.
fn value_text(alloc: Global, bytes: &mut [u8], value: &[u8; 16]) -> anyhow::Result<String> {
    if bytes.len() < 16 {
        return Ok("too short".to_string(alloc)?);
    }
    set_value(bytes, value);
    long_text(alloc, bytes)
}

/// `value BYTES VALUE`.
fn value(alloc: Global, words: &[&str]) -> anyhow::Result<String> {
    let value = sixteen(word(words, 2))?;
    let mut bytes = bytes(alloc, word(words, 1))?;
    value_text(alloc, &mut bytes, &value)
}

/// `of UNIT`.
fn of_word(alloc: Global, words: &[&str]) -> anyhow::Result<String> {
    let unit = unit(alloc, word(words, 1))?;
    unit_text(alloc, &unit)
}

/// What an operation gives.
pub(crate) fn answer(alloc: Global, operation: &str, words: &[&str]) -> anyhow::Result<String> {
    match operation {
        "value" => value(alloc, words),
        "of" => of_word(alloc, words),
        "read" | "view" | "copy" | "again" | "range" => answer_to_word(alloc, operation, words),
        _ => joining::answer(alloc, operation, words),
    }
}
