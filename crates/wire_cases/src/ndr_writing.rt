//! Cases of `ndr_codec`: the steps of a writer.

ghost use Rattle.std.specs.Prelude.{◌≤◌, length, IfOk};

use anyhow::anyhow;
use case_words::{blob, bytes, halves, long_text, number, number8, number16, number64, text_units};
use ndr_codec::{
    Writer, write_bytes, write_bytes_head, write_halves, write_reserved, write_unique_text,
    write_units, write_units_head,
};
use std::alloc::Global;
use wire_base::{Blob, NoMemory, Sid, Units};

/// A refusal of a value that may not be written.
fn not_to_be_written() -> anyhow::Error {
    anyhow!("not to be written")
}

/// The units of a counted string that may be written.
fn short_units(alloc: Global, value: &str) -> anyhow::Result<Units>
    ensures { IfOk result (λ units. length units ≤ 32767) }
{
    let units = text_units(alloc, value)?;
    if units.units().len() > 32767 {
        return Err(not_to_be_written());
    }
    Ok(units)
}

/// Bytes that may be written as counted bytes.
fn short_bytes(alloc: Global, value: &str) -> anyhow::Result<Blob>
    ensures { IfOk result (λ bytes. length bytes ≤ 65535) }
{
    let bytes = blob(alloc, value)?;
    if bytes.bytes().len() > 65535 {
        return Err(not_to_be_written());
    }
    Ok(bytes)
}

// ---- numbers and pointers

/// Puts a byte.
fn put_byte(writer: &mut Writer, value: &str) -> anyhow::Result<()> {
    Ok(writer.byte(number8(value)?)?)
}

/// Puts a 16-bit number.
fn put_short(writer: &mut Writer, value: &str) -> anyhow::Result<()> {
    Ok(writer.short(number16(value)?)?)
}

/// Puts a 32-bit number.
fn put_long(writer: &mut Writer, value: &str) -> anyhow::Result<()> {
    Ok(writer.long(number(value)?)?)
}

/// Puts a pointer: not null where the value is 1.
fn put_pointer(writer: &mut Writer, value: &str) -> anyhow::Result<()> {
    Ok(writer.pointer(value == "1")?)
}

/// Puts a number of 64 bits.
fn put_halves(writer: &mut Writer, value: &str) -> anyhow::Result<()> {
    Ok(write_halves(writer, number64(value)?)?)
}

/// Puts reserved numbers.
fn put_reserved(writer: &mut Writer, value: &str) -> anyhow::Result<()> {
    Ok(write_reserved(writer, number(value)?)?)
}

// ---- bytes

/// Puts bytes as they are.
fn put_raw(alloc: Global, writer: &mut Writer, value: &str) -> anyhow::Result<()> {
    let bytes = bytes(alloc, value)?;
    Ok(writer.raw(&bytes)?)
}

/// Puts the target of counted bytes, their head, or the target where they have one.
fn put_of_bytes(writer: &mut Writer, name: &str, bytes: &Blob) -> Result<(), NoMemory>
    requires { length bytes.now ≤ 65535 }
{
    match name {
        "counted_bytes" => writer.counted_bytes(bytes),
        "bytes_head" => write_bytes_head(writer, bytes),
        _ => write_bytes(writer, bytes),
    }
}

/// Puts what is of counted bytes.
fn put_bytes(alloc: Global, writer: &mut Writer, name: &str, value: &str) -> anyhow::Result<()> {
    let bytes = short_bytes(alloc, value)?;
    Ok(put_of_bytes(writer, name, &bytes)?)
}

/// Puts a security identifier, given as its text.
fn put_sid(alloc: Global, writer: &mut Writer, value: &str) -> anyhow::Result<()> {
    let sid = Sid::read(alloc, value.as_bytes())?;
    Ok(writer.sid(&sid)?)
}

// ---- texts

/// Puts a `string`, the target of a counted string, its head, or the target where it has one.
fn put_of_units(writer: &mut Writer, name: &str, units: &Units) -> Result<(), NoMemory>
    requires { length units.now ≤ 32767 }
{
    match name {
        "text" => writer.text(units),
        "counted" => writer.counted(units),
        "units_head" => write_units_head(writer, units),
        _ => write_units(writer, units),
    }
}

/// Puts what is of a text.
fn put_units(alloc: Global, writer: &mut Writer, name: &str, value: &str) -> anyhow::Result<()> {
    let units = short_units(alloc, value)?;
    Ok(put_of_units(writer, name, &units)?)
}

/// Puts a `string` behind a unique pointer.
fn put_some_text(alloc: Global, writer: &mut Writer, value: &str) -> anyhow::Result<()> {
    let units = Some(short_units(alloc, value)?);
    Ok(write_unique_text(writer, &units)?)
}

/// Puts a `string` behind a unique pointer, or a null pointer.
fn put_unique_text(alloc: Global, writer: &mut Writer, value: &str) -> anyhow::Result<()> {
    if value == "null" {
        return Ok(write_unique_text(writer, &None)?);
    }
    put_some_text(alloc, writer, value)
}

// ---- steps

/// Puts bytes, a text or an identifier.
fn put_long_item(
    alloc: Global,
    writer: &mut Writer,
    name: &str,
    value: &str,
) -> anyhow::Result<()> {
    match name {
        "raw" => put_raw(alloc, writer, value),
        "counted_bytes" | "bytes_head" | "bytes" => put_bytes(alloc, writer, name, value),
        "text" | "counted" | "units_head" | "units" => put_units(alloc, writer, name, value),
        "unique_text" => put_unique_text(alloc, writer, value),
        "sid" => put_sid(alloc, writer, value),
        _ => Err(anyhow!("no such item")),
    }
}

/// Puts the item of a step.
fn put_item(alloc: Global, writer: &mut Writer, step: &str) -> anyhow::Result<()> {
    let (name, value) = halves(step);
    match name {
        "byte" => put_byte(writer, value),
        "short" => put_short(writer, value),
        "long" => put_long(writer, value),
        "pointer" => put_pointer(writer, value),
        "halves" => put_halves(writer, value),
        "reserved" => put_reserved(writer, value),
        _ => put_long_item(alloc, writer, name, value),
    }
}

/// The stub of all items; a refusal where one may not be written.
fn written(alloc: Global, words: &[&str]) -> anyhow::Result<Blob> {
    let mut writer = Writer::new(alloc);
    for step in words.iter().skip(1) {
        put_item(alloc, &mut writer, step)?;
    }
    Ok(writer.finish())
}

/// `write STEP ..`.
pub(crate) fn write(alloc: Global, words: &[&str]) -> anyhow::Result<String> {
    match written(alloc, words) {
        Ok(stub) => long_text(alloc, stub.bytes()),
        Err(refused) => Ok(format!(in alloc; "{refused}")?),
    }
}
