//! Parts that stand in many stubs: pointers, numbers of 64 bits and counted strings in structures, read and written.
//! Where a part is refused, its items before the refusal are passed over.

ghost use Rattle.std.specs.Prelude.{◌≡◌, ◌*◌, ◌^◌, ◌<◌, length, OnOk};
ghost use Rattle.wire_base.specs.Numbers.{AreBytes};
ghost use Rattle.wire_base.specs.Units.{AreUnits};
ghost use Rattle.ndr_codec.specs.Layout.{text};
ghost use Rattle.ndr_codec.specs.Parts.{unique_text, some_pointer, halves, reserved, head, units, bytes, FitsText, FitsBytes, IfThere, put_unique, put_halves, put_reserved, put_head, put_units, put_bytes};
ghost use Rattle.ndr_codec.specs.Stub.{ReadsPart, ReadsPartUpToMemory};
ghost use Rattle.ndr_codec.specs.Writing.{put};

use crate::items::padding_at;
use crate::reader::Reader;
use crate::refused::NdrRefused;
use crate::writer::{Writer, are_bytes};
use std::alloc::Global;
use wire_base::{Blob, NoMemory, Units};

/// The head of a counted string in a structure, as it was read: its length in bytes, and whether it has a target (C706
/// 14.3.12).
#[derive(Clone, Copy, Debug, PartialEq, Eq)]
pub struct Head {
    pub len: u16,
    pub there: bool,
}

/// Reads a pointer that may not be null. BadPart where it is. It takes no memory.
#[tactic(auto, unfolding(crate::specs::Parts::some_pointer))]
pub fn read_some_pointer(reader: &mut Reader<'_>) -> Result<(), NdrRefused>
    ensures { ReadsPart some_pointer result reader.old reader.new }
{
    let start = reader.place() + padding_at(4, reader.place());
    if reader.pointer()? {
        return Ok(());
    }
    Err(NdrRefused::BadPart(start))
}

/// Reads a unique pointer that is a parameter, and the `string` that it points to; None where it is null.
#[tactic(auto, unfolding(crate::specs::Parts::unique))]
pub fn read_unique_text(alloc: Global, reader: &mut Reader<'_>) -> Result<Option<Units>, NdrRefused>
    ensures { ReadsPartUpToMemory unique_text result reader.old reader.new }
{
    if !reader.pointer()? {
        return Ok(None);
    }
    Ok(Some(reader.text(alloc)?))
}

/// Reads a number of 64 bits as two of 32, the low half first. It takes no memory.
#[tactic(auto, unfolding(crate::specs::Parts::halves))]
pub fn read_halves(reader: &mut Reader<'_>) -> Result<u64, NdrRefused>
    ensures { ReadsPart halves result reader.old reader.new }
{
    let low = reader.long()?;
    let high = reader.long()?;
    Ok(u64::from(low) + (u64::from(high) << 32))
}

/// Reads that many reserved numbers of 32 bits, which are passed over. It takes no memory.
#[tactic(auto, unfolding(crate::specs::Parts::reserved), using(crate::proofs::TimesLaws::reserving))]
pub fn read_reserved(reader: &mut Reader<'_>, count: u32) -> Result<(), NdrRefused>
    ensures { ReadsPart (reserved count) result reader.old reader.new }
{
    for _ in 0..count {
        reader.long()?;
    }
    Ok(())
}

/// Reads the head of a counted string whose items have that many bytes each. BadPart where its length isn't that of
/// whole items, is above its maximum, or isn't 0 where its pointer is null. It takes no memory.
#[tactic(auto, unfolding(crate::specs::Parts::head))]
pub fn read_head(reader: &mut Reader<'_>, size: u16) -> Result<Head, NdrRefused>
    requires { 0 < size }
    ensures { ReadsPart (head size) result reader.old reader.new }
{
    let start = reader.place() + padding_at(2, reader.place());
    let len = reader.short()?;
    let maximum = reader.short()?;
    let there = reader.pointer()?;
    if maximum < len || len % size != 0 || !(there || len == 0) {
        return Err(NdrRefused::BadPart(start));
    }
    Ok(Head { len, there })
}

/// Reads the target of a counted string with that head: no units where it has none.
#[tactic(auto, unfolding(crate::specs::Parts::units))]
pub fn read_units(alloc: Global, reader: &mut Reader<'_>, head: Head) -> Result<Units, NdrRefused>
    ensures { ReadsPartUpToMemory (units head) result reader.old reader.new }
{
    if !head.there {
        return Ok(Units::from_vec(Vec::new(alloc)));
    }
    reader.counted(alloc, head.len)
}

/// Reads the target of counted bytes with that head: no bytes where it has none.
#[tactic(auto, unfolding(crate::specs::Parts::bytes))]
pub fn read_bytes(alloc: Global, reader: &mut Reader<'_>, head: Head) -> Result<Blob, NdrRefused>
    ensures { ReadsPartUpToMemory (bytes head) result reader.old reader.new }
{
    if !head.there {
        return Ok(Blob::from_vec(Vec::new(alloc)));
    }
    reader.counted_bytes(alloc, head.len)
}

/// Puts a unique pointer that is a parameter, and the `string` that it points to. Without memory what was put before it
/// stays.
pub fn write_unique_text(writer: &mut Writer, value: &Option<Units>) -> Result<(), NoMemory>
    requires { IfThere FitsText value.now }
    ensures exact { OnOk result (writer.new ≡ put_unique (put text) value.now writer.old) }
    ensures range { OnOk result (IfThere AreUnits value.now) }
{
    match value {
        Some(units) => {
            writer.pointer(true)?;
            writer.text(units)
        }
        None => writer.pointer(false),
    }
}

/// Puts a number of 64 bits as two of 32, the low half first.
#[tactic(auto, unfolding(crate::specs::Parts::put_halves))]
pub fn write_halves(writer: &mut Writer, value: u64) -> Result<(), NoMemory>
    ensures exact { OnOk result (writer.new ≡ put_halves value writer.old) }
    ensures range { OnOk result (value < 2 ^ 64) }
{
    writer.long((value % (1 << 32)) as u32)?;
    writer.long((value >> 32) as u32)
}

/// Puts that many reserved numbers of 32 bits, which are zeros.
#[tactic(auto, unfolding(crate::specs::Parts::put_reserved), using(crate::proofs::TimesLaws::reserving))]
pub fn write_reserved(writer: &mut Writer, count: u32) -> Result<(), NoMemory>
    ensures { OnOk result (writer.new ≡ put_reserved count writer.old) }
{
    for _ in 0..count {
        writer.long(0)?;
    }
    Ok(())
}

/// Puts the head of a counted string of that many bytes.
#[tactic(auto, unfolding(crate::specs::Parts::put_head))]
fn write_head(writer: &mut Writer, len: u16) -> Result<(), NoMemory>
    ensures { OnOk result (writer.new ≡ put_head len writer.old) }
{
    writer.short(len)?;
    writer.short(len)?;
    writer.pointer(len != 0)
}

/// Puts the head of a counted string, whose pointer is null where it is empty.
pub fn write_units_head(writer: &mut Writer, value: &Units) -> Result<(), NoMemory>
    requires { FitsText value.now }
    ensures { OnOk result (writer.new ≡ put_head (2 * length value.now) writer.old) }
{
    write_head(writer, 2 * value.units().len() as u16)
}

/// Puts the head of counted bytes, whose pointer is null where there are none.
pub fn write_bytes_head(writer: &mut Writer, value: &Blob) -> Result<(), NoMemory>
    requires { FitsBytes value.now }
    ensures { OnOk result (writer.new ≡ put_head (length value.now) writer.old) }
{
    write_head(writer, value.bytes().len() as u16)
}

/// Puts the target of a counted string: nothing where it is empty.
pub fn write_units(writer: &mut Writer, value: &Units) -> Result<(), NoMemory>
    requires { FitsText value.now }
    ensures exact { OnOk result (writer.new ≡ put_units value.now writer.old) }
    ensures range { OnOk result (AreUnits value.now) }
{
    if value.units().is_empty() {
        return Ok(());
    }
    writer.counted(value)
}

/// Puts the target of counted bytes: nothing where there are none.
pub fn write_bytes(writer: &mut Writer, value: &Blob) -> Result<(), NoMemory>
    requires { FitsBytes value.now }
    ensures exact { OnOk result (writer.new ≡ put_bytes value.now writer.old) }
    ensures range { OnOk result (AreBytes value.now) }
{
    are_bytes(value.bytes());
    if value.bytes().is_empty() {
        return Ok(());
    }
    writer.counted_bytes(value)
}
