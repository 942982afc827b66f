//! Items written to a stub, one after the other.

ghost use Rattle.std.specs.Prelude.{List, ℕ, ◌≡◌, ◌+◌, ◌*◌, ◌^◌, ◌<◌, ◌≤◌, ◌++◌, [], ◌∷◌, length, OnOk, OnErr, IfOk};
ghost use Rattle.std.specs.List.{flat_map, AllByRecursion};
ghost use Rattle.std.specs.Int.{w32, to_le_bytes};
ghost use Rattle.wire_base.specs.Numbers.{AreBytes};
ghost use Rattle.wire_base.specs.Sid.{IsSid};
ghost use Rattle.wire_base.specs.Units.{AreUnits, utf16_of};
ghost use Rattle.ndr_codec.specs.Layout.{Shape, ValueOf, IsNdr, array_head, sid_bytes, byte, short, long, raw, gap, pointer, text, counted, counted_bytes, sid as sid_shape};
ghost use Rattle.ndr_codec.specs.Writing.{Written, nothing, put, aligned, CanPut, Appends, ReadsBack};

use crate::items::padding_at;
use std::alloc::{AllocError, Global};
use std::marker::Model;
use wire_base::{Blob, NoMemory, Sid, Units};

/// A writer of a stub, seen as the bytes written and how many pointers among them point to something. It keeps the
/// allocator that it was made with. All items but bytes are aligned from the stub's first byte, with zeros as padding.
/// Without memory a call changes nothing.
#[derive(Drop)]
pub struct Writer {
    alloc: Global,
    bytes: Vec<u8>,
    pointers: usize,
}

impl Model for Writer {
    ghost use Rattle.std.specs.Prelude.{◌*◌, ◌≤◌, length};
    ghost use Rattle.ndr_codec.specs.Writing.{Written};

    ghost Value = { Written };

    ghost view = { λ w. record { bytes = w.bytes.items; pointers = w.pointers } };

    ghost invariant = { λ w. 4 * w.pointers ≤ length w.bytes.items };
}

impl Writer {
    /// A writer of an empty stub. It takes no memory.
    pub fn new(alloc: Global) -> Writer
        ensures { result ≡ nothing }
    {
        Writer {
            alloc,
            bytes: Vec::new(alloc),
            pointers: 0,
        }
    }

    /// A writer of an empty stub, with room for that many bytes: up to them it takes no memory for the stub itself any
    /// more.
    pub fn with_room(alloc: Global, room: usize) -> Result<Writer, NoMemory>
        ensures { IfOk result (λ writer. writer ≡ nothing) }
    {
        Ok(Writer {
            alloc,
            bytes: Vec::with_capacity(alloc, room)?,
            pointers: 0,
        })
    }

    /// Puts a byte.
    pub fn byte(&mut self, value: u8) -> Result<(), NoMemory>
        ensures exact { OnOk result (self.new ≡ put byte value self.old) }
        ensures layout { OnOk result (Appends (IsNdr byte) value self.old self.new) }
        ensures unchanged { OnErr result (self.new ≡ self.old) }
    {
        self.bytes.push(value)?;
        Ok(())
    }

    /// Puts a 16-bit number, aligned to 2.
    pub fn short(&mut self, value: u16) -> Result<(), NoMemory>
        ensures exact { OnOk result (self.new ≡ put short value self.old) }
        ensures layout { OnOk result (Appends (IsNdr short) value self.old self.new) }
        ensures unchanged { OnErr result (self.new ≡ self.old) }
    {
        append(&mut self.bytes, 2, &value.to_le_bytes())
    }

    /// Puts a 32-bit number, aligned to 4.
    pub fn long(&mut self, value: u32) -> Result<(), NoMemory>
        ensures exact { OnOk result (self.new ≡ put long value self.old) }
        ensures layout { OnOk result (Appends (IsNdr long) value self.old self.new) }
        ensures unchanged { OnErr result (self.new ≡ self.old) }
    {
        append(&mut self.bytes, 4, &value.to_le_bytes())
    }

    /// Puts bytes, without alignment.
    pub fn raw(&mut self, bytes: &[u8]) -> Result<(), NoMemory>
        ensures exact { OnOk result (self.new ≡ put (raw (length bytes.now)) bytes.now self.old) }
        ensures layout { OnOk result (
            Appends (IsNdr (raw (length bytes.now))) bytes.now self.old self.new) }
        ensures unchanged { OnErr result (self.new ≡ self.old) }
    {
        self.bytes.extend_from_slice(bytes)?;
        Ok(())
    }

    /// Puts the padding in front of a structure that has numbers of 32 bits in it, and no longer ones (C706 14.2.2).
    pub fn gap(&mut self) -> Result<(), NoMemory>
        ensures exact { OnOk result (self.new ≡ put gap tt self.old) }
        ensures layout { OnOk result (Appends (IsNdr gap) tt self.old self.new) }
        ensures unchanged { OnErr result (self.new ≡ self.old) }
    {
        append(&mut self.bytes, 4, &[])
    }

    /// Puts a unique pointer's referent: 0 where nothing is pointed to, else 0x00020000 and 4 more for each pointer
    /// before that points to something.
    pub fn pointer(&mut self, there: bool) -> Result<(), NoMemory>
        ensures exact { OnOk result (self.new ≡ put pointer there self.old) }
        ensures layout { OnOk result (Appends (IsNdr pointer) there self.old self.new) }
        ensures unchanged { OnErr result (self.new ≡ self.old) }
    {
        if !there {
            return self.long(0);
        }
        self.long(0x20000 + 4 * (self.pointers % (1 << 29)) as u32)?;
        self.pointers += 1;
        Ok(())
    }

    /// Puts a `string`: the units and a final zero, with the maximum the actual count.
    pub fn text(&mut self, units: &Units) -> Result<(), NoMemory>
        requires { length units.now + 1 < 2 ^ 32 }
        ensures exact { OnOk result (self.new ≡ put text units.now self.old) }
        ensures layout { OnOk result (Appends (IsNdr text) units.now self.old self.new) }
        ensures unchanged { OnErr result (self.new ≡ self.old) }
    {
        let item = text_bytes(self.alloc, units.units())?;
        append(&mut self.bytes, 4, &item)
    }

    /// Puts the target of a counted string, with the maximum the actual count.
    pub fn counted(&mut self, units: &Units) -> Result<(), NoMemory>
        requires { length units.now ≤ 32767 }
        ensures exact { OnOk result (self.new ≡
            put (counted (2 * length units.now)) units.now self.old) }
        ensures layout { OnOk result (
            Appends (IsNdr (counted (2 * length units.now))) units.now self.old self.new) }
        ensures unchanged { OnErr result (self.new ≡ self.old) }
    {
        let item = counted_bytes_of(self.alloc, units.units())?;
        append(&mut self.bytes, 4, &item)
    }

    /// Puts the target of counted bytes, with the maximum the actual count.
    pub fn counted_bytes(&mut self, bytes: &Blob) -> Result<(), NoMemory>
        requires { length bytes.now ≤ 65535 }
        ensures exact { OnOk result (self.new ≡
            put (counted_bytes (length bytes.now)) bytes.now self.old) }
        ensures layout { OnOk result (
            Appends (IsNdr (counted_bytes (length bytes.now))) bytes.now self.old self.new) }
        ensures bytes { OnOk result (AreBytes bytes.now) }
        ensures unchanged { OnErr result (self.new ≡ self.old) }
    {
        let bytes = bytes.bytes();
        are_bytes(bytes);
        let mut item = array_front(self.alloc, bytes.len() as u32, bytes.len())?;
        item.extend_from_slice(bytes)?;
        append(&mut self.bytes, 4, &item)
    }

    /// Puts a security identifier.
    pub fn sid(&mut self, sid: &Sid) -> Result<(), NoMemory>
        ensures exact { OnOk result (self.new ≡ put sid_shape sid.now self.old) }
        ensures layout { OnOk result (Appends (IsNdr sid_shape) sid.now self.old self.new) }
        ensures unchanged { OnErr result (self.new ≡ self.old) }
    {
        let item = sid_item(self.alloc, sid)?;
        append(&mut self.bytes, 4, &item)
    }

    /// The bytes written. It takes no memory.
    pub fn finish(self) -> Blob
        ensures value { result ≡ self.bytes }
        ensures bytes { AreBytes result }
    {
        let Writer { bytes, .. } = self;
        are_bytes(&bytes);
        Blob::from_vec(bytes)
    }
}

/// What was put of an item is read as its value where it was put, whatever bytes follow it.
pub fn what_is_put_is_read()
    ensures { (s : Shape) (value : ValueOf s) (old : Written) (rest : List ℕ) → CanPut s value →
        AreBytes ((put s value old).bytes ++ rest) → ReadsBack s value old (put s value old) rest }
{}

/// Each item of a slice of bytes is a byte. It is called so that this is known.
pub(crate) fn are_bytes(bytes: &[u8])
    ensures { AreBytes bytes.now }
{}

/// Appends padding up to a multiple of the alignment and then the item, or nothing.
#[tactic(auto, using(crate::proofs::PuttingLaws::aligned_behind))]
fn append(bytes: &mut Vec<u8>, alignment: usize, item: &[u8]) -> Result<(), NoMemory>
    requires least { 1 ≤ alignment }
    requires most { alignment ≤ 4 }
    ensures appended { OnOk result (bytes.new.items ≡ bytes.old.items
        ++ aligned alignment item.now (length bytes.old.items)) }
    ensures unchanged { OnErr result (bytes.new.items ≡ bytes.old.items) }
{
    let len = bytes.len();
    let gap = padding_at(alignment, len);
    bytes.extend_from_slice(&[0; 3][..gap])?;
    if bytes.extend_from_slice(item).is_err() {
        bytes.truncate(len);
        return Err(NoMemory);
    }
    Ok(())
}

/// The head of an array of that many items, the maximum and the actual count: a new list of bytes, with room for that
/// many bytes behind it.
fn array_front(alloc: Global, count: u32, room: usize) -> Result<Vec<u8>, AllocError>
    requires { room < 2 ^ 34 }
    ensures { IfOk result (λ item. item.items ≡ array_head count 0 count) }
{
    let mut item = Vec::with_capacity(alloc, 12 + room)?;
    item.extend_from_slice(&count.to_le_bytes())?;
    item.extend_from_slice(&[0; 4])?;
    item.extend_from_slice(&count.to_le_bytes())?;
    Ok(item)
}

/// The bytes of a `string`, from its head on.
#[tactic(auto, using(crate::proofs::PuttingLaws::ended))]
fn text_bytes(alloc: Global, units: &[u16]) -> Result<Vec<u8>, AllocError>
    requires { length units.now + 1 < 2 ^ 32 }
    ensures item { IfOk result (λ item. let count = length units.now + 1 in
        item.items ≡ array_head count 0 count ++ utf16_of (units.now ++ 0 ∷ [])) }
    ensures units { AreUnits units.now }
{
    let mut item = array_front(alloc, units.len() as u32 + 1, 2 * units.len() + 2)?;
    push_units(&mut item, units)?;
    item.extend_from_slice(&[0, 0])?;
    Ok(item)
}

/// The bytes of the target of a counted string, from its head on.
fn counted_bytes_of(alloc: Global, units: &[u16]) -> Result<Vec<u8>, AllocError>
    requires { length units.now ≤ 32767 }
    ensures item { IfOk result (λ item.
        item.items ≡ array_head (length units.now) 0 (length units.now) ++ utf16_of units.now) }
    ensures units { AreUnits units.now }
{
    let mut item = array_front(alloc, units.len() as u32, 2 * units.len())?;
    push_units(&mut item, units)?;
    Ok(item)
}

/// Two bytes for each unit, the low byte first.
#[tactic(auto, using(crate::proofs::PuttingLaws::lists))]
fn push_units(bytes: &mut Vec<u8>, units: &[u16]) -> Result<(), AllocError>
    ensures { OnOk result (bytes.new.items ≡ bytes.old.items ++ utf16_of units.now) }
{
    for unit in units {
        bytes.extend_from_slice(&unit.to_le_bytes())?;
    }
    Ok(())
}

/// The bytes of a security identifier, from its count on.
#[tactic(auto, using(crate::proofs::PuttingLaws::longs_fit))]
fn sid_item(alloc: Global, sid: &Sid) -> Result<Vec<u8>, AllocError>
    ensures item { IfOk result (λ item. item.items ≡ sid_bytes sid.now) }
    ensures form { IsSid sid.now }
    ensures numbers { AllByRecursion (λ n. n < 2 ^ 32) sid.now.numbers }
{
    let numbers = sid.numbers();
    let count = numbers.len() as u8;
    let mut item = Vec::with_capacity(alloc, 12 + 4 * numbers.len())?;
    item.extend_from_slice(&u32::from(count).to_le_bytes())?;
    item.extend_from_slice(&[1, count])?;
    item.extend_from_slice(&sid.authority().to_be_bytes()[2..])?;
    push_longs(&mut item, numbers)?;
    Ok(item)
}

/// Four bytes for each number, the low byte first.
#[tactic(auto, using(crate::proofs::PuttingLaws::lists))]
fn push_longs(bytes: &mut Vec<u8>, numbers: &[u32]) -> Result<(), AllocError>
    ensures { OnOk result (bytes.new.items ≡ bytes.old.items
        ++ flat_map (to_le_bytes w32) numbers.now) }
{
    for number in numbers {
        bytes.extend_from_slice(&number.to_le_bytes())?;
    }
    Ok(())
}
