//! Names of accounts, computers and domains, and ASCII upper case.

ghost use Rattle.std.specs.Prelude.{◌≡◌, ◌<◌, ◌↔◌, ℕ, not, length, All, IfSome, IfNone, IfOk, IfErr, IsErrOf, IsTrue, Ok};
ghost use Rattle.std.specs.List.{position};
ghost use Rattle.wire_base.specs.Maps.{IsSameness, same_number};
ghost use Rattle.wire_base.specs.Memory.{UpToMemory};
ghost use Rattle.wire_base.specs.Names.{upper_of, SameName, same_name, is_name_byte, IsNameByte, IsName, IsFirstOutside, IsNameRefusal, name_of};

use crate::memory::NoMemory;
use crate::units::Units;
use std::alloc::Global;
use std::marker::Model;
use thiserror::Error;

/// The most bytes of a name.
pub const NAME_LIMIT: usize = 64;

/// Why bytes are no name.
#[derive(Clone, Copy, Debug, PartialEq, Eq, Error)]
pub enum NameRefused {
    /// There are more than 64 bytes.
    #[error("a name of more than 64 bytes")]
    TooLong,
    /// The place of the first byte outside 0x20 to 0x7E, counted from 0.
    #[error("no printable ASCII at byte {0}")]
    NotAscii(usize),
    /// No memory was found.
    #[error("no memory")]
    Memory,
}

impl From<NoMemory> for NameRefused {
    ghost use Rattle.std.specs.Prelude.{◌≡◌};
    ghost use Rattle.wire_base.specs.declared.names.NameRefused.TheVariants.{Memory};

    ghost from_gives = { λ _ e. e ≡ Memory };

    fn from(_error: NoMemory) -> NameRefused {
        NameRefused::Memory
    }
}

/// The ASCII upper case of a 16-bit unit: 0x61 to 0x7A become 0x41 to 0x5A, and all others stay. It takes no memory.
#[tactic(auto, unfolding(crate::specs::Names::upper_of))]
pub fn upper_unit(unit: u16) -> u16
    ensures { result ≡ upper_of unit }
{
    match unit {
        0x61..=0x7A => unit - 0x20,
        _ => unit,
    }
}

/// True exactly where two texts are the same name, upper case for lower. It takes no memory.
#[tactic(auto, using(crate::proofs::NameLaws::comparing))]
pub fn same_units(one: &[u16], other: &[u16]) -> bool
    ensures { result ≡ same_name one.now other.now }
{
    if one.len() != other.len() {
        return false;
    }
    for i in 0..one.len() {
        if upper_unit(one[i]) != upper_unit(other[i]) {
            return false;
        }
    }
    true
}

/// To be the same name is an equivalence, and so is to be the same number. It does nothing.
pub fn sameness_is_an_equivalence()
    ensures names { IsSameness same_name }
    ensures numbers { IsSameness same_number }
{}

/// A name of at most 64 bytes of 0x20 to 0x7E, seen as the list of its bytes (this project's own choice). An empty one
/// is a name.
#[derive(Debug, Drop)]
pub struct Name {
    bytes: Vec<u8>,
}

impl Model for Name {
    ghost use Rattle.std.specs.Prelude.{ℕ, List, IsTrue};
    ghost use Rattle.wire_base.specs.Names.{is_name};

    ghost Value = { List ℕ };

    ghost view = { λ n. n.bytes.items };

    ghost invariant = { λ n. IsTrue (is_name n.bytes.items) };
}

impl Name {
    /// The name that the bytes are. TooLong exactly above 64 bytes; else NotAscii with the place of the first byte
    /// outside 0x20 to 0x7E, exactly where there is one. Both are judged before memory is looked for.
    #[tactic(auto, using(crate::proofs::NameLaws::forms), unfolding(crate::specs::Names::name_of))]
    pub fn read(alloc: Global, text: &[u8]) -> Result<Name, NameRefused>
        ensures exact { UpToMemory NameRefused.Memory result (name_of text.now) }
        ensures found { IfOk result (λ name. (name ≡ text.now) × IsName text.now) }
        ensures only { IsName text.now → UpToMemory NameRefused.Memory result (Ok text.now) }
        ensures too_long { IsErrOf result NameRefused.TooLong ↔ (64 < length text.now) }
        ensures not_ascii { (place : ℕ) → IsErrOf result (NameRefused.NotAscii place)
            ↔ IsNameRefusal text.now (NameRefused.NotAscii place) }
        ensures refused { IfErr result (IsNameRefusal text.now) }
    {
        if text.len() > NAME_LIMIT {
            return Err(NameRefused::TooLong);
        }
        if let Some(place) = first_outside(text) {
            return Err(NameRefused::NotAscii(place));
        }
        Ok(Name {
            bytes: copy_bytes(alloc, text)?,
        })
    }

    /// The bytes, in order. It takes no memory.
    pub fn bytes(&self) -> &[u8]
        ensures value { result.now ≡ self.now }
        ensures form { IsName self.now }
    {
        self.bytes.as_slice()
    }

    /// The name as a text of units, one for each byte.
    pub fn units(&self, alloc: Global) -> Result<Units, NoMemory>
        ensures { IfOk result (λ units. units ≡ self.now) }
    {
        Ok(Units::from_vec(units_of_bytes(alloc, self.bytes.as_slice())?))
    }

    /// True exactly where both are the same name, upper case for lower. It takes no memory.
    #[tactic(auto, using(crate::proofs::NameLaws::deciding))]
    pub fn same(&self, other: &Name) -> bool
        ensures value { result ≡ same_name self.now other.now }
        ensures fact { IsTrue result ↔ SameName self.now other.now }
    {
        same_bytes(self.bytes.as_slice(), other.bytes.as_slice())
    }

    /// True exactly where the units are the same name, upper case for lower. It takes no memory.
    #[tactic(auto, using(crate::proofs::NameLaws::deciding))]
    pub fn same_units(&self, units: &[u16]) -> bool
        ensures value { result ≡ same_name self.now units.now }
        ensures fact { IsTrue result ↔ SameName self.now units.now }
    {
        same_text(self.bytes.as_slice(), units)
    }

    /// An equal name.
    pub fn copy(&self, alloc: Global) -> Result<Name, NoMemory>
        ensures { IfOk result (λ name. name ≡ self.now) }
    {
        Ok(Name {
            bytes: copy_bytes(alloc, self.bytes.as_slice())?,
        })
    }
}

/// The place of the first byte outside 0x20 to 0x7E.
fn first_outside(text: &[u8]) -> Option<usize>
    ensures value { result ≡ position (λ byte. not (is_name_byte byte)) text.now }
    ensures none { IfNone result (All IsNameByte text.now) }
    ensures first { IfSome result (IsFirstOutside text.now) }
{
    text.iter().position(|byte| !matches!(*byte, 0x20..=0x7E))
}

/// A copy of bytes.
fn copy_bytes(alloc: Global, bytes: &[u8]) -> Result<Vec<u8>, NoMemory>
    ensures { IfOk result (λ copy. copy.items ≡ bytes.now) }
{
    Ok(Vec::from_slice(alloc, bytes)?)
}

/// A unit for each byte.
fn units_of_bytes(alloc: Global, bytes: &[u8]) -> Result<Vec<u16>, NoMemory>
    ensures { IfOk result (λ units. units.items ≡ bytes.now) }
{
    Ok(bytes.iter().map(|byte| u16::from(*byte)).collect(alloc)?)
}

/// Whether two texts of bytes are the same name.
#[tactic(auto, using(crate::proofs::NameLaws::comparing))]
fn same_bytes(one: &[u8], other: &[u8]) -> bool
    ensures { result ≡ same_name one.now other.now }
{
    if one.len() != other.len() {
        return false;
    }
    for i in 0..one.len() {
        if upper_unit(u16::from(one[i])) != upper_unit(u16::from(other[i])) {
            return false;
        }
    }
    true
}

/// Whether a text of bytes and one of units are the same name.
#[tactic(auto, using(crate::proofs::NameLaws::comparing))]
fn same_text(bytes: &[u8], units: &[u16]) -> bool
    ensures { result ≡ same_name bytes.now units.now }
{
    if bytes.len() != units.len() {
        return false;
    }
    for i in 0..bytes.len() {
        if upper_unit(u16::from(bytes[i])) != upper_unit(units[i]) {
            return false;
        }
    }
    true
}
