//! Unicode text as it stands in messages: 16-bit units, two bytes each.

ghost use Rattle.std.specs.Prelude.{ℕ, List, ◌≡◌, ◌%◌, ◌↔◌, length, IfOk, IsErrOf, Err, Ok};
ghost use Rattle.wire_base.specs.Memory.{UpToMemory};
ghost use Rattle.wire_base.specs.Numbers.{AreBytes};
ghost use Rattle.wire_base.specs.Units.{AreUnits, whole_units, units_of, utf16_of};

use crate::blob::Blob;
use crate::memory::NoMemory;
use std::alloc::Global;
use std::marker::Model;
use thiserror::Error;

/// Why bytes are no units.
#[derive(Clone, Copy, Debug, PartialEq, Eq, Error)]
pub enum UnitsRefused {
    /// The number of bytes is odd.
    #[error("an odd number of bytes")]
    Odd,
    /// No memory was found.
    #[error("no memory")]
    Memory,
}

impl From<NoMemory> for UnitsRefused {
    ghost use Rattle.std.specs.Prelude.{◌≡◌};
    ghost use Rattle.wire_base.specs.declared.units.UnitsRefused.TheVariants.{Memory};

    ghost from_gives = { λ _ e. e ≡ Memory };

    fn from(_error: NoMemory) -> UnitsRefused {
        UnitsRefused::Memory
    }
}

/// A text of 16-bit units, seen as the list of its units (MS-NLMP 2.2). Any unit may stand in it, also half of a
/// surrogate pair.
#[derive(Debug, Drop)]
pub struct Units {
    units: Vec<u16>,
}

impl Model for Units {
    ghost use Rattle.std.specs.Prelude.{ℕ, List};

    ghost Value = { List ℕ };

    ghost view = { λ u. u.units.items };
}

impl Units {
    /// A copy of the units.
    pub fn copy(alloc: Global, units: &[u16]) -> Result<Units, NoMemory>
        ensures { IfOk result (λ u. u ≡ units.now) }
    {
        Ok(Units {
            units: Vec::from_slice(alloc, units)?,
        })
    }

    /// The units of UTF-16LE bytes. Odd exactly where the number of bytes is odd.
    #[tactic(auto, using(crate::proofs::UnitLaws::reading))]
    pub fn read(alloc: Global, bytes: &[u8]) -> Result<Units, UnitsRefused>
        ensures exact { UpToMemory UnitsRefused.Memory result (units_of bytes.now) }
        ensures odd { IsErrOf result UnitsRefused.Odd ↔ (length bytes.now % 2 ≡ 1) }
        ensures found { IfOk result (λ u. utf16_of u ≡ bytes.now) }
    {
        if bytes.len() % 2 != 0 {
            return Err(UnitsRefused::Odd);
        }
        Ok(Units {
            units: pairs(alloc, bytes)?,
        })
    }

    /// The units, in order.
    pub fn units(&self) -> &[u16]
        ensures { result.now ≡ self.now }
    {
        self.units.as_slice()
    }

    /// The text in UTF-16LE.
    pub fn bytes(&self, alloc: Global) -> Result<Blob, NoMemory>
        ensures { IfOk result (λ b. b ≡ utf16_of self.now) }
    {
        Ok(Blob::from_vec(utf16(alloc, self.units.as_slice())?))
    }

    /// The units of a vector, without a copy.
    pub fn from_vec(units: Vec<u16>) -> Units
        ensures { result ≡ units.items }
    {
        Units { units }
    }

    /// The units as a vector, without a copy.
    pub fn into_vec(self) -> Vec<u16>
        ensures { result.items ≡ self }
    {
        let Units { units } = self;
        units
    }

    /// An equal text.
    pub fn duplicate(&self, alloc: Global) -> Result<Units, NoMemory>
        ensures { IfOk result (λ u. u ≡ self.now) }
    {
        Units::copy(alloc, self.units.as_slice())
    }
}

/// The law of UTF-16LE: what is written of units is read as the same units, and what is written of units that were read
/// is the bytes. It does nothing.
pub fn what_is_written_is_read()
    ensures units { (units : List ℕ) → AreUnits units → units_of (utf16_of units) ≡ Ok units }
    ensures bytes { (bytes units : List ℕ) → AreBytes bytes → units_of bytes ≡ Ok units
        → utf16_of units ≡ bytes }
{}

/// The unit of each two bytes, the low byte first.
fn pairs(alloc: Global, bytes: &[u8]) -> Result<Vec<u16>, NoMemory>
    ensures { IfOk result (λ v. v.items ≡ whole_units bytes.now) }
{
    let mut units = Vec::with_capacity(alloc, bytes.len() / 2)?;
    let mut rest = bytes;
    while let [low, high, after @ ..] = rest {
        units.push(u16::from_le_bytes([*low, *high]))?;
        rest = after;
    }
    Ok(units)
}

/// Two bytes for each unit, the low byte first.
#[tactic(auto, using(crate::proofs::UnitLaws::writing))]
fn utf16(alloc: Global, units: &[u16]) -> Result<Vec<u8>, NoMemory>
    ensures { IfOk result (λ v. v.items ≡ utf16_of units.now) }
{
    let mut bytes = Vec::new(alloc);
    for unit in units {
        bytes.extend_from_slice(&unit.to_le_bytes())?;
    }
    Ok(bytes)
}
