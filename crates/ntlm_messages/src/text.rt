//! The text fields of messages (MS-NLMP 2.2).

ghost use Rattle.std.specs.Prelude.{◌≡◌, ◌%◌, ◌↔◌, length, IsTrue, IsErrOf, IfOk, Ok};
ghost use Rattle.wire_base.specs.Memory.{UpToMemory};
ghost use Rattle.ntlm_flags.specs.Flags.{has_flag, negotiate_unicode};
ghost use Rattle.ntlm_messages.specs.Fields.{IsText};
ghost use Rattle.ntlm_messages.specs.Text.{text_units_of, units_of_text};

use ntlm_flags::{NTLMSSP_NEGOTIATE_UNICODE, has_flag};
use std::alloc::Global;
use wire_base::{NoMemory, Units, UnitsRefused};

/// The unit of the number of each byte.
fn units_of_bytes(alloc: Global, text: &[u8]) -> Result<Vec<u16>, NoMemory>
    ensures { IfOk result (λ units. units.items ≡ text.now) }
{
    Ok(text.iter().map(|byte| u16::from(*byte)).collect(alloc)?)
}

/// The 16-bit units of a text field of a message with these flags: UTF-16LE where the flag UNICODE is set, else one
/// unit for each byte.
///
/// `Odd` exactly where the flag is set and the number of bytes is odd. `Memory` where no memory was found.
pub fn text_units(alloc: Global, flags: u32, text: &[u8]) -> Result<Units, UnitsRefused>
    ensures exact { UpToMemory UnitsRefused.Memory result (text_units_of flags text.now) }
    ensures odd { IsErrOf result UnitsRefused.Odd
        ↔ (IsTrue (has_flag flags negotiate_unicode) × (length text.now % 2 ≡ 1)) }
{
    if has_flag(flags, NTLMSSP_NEGOTIATE_UNICODE) {
        return Units::read(alloc, text);
    }
    Ok(Units::from_vec(units_of_bytes(alloc, text)?))
}

/// The units of a text field of a message that was read, which is never odd under the flag UNICODE.
pub fn units_of_text(alloc: Global, flags: u32, text: &[u8]) -> Result<Units, NoMemory>
    requires { IsText flags text.now }
    ensures { IfOk result (λ units. units ≡ units_of_text flags text.now) }
{
    match text_units(alloc, flags, text) {
        Ok(units) => Ok(units),
        Err(UnitsRefused::Memory) => Err(NoMemory),
        Err(UnitsRefused::Odd) => unreachable!(),
    }
}
