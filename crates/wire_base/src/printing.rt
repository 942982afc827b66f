//! Texts of units as ASCII, for lines that are put.

ghost use Rattle.std.specs.Prelude.{◌≡◌, ◌++◌, OnOk};
ghost use Rattle.wire_base.specs.Names.{printable_text, printable_unit};

use crate::memory::NoMemory;

/// A unit as one byte: a printable ASCII unit, or a space, as it is, and another one as a question mark (this project's
/// own choice). It takes no memory.
pub fn printable_unit(unit: u16) -> u8
    ensures { result ≡ printable_unit unit }
{
    match unit {
        0x20..=0x7E => unit as u8,
        _ => b'?',
    }
}

/// Adds a text to a line, each unit as one byte. After an Err the line may have a front of it.
pub fn put_printable(line: &mut Vec<u8>, units: &[u16]) -> Result<(), NoMemory>
    ensures { OnOk result (line.new.items ≡ line.old.items ++ printable_text units.now) }
{
    for unit in units {
        line.push(printable_unit(*unit))?;
    }
    Ok(())
}
