//! Little-endian numbers at a place of a byte string.

ghost use Rattle.std.specs.Prelude.{◌≡◌, ◌+◌, ◌<◌, ◌↔◌, length, IsNone};
ghost use Rattle.wire_base.specs.Numbers.{u16_of, u32_of, u64_of};

use byteorder::{ByteOrder, LittleEndian};

/// The 16-bit little-endian number whose lowest byte is at the place `at`.
/// None exactly where the bytes end before the number does. It takes no memory.
#[tactic(auto, unfolding(crate::specs::Numbers::number_at))]
pub fn u16_at(bytes: &[u8], at: usize) -> Option<u16>
    ensures value { result ≡ u16_of bytes.now at }
    ensures ends { IsNone result ↔ (length bytes.now < at + 2) }
{
    let rest = bytes.get(at..)?;
    if rest.len() < 2 {
        return None;
    }
    Some(LittleEndian::read_u16(rest))
}

/// The 32-bit little-endian number whose lowest byte is at the place `at`.
/// None exactly where the bytes end before the number does. It takes no memory.
#[tactic(auto, unfolding(crate::specs::Numbers::number_at))]
pub fn u32_at(bytes: &[u8], at: usize) -> Option<u32>
    ensures value { result ≡ u32_of bytes.now at }
    ensures ends { IsNone result ↔ (length bytes.now < at + 4) }
{
    let rest = bytes.get(at..)?;
    if rest.len() < 4 {
        return None;
    }
    Some(LittleEndian::read_u32(rest))
}

/// The 64-bit little-endian number whose lowest byte is at the place `at`.
/// None exactly where the bytes end before the number does. It takes no memory.
#[tactic(auto, unfolding(crate::specs::Numbers::number_at))]
pub fn u64_at(bytes: &[u8], at: usize) -> Option<u64>
    ensures value { result ≡ u64_of bytes.now at }
    ensures ends { IsNone result ↔ (length bytes.now < at + 8) }
{
    let rest = bytes.get(at..)?;
    if rest.len() < 8 {
        return None;
    }
    Some(LittleEndian::read_u64(rest))
}
