//! What the three messages share: the first twelve bytes and the payload fields (MS-NLMP 2.2.1).

ghost use Rattle.std.specs.Prelude.{◌≡◌, map, ◌+◌, ◌≤◌, ◌<◌, ◌^◌, ◌++◌, length, OnOk, IfOk, IfSome, IsTrue};
ghost use Rattle.ntlm_flags.specs.Flags.{has_flag};
ghost use Rattle.ntlm_messages.specs.Fields.{Shows, short_at, long_at, header_of, field_of, text_of, gap_of, narrow_gap, narrow_gaps, bytes_if, version_of, mic_of, field_bytes, bytes_of, lengths_of};

use crate::places;
use crate::refused::{Field, MessageRefused, WriteRefused};
use ntlm_flags::{NTLMSSP_NEGOTIATE_UNICODE, NTLMSSP_NEGOTIATE_VERSION, has_flag};
use wire_base::{NoMemory, u16_at, u32_at};

/// The first eight bytes of every message.
pub const SIGNATURE: [u8; 8] = *b"NTLMSSP\0";

/// The 16-bit number at a place of the header, 0 where the bytes end before it does.
pub fn short_at(bytes: &[u8], place: usize) -> u16
    ensures { result ≡ short_at bytes.now place }
{
    u16_at(bytes, place).unwrap_or(0)
}

/// The 32-bit number at a place of the header, 0 where the bytes end before it does.
pub fn long_at(bytes: &[u8], place: usize) -> u32
    ensures { result ≡ long_at bytes.now place }
{
    u32_at(bytes, place).unwrap_or(0)
}

/// Whether the bytes are a message of that type, and at least so many.
#[tactic(auto, unfolding(crate::specs::Fields::header_of))]
pub fn check_header(bytes: &[u8], kind: u32, least: usize) -> Result<(), MessageRefused>
    ensures value { result ≡ header_of kind least bytes.now }
    ensures whole { OnOk result (least ≤ length bytes.now) }
{
    if bytes.len() < least {
        return Err(MessageRefused::ShortHeader);
    }
    if !bytes.starts_with(&SIGNATURE) {
        return Err(MessageRefused::BadSignature);
    }
    let found = long_at(bytes, places::TYPE);
    if found != kind {
        return Err(MessageRefused::BadType(found));
    }
    Ok(())
}

/// A payload field that was read.
#[derive(Clone, Copy)]
pub struct Part<'a> {
    /// The field's bytes.
    pub bytes: &'a [u8],
    /// The least offset of it and of the fields read before it, of those that aren't empty; the message's length where
    /// all are.
    pub gap: usize,
}

/// The payload field that stands at `place` of a header of `size` bytes; `gap` is the least offset of the fields read
/// before it.
#[tactic(auto, unfolding(crate::specs::Fields::field_of, crate::specs::Fields::narrow_gap))]
pub fn field_at(
    bytes: &[u8],
    name: Field,
    place: usize,
    size: usize,
    gap: usize,
) -> Result<Part<'_>, MessageRefused>
    requires { place ≤ 64 }
    ensures value { Shows (λ part. part.bytes.now) result (field_of name place size bytes.now) }
    ensures short { IfOk result (λ part. length part.bytes.now ≤ 65535) }
    ensures gap { IfOk result (λ part. part.gap ≡ narrow_gap place bytes.now gap) }
{
    let len = usize::from(short_at(bytes, place));
    if len == 0 {
        return Ok(Part { bytes: &[], gap });
    }
    let offset = long_at(bytes, place + 4) as usize;
    if offset < size || bytes.len() < offset + len {
        return Err(MessageRefused::FieldOutside(name));
    }
    Ok(Part {
        bytes: &bytes[offset..offset + len],
        gap: gap.min(offset),
    })
}

/// Whether a text has an even length, where texts are UTF-16LE.
#[tactic(auto, unfolding(crate::specs::Fields::text_of))]
pub fn check_text(flags: u32, name: Field, text: &[u8]) -> Result<(), MessageRefused>
    ensures { result ≡ text_of name flags text.now }
{
    if has_flag(flags, NTLMSSP_NEGOTIATE_UNICODE) && text.len() % 2 == 1 {
        return Err(MessageRefused::OddText(name));
    }
    Ok(())
}

/// The least offset of the fields at these places that aren't empty, or the message's length where there is none: the
/// `gap` of the last of them. Its only reason is the proof, since the definition begins at the last field.
pub fn gap_left(bytes: &[u8], places: &[usize], gap: usize) -> usize
    requires { gap ≡ narrow_gaps places.now bytes.now (length bytes.now) }
    ensures value { result ≡ gap_of places.now bytes.now }
    ensures within { result ≤ length bytes.now }
{
    gap
}

/// The bytes of a fixed number at a place, where they are there.
fn bytes_at<const N: usize>(bytes: &[u8], there: bool, place: usize) -> Option<[u8; N]>
    requires { IsTrue there → place + N ≤ length bytes.now }
    ensures { result ≡ bytes_if there place N bytes.now }
{
    if !there {
        return None;
    }
    bytes[place..].first_chunk::<N>().copied()
}

/// The version, which stands behind the fixed header of that size where the flag is set and the payload leaves room for
/// it.
pub fn version_at(bytes: &[u8], flags: u32, size: usize, gap: usize) -> Option<[u8; 8]>
    requires size { size ≤ 64 }
    requires gap { gap ≤ length bytes.now }
    ensures { result ≡ version_of flags size gap bytes.now }
{
    bytes_at(
        bytes,
        has_flag(flags, NTLMSSP_NEGOTIATE_VERSION) && size + 8 <= gap,
        size,
    )
}

/// The message integrity code, which stands behind the version where the payload leaves room for both.
pub fn mic_at(bytes: &[u8], flags: u32, size: usize, gap: usize) -> Option<[u8; 16]>
    requires size { size ≤ 64 }
    requires gap { gap ≤ length bytes.now }
    ensures { result ≡ mic_of flags size gap bytes.now }
{
    bytes_at(
        bytes,
        has_flag(flags, NTLMSSP_NEGOTIATE_VERSION) && size + 24 <= gap,
        size + 8,
    )
}

/// Whether the length of each payload field has 16 bits, else the first whose length hasn't.
pub fn check_fields(fields: &[(Field, &[u8])]) -> Result<(), WriteRefused>
    ensures { result ≡ lengths_of (map (λ field. (field.0, field.1.now)) fields.now) }
{
    let mut rest = fields;
    while let [(name, part), after @ ..] = rest {
        if part.len() > 65535 {
            return Err(WriteRefused::TooLong(*name));
        }
        rest = after;
    }
    Ok(())
}

/// Appends a payload field's place in the header: its length twice, and the offset of its bytes.
pub fn put_field(out: &mut Vec<u8>, part: &[u8], offset: usize) -> Result<(), NoMemory>
    requires len { length part.now ≤ 65535 }
    requires offset { offset < 2 ^ 32 }
    ensures { OnOk result (out.new.items ≡ out.old.items ++ field_bytes part.now offset) }
{
    let len = (part.len() as u16).to_le_bytes();
    out.extend_from_slice(&len)?;
    out.extend_from_slice(&len)?;
    out.extend_from_slice(&(offset as u32).to_le_bytes())?;
    Ok(())
}

/// Appends bytes where there are some.
pub fn put_bytes<const N: usize>(out: &mut Vec<u8>, bytes: &Option<[u8; N]>) -> Result<(), NoMemory>
    ensures { OnOk result (out.new.items ≡ out.old.items ++ bytes_of bytes.now) }
{
    if let Some(bytes) = bytes {
        out.extend_from_slice(bytes)?;
    }
    Ok(())
}

/// How many bytes an array has.
fn size_of<const N: usize>(bytes: &[u8; N]) -> usize
    ensures value { result ≡ length bytes.now }
    ensures whole { length bytes.now ≡ N }
{
    bytes.len()
}

/// How many bytes there are.
pub fn count_of<const N: usize>(bytes: &Option<[u8; N]>) -> usize
    ensures value { result ≡ length (bytes_of bytes.now) }
    ensures whole { IfSome bytes.now (λ items. length items ≡ N) }
{
    match bytes {
        None => 0,
        Some(bytes) => size_of(bytes),
    }
}
