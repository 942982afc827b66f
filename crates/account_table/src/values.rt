//! What single values of the account table's document stand for.

ghost use Rattle.std.specs.Prelude.{◌≡◌, IfOk, IfSome, ◌≤◌};
ghost use Rattle.toml.specs.View.{view};
ghost use Rattle.account_table.specs.Forms.{a_full_name, a_name, a_user_name, a_machine_name, is_user_name, is_machine_name, in_range, a_rid, a_moment, a_lockout, a_truth, a_hash, a_sid, a_domain_sid, kind_of, a_kind, a_trusted_domain, is_address, an_address};

use crate::account::Kind;
use hex::FromHex;
use std::alloc::Global;
use toml::Value;
use wire_base::{Blob, Name, NameRefused, NoMemory, Sid, SidRefused};

/// The last relative identifier.
const LAST_RID: u64 = 4_294_967_295;

/// The last moment, in units of 100 ns since 1601.
const LAST_MOMENT: u64 = 9_223_372_036_854_775_807;

/// The highest count of bad passwords from which on accounts are locked out.
const LAST_LOCKOUT: u64 = 1_000;

/// The most bytes of an address.
const ADDRESS_LIMIT: usize = 255;

/// The most numbers of a domain's identifier: an account's has one more, and at most 15.
const DOMAIN_SID_LIMIT: usize = 14;

/// A name of 0 to 64 bytes.
pub(crate) fn full_name(alloc: Global, value: &Value) -> Result<Option<Name>, NoMemory>
    ensures { IfOk result (λ name. name ≡ a_full_name (view value.now)) }
{
    let Some(text) = value.as_str() else {
        return Ok(None);
    };
    match Name::read(alloc, text.as_bytes()) {
        Ok(name) => Ok(Some(name)),
        Err(NameRefused::Memory) => Err(NoMemory),
        Err(_) => Ok(None),
    }
}

/// A name of 1 to 64 bytes.
pub(crate) fn name(alloc: Global, value: &Value) -> Result<Option<Name>, NoMemory>
    ensures { IfOk result (λ name. name ≡ a_name (view value.now)) }
{
    match full_name(alloc, value)? {
        Some(name) if !name.bytes().is_empty() => Ok(Some(name)),
        _ => Ok(None),
    }
}

/// A name of 1 to 64 bytes, the last another than `$`.
pub(crate) fn user_name(alloc: Global, value: &Value) -> Result<Option<Name>, NoMemory>
    ensures { IfOk result (λ name. name ≡ a_user_name (view value.now)) }
{
    match full_name(alloc, value)? {
        Some(name) if is_user_name(name.bytes()) => Ok(Some(name)),
        _ => Ok(None),
    }
}

/// At least 1 byte, the last another than `$`.
fn is_user_name(name: &[u8]) -> bool
    ensures { result ≡ is_user_name name.now }
{
    !name.is_empty() && !name.ends_with(b"$")
}

/// A name of 2 to 64 bytes, the last `$`.
pub(crate) fn machine_name(alloc: Global, value: &Value) -> Result<Option<Name>, NoMemory>
    ensures { IfOk result (λ name. name ≡ a_machine_name (view value.now)) }
{
    match full_name(alloc, value)? {
        Some(name) if is_machine_name(name.bytes()) => Ok(Some(name)),
        _ => Ok(None),
    }
}

/// At least 2 bytes, the last `$`.
fn is_machine_name(name: &[u8]) -> bool
    ensures { result ≡ is_machine_name name.now }
{
    2 <= name.len() && name.ends_with(b"$")
}

/// The name of a trusted domain: 1 to 64 bytes, and not the domain's own.
pub(crate) fn trusted_domain(
    alloc: Global,
    own: &Name,
    value: &Value,
) -> Result<Option<Name>, NoMemory>
    ensures { IfOk result (λ name. name ≡ a_trusted_domain own.now (view value.now)) }
{
    match name(alloc, value)? {
        Some(name) if !own.same(&name) => Ok(Some(name)),
        _ => Ok(None),
    }
}

/// An integer from the least to the most.
fn in_range(integer: i64, least: u64, most: u64) -> Option<u64>
    ensures value { result ≡ in_range least most integer }
    ensures within { IfSome result (λ n. n ≤ most) }
{
    if integer < 0 {
        return None;
    }
    let n = integer as u64;
    if least <= n && n <= most {
        Some(n)
    } else {
        None
    }
}

/// A relative identifier: 1 to 4,294,967,295.
pub(crate) fn rid(value: &Value) -> Option<u32>
    ensures { result ≡ a_rid (view value.now) }
{
    match value.as_integer() {
        Some(integer) => match in_range(integer, 1, LAST_RID) {
            Some(n) => Some(n as u32),
            None => None,
        },
        None => None,
    }
}

/// A moment: 0 to 2^63 - 1, in units of 100 ns since 1601.
pub(crate) fn moment(value: &Value) -> Option<u64>
    ensures { result ≡ a_moment (view value.now) }
{
    match value.as_integer() {
        Some(integer) => in_range(integer, 0, LAST_MOMENT),
        None => None,
    }
}

/// A count of bad passwords: 0 to 1,000.
pub(crate) fn lockout(value: &Value) -> Option<u16>
    ensures { result ≡ a_lockout (view value.now) }
{
    match value.as_integer() {
        Some(integer) => match in_range(integer, 0, LAST_LOCKOUT) {
            Some(n) => Some(n as u16),
            None => None,
        },
        None => None,
    }
}

/// True or false.
pub(crate) fn truth(value: &Value) -> Option<bool>
    ensures { result ≡ a_truth (view value.now) }
{
    value.as_bool()
}

/// 16 bytes as 32 hex digits.
pub(crate) fn hash(value: &Value) -> Option<[u8; 16]>
    ensures { result ≡ a_hash (view value.now) }
{
    match value.as_str() {
        Some(text) => <[u8; 16]>::from_hex(text).ok(),
        None => None,
    }
}

/// A security identifier.
pub(crate) fn sid(alloc: Global, value: &Value) -> Result<Option<Sid>, NoMemory>
    ensures { IfOk result (λ sid. sid ≡ a_sid (view value.now)) }
{
    let Some(text) = value.as_str() else {
        return Ok(None);
    };
    match Sid::read(alloc, text.as_bytes()) {
        Ok(sid) => Ok(Some(sid)),
        Err(SidRefused::Memory) => Err(NoMemory),
        Err(_) => Ok(None),
    }
}

/// A domain's identifier, of 1 to 14 numbers.
pub(crate) fn domain_sid(alloc: Global, value: &Value) -> Result<Option<Sid>, NoMemory>
    ensures { IfOk result (λ sid. sid ≡ a_domain_sid (view value.now)) }
{
    match sid(alloc, value)? {
        Some(sid) if sid.numbers().len() <= DOMAIN_SID_LIMIT => Ok(Some(sid)),
        _ => Ok(None),
    }
}

/// The kind of a computer's account.
pub(crate) fn kind(value: &Value) -> Option<Kind>
    ensures { result ≡ a_kind (view value.now) }
{
    match value.as_str() {
        Some(text) => kind_from(text),
        None => None,
    }
}

/// The kind that the text names.
fn kind_from(text: &str) -> Option<Kind>
    ensures { result ≡ kind_of text.now }
{
    if text == "workstation" {
        Some(Kind::Workstation)
    } else if text == "backup" {
        Some(Kind::Backup)
    } else if text == "trust" {
        Some(Kind::Trust)
    } else {
        None
    }
}

/// An address, of 1 to 255 bytes.
pub(crate) fn address(alloc: Global, value: &Value) -> Result<Option<Blob>, NoMemory>
    ensures { IfOk result (λ found. found ≡ an_address (view value.now)) }
{
    match value.as_str() {
        Some(text) if is_address(text.as_bytes()) => Ok(Some(Blob::copy(alloc, text.as_bytes())?)),
        _ => Ok(None),
    }
}

/// 1 to 255 bytes.
fn is_address(text: &[u8]) -> bool
    ensures { result ≡ is_address text.now }
{
    1 <= text.len() && text.len() <= ADDRESS_LIMIT
}
