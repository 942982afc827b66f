//! The values of keys, each of its form.
#![tactic(auto, unfolding(crate::specs::Document::needed, crate::specs::Document::optional))]

ghost use Rattle.std.specs.Prelude.{◌≡◌, ℕ, [], ◌∷◌, false, Ok, Err, IfErr, MatchResult, option_map};
ghost use Rattle.wire_base.specs.Memory.{UpToMemory};
ghost use Rattle.toml.specs.View.{view, table_view};
ghost use Rattle.account_table.specs.Document.{value_at, formed, formed_by, formed_or, needed, optional};
ghost use Rattle.account_table.specs.Forms.{a_name, a_user_name, a_machine_name, a_full_name, a_rid, a_moment, a_lockout, a_truth, a_hash, a_domain_sid, a_kind, a_trusted_domain, an_address, rids, computers, controllers, sids, tables};
ghost use Rattle.account_table.specs.Limits.{domain_users};
ghost use Rattle.account_table.specs.Listing.{IsListing};

use crate::account::{Kind, Sids};
use crate::key::Key;
use crate::lists::{DOMAIN_USERS, computers, controllers, empty_name, rids, sids, tables};
use crate::refused::TableRefused;
use crate::values::{
    address, domain_sid, full_name, hash, kind, lockout, machine_name, moment, name, rid,
    trusted_domain, truth, user_name,
};
use std::alloc::Global;
use toml::{Table, Value};
use wire_base::{Blob, Name, Names, Numbers, Sid};

/// What stands at the key.
fn value_at<'a>(key: Key, entry: &'a Table) -> Option<&'a Value>
    ensures { option_map (λ value. view value.now) result ≡ value_at key (table_view entry.now) }
{
    entry.get(key.word.text())
}

/// The value that was of its form, or that it wasn't.
fn formed<T: Drop>(key: Key, value: Option<T>) -> Result<T, TableRefused>
    ensures { result ≡ formed key value }
{
    value.ok_or(TableRefused::BadValue(key))
}

/// What stands at a key that has to be there.
fn present<'a>(key: Key, entry: &'a Table) -> Result<&'a Value, TableRefused>
    ensures { MatchResult result
        (λ value. value_at key (table_view entry.now) ≡ Some (view value.now))
        (λ refused. (value_at key (table_view entry.now) ≡ None)
        × (refused ≡ TableRefused.Missing key)) }
{
    match value_at(key, entry) {
        Some(value) => Ok(value),
        None => Err(TableRefused::Missing(key)),
    }
}

/// A name of 1 to 64 bytes.
pub(crate) fn needed_name(alloc: Global, key: Key, entry: &Table) -> Result<Name, TableRefused>
    ensures { UpToMemory TableRefused.Memory result (needed a_name key (table_view entry.now)) }
{
    formed(key, name(alloc, present(key, entry)?)?)
}

/// A user's name.
pub(crate) fn needed_user_name(alloc: Global, key: Key, entry: &Table) -> Result<Name, TableRefused>
    ensures { UpToMemory TableRefused.Memory result
        (needed a_user_name key (table_view entry.now)) }
{
    formed(key, user_name(alloc, present(key, entry)?)?)
}

/// A machine's name.
pub(crate) fn needed_machine_name(
    alloc: Global,
    key: Key,
    entry: &Table,
) -> Result<Name, TableRefused>
    ensures { UpToMemory TableRefused.Memory result
        (needed a_machine_name key (table_view entry.now)) }
{
    formed(key, machine_name(alloc, present(key, entry)?)?)
}

/// A domain's identifier.
pub(crate) fn needed_sid(alloc: Global, key: Key, entry: &Table) -> Result<Sid, TableRefused>
    ensures { UpToMemory TableRefused.Memory result
        (needed a_domain_sid key (table_view entry.now)) }
{
    formed(key, domain_sid(alloc, present(key, entry)?)?)
}

/// A relative identifier.
pub(crate) fn needed_rid(key: Key, entry: &Table) -> Result<u32, TableRefused>
    ensures { result ≡ needed a_rid key (table_view entry.now) }
{
    formed(key, rid(present(key, entry)?))
}

/// A hash.
pub(crate) fn needed_hash(key: Key, entry: &Table) -> Result<[u8; 16], TableRefused>
    ensures { result ≡ needed a_hash key (table_view entry.now) }
{
    formed(key, hash(present(key, entry)?))
}

/// The kind of a computer's account.
pub(crate) fn needed_kind(key: Key, entry: &Table) -> Result<Kind, TableRefused>
    ensures { result ≡ needed a_kind key (table_view entry.now) }
{
    formed(key, kind(present(key, entry)?))
}

/// The controllers of a trust's account.
pub(crate) fn needed_controllers(
    alloc: Global,
    key: Key,
    entry: &Table,
) -> Result<Names, TableRefused>
    ensures { UpToMemory TableRefused.Memory result
        (needed controllers key (table_view entry.now)) }
{
    formed(key, controllers(alloc, present(key, entry)?)?)
}

/// The name of a trusted domain, which isn't the domain's own.
pub(crate) fn needed_trusted_domain(
    alloc: Global,
    own: &Name,
    key: Key,
    entry: &Table,
) -> Result<Name, TableRefused>
    ensures { UpToMemory TableRefused.Memory result
        (needed (a_trusted_domain own.now) key (table_view entry.now)) }
{
    formed(key, trusted_domain(alloc, own, present(key, entry)?)?)
}

/// An address.
pub(crate) fn needed_address(alloc: Global, key: Key, entry: &Table) -> Result<Blob, TableRefused>
    ensures { UpToMemory TableRefused.Memory result (needed an_address key (table_view entry.now)) }
{
    formed(key, address(alloc, present(key, entry)?)?)
}

/// A full name, which is empty where none is there.
pub(crate) fn full_name_or_empty(
    alloc: Global,
    key: Key,
    entry: &Table,
) -> Result<Name, TableRefused>
    ensures { UpToMemory TableRefused.Memory result
        (optional [] a_full_name key (table_view entry.now)) }
{
    match value_at(key, entry) {
        Some(value) => formed(key, full_name(alloc, value)?),
        None => Ok(empty_name(alloc)?),
    }
}

/// A relative identifier, or that of all users of a domain (MS-DTYP 2.4.2.4).
pub(crate) fn rid_or_users(key: Key, entry: &Table) -> Result<u32, TableRefused>
    ensures { result ≡ optional domain_users a_rid key (table_view entry.now) }
{
    match value_at(key, entry) {
        Some(value) => formed(key, rid(value)),
        None => Ok(DOMAIN_USERS),
    }
}

/// Relative identifiers, or that of all users of a domain alone.
pub(crate) fn rids_or_users(alloc: Global, key: Key, entry: &Table) -> Result<Numbers, TableRefused>
    ensures { UpToMemory TableRefused.Memory result
        (optional (domain_users ∷ []) rids key (table_view entry.now)) }
{
    match value_at(key, entry) {
        Some(value) => formed(key, rids(alloc, value)?),
        None => Ok(Numbers::copy(alloc, &[DOMAIN_USERS])?),
    }
}

/// Computers, or none.
pub(crate) fn computers_or_none(
    alloc: Global,
    key: Key,
    entry: &Table,
) -> Result<Names, TableRefused>
    ensures { UpToMemory TableRefused.Memory result
        (optional [] computers key (table_view entry.now)) }
{
    match value_at(key, entry) {
        Some(value) => formed(key, computers(alloc, value)?),
        None => Ok(Names::new(alloc)),
    }
}

/// Security identifiers, or none.
pub(crate) fn sids_or_none(alloc: Global, key: Key, entry: &Table) -> Result<Sids, TableRefused>
    ensures { UpToMemory TableRefused.Memory result
        (optional [] sids key (table_view entry.now)) }
{
    match value_at(key, entry) {
        Some(value) => formed(key, sids(alloc, value)?),
        None => Ok(Sids::new(alloc)),
    }
}

/// A count of bad passwords, or 0 where none is there.
pub(crate) fn lockout_or_none(key: Key, entry: &Table) -> Result<u16, TableRefused>
    ensures { result ≡ optional 0 a_lockout key (table_view entry.now) }
{
    match value_at(key, entry) {
        Some(value) => formed(key, lockout(value)),
        None => Ok(0),
    }
}

/// True or false, and false where neither is there.
pub(crate) fn truth_or_false(key: Key, entry: &Table) -> Result<bool, TableRefused>
    ensures { result ≡ optional false a_truth key (table_view entry.now) }
{
    match value_at(key, entry) {
        Some(value) => formed(key, truth(value)),
        None => Ok(false),
    }
}

/// A moment, or 0 where none is there.
pub(crate) fn moment_or_none(key: Key, entry: &Table) -> Result<u64, TableRefused>
    ensures { result ≡ optional 0 a_moment key (table_view entry.now) }
{
    match value_at(key, entry) {
        Some(value) => formed(key, moment(value)),
        None => Ok(0),
    }
}

/// The values of a list of tables, or none where it isn't there.
pub(crate) fn tables_or_none<'a>(key: Key, entry: &'a Table) -> Result<&'a [Value], TableRefused>
    ensures { MatchResult result
        (λ values. IsListing key (table_view entry.now) values.now)
        (λ refused. optional [] tables key (table_view entry.now) ≡ Err refused) }
{
    match value_at(key, entry) {
        Some(value) => formed(key, tables(value)),
        None => Ok(&[]),
    }
}
