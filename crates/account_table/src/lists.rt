//! What lists of values of the account table's document stand for.

ghost use Rattle.std.specs.Prelude.{◌≡◌, [], ◌≤◌, length, IfOk, IfSome, Ok, Err, MatchResult, MatchOption, None, Some, is_some};
ghost use Rattle.toml.specs.View.{view, items_view};
ghost use Rattle.toml.specs.Data.{as_table};
ghost use Rattle.account_table.specs.Forms.{each, a_rid, a_name, a_sid, rids, computers, controllers, sids, tables};
ghost use Rattle.account_table.specs.Listing.{entries_of};

use crate::account::Sids;
use crate::values::{name, rid, sid};
use std::alloc::Global;
use toml::Value;
use wire_base::{Name, Names, NoMemory, Numbers};

/// The relative identifier of the group of all users of a domain (MS-DTYP 2.4.2.4).
pub(crate) const DOMAIN_USERS: u32 = 513;

/// The most groups of an account.
const GROUP_LIMIT: usize = 256;

/// The most workstations of an account.
const WORKSTATION_LIMIT: usize = 8;

/// The most identifiers of an account beside its groups.
const EXTRA_SID_LIMIT: usize = 16;

/// The most controllers of a trust's account.
const CONTROLLER_LIMIT: usize = 8;

/// A name of no bytes.
pub(crate) fn empty_name(alloc: Global) -> Result<Name, NoMemory>
    ensures { IfOk result (λ name. name ≡ []) }
{
    match Name::read(alloc, b"") {
        Ok(name) => Ok(name),
        Err(_) => Err(NoMemory),
    }
}

/// At most 256 relative identifiers.
#[tactic(auto, using(crate::proofs::ListLaws::listing))]
pub(crate) fn rids(alloc: Global, value: &Value) -> Result<Option<Numbers>, NoMemory>
    ensures { IfOk result (λ numbers. numbers ≡ rids (view value.now)) }
{
    match value.as_array() {
        Some(values) if values.len() <= GROUP_LIMIT => each_rid(alloc, values.as_slice()),
        _ => Ok(None),
    }
}

/// The relative identifiers, where each value is one.
#[tactic(auto, using(crate::proofs::ListLaws::listing))]
fn each_rid(alloc: Global, values: &[Value]) -> Result<Option<Numbers>, NoMemory>
    ensures { IfOk result (λ numbers. numbers ≡ each a_rid (items_view values.now)) }
{
    let mut numbers = Numbers::new(alloc);
    let mut rest = values;
    while let [value, after @ ..] = rest {
        match rid(value) {
            Some(number) => numbers.push(number)?,
            None => return Ok(None),
        }
        rest = after;
    }
    Ok(Some(numbers))
}

/// At most 8 names of computers.
#[tactic(auto, using(crate::proofs::ListLaws::listing))]
pub(crate) fn computers(alloc: Global, value: &Value) -> Result<Option<Names>, NoMemory>
    ensures { IfOk result (λ names. names ≡ computers (view value.now)) }
{
    match value.as_array() {
        Some(values) if values.len() <= WORKSTATION_LIMIT => each_name(alloc, values.as_slice()),
        _ => Ok(None),
    }
}

/// 1 to 8 names of controllers.
#[tactic(auto, using(crate::proofs::ListLaws::listing))]
pub(crate) fn controllers(alloc: Global, value: &Value) -> Result<Option<Names>, NoMemory>
    ensures { IfOk result (λ names. names ≡ controllers (view value.now)) }
{
    match value.as_array() {
        Some(values) if 1 <= values.len() && values.len() <= CONTROLLER_LIMIT => {
            each_name(alloc, values.as_slice())
        }
        _ => Ok(None),
    }
}

/// The names, where each value is one.
#[tactic(auto, using(crate::proofs::ListLaws::listing))]
fn each_name(alloc: Global, values: &[Value]) -> Result<Option<Names>, NoMemory>
    ensures { IfOk result (λ names. names ≡ each a_name (items_view values.now)) }
{
    let mut names = Names::new(alloc);
    let mut rest = values;
    while let [value, after @ ..] = rest {
        match name(alloc, value)? {
            Some(name) => names.push(name)?,
            None => return Ok(None),
        }
        rest = after;
    }
    Ok(Some(names))
}

/// At most 16 security identifiers.
#[tactic(auto, using(crate::proofs::ListLaws::listing))]
pub(crate) fn sids(alloc: Global, value: &Value) -> Result<Option<Sids>, NoMemory>
    ensures { IfOk result (λ found. found ≡ sids (view value.now)) }
{
    match value.as_array() {
        Some(values) if values.len() <= EXTRA_SID_LIMIT => each_sid(alloc, values.as_slice()),
        _ => Ok(None),
    }
}

/// The security identifiers, where each value is one.
#[tactic(auto, using(crate::proofs::ListLaws::listing))]
fn each_sid(alloc: Global, values: &[Value]) -> Result<Option<Sids>, NoMemory>
    ensures { IfOk result (λ found. found ≡ each a_sid (items_view values.now)) }
{
    let mut sids = Sids::new(alloc);
    let mut rest = values;
    while let [value, after @ ..] = rest {
        match sid(alloc, value)? {
            Some(sid) => sids.push(sid)?,
            None => return Ok(None),
        }
        rest = after;
    }
    Ok(Some(sids))
}

/// The values of a list of tables.
#[tactic(auto, using(crate::proofs::ListLaws::listing))]
pub(crate) fn tables(value: &Value) -> Option<&[Value]>
    ensures { MatchOption result (tables (view value.now) ≡ None)
        (λ values. (tables (view value.now) ≡ Some (entries_of values.now))
        × (length (entries_of values.now) ≡ length values.now)) }
{
    match value.as_array() {
        Some(values) if are_tables(values.as_slice()) => Some(values.as_slice()),
        _ => None,
    }
}

/// Whether each value is a table.
#[tactic(auto, using(crate::proofs::ListLaws::listing))]
fn are_tables(values: &[Value]) -> bool
    ensures { result ≡ is_some (each as_table (items_view values.now)) }
{
    let mut rest = values;
    while let [value, after @ ..] = rest {
        if !value.is_table() {
            return false;
        }
        rest = after;
    }
    true
}
