//! The account table's document, entry by entry.

ghost use Rattle.std.specs.Prelude.{◌≡◌, ◌⊎◌, ◌≤◌, ◌+◌, [], None, Ok, Err, length, IfOk, IsTrue, MatchResult};
ghost use Rattle.std.specs.List.{list_any};
ghost use Rattle.wire_base.specs.Memory.{UpToMemory};
ghost use Rattle.toml.specs.View.{table_view};
ghost use Rattle.account_table.specs.AccountTable.{has_distinct_names};
ghost use Rattle.account_table.specs.Document.{policy_of, identity_of, restrictions_of, moments_of, user_of, controllers_of, machine_of, trust_of, each_entry, document_of, new_name, has_trusted, new_trust};
ghost use Rattle.account_table.specs.Index.{has_few_sids};
ghost use Rattle.account_table.specs.Listing.{entries_of};
ghost use Rattle.account_table.specs.Keys.{of_user, of_machine, of_trust};
ghost use Rattle.account_table.specs.Limits.{account_limit, group_limit};
ghost use Rattle.account_table.specs.LookUps.{place_in};

use crate::account::{Account, Kind, Policy, Sids, Trust, Trusts};
use crate::accounts::Accounts;
use crate::forms::{
    computers_or_none, full_name_or_empty, lockout_or_none, moment_or_none, needed_address,
    needed_controllers, needed_hash, needed_kind, needed_machine_name, needed_rid,
    needed_trusted_domain, needed_user_name, rid_or_users, rids_or_users, sids_or_none,
    truth_or_false,
};
use crate::key::{Key, Part, Word, top_key};
use crate::lists::{DOMAIN_USERS, empty_name};
use crate::refused::TableRefused;
use std::alloc::Global;
use toml::{Table, Value};
use wire_base::{Name, Names, Numbers};

/// The document that a text is.
pub(crate) fn read_document(alloc: Global, text: &[u8]) -> Result<Table, TableRefused>
    ensures { MatchResult result
        (λ document. document_of text.now ≡ Ok (table_view document))
        (λ refused. (refused ≡ TableRefused.Memory) ⊎ (document_of text.now ≡ Err refused)) }
{
    let Ok(text) = str::from_utf8(text) else {
        return Err(TableRefused::BadToml);
    };
    match toml::table_from_str(alloc, text) {
        Ok(document) => Ok(document),
        Err(refused) => {
            if refused.is_memory() {
                Err(TableRefused::Memory)
            } else {
                Err(TableRefused::BadToml)
            }
        }
    }
}

/// What the document says of all its accounts.
#[tactic(auto, unfolding(crate::specs::Document::policy_of))]
pub(crate) fn read_policy(document: &Table) -> Result<Policy, TableRefused>
    ensures { result ≡ policy_of (table_view document.now) }
{
    Ok(Policy {
        lockout: lockout_or_none(top_key(Word::Lockout), document)?,
        ntlmv2_only: truth_or_false(top_key(Word::Ntlmv2Only), document)?,
    })
}

/// The name, where no account has it.
#[tactic(auto, unfolding(crate::specs::Document::new_name, crate::specs::LookUps::place_in))]
fn new_name(name: Name, before: &Accounts) -> Result<Name, TableRefused>
    ensures { MatchResult result
        (λ fresh. (fresh ≡ name) × (place_in before.now name ≡ None)
        × (new_name name before.now ≡ Ok tt))
        (λ refused. new_name name before.now ≡ Err refused) }
{
    if before.has(&name) {
        Err(TableRefused::Twice(name))
    } else {
        Ok(name)
    }
}

/// The key of a user's entry.
fn user_key(entry: u32, word: Word) -> Key
    ensures { result ≡ of_user entry word }
{
    Key {
        list: Part::User,
        entry,
        word,
    }
}

/// The key of a machine's entry.
fn machine_key(entry: u32, word: Word) -> Key
    ensures { result ≡ of_machine entry word }
{
    Key {
        list: Part::Machine,
        entry,
        word,
    }
}

/// The key of a trusted domain's entry.
fn trust_key(entry: u32, word: Word) -> Key
    ensures { result ≡ of_trust entry word }
{
    Key {
        list: Part::Trust,
        entry,
        word,
    }
}

/// The name, where no trusted domain has it.
#[tactic(auto, unfolding(crate::specs::Document::new_trust))]
fn new_trust(domain: Name, before: &[Trust]) -> Result<Name, TableRefused>
    ensures { MatchResult result
        (λ fresh. (fresh ≡ domain) × (new_trust domain before.now ≡ Ok tt))
        (λ refused. new_trust domain before.now ≡ Err refused) }
{
    if has_domain(&domain, before) {
        Err(TableRefused::Twice(domain))
    } else {
        Ok(domain)
    }
}

/// Whether a trusted domain has the name.
fn has_domain(domain: &Name, trusts: &[Trust]) -> bool
    ensures { result ≡ list_any (has_trusted domain.now) trusts.now }
{
    trusts.iter().any(|trust| domain.same(&trust.domain))
}

/// Who a user is, beside the name.
#[derive(Drop)]
struct Identity {
    rid: u32,
    hash: [u8; 16],
    full_name: Name,
    group: u32,
    groups: Numbers,
}

/// What keeps a user from logging on.
#[derive(Clone, Copy)]
struct Restrictions {
    disabled: bool,
    locked: bool,
    must_change: bool,
}

/// A user's moments.
#[derive(Clone, Copy)]
struct Moments {
    expires: u64,
    password_set: u64,
    password_expires: u64,
}

/// Who the user of that entry is.
#[tactic(auto, unfolding(crate::specs::Document::identity_of))]
fn read_identity(alloc: Global, number: u32, entry: &Table) -> Result<Identity, TableRefused>
    ensures exact { UpToMemory TableRefused.Memory result
        (identity_of number (table_view entry.now)) }
    ensures groups { IfOk result (λ identity. length identity.groups ≤ group_limit) }
{
    Ok(Identity {
        rid: needed_rid(user_key(number, Word::Rid), entry)?,
        hash: needed_hash(user_key(number, Word::Hash), entry)?,
        full_name: full_name_or_empty(alloc, user_key(number, Word::FullName), entry)?,
        group: rid_or_users(user_key(number, Word::Group), entry)?,
        groups: rids_or_users(alloc, user_key(number, Word::Groups), entry)?,
    })
}

/// What keeps the user of that entry from logging on.
#[tactic(auto, unfolding(crate::specs::Document::restrictions_of))]
fn read_restrictions(number: u32, entry: &Table) -> Result<Restrictions, TableRefused>
    ensures { result ≡ restrictions_of number (table_view entry.now) }
{
    Ok(Restrictions {
        disabled: truth_or_false(user_key(number, Word::Disabled), entry)?,
        locked: truth_or_false(user_key(number, Word::Locked), entry)?,
        must_change: truth_or_false(user_key(number, Word::MustChange), entry)?,
    })
}

/// The moments of the user of that entry.
#[tactic(auto, unfolding(crate::specs::Document::moments_of))]
fn read_moments(number: u32, entry: &Table) -> Result<Moments, TableRefused>
    ensures { result ≡ moments_of number (table_view entry.now) }
{
    Ok(Moments {
        expires: moment_or_none(user_key(number, Word::Expires), entry)?,
        password_set: moment_or_none(user_key(number, Word::PasswordSet), entry)?,
        password_expires: moment_or_none(user_key(number, Word::PasswordExpires), entry)?,
    })
}

/// The user of that entry, after these accounts.
#[tactic(auto, unfolding(crate::specs::Document::user_of))]
fn read_user(
    alloc: Global,
    number: u32,
    entry: &Table,
    before: &Accounts,
) -> Result<Account, TableRefused>
    ensures exact { UpToMemory TableRefused.Memory result
        (user_of number before.now (table_view entry.now)) }
    ensures fresh { IfOk result (λ account. place_in before.now account.name ≡ None) }
    ensures groups { IfOk result (λ account. length account.groups ≤ group_limit) }
    ensures sids { IfOk result (λ account. IsTrue (has_few_sids account.extra_sids)) }
{
    let name = needed_user_name(alloc, user_key(number, Word::Name), entry)?;
    let name = new_name(name, before)?;
    let identity = read_identity(alloc, number, entry)?;
    let restrictions = read_restrictions(number, entry)?;
    let moments = read_moments(number, entry)?;
    let workstations = computers_or_none(alloc, user_key(number, Word::Workstations), entry)?;
    let extra_sids = sids_or_none(alloc, user_key(number, Word::ExtraSids), entry)?;
    let hash = identity.hash;
    Ok(Account {
        name,
        rid: identity.rid,
        hash,
        full_name: identity.full_name,
        group: identity.group,
        groups: identity.groups,
        disabled: restrictions.disabled,
        locked: restrictions.locked,
        must_change: restrictions.must_change,
        expires: moments.expires,
        password_set: moments.password_set,
        password_expires: moments.password_expires,
        workstations,
        extra_sids,
        bad_count: 0,
        controllers: Names::new(alloc),
        changed: false,
        kind: Kind::User,
    })
}

/// The controllers of a trust's account; those of another kind have none.
fn read_controllers(
    alloc: Global,
    number: u32,
    kind: Kind,
    entry: &Table,
) -> Result<Names, TableRefused>
    ensures { UpToMemory TableRefused.Memory result
        (controllers_of kind number (table_view entry.now)) }
{
    match kind {
        Kind::Trust => needed_controllers(alloc, machine_key(number, Word::Controllers), entry),
        Kind::User | Kind::Workstation | Kind::Backup => Ok(Names::new(alloc)),
    }
}

/// The machine of that entry, after these accounts.
#[tactic(auto, unfolding(crate::specs::Document::machine_of))]
fn read_machine(
    alloc: Global,
    number: u32,
    entry: &Table,
    before: &Accounts,
) -> Result<Account, TableRefused>
    ensures exact { UpToMemory TableRefused.Memory result
        (machine_of number before.now (table_view entry.now)) }
    ensures fresh { IfOk result (λ account. place_in before.now account.name ≡ None) }
    ensures groups { IfOk result (λ account. length account.groups ≤ group_limit) }
    ensures sids { IfOk result (λ account. IsTrue (has_few_sids account.extra_sids)) }
{
    let name = needed_machine_name(alloc, machine_key(number, Word::Name), entry)?;
    let name = new_name(name, before)?;
    let kind = needed_kind(machine_key(number, Word::Kind), entry)?;
    let hash = needed_hash(machine_key(number, Word::Hash), entry)?;
    let disabled = truth_or_false(machine_key(number, Word::Disabled), entry)?;
    let controllers = read_controllers(alloc, number, kind, entry)?;
    Ok(Account {
        name,
        rid: 0,
        hash,
        full_name: empty_name(alloc)?,
        group: DOMAIN_USERS,
        groups: Numbers::copy(alloc, &[DOMAIN_USERS])?,
        disabled,
        locked: false,
        must_change: false,
        expires: 0,
        password_set: 0,
        password_expires: 0,
        workstations: Names::new(alloc),
        extra_sids: Sids::new(alloc),
        bad_count: 0,
        controllers,
        changed: false,
        kind,
    })
}

/// The users, in order.
pub(crate) fn read_users(alloc: Global, entries: &[Value]) -> Result<Accounts, TableRefused>
    requires { length entries.now ≤ account_limit }
    ensures exact { UpToMemory TableRefused.Memory result
        (each_entry user_of 0 [] (entries_of entries.now)) }
    ensures each { IfOk result (λ accounts. length accounts ≤ length entries.now) }
    ensures different { IfOk result (λ accounts. IsTrue (has_distinct_names accounts)) }
{
    let mut accounts = Accounts::new(alloc);
    let mut number = 0;
    let mut rest = entries;
    while let [entry, after @ ..] = rest {
        if let Some(table) = entry.as_table() {
            let account = read_user(alloc, number, table, &accounts)?;
            accounts.push(alloc, account)?;
            number += 1;
        }
        rest = after;
    }
    Ok(accounts)
}

/// The accounts before, and the machines behind them, in order.
pub(crate) fn read_machines(
    alloc: Global,
    before: Accounts,
    entries: &[Value],
) -> Result<Accounts, TableRefused>
    requires room { length before + length entries.now ≤ account_limit }
    requires different { IsTrue (has_distinct_names before) }
    ensures exact { UpToMemory TableRefused.Memory result
        (each_entry machine_of 0 before (entries_of entries.now)) }
    ensures different { IfOk result (λ accounts. IsTrue (has_distinct_names accounts)) }
{
    let mut accounts = before;
    let mut number = 0;
    let mut rest = entries;
    while let [entry, after @ ..] = rest {
        if let Some(table) = entry.as_table() {
            let account = read_machine(alloc, number, table, &accounts)?;
            accounts.push(alloc, account)?;
            number += 1;
        }
        rest = after;
    }
    Ok(accounts)
}

/// The trusted domain of that entry, after these.
#[tactic(auto, unfolding(crate::specs::Document::trust_of))]
fn read_trust(
    alloc: Global,
    own: &Name,
    number: u32,
    entry: &Table,
    before: &[Trust],
) -> Result<Trust, TableRefused>
    ensures { UpToMemory TableRefused.Memory result
        (trust_of own.now number before.now (table_view entry.now)) }
{
    let domain = needed_trusted_domain(alloc, own, trust_key(number, Word::Domain), entry)?;
    let domain = new_trust(domain, before)?;
    Ok(Trust {
        domain,
        hash: needed_hash(trust_key(number, Word::Hash), entry)?,
        address: needed_address(alloc, trust_key(number, Word::Address), entry)?,
    })
}

/// The trusted domains, in order.
pub(crate) fn read_trusts(
    alloc: Global,
    own: &Name,
    entries: &[Value],
) -> Result<Trusts, TableRefused>
    requires { length entries.now ≤ account_limit }
    ensures exact { UpToMemory TableRefused.Memory result
        (each_entry (trust_of own.now) 0 [] (entries_of entries.now)) }
    ensures each { IfOk result (λ trusts. length trusts ≤ length entries.now) }
{
    let mut trusts = Trusts::new(alloc);
    let mut number = 0;
    let mut rest = entries;
    while let [entry, after @ ..] = rest {
        if let Some(table) = entry.as_table() {
            trusts.push(read_trust(alloc, own, number, table, trusts.items())?)?;
            number += 1;
        }
        rest = after;
    }
    Ok(trusts)
}
