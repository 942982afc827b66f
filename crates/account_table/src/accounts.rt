//! Accounts in their order, with an index by name.

ghost use Rattle.std.specs.Prelude.{◌≡◌, [], ◌∷◌, ◌++◌, ◌+◌, ◌^◌, ◌<◌, ◌≤◌, None, drop, length, is_some, option_copied, slice_get, All, IfOk, IfSome, IsTrue, OnOk, OnErr};
ghost use Rattle.std.specs.List.{AllByRecursion, list_any};
ghost use Rattle.wire_base.specs.Names.{upper_case};
ghost use Rattle.account_table.specs.AccountTable.{has_distinct_names};
ghost use Rattle.account_table.specs.Changes.{accounts_after, at_place, with_count, is_user, with_new_hash};
ghost use Rattle.account_table.specs.Index.{has_few_sids};
ghost use Rattle.account_table.specs.Limits.{account_limit, group_limit, name_limit};
ghost use Rattle.account_table.specs.LookUps.{is_trust_for, lists_controller, machine_name, place_in};
ghost use Rattle.account_table.specs.Ranges.{AreLongs, InRangeAccount};
ghost use Rattle.account_table.specs.Secrets.{computer_in, line_if, line_of, secrets_of, with_settings};
ghost use Rattle.account_table.specs.TableForms.{HasAccountForm, HasFewNames};

use crate::account::{Account, Kind};
use crate::changes::{AccountState, TableChange, state_by, state_of};
use crate::having::account_has_form;
use arrayvec::ArrayVec;
use indexmap::IndexMap;
use std::alloc::Global;
use std::marker::Model;
use wire_base::{Blob, NAME_LIMIT, Name, NoMemory, upper_unit};

/// The most accounts of a table.
pub(crate) const ACCOUNT_LIMIT: usize = 10_000;

/// At most 10,000 accounts of different names, in their order, each under its name in upper case. A look-up by name
/// doesn't walk them.
#[derive(Drop)]
pub(crate) struct Accounts {
    index: IndexMap<Vec<u16>, Account>,
}

impl Model for Accounts {
    ghost use Rattle.std.specs.Prelude.{List, IsTrue};
    ghost use Rattle.account_table.specs.Index.{accounts_in, is_index};
    ghost use Rattle.account_table.specs.declared.account.Account.{Account as account};

    ghost Value = { List account };

    ghost view = { λ a. accounts_in a.index.entries };

    ghost invariant = { λ a. IsTrue (is_index a.index.entries) };
}

impl Accounts {
    /// No accounts.
    pub(crate) fn new(alloc: Global) -> Accounts
        ensures { result ≡ [] }
    {
        Accounts {
            index: IndexMap::new(alloc),
        }
    }

    /// The number of accounts.
    pub(crate) fn len(&self) -> usize
        ensures value { result ≡ length self.now }
        ensures limit { result ≤ account_limit }
    {
        self.index.len()
    }

    /// The account at a place, counted from 0. None exactly past the end.
    pub(crate) fn get(&self, place: usize) -> Option<&Account>
        ensures value { option_copied result ≡ slice_get self.now place }
        ensures range { IfSome result (λ account. InRangeAccount account.now) }
    {
        match self.index.get_index(place) {
            Some((_, account)) => {
                has_ranges(account);
                Some(account)
            }
            None => None,
        }
    }

    /// Each account has the form that its type gives it. It is called so that this is known.
    pub(crate) fn have_forms(&self)
        requires { AllByRecursion HasFewNames self.now }
        ensures { All HasAccountForm self.now }
    {
        for place in 0..self.len() {
            self.has_form_at(place);
        }
    }

    /// The account at a place has that form.
    fn has_form_at(&self, place: usize)
        requires { AllByRecursion HasFewNames self.now }
        ensures { IfSome (slice_get self.now place) HasAccountForm }
    {
        match self.get(place) {
            Some(account) => account_has_form(account),
            None => {}
        }
    }

    /// No two accounts have the same name. It is called so that this is known.
    pub(crate) fn names_differ(&self)
        ensures { IsTrue (has_distinct_names self.now) }
    {
        let _index = &self.index;
    }

    /// The place of the account of that name. It takes no memory.
    pub(crate) fn place(&self, name: &[u16]) -> Option<u32>
        ensures value { result ≡ place_in self.now name.now }
        ensures within { IfSome result (λ place. place < length self.now) }
        ensures different { IsTrue (has_distinct_names self.now) }
    {
        let index = &self.index;
        if NAME_LIMIT < name.len() {
            return None;
        }
        match index.get_index_of(upper(name).as_slice()) {
            Some(place) => Some(place as u32),
            None => None,
        }
    }

    /// The place of the account of the computer's name and `$`. It takes no memory.
    pub(crate) fn machine_place(&self, computer: &[u16]) -> Option<u32>
        ensures value { result ≡ place_in self.now (machine_name computer.now) }
        ensures different { IsTrue (has_distinct_names self.now) }
    {
        let index = &self.index;
        if NAME_LIMIT <= computer.len() {
            return None;
        }
        let name = machine_name(computer);
        match index.get_index_of(upper(name.as_slice()).as_slice()) {
            Some(place) => Some(place as u32),
            None => None,
        }
    }

    /// The place of the account of those bytes as a name. It takes no memory.
    pub(crate) fn place_of_bytes(&self, name: &[u8]) -> Option<u32>
        ensures value { result ≡ place_in self.now name.now }
        ensures within { IfSome result (λ place. place < length self.now) }
    {
        let index = &self.index;
        if NAME_LIMIT < name.len() {
            return None;
        }
        match index.get_index_of(upper_bytes(name).as_slice()) {
            Some(place) => Some(place as u32),
            None => None,
        }
    }

    /// The place of the computer's or trust's account of those bytes as a name. It takes no memory.
    #[tactic(auto, unfolding(crate::specs::Secrets::computer_in))]
    pub(crate) fn computer_place(&self, name: &[u8]) -> Option<u32>
        ensures value { result ≡ computer_in self.now name.now }
        ensures within { IfSome result (λ place. place < length self.now) }
    {
        let place = self.place_of_bytes(name)?;
        match self.get(place as usize) {
            Some(account) if !is_user(account.kind) => Some(place),
            _ => None,
        }
    }

    /// Whether an account has that name. It takes no memory.
    pub(crate) fn has(&self, name: &Name) -> bool
        ensures { result ≡ is_some (place_in self.now name.now) }
    {
        self.index
            .get_index_of(upper_name(name).as_slice())
            .is_some()
    }

    /// Appends an account of a new name. Without memory the accounts stay as they were.
    pub(crate) fn push(&mut self, alloc: Global, account: Account) -> Result<(), NoMemory>
        requires room { length self.old < account_limit }
        requires fresh { place_in self.old account.name ≡ None }
        requires groups { length account.groups ≤ group_limit }
        requires sids { IsTrue (has_few_sids account.extra_sids) }
        ensures appended { OnOk result (self.new ≡ self.old ++ account ∷ []) }
        ensures unchanged { OnErr result (self.new ≡ self.old) }
    {
        let key = Vec::from_slice(alloc, upper_name(&account.name).as_slice())?;
        self.index.insert(key, account)?;
        Ok(())
    }

    /// Whether an account is a trust's that lists the computer. It takes no memory, and walks the accounts.
    pub(crate) fn lists(&self, computer: &[u16]) -> bool
        ensures { result ≡ list_any (is_trust_for computer.now) self.now }
    {
        self.index
            .values()
            .any(|account| is_trust_for(account, computer))
    }

    /// The lines of the changed accounts, in order.
    pub(crate) fn secrets(&self, alloc: Global) -> Result<Blob, NoMemory>
        ensures { IfOk result (λ text. text ≡ secrets_of self.now) }
    {
        let mut text = Vec::new(alloc);
        for account in self.index.values() {
            if account.changed {
                put_secret(alloc, &mut text, account.name.bytes(), &account.hash)?;
            }
        }
        Ok(Blob::from_vec(text))
    }

    /// The lines of the accounts that the changes leave as changed ones, in order.
    pub(crate) fn secrets_with(
        &self,
        alloc: Global,
        changes: &[TableChange],
    ) -> Result<Blob, NoMemory>
        ensures { IfOk result (λ text. text ≡ secrets_of (accounts_after changes.now 0 self.now)) }
    {
        let mut text = Vec::new(alloc);
        for place in 0..self.len() {
            self.put_secret_with(alloc, &mut text, changes, place)?;
        }
        Ok(Blob::from_vec(text))
    }

    /// Puts the line of the account at a place behind the text, where the changes leave it as a changed one.
    fn put_secret_with(
        &self,
        alloc: Global,
        text: &mut Vec<u8>,
        changes: &[TableChange],
        place: usize,
    ) -> Result<(), NoMemory>
        requires { place < length self.now }
        ensures { OnOk result (text.new.items ++ secrets_of
            (accounts_after changes.now (place + 1) (drop (place + 1) self.now))
            ≡ text.old.items ++ secrets_of
            (accounts_after changes.now place (drop place self.now))) }
    {
        let Some(account) = self.get(place) else {
            unreachable!();
        };
        let state = state_by(changes, place, state_of(account));
        put_secret_if(alloc, text, account.name.bytes(), state)?;
        Ok(())
    }

    /// Sets the count of bad passwords of the account at a place.
    pub(crate) fn set_bad_count(&mut self, place: usize, count: u16)
        requires { place < length self.old }
        ensures { self.new ≡ at_place place (with_count count) self.old }
    {
        self.index[place].bad_count = count;
    }

    /// Sets these hashes, one after the other.
    #[tactic(auto, using(crate::proofs::SecretLaws::setting))]
    pub(crate) fn set_hashes(&mut self, settings: &[(u32, [u8; 16])])
        requires { All (λ setting. setting.0 < length self.old) settings.now }
        ensures { self.new ≡ with_settings settings.now self.old }
    {
        for (place, hash) in settings {
            self.set_hash(*place as usize, *hash);
        }
    }

    /// Sets the hash of the account at a place, which is then a changed one.
    pub(crate) fn set_hash(&mut self, place: usize, hash: [u8; 16])
        requires { place < length self.old }
        ensures { self.new ≡ at_place place (with_new_hash hash) self.old }
    {
        let account = &mut self.index[place];
        account.hash = hash;
        account.changed = true;
    }
}

/// Whether the account is a trust's and lists the computer.
fn is_trust_for(account: &Account, computer: &[u16]) -> bool
    ensures { result ≡ is_trust_for computer.now account.now }
{
    matches!(account.kind, Kind::Trust) && lists_controller(account, computer)
}

/// Whether the computer is among the controllers of the account.
pub(crate) fn lists_controller(account: &Account, computer: &[u16]) -> bool
    ensures { result ≡ lists_controller account.now computer.now }
{
    account
        .controllers
        .items()
        .iter()
        .any(|controller| controller.same_units(computer))
}

/// Puts a line of secrets behind the text: the name of an account, a space, the hash in 32 hex digits, and a newline.
#[tactic(auto, unfolding(crate::specs::Secrets::line_of))]
fn put_secret(
    alloc: Global,
    text: &mut Vec<u8>,
    name: &[u8],
    hash: &[u8; 16],
) -> Result<(), NoMemory>
    ensures { OnOk result (text.new.items ≡ text.old.items ++ line_of name.now hash.now) }
{
    text.extend_from_slice(name)?;
    text.push(b' ')?;
    text.extend_from_slice(hex::encode(alloc, hash.as_slice())?.as_bytes())?;
    text.push(b'\n')?;
    Ok(())
}

/// Puts the line of an account of that name, where its hash was set.
fn put_secret_if(
    alloc: Global,
    text: &mut Vec<u8>,
    name: &[u8],
    state: AccountState,
) -> Result<(), NoMemory>
    ensures { OnOk result (text.new.items
        ≡ text.old.items ++ line_if state.changed name.now state.hash) }
{
    if !state.changed {
        return Ok(());
    }
    put_secret(alloc, text, name, &state.hash)
}

/// The account has its ranges. It is called so that this is known.
fn has_ranges(account: &Account)
    requires groups { length account.now.groups ≤ group_limit }
    requires sids { IsTrue (has_few_sids account.now.extra_sids) }
    ensures { InRangeAccount account.now }
{
    let _name = account.name.bytes();
    let _full_name = account.full_name.bytes();
    is_short(account.bad_count);
    is_long(account.rid);
    is_long(account.group);
    are_longs(account.groups.items());
    is_hyper(account.expires);
    is_hyper(account.password_set);
    is_hyper(account.password_expires);
}

/// A number of 16 bits is below 2^16. It is called so that this is known.
fn is_short(number: u16)
    ensures { number < 2 ^ 16 }
{}

/// A number of 32 bits is below 2^32. It is called so that this is known.
fn is_long(number: u32)
    ensures { number < 2 ^ 32 }
{}

/// A number of 64 bits is below 2^64. It is called so that this is known.
fn is_hyper(number: u64)
    ensures { number < 2 ^ 64 }
{}

/// Numbers of 32 bits are below 2^32. It is called so that this is known.
pub(crate) fn are_longs(numbers: &[u32])
    ensures { AreLongs numbers.now }
{}

/// The units in upper case.
fn upper(units: &[u16]) -> ArrayVec<u16, 64>
    requires { length units.now ≤ name_limit }
    ensures { result.items ≡ upper_case units.now }
{
    let mut upper = ArrayVec::new();
    for unit in units {
        upper.push(upper_unit(*unit));
    }
    upper
}

/// Whether an account is a user's.
fn is_user(kind: Kind) -> bool
    ensures { result ≡ is_user kind }
{
    matches!(kind, Kind::User)
}

/// The bytes in upper case.
fn upper_bytes(bytes: &[u8]) -> ArrayVec<u16, 64>
    requires { length bytes.now ≤ name_limit }
    ensures { result.items ≡ upper_case bytes.now }
{
    let mut upper = ArrayVec::new();
    for byte in bytes {
        upper.push(upper_unit(u16::from(*byte)));
    }
    upper
}

/// The name in upper case.
fn upper_name(name: &Name) -> ArrayVec<u16, 64>
    ensures value { result.items ≡ upper_case name.now }
    ensures short { length name.now ≤ name_limit }
{
    let mut upper = ArrayVec::new();
    for byte in name.bytes() {
        upper.push(upper_unit(u16::from(*byte)));
    }
    upper
}

/// The name of a computer's account: the computer's and `$` (MS-NRPC 3.5.4.4.3).
pub(crate) fn machine_name(computer: &[u16]) -> ArrayVec<u16, 64>
    requires { length computer.now < name_limit }
    ensures { result.items ≡ machine_name computer.now }
{
    let mut name = ArrayVec::new();
    name.try_extend_from_slice(computer).unwrap();
    name.push(u16::from(b'$'));
    name
}
