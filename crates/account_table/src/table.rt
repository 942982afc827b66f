//! The account table of a domain.

ghost use Rattle.std.specs.Prelude.{◌≡◌, ◌⊎◌, ◌+◌, ◌<◌, ◌≤◌, length, Ok, Err, IfErr, OnOk, OnErr, IfOk, IfSome, IsSomeAnd, IsTrue, false, option_copied, option_map, slice_get};
ghost use Rattle.std.specs.List.{position};
ghost use Rattle.wire_base.specs.Memory.{UpToMemory};
ghost use Rattle.toml.specs.View.{table_view};
ghost use Rattle.account_table.specs.AccountTable.{AccountTable, has_distinct_names};
ghost use Rattle.account_table.specs.Changes.{is_user, state_of, with_bad_count, with_change, with_changes, with_hash};
ghost use Rattle.account_table.specs.Secrets.{apply_secrets, secrets_of};
ghost use Rattle.account_table.specs.Document.{table_of, table_in, too_many};
ghost use Rattle.account_table.specs.Limits.{account_limit};
ghost use Rattle.wire_base.specs.Maps.{place_of};
ghost use Rattle.wire_base.specs.Names.{IsName, same_name};
ghost use Rattle.account_table.specs.Index.{machine_found, computer_found};
ghost use Rattle.account_table.specs.IsTable.{IsTableText};
ghost use Rattle.account_table.specs.LookUps.{place_in, machine_in, knows_in, route_in, is_domain, is_machine, lists_controller, opens, is_machine_for, machine_name};
ghost use Rattle.account_table.specs.Ranges.{InRangeAccount, InRangeSid};
ghost use Rattle.account_table.specs.TableForms.{HasTableForm, table_by};

use crate::account::{Account, Kind, Policy, Trust, Trusts};
use crate::accounts::{ACCOUNT_LIMIT, Accounts, are_longs, lists_controller, machine_name};
use crate::changes::{AccountState, Change, TableChange, TableChanges, state_by, state_of};
use crate::forms::{needed_name, needed_sid, tables_or_none};
use crate::having::trusts_have_forms;
use crate::key::{Word, top_key};
use crate::reading::{read_document, read_machines, read_policy, read_trusts, read_users};
use crate::refused::{ApplyRefused, TableRefused};
use crate::secrets::read_settings;
use channel_keys::{BACKUP_CONTROLLER_CHANNEL, TRUSTED_DOMAIN_CHANNEL, WORKSTATION_CHANNEL};
use std::alloc::Global;
use std::marker::Model;
use wire_base::{Blob, Name, NoMemory, Sid};

/// Where the accounts of a domain are.
#[derive(Clone, Copy, Debug, PartialEq, Eq)]
pub enum Route {
    /// In this table.
    Own,
    /// With the trusted domain at this place.
    Trust(u32),
    /// Nowhere that is known.
    Elsewhere,
}

/// A domain's name and identifier, accounts of different names, users before machines, and trusted domains of different
/// names; at most 10,000 of both together.
#[derive(Drop)]
pub struct Table {
    domain: Name,
    sid: Sid,
    policy: Policy,
    listed: Accounts,
    trusts: Trusts,
}

impl Model for Table {
    ghost use Rattle.std.specs.Prelude.{IsTrue, length, nat_le};
    ghost use Rattle.account_table.specs.AccountTable.{AccountTable};
    ghost use Rattle.account_table.specs.Limits.{account_limit};
    ghost use Rattle.account_table.specs.TableForms.{IsKept};

    ghost Value = { AccountTable };

    ghost view = { λ t. record { domain = t.domain; sid = t.sid; policy = t.policy; accounts = t.listed; trusts = t.trusts } };

    ghost invariant = { λ t.
        IsTrue (nat_le (length t.trusts) account_limit) × IsKept t.policy t.listed t.trusts };
}

impl Table {
    /// The account table that a text is: a TOML document with the keys of docs/FORMATS.md (this project's own choice).
    ///
    /// The first of these refusals, in the order of the document's checks: `BadToml` where the text is no TOML
    /// document; `BadValue` of the list of users, then of the machines, then of the trusted domains, that isn't a list
    /// of tables; `TooMany` above 10,000 of all together; then of each key in its order `Missing` where it has no
    /// default and isn't there, and `BadValue` where it has another form; and `Twice`, right after an entry's name,
    /// where an account before has it, and right after a trusted domain's, where one before has it.
    pub fn read(alloc: Global, text: &[u8]) -> Result<Table, TableRefused>
        // The table or the first refusal.
        ensures exact { UpToMemory TableRefused.Memory result (table_of text.now) }
        // A table that is read is the one that the text is,
        ensures found { IfOk result (IsTableText text.now) }
        // A text that is a table is read as that table.
        ensures only { (table : AccountTable) → IsTableText text.now table
            → UpToMemory TableRefused.Memory result (Ok table) }
        // No two accounts have the same name.
        ensures different { IfOk result (λ table. IsTrue (has_distinct_names table.accounts)) }
    {
        read_text(alloc, text)
    }

    /// The table has the form that its type gives it. It is called so that this is known. It takes no memory, and walks
    /// the accounts and the trusted domains.
    pub fn has_form(&self)
        ensures { HasTableForm self.now }
    {
        let _domain = self.domain();
        let _sid = self.sid();
        self.listed.have_forms();
        self.listed.names_differ();
        trusts_have_forms(self.trusts.items());
    }

    /// The domain's name. It takes no memory.
    pub fn domain(&self) -> &Name
        ensures value { result.now ≡ self.now.domain }
        ensures form { IsName self.now.domain }
    {
        // Reading the bytes makes it known that the domain has the form of a name.
        let _bytes = self.domain.bytes();
        &self.domain
    }

    /// The domain's identifier. It takes no memory.
    pub fn sid(&self) -> &Sid
        ensures value { result.now ≡ self.now.sid }
        ensures range { InRangeSid self.now.sid }
    {
        // Reading the numbers makes it known that they are in range.
        are_longs(self.sid.numbers());
        &self.sid
    }

    /// What the table says of all its accounts. It takes no memory.
    pub fn policy(&self) -> Policy
        ensures { result ≡ self.now.policy }
    {
        self.policy
    }

    /// The account at a place, counted from 0, with at most 256 groups and 16 identifiers beside them. None exactly
    /// past the end. It takes no memory.
    pub fn account(&self, at: u32) -> Option<&Account>
        ensures value { option_copied result ≡ slice_get self.now.accounts at }
        ensures range { IfSome result (λ account. InRangeAccount account.now) }
    {
        self.listed.get(at as usize)
    }

    /// The count of bad passwords of the account at a place: how many responses didn't verify since its last grant.
    /// None exactly past the end. It takes no memory.
    pub fn bad_count(&self, at: u32) -> Option<u16>
        ensures { result ≡ option_map (λ account. account.bad_count)
            (slice_get self.now.accounts at) }
    {
        match self.account(at) {
            Some(account) => Some(account.bad_count),
            None => None,
        }
    }

    /// What the account at a place has after those changes. None exactly past the end. It takes no memory, and walks
    /// the changes.
    #[tactic(auto, using(crate::proofs::ChangeLaws::changing))]
    pub fn state_with(&self, changes: &TableChanges, at: u32) -> Option<AccountState>
        ensures { result ≡ option_map state_of
            (slice_get (with_changes changes.now self.now).accounts at) }
    {
        match self.account(at) {
            Some(account) => Some(state_by(changes.items(), at as usize, state_of(account))),
            None => None,
        }
    }

    /// The count of bad passwords of the account at a place after those changes. None exactly past the end. It takes no
    /// memory, and walks the changes.
    #[tactic(auto, using(crate::proofs::ChangeLaws::counting))]
    pub fn bad_count_with(&self, changes: &TableChanges, at: u32) -> Option<u16>
        ensures { result ≡ option_map (λ account. account.bad_count)
            (slice_get (with_changes changes.now self.now).accounts at) }
    {
        match self.state_with(changes, at) {
            Some(state) => Some(state.bad_count),
            None => None,
        }
    }

    /// Makes the changes, one after the other; all else of the table stays. It takes no memory.
    #[tactic(auto, using(crate::proofs::ChangeLaws::committing))]
    pub fn commit(&mut self, changes: &TableChanges)
        ensures { self.new ≡ with_changes changes.now self.old }
    {
        for change in changes.items() {
            self.make(*change);
        }
    }

    /// Makes a change; all else of the table stays. Past the last account it changes nothing. It takes no memory.
    pub fn make(&mut self, change: TableChange)
        ensures { self.new ≡ with_change change self.old }
    {
        match change.change {
            Change::Count(count) => self.make_count(change.place, count),
            Change::Hash(hash) => self.make_hash(change.place, hash),
        }
    }

    /// Sets the count of bad passwords of the account at a place, where there is one.
    #[tactic(auto, unfolding(crate::specs::Changes::with_bad_count), using(crate::proofs::ChangeLaws::making))]
    fn make_count(&mut self, at: u32, count: u16)
        ensures { self.new ≡ with_bad_count at count self.old }
    {
        if (at as usize) < self.listed.len() {
            self.listed.set_bad_count(at as usize, count);
        }
    }

    /// Sets the hash of the account at a place, where there is one.
    #[tactic(auto, unfolding(crate::specs::Changes::with_hash), using(crate::proofs::ChangeLaws::making))]
    fn make_hash(&mut self, at: u32, hash: [u8; 16])
        ensures { self.new ≡ with_hash at hash self.old }
    {
        if (at as usize) < self.listed.len() {
            self.listed.set_hash(at as usize, hash);
        }
    }

    /// Sets that count; all else of the table stays. It takes no memory.
    #[tactic(auto, unfolding(crate::specs::Changes::with_bad_count))]
    pub fn set_bad_count(&mut self, at: u32, count: u16)
        requires { at < length self.old.accounts }
        ensures { self.new ≡ with_bad_count at count self.old }
    {
        self.listed.set_bad_count(at as usize, count);
    }

    /// Sets the hash of a computer's account, or of a trust's, which is then a changed one; all else of the table
    /// stays. It takes no memory.
    #[tactic(auto, unfolding(crate::specs::Changes::with_hash))]
    pub fn set_hash(&mut self, at: u32, hash: [u8; 16])
        requires { IsSomeAnd (slice_get self.old.accounts at)
            (λ account. is_user account.kind ≡ false) }
        ensures { self.new ≡ with_hash at hash self.old }
    {
        self.listed.set_hash(at as usize, hash);
    }

    /// The secrets of the accounts whose hash was set since the document was read: in the order of the table a line of
    /// each, its name, a space, 32 hex digits in lower case, and a newline (this project's own choice). `NoMemory`
    /// where no memory was found.
    pub fn secrets(&self, alloc: Global) -> Result<Blob, NoMemory>
        ensures { IfOk result (λ text. text ≡ secrets_of self.now.accounts) }
    {
        self.listed.secrets(alloc)
    }

    /// The secrets that there will be once those changes were made. `NoMemory` where no memory was found.
    pub fn secrets_with(&self, alloc: Global, changes: &TableChanges) -> Result<Blob, NoMemory>
        ensures { IfOk result (λ text.
            text ≡ secrets_of (with_changes changes.now self.now).accounts) }
    {
        let text = self.listed.secrets_with(alloc, changes.items())?;
        Ok(text)
    }

    /// Sets the secrets of a text: for each line the hash of a computer's account, or of a trust's, which is then a
    /// changed one. All else of the table stays. NotSecrets exactly where a line isn't a name, a space and 32 hex
    /// digits in either case, names no such account, or names one that stood before; the last newline may be missing
    /// (this project's own choice). A refusal changes nothing.
    #[tactic(auto, unfolding(crate::specs::Secrets::apply_secrets))]
    pub fn apply(&mut self, alloc: Global, text: &[u8]) -> Result<(), ApplyRefused>
        ensures sets { OnOk result (apply_secrets self.old text.now ≡ Ok self.new) }
        ensures refused { IfErr result (λ refused. (refused ≡ ApplyRefused.Memory)
            ⊎ (apply_secrets self.old text.now ≡ Err refused)) }
        ensures unchanged { OnErr result (self.new ≡ self.old) }
    {
        let settings = match read_settings(alloc, &self.listed, text) {
            Ok(settings) => settings,
            Err(refused) => return Err(refused),
        };
        self.listed.set_hashes(settings.items());
        Ok(())
    }

    /// The place of the account of that name, upper case for lower. None exactly where there is none. It takes no
    /// memory and doesn't walk the accounts.
    pub fn find(&self, user: &[u16]) -> Option<u32>
        ensures value { result ≡ place_in self.now.accounts user.now }
        ensures within { IfSome result (λ place. place < length self.now.accounts) }
    {
        self.listed.place(user)
    }

    /// The place of an account that has that name, isn't disabled and opens that channel for that computer: a
    /// workstation's opens 2 and a backup controller's 6, each by the computer's name and `$`; a trust's opens 4, where
    /// it lists the computer (MS-NRPC 2.2.1.3.13). None exactly where no account is such. It takes no memory.
    pub fn machine(&self, account: &[u16], channel: u16, computer: &[u16]) -> Option<u32>
        ensures { result ≡ machine_in self.now.accounts account.now channel computer.now }
    {
        self.machine_found(account, channel, computer)
    }

    /// The place of an account that opens that channel for that computer, if the account of that name does.
    #[tactic(auto, unfolding(crate::specs::Index::machine_found))]
    fn machine_found(&self, account: &[u16], channel: u16, computer: &[u16]) -> Option<u32>
        ensures value { result ≡ machine_found self.now.accounts account.now channel computer.now }
        ensures different { IsTrue (has_distinct_names self.now.accounts) }
    {
        let place = self.listed.place(account)?;
        match self.account(place) {
            Some(found) if is_machine_for(channel, computer, found) => Some(place),
            _ => None,
        }
    }

    /// Whether some account is a workstation's or a backup controller's and has the computer's name and `$`, or is a
    /// trust's and lists the computer. It takes no memory. Trusts' accounts are looked for among all.
    #[tactic(auto, using(crate::proofs::IndexLaws::knowing))]
    pub fn knows(&self, computer: &[u16]) -> bool
        ensures { result ≡ knows_in self.now.accounts computer.now }
    {
        self.computer_found(computer) || self.listed.lists(computer)
    }

    /// Whether the account that the name finds is a workstation's or a backup controller's.
    #[tactic(auto, unfolding(crate::specs::Index::computer_found))]
    fn computer_found(&self, computer: &[u16]) -> bool
        ensures value { result ≡ computer_found self.now.accounts computer.now }
        ensures different { IsTrue (has_distinct_names self.now.accounts) }
    {
        let Some(place) = self.listed.machine_place(computer) else {
            return false;
        };
        match self.account(place) {
            Some(account) => is_machine(account.kind),
            None => false,
        }
    }

    /// Where the accounts of a domain are: here for an empty name and for the table's own, with the trusted domain of
    /// that name, else elsewhere. It takes no memory.
    #[tactic(auto, unfolding(crate::specs::LookUps::route_in))]
    pub fn route(&self, domain: &[u16]) -> Route
        ensures { result ≡ route_in self.now domain.now }
    {
        if domain.is_empty() || self.domain.same_units(domain) {
            return Route::Own;
        }
        match place_of_trust(domain, self.trusts.items()) {
            Some(place) => Route::Trust(place),
            None => Route::Elsewhere,
        }
    }

    /// The trusted domains, in the order of the document. It takes no memory.
    pub fn trusts(&self) -> &[Trust]
        ensures { result.now ≡ self.now.trusts }
    {
        self.trusts.items()
    }

    /// The trusted domain at a place, counted from 0. None exactly past the end. It takes no memory.
    pub fn trust(&self, at: u32) -> Option<&Trust>
        ensures { option_copied result ≡ slice_get self.now.trusts at }
    {
        self.trusts.get(at as usize)
    }
}

/// Whether an account is a computer's.
fn is_machine(kind: Kind) -> bool
    ensures { result ≡ is_machine kind }
{
    matches!(kind, Kind::Workstation | Kind::Backup)
}

/// The place of the first trusted domain of that name.
#[tactic(auto, using(crate::proofs::IndexLaws::placing))]
fn place_of_trust(domain: &[u16], trusts: &[Trust]) -> Option<u32>
    requires { length trusts.now ≤ account_limit }
    ensures { result ≡ place_of (is_domain domain.now) trusts.now }
{
    match position_of_trust(domain, trusts) {
        Some(place) => Some(place as u32),
        None => None,
    }
}

/// The place in memory of the first trusted domain of that name.
fn position_of_trust(domain: &[u16], trusts: &[Trust]) -> Option<usize>
    ensures value { result ≡ position (is_domain domain.now) trusts.now }
    ensures inside { IfSome result (λ place. place < length trusts.now) }
{
    trusts
        .iter()
        .position(|trust| trust.domain.same_units(domain))
}

/// Whether an account opens a channel of that type for that computer.
fn opens(account: &Account, channel: u16, computer: &[u16]) -> bool
    ensures { result ≡ opens account.now.kind channel
        (same_name account.now.name (machine_name computer.now))
        (lists_controller account.now computer.now) }
{
    match account.kind {
        Kind::Workstation => channel == WORKSTATION_CHANNEL && is_name_of(&account.name, computer),
        Kind::Backup => {
            channel == BACKUP_CONTROLLER_CHANNEL && is_name_of(&account.name, computer)
        }
        Kind::Trust => channel == TRUSTED_DOMAIN_CHANNEL && lists_controller(account, computer),
        Kind::User => false,
    }
}

/// Whether the account isn't disabled and opens that channel for that computer.
fn is_machine_for(channel: u16, computer: &[u16], account: &Account) -> bool
    ensures { result ≡ is_machine_for channel computer.now account.now }
{
    !account.disabled && opens(account, channel, computer)
}

/// Whether the name is the computer's and `$`.
fn is_name_of(name: &Name, computer: &[u16]) -> bool
    ensures { result ≡ same_name name.now (machine_name computer.now) }
{
    if name.bytes().len() != computer.len() + 1 {
        return false;
    }
    name.same_units(machine_name(computer).as_slice())
}

/// Whether users, machines and trusted domains are more than a table has.
fn is_too_many(users: usize, machines: usize, trusts: usize) -> bool
    ensures { result ≡ too_many (users + machines + trusts) }
{
    ACCOUNT_LIMIT < users
        || ACCOUNT_LIMIT - users < machines
        || ACCOUNT_LIMIT - users - machines < trusts
}

/// The table of a text.
#[tactic(auto, unfolding(crate::specs::Document::table_of))]
fn read_text(alloc: Global, text: &[u8]) -> Result<Table, TableRefused>
    ensures exact { UpToMemory TableRefused.Memory result (table_of text.now) }
    ensures different { IfOk result (λ table. IsTrue (has_distinct_names table.accounts)) }
{
    let document = read_document(alloc, text)?;
    read_table(alloc, &document)
}

/// The table of a document.
#[tactic(auto, unfolding(crate::specs::Document::table_in))]
fn read_table(alloc: Global, document: &toml::Table) -> Result<Table, TableRefused>
    ensures exact { UpToMemory TableRefused.Memory result (table_in (table_view document.now)) }
    ensures different { IfOk result (λ table. IsTrue (has_distinct_names table.accounts)) }
{
    let users = tables_or_none(top_key(Word::User), document)?;
    let machines = tables_or_none(top_key(Word::Machine), document)?;
    let trusted = tables_or_none(top_key(Word::Trust), document)?;
    if is_too_many(users.len(), machines.len(), trusted.len()) {
        return Err(TableRefused::TooMany);
    }
    let domain = needed_name(alloc, top_key(Word::Domain), document)?;
    let sid = needed_sid(alloc, top_key(Word::Sid), document)?;
    let policy = read_policy(document)?;
    let listed = read_machines(alloc, read_users(alloc, users)?, machines)?;
    let trusts = read_trusts(alloc, &domain, trusted)?;
    Ok(whole_table(document, domain, sid, policy, listed, trusts))
}

/// The table of these parts, which the document has: so it keeps what a table keeps. The document isn't read here.
fn whole_table(
    _document: &toml::Table,
    domain: Name,
    sid: Sid,
    policy: Policy,
    listed: Accounts,
    trusts: Trusts,
) -> Table
    requires { table_in (table_view _document.now)
        ≡ Ok (table_by domain sid policy listed trusts) }
    ensures { result ≡ table_by domain sid policy listed trusts }
{
    Table {
        domain,
        sid,
        policy,
        listed,
        trusts,
    }
}
