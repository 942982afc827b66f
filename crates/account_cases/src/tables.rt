//! Cases of `account_table`: documents as bytes in hex, names as 16-bit units in hex.

ghost use Rattle.std.specs.Prelude.{◌≡◌, true, false, slice_get, IsSomeAnd};
ghost use Rattle.account_table.specs.Changes.{is_user};

use account_table::{Change, Kind, Table, TableChange, TableChanges};
use case_words::{
    answer_steps, bytes, debug_text, no_case, number, number16, sixteen, size, text, text_units,
    word,
};
use std::alloc::Global;

/// The table of a word.
pub(crate) fn table(alloc: Global, word: &str) -> anyhow::Result<Table> {
    let document = bytes(alloc, word)?;
    Ok(Table::read(alloc, &document)?)
}

/// The number of accounts.
fn count(table: &Table) -> u32 {
    for at in 0..u32::MAX {
        if table.account(at).is_none() {
            return at;
        }
    }
    u32::MAX
}

/// The domain's name, its identifier, and the number of accounts.
fn text_of_table(alloc: Global, table: &Table) -> anyhow::Result<String> {
    let domain = table.domain();
    let sid = table.sid();
    let count = count(table);
    Ok(format!(in alloc; "{domain:?} {sid:?} {count}")?)
}

/// What is read of a document: the table, or the refusal.
fn text_of_document(alloc: Global, document: &[u8]) -> anyhow::Result<String> {
    match Table::read(alloc, document) {
        Ok(table) => text_of_table(alloc, &table),
        Err(refused) => debug_text(alloc, refused),
    }
}

/// `read DOCUMENT`.
fn read(alloc: Global, words: &[&str]) -> anyhow::Result<String> {
    let document = bytes(alloc, word(words, 1))?;
    text_of_document(alloc, &document)
}

/// The place of the account of a user's name.
fn find(alloc: Global, table: &Table, user: &str) -> anyhow::Result<String> {
    let user = text_units(alloc, user)?;
    debug_text(alloc, table.find(user.units()))
}

/// The place of the account that opens the channel.
fn machine(alloc: Global, table: &Table, words: &[&str]) -> anyhow::Result<String> {
    let channel = number16(word(words, 3))?;
    let account = text_units(alloc, word(words, 2))?;
    let computer = text_units(alloc, word(words, 4))?;
    debug_text(
        alloc,
        table.machine(account.units(), channel, computer.units()),
    )
}

/// Whether a computer's account has that name.
fn knows(alloc: Global, table: &Table, computer: &str) -> anyhow::Result<String> {
    let computer = text_units(alloc, computer)?;
    debug_text(alloc, table.knows(computer.units()))
}

/// Where the accounts of a domain are.
fn route(alloc: Global, table: &Table, domain: &str) -> anyhow::Result<String> {
    let domain = text_units(alloc, domain)?;
    debug_text(alloc, table.route(domain.units()))
}

/// What an operation on a table gives.
fn answer_of(
    alloc: Global,
    operation: &str,
    table: &Table,
    words: &[&str],
) -> anyhow::Result<String> {
    match operation {
        "policy" => debug_text(alloc, table.policy()),
        "account" => debug_text(alloc, table.account(number(word(words, 2))?)),
        "trust" => debug_text(alloc, table.trust(number(word(words, 2))?)),
        "find" => find(alloc, table, word(words, 2)),
        "machine" => machine(alloc, table, words),
        "knows" => knows(alloc, table, word(words, 2)),
        "route" => route(alloc, table, word(words, 2)),
        _ => no_case(alloc),
    }
}

/// What an operation on the table of a line gives: `policy DOCUMENT`, `account DOCUMENT AT`, `trust DOCUMENT AT`, `find
/// DOCUMENT USER`, `machine DOCUMENT ACCOUNT CHANNEL COMPUTER`, `knows DOCUMENT COMPUTER`, `route DOCUMENT DOMAIN`.
fn answer_of_word(alloc: Global, operation: &str, words: &[&str]) -> anyhow::Result<String> {
    let table = table(alloc, word(words, 1))?;
    answer_of(alloc, operation, &table, words)
}

/// Puts a user of a number behind a document.
fn put_user(alloc: Global, document: &mut String, number: u32) -> anyhow::Result<()> {
    let user = format!(in alloc;
        "[[user]]\nname = 'u{number}'\nrid = 1\nhash = '11111111111111111111111111111111'\n"
    )?;
    Ok(document.push_str(&user)?)
}

/// A document of so many users, from `u0` on.
fn document_of_users(alloc: Global, count: u32) -> anyhow::Result<String> {
    let mut document = String::from_str(alloc, "domain = 'CORP'\nsid = 'S-1-5-21-1-2-3'\n")?;
    for number in 0..count {
        put_user(alloc, &mut document, number)?;
    }
    Ok(document)
}

/// A table of so many users.
fn table_of_users(alloc: Global, count: u32) -> anyhow::Result<Table> {
    let document = document_of_users(alloc, count)?;
    Ok(Table::read(alloc, document.as_bytes())?)
}

/// The step of `find_among` that a name is.
fn find_step(alloc: Global, table: &mut Table, user: &str) -> anyhow::Result<String> {
    find(alloc, table, user)
}

/// `find_among COUNT USER..`: the same as `find` for each name, among so many users `u0`, `u1` and so on.
fn find_among(alloc: Global, words: &[&str]) -> anyhow::Result<String> {
    let mut table = table_of_users(alloc, number(word(words, 1))?)?;
    answer_steps(alloc, words, 2, &mut table, find_step)
}

/// Puts a list of so many tables without keys behind a document.
fn put_list(document: &mut String, name: &str, count: usize) -> anyhow::Result<()> {
    document.push_str(name)?;
    document.push_str(" = [")?;
    for _ in 0..count {
        document.push_str("{},")?;
    }
    Ok(document.push_str("]\n")?)
}

/// `read_without_keys USERS MACHINES TRUSTS`: what is read of so many users, machines and trusted domains, all without
/// keys.
fn read_without_keys(alloc: Global, words: &[&str]) -> anyhow::Result<String> {
    let mut document = String::new(alloc);
    put_list(&mut document, "user", size(word(words, 1))?)?;
    put_list(&mut document, "machine", size(word(words, 2))?)?;
    put_list(&mut document, "trust", size(word(words, 3))?)?;
    text_of_document(alloc, document.as_bytes())
}

// ---- what changes

/// A table, and changes that are to be made.
#[derive(Drop)]
struct Changing {
    table: Table,
    changes: TableChanges,
}

/// The answer to a step that its condition forbids.
fn not_to_be_done(alloc: Global) -> anyhow::Result<String> {
    Ok("not to be done".to_string(alloc)?)
}

/// The answer to a step that gives nothing.
fn done(alloc: Global) -> anyhow::Result<String> {
    Ok("done".to_string(alloc)?)
}

/// Sets a count.
fn set_count(alloc: Global, table: &mut Table, parts: &[&str]) -> anyhow::Result<String> {
    let at = number(word(parts, 1))?;
    let count = number16(word(parts, 2))?;
    if table.account(at).is_none() {
        return not_to_be_done(alloc);
    }
    table.set_bad_count(at, count);
    done(alloc)
}

/// Whether an account at a place is a computer's or a trust's.
fn is_computer(table: &Table, at: u32) -> bool
    ensures { result ≡ true → IsSomeAnd (slice_get table.now.accounts at)
        (λ account. is_user account.kind ≡ false) }
{
    match table.account(at) {
        Some(account) => !matches!(account.kind, Kind::User),
        None => false,
    }
}

/// Sets a hash.
fn set_hash(alloc: Global, table: &mut Table, parts: &[&str]) -> anyhow::Result<String> {
    let at = number(word(parts, 1))?;
    let hash = sixteen(word(parts, 2))?;
    if !is_computer(table, at) {
        return not_to_be_done(alloc);
    }
    table.set_hash(at, hash);
    done(alloc)
}

/// The text of secrets.
fn secrets(alloc: Global, table: &Table) -> anyhow::Result<String> {
    let secrets = table.secrets(alloc)?;
    text(alloc, secrets.bytes())
}

/// Sets the secrets of a text.
fn apply(alloc: Global, table: &mut Table, secrets: &str) -> anyhow::Result<String> {
    let secrets = bytes(alloc, secrets)?;
    debug_text(alloc, table.apply(alloc, &secrets))
}

/// The hash of the account at a place, and whether it was set.
fn hash(alloc: Global, table: &Table, at: &str) -> anyhow::Result<String> {
    match table.account(number(at)?) {
        Some(account) => Ok(format!(in alloc; "{:?} {}", account.hash, account.changed)?),
        None => Ok("None".to_string(alloc)?),
    }
}

/// Collects a change of a count.
fn collect_change(
    alloc: Global,
    changes: &mut TableChanges,
    parts: &[&str],
) -> anyhow::Result<String> {
    let place = number(word(parts, 1))?;
    let count = number16(word(parts, 2))?;
    let change = TableChange {
        place,
        change: Change::Count(count),
    };
    changes.push(change)?;
    done(alloc)
}

/// Whether the account at a place is a user's. None is past the last account.
fn is_user_at(table: &Table, at: u32) -> bool {
    match table.account(at) {
        Some(account) => matches!(account.kind, Kind::User),
        None => false,
    }
}

/// Collects a change of a hash.
fn collect_hash(alloc: Global, changing: &mut Changing, parts: &[&str]) -> anyhow::Result<String> {
    let place = number(word(parts, 1))?;
    let hash = sixteen(word(parts, 2))?;
    if is_user_at(&changing.table, place) {
        return not_to_be_done(alloc);
    }
    let change = TableChange {
        place,
        change: Change::Hash(hash),
    };
    changing.changes.push(change)?;
    done(alloc)
}

/// The text of secrets, as the changes leave them.
fn secrets_with(alloc: Global, changing: &Changing) -> anyhow::Result<String> {
    let secrets = changing.table.secrets_with(alloc, &changing.changes)?;
    text(alloc, secrets.bytes())
}

/// What the account at a place has, as the changes leave it: its count, its hash, and whether that was set.
fn state_with(alloc: Global, changing: &Changing, at: &str) -> anyhow::Result<String> {
    match changing.table.state_with(&changing.changes, number(at)?) {
        Some(state) => Ok(format!(in alloc;
            "{} {:?} {}",
            state.bad_count, state.hash, state.changed
        )?),
        None => Ok("None".to_string(alloc)?),
    }
}

/// Makes the changes.
fn commit(alloc: Global, changing: &mut Changing) -> anyhow::Result<String> {
    changing.table.commit(&changing.changes);
    changing.changes = TableChanges::new(alloc);
    done(alloc)
}

/// What a step gives: `set_count,AT,COUNT`, `set_hash,AT,HASH`, `count,AT`, `hash,AT`, `secrets`, `apply,TEXT`; and of
/// changes `change,AT,COUNT`, `change_hash,AT,HASH`, `count_with,AT`, `state_with,AT`, `secrets_with`, `commit`.
fn change_step(alloc: Global, changing: &mut Changing, step: &str) -> anyhow::Result<String> {
    let parts: Vec<&str> = step.split(',').collect(alloc)?;
    match word(&parts, 0) {
        "set_count" => set_count(alloc, &mut changing.table, &parts),
        "set_hash" => set_hash(alloc, &mut changing.table, &parts),
        "count" => debug_text(alloc, changing.table.bad_count(number(word(&parts, 1))?)),
        "hash" => hash(alloc, &changing.table, word(&parts, 1)),
        "secrets" => secrets(alloc, &changing.table),
        "apply" => apply(alloc, &mut changing.table, word(&parts, 1)),
        "change" => collect_change(alloc, &mut changing.changes, &parts),
        "change_hash" => collect_hash(alloc, changing, &parts),
        "state_with" => state_with(alloc, changing, word(&parts, 1)),
        "secrets_with" => secrets_with(alloc, changing),
        "count_with" => debug_text(
            alloc,
            changing
                .table
                .bad_count_with(&changing.changes, number(word(&parts, 1))?),
        ),
        "commit" => commit(alloc, changing),
        _ => no_case(alloc),
    }
}

/// `steps DOCUMENT STEP..`: what each step gives.
fn steps(alloc: Global, words: &[&str]) -> anyhow::Result<String> {
    let table = table(alloc, word(words, 1))?;
    let changes = TableChanges::new(alloc);
    let mut changing = Changing { table, changes };
    answer_steps(alloc, words, 2, &mut changing, change_step)
}

/// What an operation gives.
pub(crate) fn answer(alloc: Global, operation: &str, words: &[&str]) -> anyhow::Result<String> {
    match operation {
        "read" => read(alloc, words),
        "find_among" => find_among(alloc, words),
        "read_without_keys" => read_without_keys(alloc, words),
        "steps" => steps(alloc, words),
        _ => answer_of_word(alloc, operation, words),
    }
}
