//! Turns of reading an account table and of looking up in it.

use crate::bench::{Outcome, end_of, units};
use account_table::Table;
use anyhow::bail;
use std::alloc::Global;
use wire_base::Units;

/// A table of accounts with its text, and the name that is sought in it.
pub struct Accounts {
    text: String,
    table: Table,
    sought: Units,
}

impl Drop for Accounts {
    // The drop that would be derived. Written out, it is one call wherever a value that holds an `Accounts` is let go,
    // which keeps the proofs of those places short.
    fn drop(self) {
        let Accounts {
            text: _text,
            table: _table,
            sought: _sought,
        } = self;
    }
}

impl Accounts {
    /// 10,000 users, of whom the last is sought in upper case.
    pub fn new(alloc: Global) -> anyhow::Result<Accounts> {
        let sought = units(alloc, b"USER19999")?;
        let text = table_text(alloc)?;
        let table = Table::read(alloc, text.as_bytes())?;
        Ok(Accounts {
            text,
            table,
            sought,
        })
    }

    /// The hash of the last account, of the table read `turns` times.
    pub fn read_tables(&self, alloc: Global, turns: u32) -> anyhow::Result<Outcome> {
        let mut end = Outcome::new();
        for _ in 0..turns {
            match Table::read(alloc, self.text.as_bytes()) {
                Ok(table) => end = last_account(&table),
                Err(_) => bail!("a table was refused"),
            }
        }
        Ok(end)
    }

    /// The place of the last user, sought `turns` times.
    pub fn find_all(&self, turns: u32) -> Outcome {
        let mut place = u32::MAX;
        for _ in 0..turns {
            place = self.table.find(self.sought.units()).unwrap_or(u32::MAX);
        }
        end_of(&place.to_be_bytes())
    }
}

/// A table of 10,000 users, of whom the last has the hash of the fixed key.
fn table_text(alloc: Global) -> anyhow::Result<String> {
    let mut text = String::from_str(alloc, "domain = \"CORP\"\nsid = \"S-1-5-21-1-2-3\"\n")?;
    for number in 10_000..20_000 {
        let user = format!(in alloc;
            "\n[[user]]\nname = \"user{number}\"\nrid = {number}\nhash = \"000102030405060708090a0b0c0d0e0f\"\n"
        )?;
        text.push_str(&user)?;
    }
    Ok(text)
}

/// The hash of the last account of a table.
fn last_account(table: &Table) -> Outcome {
    match table.account(9_999) {
        Some(account) => end_of(&account.hash),
        None => Outcome::new(),
    }
}
