//! What a step changes of a table, collected before it is made.

ghost use Rattle.std.specs.Prelude.{◌≡◌};
ghost use Rattle.account_table.specs.Changes.{state_by, state_by_change, state_by_change_of, state_of};

use crate::account::Account;
use wire_base::List;

/// What changes of an account.
#[derive(Clone, Copy, Debug, PartialEq, Eq)]
pub enum Change {
    /// The count of bad passwords, which becomes this one.
    Count(u16),
    /// The hash, which becomes this one: the account is a changed one then.
    Hash([u8; 16]),
}

/// A change of the account at a place, counted from 0; past the last account it changes nothing.
#[derive(Clone, Copy, Debug, PartialEq, Eq)]
pub struct TableChange {
    pub place: u32,
    pub change: Change,
}

/// Changes, made one after the other, so that the last one of an account holds.
pub type TableChanges = List<TableChange>;

/// What changes of an account after it was read.
#[derive(Clone, Copy, Debug, PartialEq, Eq)]
pub struct AccountState {
    /// The count of bad passwords.
    pub bad_count: u16,
    /// The NT hash of the password or secret.
    pub hash: [u8; 16],
    /// Whether the hash was set since the document was read.
    pub changed: bool,
}

/// What may change of an account, as it stands.
pub(crate) fn state_of(account: &Account) -> AccountState
    ensures { result ≡ state_of account.now }
{
    AccountState {
        bad_count: account.bad_count,
        hash: account.hash,
        changed: account.changed,
    }
}

/// What the account at a place has after the changes, where it had that before.
#[tactic(auto, using(crate::proofs::ChangeLaws::stating))]
pub(crate) fn state_by(changes: &[TableChange], at: usize, state: AccountState) -> AccountState
    ensures { result ≡ state_by changes.now at state }
{
    let mut last = state;
    for change in changes {
        last = state_by_change(*change, at, last);
    }
    last
}

/// The state of the account at that place after one change.
fn state_by_change(change: TableChange, at: usize, state: AccountState) -> AccountState
    ensures { result ≡ state_by_change change at state }
{
    if change.place as usize == at {
        state_by_change_of(change.change, state)
    } else {
        state
    }
}

/// What the account has that a change is made of.
fn state_by_change_of(change: Change, state: AccountState) -> AccountState
    ensures { result ≡ state_by_change_of change state }
{
    match change {
        Change::Count(bad_count) => AccountState { bad_count, ..state },
        Change::Hash(hash) => AccountState {
            hash,
            changed: true,
            ..state
        },
    }
}
