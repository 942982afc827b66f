//! The accounts as the changes of a step leave them.

ghost use Rattle.std.specs.Prelude.{◌≡◌, option_map};
ghost use Rattle.account_table.specs.Changes.{with_changes};
ghost use Rattle.account_table.specs.LookUps.{knows_in, machine_in, route_in};
ghost use Rattle.controller_calls.specs.Opening.{account_for};

use account_table::{Route, Table, TableChanges};
use logon_stubs::AuthCall;

/// Whether the table knows the computer, which no change changes. It takes no memory.
pub(crate) fn knows_with(table: &Table, changes: &TableChanges, computer: &[u16]) -> bool
    ensures { result ≡ knows_in (with_changes changes.now table.now).accounts computer.now }
{
    // only the clause speaks of them
    let _changes = changes.items();
    table.knows(computer)
}

/// The place of the enabled account of that name that opens that channel for that computer, which no change changes. It
/// takes no memory.
pub(crate) fn machine_with(
    table: &Table,
    changes: &TableChanges,
    account: &[u16],
    kind: u16,
    computer: &[u16],
) -> Option<u32>
    ensures { result ≡ machine_in (with_changes changes.now table.now).accounts account.now kind
        computer.now }
{
    // only the clause speaks of them
    let _changes = changes.items();
    table.machine(account, kind, computer)
}

/// Where the accounts of a domain are, which no change changes. It takes no memory.
pub(crate) fn route_with(table: &Table, changes: &TableChanges, domain: &[u16]) -> Route
    ensures { result ≡ route_in (with_changes changes.now table.now) domain.now }
{
    // only the clause speaks of them
    let _changes = changes.items();
    table.route(domain)
}

/// The hash of the account that opens the channel, as the changes leave it. It takes no memory.
pub(crate) fn hash_for(table: &Table, changes: &TableChanges, call: &AuthCall) -> Option<[u8; 16]>
    ensures { result ≡ option_map (λ account. account.hash)
        (account_for (with_changes changes.now table.now) call.now) }
{
    let place = machine_with(
        table,
        changes,
        call.account.units(),
        call.channel,
        call.computer.units(),
    )?;
    match table.state_with(changes, place) {
        Some(state) => Some(state.hash),
        None => None,
    }
}
