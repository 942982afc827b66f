//! The account table of a domain: its document, its accounts in order, the trusted domains, look-ups by name, and what
//! changes after it was read.
#![tactic(auto)]

mod account;
mod accounts;
mod changes;
mod forms;
mod having;
mod key;
mod laws;
mod lists;
mod reading;
mod refused;
mod secrets;
mod table;
mod values;

pub use account::{Account, Kind, Policy, Sids, Trust, Trusts};
pub use changes::{AccountState, Change, TableChange, TableChanges};
pub use having::{are_bytes, is_hash, names_have_forms};
pub use key::{Key, Part, Word};
pub use laws::{what_changes_leave, what_counts_leave, what_secrets_keep};
pub use refused::{ApplyRefused, TableRefused};
pub use table::{Route, Table};
