//! Why a text is no account table.

use crate::key::Key;
use thiserror::Error;
use wire_base::{Name, NoMemory};

/// Why a text is no account table: the first of these in the order of the document's checks, or want of memory.
#[derive(Debug, Drop, Error)]
pub enum TableRefused {
    /// The text is no TOML document.
    #[error("no TOML document")]
    BadToml,
    /// There are more than 10,000 accounts and trusted domains.
    #[error("more than 10,000 accounts")]
    TooMany,
    /// A value without a default isn't there.
    #[error("{0:?} is missing")]
    Missing(Key),
    /// A value is of another form.
    #[error("{0:?} has a bad value")]
    BadValue(Key),
    /// An account before has this name, or a trusted domain before.
    #[error("{0:?} stands twice")]
    Twice(Name),
    /// No memory was found.
    #[error("no memory")]
    Memory,
}

impl From<NoMemory> for TableRefused {
    ghost use Rattle.std.specs.Prelude.{◌≡◌};
    ghost use Rattle.account_table.specs.declared.refused.TableRefused.TheVariants.{Memory};

    ghost from_gives = { λ _ e. e ≡ Memory };

    fn from(_error: NoMemory) -> TableRefused {
        TableRefused::Memory
    }
}

/// Why a text sets no secrets.
#[derive(Clone, Copy, Debug, PartialEq, Eq, Error)]
pub enum ApplyRefused {
    /// A line isn't of the form, names no computer's account, or one that stood before.
    #[error("no secrets")]
    NotSecrets,
    /// No memory was found.
    #[error("no memory")]
    Memory,
}

impl From<NoMemory> for ApplyRefused {
    ghost use Rattle.std.specs.Prelude.{◌≡◌};
    ghost use Rattle.account_table.specs.declared.refused.ApplyRefused.TheVariants.{Memory};

    ghost from_gives = { λ _ e. e ≡ Memory };

    fn from(_error: NoMemory) -> ApplyRefused {
        ApplyRefused::Memory
    }
}
