//! Why a stub isn't read.

use ndr_codec::NdrRefused;
use thiserror::Error;
use wire_base::NoMemory;

/// Why a stub of the memo interface isn't read (this project's own choice).
#[derive(Clone, Copy, Debug, PartialEq, Eq, Error)]
pub enum MemoRefused {
    /// The first item that isn't of its layout begins at this place, counted from the stub's first byte.
    #[error("a bad item at {0}")]
    BadStub(usize),
    /// No memory was found.
    #[error("no memory")]
    Memory,
}

impl From<NdrRefused> for MemoRefused {
    ghost use Rattle.std.specs.Prelude.{◌≡◌};
    ghost use Rattle.memo_stubs.specs.Memo.{memo_refused};

    ghost from_gives = { λ refused e. e ≡ memo_refused refused };

    fn from(refused: NdrRefused) -> MemoRefused {
        match refused.place() {
            Some(place) => MemoRefused::BadStub(place),
            None => MemoRefused::Memory,
        }
    }
}

impl From<NoMemory> for MemoRefused {
    ghost use Rattle.std.specs.Prelude.{◌≡◌};
    ghost use Rattle.memo_stubs.specs.declared.refused.MemoRefused.TheVariants.{Memory};

    ghost from_gives = { λ _ e. e ≡ Memory };

    fn from(_error: NoMemory) -> MemoRefused {
        MemoRefused::Memory
    }
}
