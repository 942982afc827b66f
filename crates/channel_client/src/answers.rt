//! What a channel's calls answer.

use crate::short_frames::ShortFrames;
use crate::turn::Turn;
use logon_stubs::Verdict;
use outside::DropCause;
use std::alloc::{AllocError, AllocFailed};
use thiserror::Error;
use wire_base::NoMemory;

/// What a unit comes to.
#[derive(Debug, Drop)]
pub enum Taken {
    /// The unit answers nothing that the turn waits for.
    Skip(Turn),
    /// The frames of the request, which go out now.
    Next(Turn, ShortFrames),
    /// Both challenges are known.
    Half,
    /// The channel is open.
    Opened,
    /// The verdict on the logon of that place, with its key in plain form.
    Answer(u32, Verdict),
    /// The logon of that place gets no answer, and the channel is none.
    Dropped(u32, DropCause),
    /// The account has the next secret. The logon that the turn was for waits on.
    Set,
}

/// Why a logon can't wait.
#[derive(Clone, Copy, Debug, PartialEq, Eq, Error)]
pub enum AskRefused {
    /// 64 logons wait, as many as may (this project's own choice).
    #[error("64 logons wait")]
    QueueFull,
    /// No memory was found.
    #[error("no memory")]
    Memory,
}

impl From<NoMemory> for AskRefused {
    ghost use Rattle.std.specs.Prelude.{◌≡◌};
    ghost use Rattle.channel_client.specs.declared.answers.AskRefused.TheVariants.{Memory};

    ghost from_gives = { λ _ e. e ≡ Memory };

    fn from(_error: NoMemory) -> AskRefused {
        AskRefused::Memory
    }
}

impl From<AllocError> for AskRefused {
    ghost use Rattle.std.specs.Prelude.{◌≡◌};
    ghost use Rattle.channel_client.specs.declared.answers.AskRefused.TheVariants.{Memory};

    ghost from_gives = { λ _ e. e ≡ Memory };

    fn from(_error: AllocError) -> AskRefused {
        AskRefused::Memory
    }
}

impl<T: Drop> From<AllocFailed<T>> for AskRefused {
    ghost use Rattle.std.specs.Prelude.{◌≡◌};
    ghost use Rattle.channel_client.specs.declared.answers.AskRefused.TheVariants.{Memory};

    ghost from_gives = { λ _ e. e ≡ Memory };

    fn from(_error: AllocFailed<T>) -> AskRefused {
        AskRefused::Memory
    }
}

/// Why a unit isn't taken.
#[derive(Debug, Drop, Error)]
pub enum TakeRefused {
    /// No memory was found. The turn is still out.
    #[error("no memory")]
    Memory(Turn),
}
