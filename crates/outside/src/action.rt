//! What an end asks of its outside, what it tells, and why it takes no step (this project's own choice).

use crate::chances::Spent;
use thiserror::Error;
use wire_base::{Blob, List, NoMemory, Units};

/// What an end asks for, or tells. The number is a link.
#[derive(Debug, Drop)]
pub enum Action {
    /// Write the bytes to the file of secrets, before all that follows.
    Keep(Blob),
    /// Send the bytes on the link.
    Send(u32, Blob),
    /// Dial the peer of this address.
    Dial(Blob),
    /// Close the link.
    Close(u32, CloseCause),
    /// How the logon on the link ended.
    Told(u32, Outcome),
    /// How a call on a secure channel was judged, by its authenticator.
    Judged(Judged),
}

/// Actions, in order.
pub type Actions = List<Action>;

/// Why an end closes a link.
#[derive(Clone, Copy, Debug, PartialEq, Eq)]
pub enum CloseCause {
    /// A header or a unit was refused.
    BadUnit,
    /// A unit came that has no place there.
    OutOfPlace,
    /// As many accepted links are open as an end may have.
    TooManyLinks,
    /// More bytes would be held than a link may hold.
    TooMuchHeld,
    /// A message, a trailer or a signature isn't the one that is due.
    BadAuthentication,
    /// Nothing more is due on it.
    CallDone,
}

/// How the logon on a link ended.
#[derive(Debug, Drop)]
pub enum Outcome {
    /// The domain granted it: the domain and the user as UTF-16 units, and the exported session key (MS-NLMP
    /// 3.2.5.1.2).
    In {
        domain: Units,
        user: Units,
        key: [u8; 16],
    },
    /// The domain refused it, with this NTSTATUS.
    Out(u32),
    /// No controller gave an answer.
    NoController(DropCause),
}

/// Why a logon got no answer from a controller.
#[derive(Clone, Copy, Debug, PartialEq, Eq)]
pub enum DropCause {
    /// As many logons wait as may.
    QueueFull,
    /// The dial failed.
    DialFailed,
    /// The link was closed.
    LinkClosed,
    /// The bind was refused.
    Bind,
    /// The call was answered by a fault of this status (C706 12.6.4.7).
    Fault(u32),
    /// The controller denied the channel, or the call on it.
    Denied,
    /// The credential returned isn't the one that is due (MS-NRPC 3.1.4.5).
    NotNext,
    /// The answer isn't one to the call.
    BadReply,
    /// What came on a sealed link doesn't open, or nothing more can be sealed on it.
    BadSeal,
}

/// How a controller judged the authenticator of a logon call (MS-NRPC 3.1.4.5).
#[derive(Clone, Copy, Debug, PartialEq, Eq)]
pub enum Judged {
    /// The call passed, and the reply has this NTSTATUS.
    Passed(u32),
    /// The call passed, and its logon is asked of a controller of another domain.
    Forwarded,
    /// A logon that was asked of a controller of another domain has come to this NTSTATUS.
    Answered(u32),
    /// The call isn't the next one of its channel.
    Barred,
    /// There is no channel, or the call names none.
    NoChannel,
}

/// Why an end took no step. After `Spent` and `Memory` it answers `Stopped` for ever.
#[derive(Clone, Copy, Debug, PartialEq, Eq, Error)]
pub enum StepRefused {
    /// The step draws more challenges than were left.
    #[error("challenges spent")]
    Spent,
    /// No memory was found.
    #[error("no memory")]
    Memory,
    /// An earlier step found no challenge or no memory.
    #[error("stopped before")]
    Stopped,
}

impl From<NoMemory> for StepRefused {
    ghost use Rattle.std.specs.Prelude.{◌≡◌};
    ghost use Rattle.outside.specs.declared.action.StepRefused.TheVariants.{Memory};

    ghost from_gives = { λ _ refused. refused ≡ Memory };

    fn from(_error: NoMemory) -> StepRefused {
        StepRefused::Memory
    }
}

impl From<Spent> for StepRefused {
    ghost use Rattle.std.specs.Prelude.{◌≡◌};
    ghost use Rattle.outside.specs.declared.action.StepRefused.TheVariants as refusals;

    ghost from_gives = { λ _ refused. refused ≡ refusals.Spent };

    fn from(_error: Spent) -> StepRefused {
        StepRefused::Spent
    }
}
