//! How a station's logon ends.

use outside::DropCause;
use wire_base::Units;

/// The outcome of a station (this project's own choice).
#[derive(Debug, Drop)]
pub enum StationOutcome {
    /// The user was logged on, with these names, and is logged off.
    Off { domain: Units, user: Units },
    /// The controller refused the logon or the logoff, with this NTSTATUS.
    Refused(u32),
    /// No answer came.
    NoAnswer(NoStation),
    /// The controller denied the channel or a call on it, or answered wrongly.
    BadPeer(DropCause),
}

/// Why no answer came.
#[derive(Clone, Copy, Debug, PartialEq, Eq)]
pub enum NoStation {
    /// A dial failed.
    DialFailed,
    /// A link was closed.
    LinkClosed,
}
