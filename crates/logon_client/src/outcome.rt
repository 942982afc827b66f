//! How a client's logon ends.

use outside::DropCause;
use wire_base::Units;

/// The outcome of a client (this project's own choice).
#[derive(Debug, Drop)]
pub enum ClientOutcome {
    /// The client is logged on: the name that the member tells, as units of UTF-16, the exported session key (MS-NLMP
    /// 3.1.5.1.2), and how many bytes came back.
    In {
        name: Units,
        key: [u8; 16],
        echoed: u32,
    },
    /// The member refused it.
    Refused(RefusedCause),
    /// No answer came.
    NoAnswer(NoAnswerCause),
    /// The member answered wrongly.
    BadPeer(PeerFault),
}

/// Why a logon was refused.
#[derive(Clone, Copy, Debug, PartialEq, Eq)]
pub enum RefusedCause {
    /// The response doesn't verify, where a command checks one.
    Response,
    /// The bind was refused, for this reason (C706 12.6.4.5).
    Nak(u16),
    /// The context was refused, for this reason (C706 12.6.3.1).
    Rejected(u16),
    /// The CHALLENGE lacks a flag that the logon needs.
    WeakOffer,
    /// A fault of this status (C706 12.6.4.7).
    Fault(u32),
    /// A domain controller refused a workstation's logon or logoff, with this NTSTATUS (MS-ERREF 2.3).
    Status(u32),
}

/// Why no answer came.
#[derive(Clone, Copy, Debug, PartialEq, Eq)]
pub enum NoAnswerCause {
    /// The dial failed.
    DialFailed,
    /// The link was closed.
    LinkClosed,
    /// The member found no controller.
    NoController,
}

/// What was wrong in an answer.
#[derive(Clone, Copy, Debug, PartialEq, Eq)]
pub enum PeerFault {
    /// A header or a unit was refused.
    BadUnit,
    /// A unit came that has no place there, or that answers another call.
    OutOfPlace,
    /// The CHALLENGE isn't there or is refused, or its answer fits no unit.
    BadMessage,
    /// A response isn't signed or sealed as it should be.
    BadSeal,
    /// A response doesn't say what was asked.
    BadReply,
    /// A domain controller denied a workstation its channel or a call on it, or answered it wrongly, for this cause.
    Station(DropCause),
}
