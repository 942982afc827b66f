//! What a client keeps.

use crate::outcome::ClientOutcome;
use crate::plan::Task;
use end_links::{Link, ShortActions};
use ntlm_seal::Session;
use rpc_units::Joiner;
use wire_base::Units;

/// What is agreed once the AUTHENTICATE is made.
#[derive(Drop)]
pub struct Terms {
    /// The exported session key (MS-NLMP 3.1.5.1.2).
    pub key: [u8; 16],
    /// The bytes that the member receives in a unit.
    pub receive: u16,
    /// The session at the levels integrity and privacy.
    pub session: Option<Session>,
}

/// A call whose response is waited for.
#[derive(Debug, Drop)]
pub enum Question {
    /// WhoAmI, which is call 2.
    Who,
    /// Echo, which is call 3, with the name that WhoAmI gave.
    Echo(Units),
}

/// What is waited for on the link.
#[derive(Drop)]
pub enum Phase {
    /// The answer to the bind, which is call 1.
    Bound,
    /// The response to a call.
    Asked(Terms, Question),
}

/// What is said on the link: its number, the fragments that came, and what is waited for.
#[derive(Drop)]
pub struct Talk {
    pub link: u32,
    pub joiner: Joiner,
    pub phase: Phase,
}

/// A client's link, as far as it has one.
#[derive(Drop)]
pub enum ClientLink {
    /// The client has no link: it hasn't begun, or it has its outcome.
    Idle,
    /// The client's dial waits.
    Dialling,
    /// The client's link is open.
    On(Link<Talk>),
}

/// A client that isn't stopped.
#[derive(Drop)]
pub struct Running {
    pub task: Task,
    pub standing: ClientLink,
}

/// A client at work on an event, at a moment in units of 100 ns since 1601-01-01.
#[derive(Drop)]
pub struct Work {
    pub task: Task,
    pub now: u64,
    pub outcome: Option<ClientOutcome>,
    pub actions: ShortActions,
}

/// What an event comes to.
#[derive(Drop)]
pub struct After {
    pub standing: ClientLink,
    pub work: Work,
}
