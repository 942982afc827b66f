//! What a controller keeps of computers.

use authenticators::SecureChannel;
use end_links::ShortActions;
use interactive_logon::Sessions;
use wire_base::{List, Units};

/// The challenges of a NetrServerReqChallenge, which wait for a NetrServerAuthenticate2: the client's and the server's
/// (MS-NRPC 3.1.4.1).
#[derive(Clone, Copy, Debug, PartialEq, Eq)]
pub struct ChallengePair {
    pub client: [u8; 8],
    pub server: [u8; 8],
}

/// What is kept of computers, by their names without case: the challenges that wait, the channels that are open, and
/// the sessions of users who logged on at them.
#[derive(Drop)]
pub struct Computers {
    pub pending: List<(Units, ChallengePair)>,
    pub channels: List<(Units, SecureChannel)>,
    pub sessions: Sessions,
}

/// What a controller at work has beside its accounts and its links: what it keeps of computers, and its actions so far.
#[derive(Drop)]
pub struct Work {
    pub computers: Computers,
    pub actions: ShortActions,
}
