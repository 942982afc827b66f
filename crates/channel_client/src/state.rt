//! What a channel keeps.

use authenticators::SecureChannel;
use logon_stubs::{Call, NetworkInfo};
use netlogon_seal::NlSeal;
use secret_change::SetCall;
use wire_base::Blob;

/// How far the channel is (MS-NRPC 3.1.4.1).
#[derive(Drop)]
pub enum Standing {
    /// No channel.
    Nothing,
    /// Both challenges are known, and no credential was compared yet.
    Half { client: [u8; 8], server: [u8; 8] },
    /// An open channel.
    Open(SecureChannel),
}

/// A request that waits for its reply, by what the reply is judged by.
#[derive(Clone, Copy, Debug, PartialEq, Eq)]
pub enum Question {
    /// NetrServerReqChallenge, with the client's challenge that it carried.
    Challenge([u8; 8]),
    /// NetrServerAuthenticate2.
    Authenticate,
    /// NetrLogonSamLogon.
    Logon,
}

/// What a turn waits for.
#[derive(Drop)]
pub enum Step {
    /// The answer to the bind, behind which this call goes out.
    Bind(Call),
    /// The reply to the request.
    Reply(Question),
    /// What is waited for in a turn that sets a secret.
    Set(SetStep),
}

/// What a turn waits for that sets a secret.
#[derive(Drop)]
pub enum SetStep {
    /// The answer to the bind, behind which this call goes out.
    Bind(SetCall),
    /// The reply to the request.
    Reply,
}

/// The turn that is out: the number of the bind or request whose answer it waits for, the place of the logon that it is
/// for, and what it waits for.
#[derive(Drop)]
pub struct Pending {
    pub number: u32,
    pub place: u32,
    pub step: Step,
}

/// A logon that waits, and its place: the number, counted from 0 modulo 2^32, of the logons that were let wait before
/// it.
#[derive(Debug, Drop)]
pub struct Waiting {
    pub place: u32,
    pub info: NetworkInfo,
}

/// What seals the units of a channel that is one that seals (MS-NRPC 3.3): what its binds tell, the confounder of the
/// call that is out, and the end of the channel that was opened last. Before that, the end is one that seals nothing.
#[derive(Drop)]
pub struct Sealing {
    pub bind_value: Blob,
    pub confounder: [u8; 8],
    pub seal: NlSeal,
}
