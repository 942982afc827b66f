//! How a reply is judged.

ghost use Rattle.std.specs.Prelude.{◌≡◌, ◌==◌};
ghost use Rattle.logon_stubs.specs.Status.{access_denied};
ghost use Rattle.channel_client.specs.Machine.{judge_challenge, judge_credential, judge_auth, judge_status, judge_return, judge_logon, judge, judge_set, judge_set_return};
ghost use Rattle.channel_client.specs.Sealed.{judge_opening, judge_sealed, judge_secure_auth, judge_secure_credential};

use crate::sealing::{NEEDED_SECURE_FLAGS, SECURE_FLAGS};
use crate::state::{Question, Standing};
use authenticators::SecureChannel;
use channel_keys::{RC4, SUPPORTED_FLAGS, cred, crypt_key, session_key};
use logon_stubs::{
    AuthReply, ChallengeReply, LogonReply, Reply, STATUS_ACCESS_DENIED, SamInfo, Verdict,
};
use ntlm_flags::has_flag;
use outside::DropCause;
use secret_change::SetReply;
use wire_base::Authenticator;

/// What a reply comes to.
#[derive(Drop)]
pub enum Judgement {
    /// Both challenges are known: the client's and the server's.
    Half([u8; 8], [u8; 8]),
    /// The channel opens.
    Opened(SecureChannel),
    /// The channel stays open, and the logon has its verdict.
    Answer(SecureChannel, Verdict),
    /// The turn ends without an answer.
    Drop(DropCause),
}

/// What the reply to a question comes to, by how far the channel is.
pub(crate) fn judge(
    question: Question,
    reply: Reply,
    standing: Standing,
    secret: [u8; 16],
) -> Judgement
    ensures { result ≡ judge question reply standing secret }
{
    match (question, reply) {
        (Question::Challenge(client), Reply::Challenge(reply)) => judge_challenge(reply, client),
        (Question::Authenticate, Reply::Authenticate(reply)) => judge_auth(reply, standing, secret),
        (Question::Logon, Reply::Logon(reply)) => judge_logon(reply, standing),
        _ => Judgement::Drop(DropCause::BadReply),
    }
}

/// What a reply comes to on a channel that seals: as `judge` has it, but that it needs secure RPC granted.
pub(crate) fn judge_sealed(
    question: Question,
    reply: Reply,
    standing: Standing,
    secret: [u8; 16],
) -> Judgement
    ensures { result ≡ judge_sealed question reply standing secret }
{
    match question {
        Question::Authenticate => judge_opening(reply, standing, secret),
        Question::Challenge(client) => judge(Question::Challenge(client), reply, standing, secret),
        Question::Logon => judge(Question::Logon, reply, standing, secret),
    }
}

/// What the reply to NetrServerAuthenticate2 comes to, where it is one.
fn judge_opening(reply: Reply, standing: Standing, secret: [u8; 16]) -> Judgement
    ensures { result ≡ judge_opening reply standing secret }
{
    match reply {
        Reply::Authenticate(reply) => judge_secure_auth(reply, standing, secret),
        Reply::Challenge(_) | Reply::Logon(_) | Reply::Logoff(_) => {
            Judgement::Drop(DropCause::BadReply)
        }
    }
}

/// What the reply to NetrServerAuthenticate2 comes to on a channel that seals.
fn judge_secure_auth(reply: AuthReply, standing: Standing, secret: [u8; 16]) -> Judgement
    ensures { result ≡ judge_secure_auth (reply.status == 0) standing secret
        reply.credential reply.flags }
{
    if reply.status != 0 {
        return Judgement::Drop(DropCause::Denied);
    }
    match standing {
        Standing::Half { client, server } => {
            let key = session_key(secret, client, server, SECURE_FLAGS);
            let right = reply.credential == cred(key, server);
            judge_secure_credential(right, secret, client, server, reply.flags)
        }
        Standing::Nothing | Standing::Open(_) => Judgement::Drop(DropCause::NotNext),
    }
}

/// What a right or wrong credential of the server comes to on a channel that seals, with the flags that it grants.
fn judge_secure_credential(
    right: bool,
    secret: [u8; 16],
    client: [u8; 8],
    server: [u8; 8],
    flags: u32,
) -> Judgement
    ensures { result ≡ judge_secure_credential right secret client server flags }
{
    if !right {
        return Judgement::Drop(DropCause::NotNext);
    }
    if has_flag(SECURE_FLAGS, flags) && has_flag(flags, NEEDED_SECURE_FLAGS) {
        return Judgement::Opened(SecureChannel::new(secret, client, server, SECURE_FLAGS));
    }
    Judgement::Drop(DropCause::BadReply)
}

/// What the reply to NetrServerReqChallenge comes to.
fn judge_challenge(reply: ChallengeReply, client: [u8; 8]) -> Judgement
    ensures { result ≡ judge_challenge (reply.status == 0) client reply.challenge }
{
    if reply.status != 0 {
        return Judgement::Drop(DropCause::Denied);
    }
    Judgement::Half(client, reply.challenge)
}

/// What the reply to NetrServerAuthenticate2 comes to.
fn judge_auth(reply: AuthReply, standing: Standing, secret: [u8; 16]) -> Judgement
    ensures { result ≡ judge_auth (reply.status == 0) standing secret reply.credential reply.flags }
{
    if reply.status != 0 {
        return Judgement::Drop(DropCause::Denied);
    }
    match standing {
        Standing::Half { client, server } => {
            let key = session_key(secret, client, server, SUPPORTED_FLAGS);
            let right = reply.credential == cred(key, server);
            judge_credential(right, secret, client, server, reply.flags)
        }
        Standing::Nothing | Standing::Open(_) => Judgement::Drop(DropCause::NotNext),
    }
}

/// What a right or wrong credential of the server comes to, with the flags that it grants.
fn judge_credential(
    right: bool,
    secret: [u8; 16],
    client: [u8; 8],
    server: [u8; 8],
    flags: u32,
) -> Judgement
    ensures { result ≡ judge_credential right secret client server flags }
{
    if !right {
        return Judgement::Drop(DropCause::NotNext);
    }
    if has_flag(SUPPORTED_FLAGS, flags) && has_flag(flags, RC4) {
        return Judgement::Opened(SecureChannel::new(secret, client, server, SUPPORTED_FLAGS));
    }
    Judgement::Drop(DropCause::BadReply)
}

/// What the reply to NetrLogonSamLogon comes to.
fn judge_logon(reply: LogonReply, standing: Standing) -> Judgement
    ensures { result ≡ judge_logon (reply.status == access_denied) standing
        reply.returned reply.status reply.level reply.info }
{
    if reply.status == STATUS_ACCESS_DENIED {
        return Judgement::Drop(DropCause::Denied);
    }
    match standing {
        Standing::Open(opened) => judge_return(
            reply.returned,
            reply.status,
            reply.level,
            reply.info,
            opened,
        ),
        Standing::Nothing | Standing::Half { .. } => Judgement::Drop(DropCause::NotNext),
    }
}

/// What it comes to on an open channel, by the authenticator that is returned.
fn judge_return(
    returned: Option<Authenticator>,
    status: u32,
    level: u16,
    info: Option<SamInfo>,
    opened: SecureChannel,
) -> Judgement
    ensures { result ≡ judge_return returned status level info opened }
{
    let Some(returned) = returned else {
        return Judgement::Drop(DropCause::NotNext);
    };
    let mut opened = opened;
    if !opened.take_return(returned.credential) {
        return Judgement::Drop(DropCause::NotNext);
    }
    judge_status(status, level, info, opened)
}

/// What it comes to once the return credential was compared.
fn judge_status(status: u32, level: u16, info: Option<SamInfo>, opened: SecureChannel) -> Judgement
    ensures { result ≡ judge_status (status == 0) status level info opened }
{
    if status != 0 {
        return Judgement::Answer(opened, Verdict::Status(status));
    }
    match info {
        Some(info) if level == 3 => {
            let key = crypt_key(opened.key(), info.key);
            Judgement::Answer(opened, Verdict::Granted(SamInfo { key, ..info }))
        }
        _ => Judgement::Drop(DropCause::BadReply),
    }
}

/// What the reply to NetrServerPasswordSet comes to, by how far the channel is: the channel, where the secret is set.
pub(crate) fn judge_set(reply: SetReply, standing: Standing) -> Result<SecureChannel, DropCause>
    ensures { result ≡ judge_set reply standing }
{
    if reply.status != 0 {
        return Err(DropCause::Denied);
    }
    judge_set_return(reply.returned, standing)
}

/// What a reply to NetrServerPasswordSet of status 0 comes to, by the authenticator that is returned.
fn judge_set_return(returned: Authenticator, standing: Standing) -> Result<SecureChannel, DropCause>
    ensures { result ≡ judge_set_return standing returned }
{
    let Standing::Open(opened) = standing else {
        return Err(DropCause::NotNext);
    };
    let mut opened = opened;
    if opened.take_return(returned.credential) {
        return Ok(opened);
    }
    Err(DropCause::NotNext)
}
