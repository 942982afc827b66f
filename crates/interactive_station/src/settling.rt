//! What a reply comes to for a station.

ghost use Rattle.std.specs.Prelude.{◌≡◌, IfOk};
ghost use Rattle.logon_stubs.specs.declared.calls.Reply.TheVariants as replies;
ghost use Rattle.interactive_station.specs.declared.state.StationCall.TheVariants as calls;
ghost use Rattle.interactive_station.specs.Machine.{granted, is_return, settle, settle_logoff};
ghost use Rattle.authenticators.specs.SecureChannels.{after_return};

use crate::outcome::StationOutcome;
use crate::state::{StationCall, StationWork};
use crate::working::{close, dial, end_by, fail, tell};
use authenticators::{SecureChannel, timestamp_at};
use channel_keys::{RC4, SUPPORTED_FLAGS, cred, crypt_key, session_key};
use logon_stubs::{
    AuthReply, ChallengeReply, LogoffReply, LogonReply, Reply, STATUS_ACCESS_DENIED, SamInfo,
};
use ntlm_flags::has_flag;
use outside::{Action, CloseCause, DropCause, Outcome};
use std::alloc::Global;
use wire_base::{Authenticator, NoMemory, Units};

/// What the reply to a call comes to: the link is closed, and the next one is dialled, or that is the outcome. A reply
/// to another call is judged as one that isn't of its layout.
pub(crate) fn settle(
    alloc: Global,
    asked: StationCall,
    reply: Reply,
    link: u32,
    work: StationWork,
) -> Result<StationWork, NoMemory>
    ensures { IfOk result (λ w. w ≡ settle asked reply link work) }
{
    match (asked, reply) {
        (StationCall::Challenge(client), Reply::Challenge(reply)) => {
            settle_challenge(alloc, reply, client, link, work)
        }
        (StationCall::Authenticate(client, server), Reply::Authenticate(reply)) => {
            settle_auth(alloc, reply, client, server, link, work)
        }
        (StationCall::Logon(channel, authenticator), Reply::Logon(reply)) => {
            settle_logon(alloc, reply, channel, authenticator, link, work)
        }
        (StationCall::Logoff(channel, _, domain, user), Reply::Logoff(reply)) => {
            settle_logoff(reply, channel, domain, user, link, work)
        }
        _ => fail(DropCause::BadReply, link, work),
    }
}

/// What the reply to NetrServerReqChallenge comes to.
fn settle_challenge(
    alloc: Global,
    reply: ChallengeReply,
    client: [u8; 8],
    link: u32,
    work: StationWork,
) -> Result<StationWork, NoMemory>
    ensures { IfOk result (λ w. w
        ≡ settle (calls.Challenge client) (replies.Challenge reply) link work) }
{
    if reply.status != 0 {
        return fail(DropCause::Denied, link, work);
    }
    let next = StationCall::Authenticate(client, reply.challenge);
    dial(alloc, next, close(link, work)?)
}

/// What the reply to NetrServerAuthenticate2 comes to.
fn settle_auth(
    alloc: Global,
    reply: AuthReply,
    client: [u8; 8],
    server: [u8; 8],
    link: u32,
    work: StationWork,
) -> Result<StationWork, NoMemory>
    ensures { IfOk result (λ w. w
        ≡ settle (calls.Authenticate client server) (replies.Authenticate reply) link work) }
{
    if reply.status != 0 {
        return fail(DropCause::Denied, link, work);
    }
    let secret = work.task.plan().secret;
    let key = session_key(secret, client, server, SUPPORTED_FLAGS);
    if reply.credential != cred(key, server) {
        return fail(DropCause::NotNext, link, work);
    }
    if !(has_flag(SUPPORTED_FLAGS, reply.flags) && has_flag(reply.flags, RC4)) {
        return fail(DropCause::BadReply, link, work);
    }
    let channel = SecureChannel::new(secret, client, server, SUPPORTED_FLAGS);
    let next = StationCall::logon(channel, timestamp_at(work.now));
    dial(alloc, next, close(link, work)?)
}

/// The user is logged on: that is told, and the logoff is dialled for.
fn grant(
    alloc: Global,
    info: SamInfo,
    channel: SecureChannel,
    link: u32,
    work: StationWork,
) -> Result<StationWork, NoMemory>
    ensures { IfOk result (λ w. w ≡ granted info channel link work) }
{
    let told = Outcome::In {
        domain: info.domain.duplicate(alloc)?,
        user: info.effective_name.duplicate(alloc)?,
        key: info.key,
    };
    let timestamp = timestamp_at(work.now);
    let next = StationCall::logoff(channel, timestamp, info.domain, info.effective_name);
    dial(
        alloc,
        next,
        tell(close(link, work)?, Action::Told(link, told))?,
    )
}

/// What the reply to the Logon comes to.
fn settle_logon(
    alloc: Global,
    reply: LogonReply,
    channel: SecureChannel,
    authenticator: Authenticator,
    link: u32,
    work: StationWork,
) -> Result<StationWork, NoMemory>
    ensures { IfOk result (λ w. w
        ≡ settle (calls.Logon channel authenticator) (replies.Logon reply) link work) }
{
    if reply.status == STATUS_ACCESS_DENIED {
        return fail(DropCause::Denied, link, work);
    }
    let mut channel = channel;
    if !takes_return(&mut channel, reply.returned) {
        return fail(DropCause::NotNext, link, work);
    }
    if reply.status != 0 {
        let outcome = StationOutcome::Refused(reply.status);
        return end_by(CloseCause::CallDone, outcome, link, work);
    }
    match reply.info {
        Some(info) if reply.level == 3 => {
            let key = crypt_key(channel.key(), info.key);
            grant(alloc, SamInfo { key, ..info }, channel, link, work)
        }
        _ => fail(DropCause::BadReply, link, work),
    }
}

/// What the reply to the Logoff comes to.
fn settle_logoff(
    reply: LogoffReply,
    channel: SecureChannel,
    domain: Units,
    user: Units,
    link: u32,
    work: StationWork,
) -> Result<StationWork, NoMemory>
    ensures { IfOk result (λ w. w
        ≡ settle_logoff (replies.Logoff reply) channel domain user link work) }
{
    if reply.status == STATUS_ACCESS_DENIED {
        return fail(DropCause::Denied, link, work);
    }
    let mut channel = channel;
    if !takes_return(&mut channel, reply.returned) {
        return fail(DropCause::NotNext, link, work);
    }
    if reply.status != 0 {
        let outcome = StationOutcome::Refused(reply.status);
        return end_by(CloseCause::CallDone, outcome, link, work);
    }
    let outcome = StationOutcome::Off { domain, user };
    end_by(CloseCause::CallDone, outcome, link, work)
}

/// Whether the authenticator that is returned has the credential that the channel awaits, which then awaits none.
fn takes_return(channel: &mut SecureChannel, returned: Option<Authenticator>) -> bool
    ensures answer { result ≡ is_return channel.old returned }
    ensures channel { channel.new ≡ after_return result channel.old }
{
    match returned {
        Some(returned) => channel.take_return(returned.credential),
        None => false,
    }
}
