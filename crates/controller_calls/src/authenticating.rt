//! NetrServerAuthenticate2.

ghost use Rattle.std.specs.Prelude.{◌≡◌, IfOk, Err, Some};
ghost use Rattle.ntlm_flags.specs.Flags.{has_flag};
ghost use Rattle.channel_keys.specs.Flags.{rc4_flag};
ghost use Rattle.account_table.specs.Changes.{with_changes};
ghost use Rattle.controller_calls.specs.Desk.{IsLine};
ghost use Rattle.controller_calls.specs.Granting.{answer_granting, answer_opened, channel_opened, opened_offer, opened_with, seals_opened, secure_flags};
ghost use Rattle.controller_calls.specs.Opening.{answer_authenticate};

use crate::computers::{put_channel, take_pair};
use crate::line::Line;
use crate::replying::send_reply;
use crate::seals::{ChannelSeals, after_opening, no_seals};
use crate::standing::hash_for;
use crate::state::{ChallengePair, Work};
use account_table::{Table, TableChanges};
use authenticators::SecureChannel;
use channel_keys::{RC4, SECURE_RPC, SUPPORTED_FLAGS, cred, granted_flags};
use logon_stubs::{
    AuthCall, AuthReply, Reply, STATUS_ACCESS_DENIED, STATUS_DOWNGRADE_DETECTED,
    STATUS_NO_TRUST_SAM_ACCOUNT,
};
use ntlm_flags::has_flag;
use std::alloc::Global;
use wire_base::NoMemory;

/// What a controller supports that can seal: secure RPC besides what every end does (MS-NRPC 3.1.4.2).
const SECURE_FLAGS: u32 = 0x4000_41ff;

/// Answers NetrServerAuthenticate2 (MS-NRPC 3.5.4.4.3), by the accounts as the changes leave them. The computer's
/// challenges are taken out, whatever comes of it.
#[tactic(auto, using(crate::proofs::SealLaws::grants_as_opened))]
pub fn answer_authenticate(
    alloc: Global,
    table: &Table,
    changes: &TableChanges,
    line: Line,
    call: AuthCall,
    work: Work,
) -> Result<Work, NoMemory>
    requires { IsLine line }
    ensures { IfOk result (λ w.
        w ≡ answer_authenticate (with_changes changes.now table.now) line call work) }
{
    // nothing is kept to seal
    let (work, _seals) = answer_granting(
        alloc,
        table,
        changes,
        SUPPORTED_FLAGS,
        line,
        call,
        no_seals(alloc),
        work,
    )?;
    Ok(work)
}

/// Answers NetrServerAuthenticate2 at a controller that can seal: it grants secure RPC too, and a channel with it
/// seals. What it keeps to seal comes back: an end of the new channel, in place of one of the computer's channel of
/// before.
pub fn answer_secure(
    alloc: Global,
    table: &Table,
    changes: &TableChanges,
    line: Line,
    call: AuthCall,
    seals: ChannelSeals,
    work: Work,
) -> Result<(Work, ChannelSeals), NoMemory>
    requires { IsLine line }
    ensures work { IfOk result (λ done. done.0
        ≡ answer_granting secure_flags (with_changes changes.now table.now) line call work) }
    ensures seals { IfOk result (λ done. done.1 ≡ seals_opened
        (channel_opened secure_flags (with_changes changes.now table.now) call work.computers)
        secure_flags call seals) }
{
    answer_granting(alloc, table, changes, SECURE_FLAGS, line, call, seals, work)
}

/// Answers NetrServerAuthenticate2 at an end that supports these flags.
#[tactic(auto, using(crate::proofs::HashLaws::hashing))]
fn answer_granting(
    alloc: Global,
    table: &Table,
    changes: &TableChanges,
    supported: u32,
    line: Line,
    call: AuthCall,
    seals: ChannelSeals,
    work: Work,
) -> Result<(Work, ChannelSeals), NoMemory>
    requires { IsLine line }
    ensures work { IfOk result (λ done. done.0
        ≡ answer_granting supported (with_changes changes.now table.now) line call work) }
    ensures seals { IfOk result (λ done. done.1 ≡ seals_opened
        (channel_opened supported (with_changes changes.now table.now) call work.computers)
        supported call seals) }
{
    let (work, pair) = take_pair(call.computer.units(), work);
    match hash_for(table, changes, &call) {
        Some(hash) => judge_offer(alloc, supported, hash, pair, line, call, seals, work),
        None => {
            let status = STATUS_NO_TRUST_SAM_ACCOUNT;
            let work = deny_channel(alloc, supported, work, line, call, status)?;
            Ok((work, seals))
        }
    }
}

/// A refusal: a credential of zeros.
fn deny_channel(
    alloc: Global,
    supported: u32,
    work: Work,
    line: Line,
    call: AuthCall,
    status: u32,
) -> Result<Work, NoMemory>
    requires { IsLine line }
    ensures { IfOk result (λ w. w ≡ answer_opened (Err status) supported line call work) }
{
    let answer = Reply::Authenticate(AuthReply {
        credential: [0; 8],
        flags: granted_flags(supported, call.flags),
        status,
    });
    send_reply(alloc, work, line, &answer)
}

/// What comes of it at an account of that hash, with the challenges that waited.
fn judge_offer(
    alloc: Global,
    supported: u32,
    hash: [u8; 16],
    pair: Option<ChallengePair>,
    line: Line,
    call: AuthCall,
    seals: ChannelSeals,
    work: Work,
) -> Result<(Work, ChannelSeals), NoMemory>
    requires { IsLine line }
    ensures work { IfOk result (λ done. done.0 ≡ answer_opened
        (opened_offer (has_flag call.flags rc4_flag) pair supported hash call)
        supported line call work) }
    ensures seals { IfOk result (λ done. done.1 ≡ seals_opened
        (opened_offer (has_flag call.flags rc4_flag) pair supported hash call)
        supported call seals) }
{
    if !has_flag(call.flags, RC4) {
        let status = STATUS_DOWNGRADE_DETECTED;
        let work = deny_channel(alloc, supported, work, line, call, status)?;
        return Ok((work, seals));
    }
    let Some(pair) = pair else {
        let status = STATUS_ACCESS_DENIED;
        let work = deny_channel(alloc, supported, work, line, call, status)?;
        return Ok((work, seals));
    };
    judge_pair(alloc, supported, hash, pair, line, call, seals, work)
}

/// What comes of the client's credential, on the channel that would open with these challenges.
fn judge_pair(
    alloc: Global,
    supported: u32,
    hash: [u8; 16],
    pair: ChallengePair,
    line: Line,
    call: AuthCall,
    seals: ChannelSeals,
    work: Work,
) -> Result<(Work, ChannelSeals), NoMemory>
    requires { IsLine line }
    ensures work { IfOk result (λ done. done.0 ≡ answer_opened
        (opened_with (Some pair) supported hash call) supported line call work) }
    ensures seals { IfOk result (λ done. done.1 ≡ seals_opened
        (opened_with (Some pair) supported hash call) supported call seals) }
{
    let flags = granted_flags(supported, call.flags);
    let channel = SecureChannel::new(hash, pair.client, pair.server, flags);
    let channel = channel.with_kind(call.channel);
    let key = channel.key();
    if call.credential != cred(key, pair.client) {
        let status = STATUS_ACCESS_DENIED;
        let work = deny_channel(alloc, supported, work, line, call, status)?;
        return Ok((work, seals));
    }
    let computer = call.computer.duplicate(alloc)?;
    let seals = after_opening(has_flag(flags, SECURE_RPC), computer, key, seals)?;
    let work = put_channel(call.computer, channel, work)?;
    let answer = Reply::Authenticate(AuthReply {
        credential: cred(key, pair.server),
        flags,
        status: 0,
    });
    let work = send_reply(alloc, work, line, &answer)?;
    Ok((work, seals))
}
