//! NetrLogonSamLogon.

ghost use Rattle.std.specs.Prelude.{◌≡◌, ◌≤◌, ◌++◌, IfOk, OnErr, OnOk, Some, length};
ghost use Rattle.std.specs.Option.{option_to_list};
ghost use Rattle.account_table.specs.Changes.{with_changes};
ghost use Rattle.logon_stubs.specs.Ranges.{HasShortTexts, IsShortReply};
ghost use Rattle.logon_stubs.specs.Writing.{CanWriteArm, CanWriteReply, CanWriteSamInfo, written_reply};
ghost use Rattle.outside.specs.declared.action.Action.TheVariants as action;
ghost use Rattle.outside.specs.declared.action.Judged.TheVariants as judged;
ghost use Rattle.sam_logon.specs.Verdict.{IfGranted};
ghost use Rattle.controller_calls.specs.Desk.{desk, tell};
ghost use Rattle.controller_calls.specs.Doing.{refused_logon_stub};
ghost use Rattle.controller_calls.specs.Logons.{IsServedLevel, reply_info, reply_to, status_of, serves_level, judge_info};
ghost use Rattle.controller_calls.specs.Stubs.{network_unsent};
ghost use Rattle.controller_calls.specs.Unsent.{replies};

use crate::replying::{reply_stub, tell};
use crate::state::Work;
use account_table::{Table, TableChange, TableChanges};
use channel_keys::crypt_key;
use logon_stubs::{
    LogonReply, NetworkInfo, Reply, STATUS_ACCESS_DENIED, STATUS_INVALID_INFO_CLASS, SamInfo,
    Verdict,
};
use outside::{Action, Judged};
use sam_logon::{Weighed, at_level, weigh_logon};
use std::alloc::Global;
use wire_base::{Authenticator, Blob, Name, NoMemory};

/// The stub of the reply without a channel and an authenticator that passes: nothing is returned.
pub(crate) fn refused_logon_stub(alloc: Global, validation: u16) -> Result<Blob, NoMemory>
    ensures value { IfOk result (λ stub. stub ≡ refused_logon_stub validation) }
    ensures short { IfOk result (λ stub. length stub ≤ 65536) }
{
    let answer = Reply::Logon(LogonReply {
        returned: None,
        level: validation,
        info: None,
        authoritative: 1,
        status: STATUS_ACCESS_DENIED,
    });
    reply_stub(alloc, &answer)
}

/// What comes of a network logon whose authenticator passes: it is judged at a moment, the verdict is told, and stands
/// in the stub of the reply.
pub(crate) fn pass_network(
    alloc: Global,
    table: &Table,
    changes: &mut TableChanges,
    name: &Name,
    now: u64,
    info: &NetworkInfo,
    validation: u16,
    key: [u8; 16],
    credential: [u8; 8],
    work: Work,
) -> Result<(Work, Blob), NoMemory>
    ensures value { IfOk result (λ done.
        replies (desk (with_changes changes.new table.now) done.0) done.1 ≡ network_unsent
        name.now now info.now validation key credential
        (desk (with_changes changes.old table.now) work)) }
    ensures short { IfOk result (λ done. length done.1 ≤ 65536) }
{
    let verdict = verdict_at(alloc, table, changes, name, now, info, validation)?;
    pass_logon(alloc, verdict, validation, key, credential, work)
}

/// The verdict, at a validation level, and behind the changes what it changes. What is granted can be written, has
/// short texts, and is granted at a level that is served.
#[tactic(auto, using(crate::proofs::ChangeLaws::noting))]
fn verdict_at(
    alloc: Global,
    table: &Table,
    changes: &mut TableChanges,
    name: &Name,
    now: u64,
    info: &NetworkInfo,
    validation: u16,
) -> Result<Verdict, NoMemory>
    ensures value { IfOk result (λ verdict.
        record { verdict = verdict; table = with_changes changes.new table.now }
        ≡ judge_info (with_changes changes.old table.now) name.now now info.now validation) }
    ensures writable { IfOk result (λ verdict. IfGranted verdict CanWriteSamInfo) }
    ensures short { IfOk result (λ verdict. IfGranted verdict HasShortTexts) }
    ensures level { IfOk result (λ verdict. IfGranted verdict (λ info. IsServedLevel validation)) }
{
    if !serves_level(validation) {
        return Ok(Verdict::Status(STATUS_INVALID_INFO_CLASS));
    }
    let Weighed { verdict, change } = weigh_logon(alloc, table, changes, name, info, now)?;
    note_change(change, changes)?;
    Ok(verdict)
}

/// Whether logons are judged at the validation level.
pub(crate) fn serves_level(validation: u16) -> bool
    ensures { result ≡ serves_level validation }
{
    matches!(validation, 2 | 3)
}

/// The change is one more, where there is one. Without memory the changes are as they were.
pub(crate) fn note_change(
    change: Option<TableChange>,
    changes: &mut TableChanges,
) -> Result<(), NoMemory>
    ensures noted { OnOk result (changes.new ≡ changes.old ++ option_to_list change) }
    ensures unchanged { OnErr result (changes.new ≡ changes.old) }
{
    match change {
        Some(change) => changes.push(change),
        None => Ok(()),
    }
}

/// The verdict is told, and stands in the stub of the reply, with what is granted.
pub(crate) fn pass_logon(
    alloc: Global,
    verdict: Verdict,
    validation: u16,
    key: [u8; 16],
    credential: [u8; 8],
    work: Work,
) -> Result<(Work, Blob), NoMemory>
    requires writable { IfGranted verdict CanWriteSamInfo }
    requires short { IfGranted verdict HasShortTexts }
    requires level { IfGranted verdict (λ info. IsServedLevel validation) }
    ensures work { IfOk result (λ done.
        done.0 ≡ tell work (action.Judged (judged.Passed (status_of verdict)))) }
    ensures stub { IfOk result (λ done.
        done.1 ≡ written_reply (reply_to verdict validation key credential)) }
    ensures short { IfOk result (λ done. length done.1 ≤ 65536) }
{
    let work = tell(work, Action::Judged(Judged::Passed(status_of(&verdict))))?;
    let answer = reply_to(alloc, verdict, validation, key, credential);
    let stub = reply_stub(alloc, &answer)?;
    Ok((work, stub))
}

/// The status of a verdict; 0 of what is granted.
pub(crate) fn status_of(verdict: &Verdict) -> u32
    ensures { result ≡ status_of verdict.now }
{
    match verdict {
        Verdict::Granted(_) => 0,
        Verdict::Status(status) => *status,
    }
}

/// The reply that carries the verdict at the level, and returns the credential.
pub(crate) fn reply_to(
    alloc: Global,
    verdict: Verdict,
    validation: u16,
    key: [u8; 16],
    credential: [u8; 8],
) -> Reply
    requires writable { IfGranted verdict CanWriteSamInfo }
    requires level { IfGranted verdict (λ info. IsServedLevel validation) }
    ensures value { result ≡ reply_to verdict validation key credential }
    ensures writable { CanWriteReply result }
    ensures short { IfGranted verdict HasShortTexts → IsShortReply result }
{
    let (status, info) = match verdict {
        Verdict::Granted(info) => (0, Some(reply_info(alloc, info, validation, key))),
        Verdict::Status(status) => (status, None),
    };
    Reply::Logon(LogonReply {
        returned: Some(Authenticator {
            credential,
            timestamp: 0,
        }),
        level: validation,
        info,
        authoritative: 1,
        status,
    })
}

/// What a reply at the level carries of what is granted, with its key hidden under the session key.
fn reply_info(alloc: Global, info: SamInfo, validation: u16, key: [u8; 16]) -> SamInfo
    requires writable { CanWriteSamInfo info }
    requires level { IsServedLevel validation }
    ensures value { result ≡ reply_info validation key info }
    ensures writable { CanWriteArm validation (Some result) }
    ensures short { HasShortTexts info → HasShortTexts result }
{
    let key = crypt_key(key, info.key);
    SamInfo {
        key,
        ..at_level(alloc, info, validation)
    }
}
