//! NetrLogonSamLogon with an interactive logon, and NetrLogonSamLogoff.

ghost use Rattle.std.specs.Prelude.{◌≡◌, ◌≤◌, ◌==◌, IfOk, Some, length};
ghost use Rattle.account_table.specs.Changes.{with_changes};
ghost use Rattle.logon_stubs.specs.Ranges.{HasShortTexts};
ghost use Rattle.logon_stubs.specs.Writing.{CanWriteSamInfo, written_reply};
ghost use Rattle.logon_stubs.specs.declared.calls.Reply.TheVariants as reply;
ghost use Rattle.outside.specs.declared.action.Action.TheVariants as action;
ghost use Rattle.outside.specs.declared.action.Judged.TheVariants as judged;
ghost use Rattle.interactive_logon.specs.Sessions.{session_limit, taken_from};
ghost use Rattle.rc4_stream.specs.Rc4.{applied};
ghost use Rattle.sam_logon.specs.Verdict.{IfGranted};
ghost use Rattle.controller_calls.specs.Desk.{desk, tell};
ghost use Rattle.controller_calls.specs.Doing.{refused_logoff_stub, returned_with};
ghost use Rattle.controller_calls.specs.Interactive.{admitted, is_open, judge_interactive, logoff_status, session_opened, with_sessions};
ghost use Rattle.controller_calls.specs.Logons.{IsServedLevel};
ghost use Rattle.controller_calls.specs.Stubs.{interactive_unsent};
ghost use Rattle.controller_calls.specs.Unsent.{replies};

use crate::logon::{note_change, pass_logon, serves_level};
use crate::replying::{reply_stub, tell};
use crate::state::{Computers, Work};
use account_table::{Table, TableChanges};
use interactive_logon::{AddRefused, InteractiveInfo};
use logon_stubs::{
    LogoffReply, Reply, STATUS_ACCESS_DENIED, STATUS_INSUFFICIENT_RESOURCES,
    STATUS_INVALID_INFO_CLASS, STATUS_NO_SUCH_LOGON_SESSION, Verdict,
};
use outside::{Action, Judged};
use rc4_stream::Rc4;
use sam_logon::{Weighed, weigh_interactive};
use std::alloc::Global;
use wire_base::{Authenticator, Blob, Name, NoMemory};

/// What comes of an interactive logon whose authenticator passes: it is judged at a moment, a session is opened where
/// it is granted, the verdict is told, and stands in the stub of the reply (MS-NRPC 3.5.4.5.3).
pub(crate) fn pass_interactive(
    alloc: Global,
    table: &Table,
    changes: &mut TableChanges,
    name: &Name,
    now: u64,
    info: &InteractiveInfo,
    validation: u16,
    computer: &[u16],
    key: [u8; 16],
    credential: [u8; 8],
    work: Work,
) -> Result<(Work, Blob), NoMemory>
    ensures value { IfOk result (λ done.
        replies (desk (with_changes changes.new table.now) done.0) done.1 ≡ interactive_unsent
        name.now now info.now validation computer.now key credential
        (desk (with_changes changes.old table.now) work)) }
    ensures short { IfOk result (λ done. length done.1 ≤ 65536) }
{
    let verdict = verdict_on(alloc, table, changes, name, now, info, validation, key)?;
    let (work, verdict) = admit(computer, info, verdict, validation, work)?;
    pass_logon(alloc, verdict, validation, key, credential, work)
}

/// The verdict, at a validation level, and behind the changes what it changes. What is granted can be written, has
/// short texts, and is granted at a level that is served.
#[tactic(auto, using(crate::proofs::ChangeLaws::noting))]
fn verdict_on(
    alloc: Global,
    table: &Table,
    changes: &mut TableChanges,
    name: &Name,
    now: u64,
    info: &InteractiveInfo,
    validation: u16,
    key: [u8; 16],
) -> Result<Verdict, NoMemory>
    ensures value { IfOk result (λ verdict.
        record { verdict = verdict; table = with_changes changes.new table.now } ≡ judge_interactive
        (with_changes changes.old table.now) name.now now info.now validation key) }
    ensures writable { IfOk result (λ verdict. IfGranted verdict CanWriteSamInfo) }
    ensures short { IfOk result (λ verdict. IfGranted verdict HasShortTexts) }
    ensures level { IfOk result (λ verdict. IfGranted verdict (λ info. IsServedLevel validation)) }
{
    if !serves_level(validation) {
        return Ok(Verdict::Status(STATUS_INVALID_INFO_CLASS));
    }
    let nt = shown_hash(key, info.nt);
    let Weighed { verdict, change } = weigh_interactive(
        alloc,
        table,
        changes,
        name,
        info.domain.units(),
        info.user.units(),
        info.workstation.units(),
        &nt,
        now,
    )?;
    note_change(change, changes)?;
    Ok(verdict)
}

/// The NT hash as it was before it travelled under the channel's key.
fn shown_hash(key: [u8; 16], nt: [u8; 16]) -> [u8; 16]
    ensures { result ≡ applied key 0 nt }
{
    let mut shown = nt;
    Rc4::new(&key).apply(&mut shown);
    shown
}

/// A session is opened for what is granted, unless as many stand as are kept. What is granted then, was granted.
fn admit(
    computer: &[u16],
    info: &InteractiveInfo,
    verdict: Verdict,
    validation: u16,
    work: Work,
) -> Result<(Work, Verdict), NoMemory>
    requires writable { IfGranted verdict CanWriteSamInfo }
    requires short { IfGranted verdict HasShortTexts }
    requires level { IfGranted verdict (λ info. IsServedLevel validation) }
    ensures verdict { IfOk result (λ done.
        done.1 ≡ admitted (length work.computers.sessions == session_limit) verdict) }
    ensures work { IfOk result (λ done.
        done.0 ≡ session_opened done.1 computer.now info.now work) }
    ensures writable { IfOk result (λ done. IfGranted done.1 CanWriteSamInfo) }
    ensures short { IfOk result (λ done. IfGranted done.1 HasShortTexts) }
    ensures level { IfOk result (λ done.
        IfGranted done.1 (λ info. IsServedLevel validation)) }
{
    match verdict {
        Verdict::Granted(granted) => {
            let Work { computers, actions } = work;
            let Computers {
                pending,
                channels,
                mut sessions,
            } = computers;
            let added = sessions.add(computer, info.user.units(), info.logon_id);
            let work = Work {
                computers: Computers {
                    pending,
                    channels,
                    sessions,
                },
                actions,
            };
            match added {
                Ok(()) => Ok((work, Verdict::Granted(granted))),
                Err(AddRefused::Full) => Ok((work, Verdict::Status(STATUS_INSUFFICIENT_RESOURCES))),
                Err(AddRefused::Memory) => Err(NoMemory),
            }
        }
        Verdict::Status(status) => Ok((work, Verdict::Status(status))),
    }
}

/// The stub of the reply without a channel and an authenticator that passes: nothing is returned.
pub(crate) fn refused_logoff_stub(alloc: Global) -> Result<Blob, NoMemory>
    ensures value { IfOk result (λ stub. stub ≡ refused_logoff_stub) }
    ensures short { IfOk result (λ stub. length stub ≤ 65536) }
{
    logoff_stub(alloc, None, STATUS_ACCESS_DENIED)
}

/// Takes out the first session of that computer, user and logon (MS-NRPC 3.5.4.5.4).
pub(crate) fn end_session(
    alloc: Global,
    info: &InteractiveInfo,
    computer: &[u16],
    credential: [u8; 8],
    work: Work,
) -> Result<(Work, Blob), NoMemory>
    ensures work { IfOk result (λ done. done.0 ≡ tell (with_sessions
        (taken_from work.computers.sessions computer.now info.now.user info.now.logon_id) work)
        (action.Judged (judged.Passed (logoff_status
        (is_open work.computers.sessions computer.now info.now))))) }
    ensures stub { IfOk result (λ done. done.1 ≡ written_reply (reply.Logoff (record {
      returned = Some (returned_with credential);
      status = logoff_status (is_open work.computers.sessions computer.now info.now);
    }))) }
    ensures short { IfOk result (λ done. length done.1 ≤ 65536) }
{
    let (work, found) = take_session(info, computer, work);
    pass_logoff(alloc, logoff_status(found), credential, work)
}

/// The session is taken out, if there is one. It takes no memory.
fn take_session(info: &InteractiveInfo, computer: &[u16], work: Work) -> (Work, bool)
    ensures found { result.1 ≡ is_open work.computers.sessions computer.now info.now }
    ensures work { result.0 ≡ with_sessions
        (taken_from work.computers.sessions computer.now info.now.user info.now.logon_id) work }
{
    let Work { computers, actions } = work;
    let Computers {
        pending,
        channels,
        mut sessions,
    } = computers;
    let found = sessions.remove(computer, info.user.units(), info.logon_id);
    let work = Work {
        computers: Computers {
            pending,
            channels,
            sessions,
        },
        actions,
    };
    (work, found)
}

/// The status of a logoff whose session was there or wasn't.
fn logoff_status(found: bool) -> u32
    ensures { result ≡ logoff_status found }
{
    if found {
        0
    } else {
        STATUS_NO_SUCH_LOGON_SESSION
    }
}

/// The logoff passed, with that status, which stands in the stub of the reply.
pub(crate) fn pass_logoff(
    alloc: Global,
    status: u32,
    credential: [u8; 8],
    work: Work,
) -> Result<(Work, Blob), NoMemory>
    ensures work { IfOk result (λ done. done.0 ≡ tell work (action.Judged (judged.Passed status))) }
    ensures stub { IfOk result (λ done. done.1 ≡ written_reply (reply.Logoff (record {
      returned = Some (returned_with credential);
      status = status;
    }))) }
    ensures short { IfOk result (λ done. length done.1 ≤ 65536) }
{
    let work = tell(work, Action::Judged(Judged::Passed(status)))?;
    let returned = Authenticator {
        credential,
        timestamp: 0,
    };
    let stub = logoff_stub(alloc, Some(returned), status)?;
    Ok((work, stub))
}

/// The stub of the reply to a logoff.
fn logoff_stub(
    alloc: Global,
    returned: Option<Authenticator>,
    status: u32,
) -> Result<Blob, NoMemory>
    ensures value { IfOk result (λ stub. stub
        ≡ written_reply (reply.Logoff (record { returned = returned; status = status }))) }
    ensures short { IfOk result (λ stub. length stub ≤ 65536) }
{
    reply_stub(alloc, &Reply::Logoff(LogoffReply { returned, status }))
}
