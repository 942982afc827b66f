//! Logons that are handed on to the controller of a domain that is trusted.

ghost use Rattle.std.specs.Prelude.{◌≡◌, ◌≤◌, IfOk, IsSome, length};
ghost use Rattle.account_table.specs.Changes.{with_changes};
ghost use Rattle.logon_stubs.specs.Writing.{CanWriteSamInfo, written_reply};
ghost use Rattle.sam_logon.specs.Verdict.{IfGranted};
ghost use Rattle.controller_calls.specs.Desk.{IsLine};
ghost use Rattle.controller_calls.specs.Logons.{IsServedLevel};
ghost use Rattle.controller_calls.specs.Limits.{stub_limit};
ghost use Rattle.controller_calls.specs.Unsent.{told_unasked, unasked_stub};
ghost use Rattle.controller_calls.specs.Handing.{IsAskedLevel, answer_forwarded, answer_unasked, forwarded_reply, hand_on, hands_on, trust_asked, trust_for};

use crate::calls::Asked;
use crate::forwarded::ForwardedCall;
use crate::line::Line;
use crate::logon::{reply_to, serves_level, status_of};
use crate::replying::{long_stub, reply_stub, send_long_stub, send_stub, tell};
use crate::standing::route_with;
use crate::state::Work;
use account_table::{Route, Table, TableChanges};
use logon_stubs::{NetworkInfo, STATUS_NO_LOGON_SERVERS, Verdict};
use outside::{Action, Judged};
use std::alloc::Global;
use wire_base::{Blob, NoMemory};

/// A logon that passed, to be asked of the controller of a trusted domain (MS-NRPC 3.3.5.1; what is kept for its answer
/// is this project's own choice): the number of the trust in the table, the logon, and what its answer needs.
#[derive(Drop)]
pub struct HandOn {
    pub trust: u32,
    pub info: NetworkInfo,
    pub call: ForwardedCall,
}

/// Whether logons that come on channels of that type are handed on: those of workstations, 2, and of backup
/// controllers, 6 (MS-NRPC 2.2.1.3.13).
fn hands_on(kind: Option<u16>) -> bool
    ensures { result ≡ hands_on kind }
{
    matches!(kind, Some(2 | 6))
}

/// The trust whose controller is asked for what came on a channel of that type, where the first `trusts` can be asked.
/// It takes no memory.
pub(crate) fn trust_asked(
    table: &Table,
    changes: &TableChanges,
    asked: &Asked,
    kind: Option<u16>,
    trusts: usize,
) -> Option<u32>
    ensures value { result ≡ trust_asked asked.now kind (with_changes changes.now table.now)
        trusts }
    ensures level { IsSome result → IsAskedLevel asked.now }
{
    match asked {
        Asked::Network(info, validation) => {
            trust_for(table, changes, info, *validation, kind, trusts)
        }
        Asked::Interactive(..) | Asked::Logoff(_) | Asked::NetworkLogoff | Asked::Set(..) => None,
    }
}

/// The trust whose controller is asked for the logon.
fn trust_for(
    table: &Table,
    changes: &TableChanges,
    info: &NetworkInfo,
    validation: u16,
    kind: Option<u16>,
    trusts: usize,
) -> Option<u32>
    ensures value { result ≡ trust_for kind validation (with_changes changes.now table.now)
        info.now trusts }
    ensures level { IsSome result → IsServedLevel validation }
{
    if !hands_on(kind) {
        return None;
    }
    if !serves_level(validation) {
        return None;
    }
    match route_with(table, changes, info.domain.units()) {
        Route::Trust(trust) if (trust as usize) < trusts => Some(trust),
        Route::Trust(_) | Route::Own | Route::Elsewhere => None,
    }
}

/// The logon, with what its answer needs, which goes to that line; None of what is none.
pub(crate) fn hand_on(
    asked: Asked,
    trust: u32,
    line: Line,
    key: [u8; 16],
    credential: [u8; 8],
) -> Option<HandOn>
    requires line { IsLine line }
    requires level { IsAskedLevel asked }
    ensures { result ≡ hand_on asked trust line key credential }
{
    match asked {
        Asked::Network(info, validation) => Some(HandOn {
            trust,
            info,
            call: ForwardedCall {
                line: Some(line),
                validation,
                key,
                credential,
            },
        }),
        Asked::Interactive(..) | Asked::Logoff(_) | Asked::NetworkLogoff | Asked::Set(..) => None,
    }
}

/// Nobody can be asked for the logon: it is told that it passed with NO_LOGON_SERVERS, and so it is answered there.
pub fn answer_unasked(
    alloc: Global,
    call: &ForwardedCall,
    line: Line,
    work: Work,
) -> Result<Work, NoMemory>
    requires { IsLine line }
    ensures { IfOk result (λ w. w ≡ answer_unasked call.now line work) }
{
    let work = told_unasked(work)?;
    let stub = unasked_stub(alloc, call)?;
    send_stub(alloc, work, line, stub)
}

/// Tells that a logon passed, with NO_LOGON_SERVERS.
pub fn told_unasked(work: Work) -> Result<Work, NoMemory>
    ensures { IfOk result (λ w. w ≡ told_unasked work) }
{
    tell(
        work,
        Action::Judged(Judged::Passed(STATUS_NO_LOGON_SERVERS)),
    )
}

/// The stub of the reply to a logon for which nobody can be asked, which is short.
pub fn unasked_stub(alloc: Global, call: &ForwardedCall) -> Result<Blob, NoMemory>
    ensures value { IfOk result (λ stub. stub ≡ unasked_stub call.now) }
    ensures short { IfOk result (λ stub. length stub ≤ 65536) }
{
    let verdict = Verdict::Status(STATUS_NO_LOGON_SERVERS);
    let answer = reply_to(alloc, verdict, call.validation, call.key, call.credential);
    reply_stub(alloc, &answer)
}

/// The verdict on a logon that was asked of another controller is told, and sent where its line stands. What is granted
/// may have texts of any length that a stub can carry.
pub fn answer_forwarded(
    alloc: Global,
    verdict: Verdict,
    call: ForwardedCall,
    work: Work,
) -> Result<Work, NoMemory>
    requires { IfGranted verdict CanWriteSamInfo }
    ensures { IfOk result (λ w. w ≡ answer_forwarded verdict call work) }
{
    let work = tell(work, Action::Judged(Judged::Answered(status_of(&verdict))))?;
    let Some(line) = call.line else {
        return Ok(work);
    };
    let stub = forwarded_stub(alloc, verdict, &call)?;
    send_long_stub(alloc, work, line, stub)
}

/// The stub of the reply to a logon that was asked of another controller, with its verdict. What is granted may have
/// texts of any length that a stub can carry.
pub fn forwarded_stub(
    alloc: Global,
    verdict: Verdict,
    call: &ForwardedCall,
) -> Result<Blob, NoMemory>
    requires { IfGranted verdict CanWriteSamInfo }
    ensures value { IfOk result (λ stub. stub
        ≡ written_reply (forwarded_reply call.now verdict)) }
    ensures short { IfOk result (λ stub. length stub ≤ stub_limit) }
{
    let answer = reply_to(alloc, verdict, call.validation, call.key, call.credential);
    long_stub(alloc, &answer)
}
