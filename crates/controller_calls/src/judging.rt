//! What the calls ask for on a secure channel, answered.

ghost use Rattle.std.specs.Prelude.{◌≡◌, ◌≤◌, IfOk, IfSome, length};
ghost use Rattle.account_table.specs.Changes.{with_changes};
ghost use Rattle.outside.specs.declared.action.Judged.TheVariants as judged;
ghost use Rattle.controller_calls.specs.Asking.{refuse_asked};
ghost use Rattle.controller_calls.specs.Calls.{asked_of};
ghost use Rattle.controller_calls.specs.Desk.{IsLine, desk};
ghost use Rattle.controller_calls.specs.Handing.{judge_call};
ghost use Rattle.controller_calls.specs.Unsent.{send_unsent};

use crate::calls::{JudgedCall, parts};
use crate::handing::HandOn;
use crate::line::Line;
use crate::replying::send_stub;
use crate::state::Work;
use crate::unsent::{call_unsent, refuse_asked};
use account_table::{Table, TableChanges};
use outside::Judged;
use std::alloc::Global;
use wire_base::{Blob, Name, NoMemory};

/// Answers a call that asks for something on a secure channel, at a moment (MS-NRPC 3.1.4.5), where the controllers of
/// the first so many trusted domains can be asked. What it changes of the accounts stands in `changes`, behind what
/// stood there. A logon that is to be asked of one of them is handed on: of it nothing is told or sent.
pub fn judge_call(
    alloc: Global,
    table: &Table,
    changes: &mut TableChanges,
    name: &Name,
    now: u64,
    line: Line,
    trusts: usize,
    call: JudgedCall,
    work: Work,
) -> Result<(Work, Option<HandOn>), NoMemory>
    requires { IsLine line }
    ensures { IfOk result (λ done. (desk (with_changes changes.new table.now) done.0, done.1)
        ≡ judge_call call
        (record { name = name.now; now = now; line = line; trusts = trusts })
        (desk (with_changes changes.old table.now) work)) }
{
    let (work, unsent) = call_unsent(alloc, table, changes, name, now, line, trusts, call, work)?;
    let work = send_unsent(alloc, line, unsent.0, work)?;
    Ok((work, unsent.1))
}

/// The reply goes out on the line, where there is one.
fn send_unsent(alloc: Global, line: Line, stub: Option<Blob>, work: Work) -> Result<Work, NoMemory>
    requires line { IsLine line }
    requires short { IfSome stub (λ stub. length stub ≤ 65536) }
    ensures { IfOk result (λ w. w ≡ send_unsent stub line work) }
{
    match stub {
        Some(stub) => send_stub(alloc, work, line, stub),
        None => Ok(work),
    }
}

/// A call on a link that isn't sealed, whose computer's channel seals, is refused: it is told that it has no channel,
/// and answered as where there is none.
pub fn refuse_unowned(
    alloc: Global,
    line: Line,
    call: JudgedCall,
    work: Work,
) -> Result<Work, NoMemory>
    requires { IsLine line }
    ensures { IfOk result (λ w. w ≡ refuse_asked (asked_of call) judged.NoChannel line work) }
{
    let (_computer, _given, asked) = parts(call);
    let (work, stub) = refuse_asked(alloc, Judged::NoChannel, &asked, work)?;
    send_stub(alloc, work, line, stub)
}
