//! What is heard on a link, answered at a controller that can seal.

ghost use Rattle.std.specs.Prelude.{◌≡◌, ◌≤◌, Some, IfOk, IfSome, length};
ghost use Rattle.account_table.specs.Changes.{with_changes};
ghost use Rattle.outside.specs.Drawing.{DrawsSome};
ghost use Rattle.outside.specs.Machine.{AnswersBy};
ghost use Rattle.controller_calls.specs.Calls.{computer_named};
ghost use Rattle.controller_calls.specs.Desk.{IsLine};
ghost use Rattle.controller_calls.specs.Granting.{answer_granting, channel_opened, seals_opened, secure_flags};
ghost use Rattle.controller_calls.specs.Seals.{belongs};
ghost use Rattle.domain_controller.specs.Forwarding.{trust_desk};
ghost use Rattle.domain_controller.specs.Hearing.{CanAnswer};
ghost use Rattle.domain_controller.specs.Sealing.{with_seals};
ghost use Rattle.domain_controller.specs.SealServing.{after_unsent, answer_owned, at_seal_desk, at_table, by_seal_call, by_seal_heard, draw_confounder, judge_on_link, judge_sealed};

use crate::answering::{challenge_with, judge_with, tell_on};
use crate::hearing::Heard;
use crate::seal_forwarding::{forward_sealed, reply_sealed};
use crate::sealed::Sealing;
use crate::state::Talk;
use crate::trusting::TrustWork;
use account_table::{Table, TableChanges};
use controller_calls::{
    ControllerCall, HandOn, JudgedCall, Line, LinkSeal, ReplySeal, answer_secure, belongs,
    owned_unsent, refuse_unowned,
};
use logon_stubs::AuthCall;
use outside::{Action, Chances, StepRefused};
use std::alloc::Global;
use wire_base::{Blob, Name, NoMemory};

/// Answers what is heard on the link, by the seal of the link: what the controller has then, and what is said on the
/// link, or None where it is closed. What a call changes of the accounts stands in `changes`, behind what stood there.
pub(crate) fn answer_seal_heard<Q: Chances>(
    alloc: Global,
    table: &Table,
    changes: &mut TableChanges,
    name: &Name,
    now: u64,
    number: u32,
    seal: Option<LinkSeal>,
    heard: Heard,
    work: TrustWork,
    sealing: Sealing,
    chances: &mut Q,
) -> Result<((TrustWork, Sealing), Option<Talk>), StepRefused>
    requires { CanAnswer heard }
    ensures draws { DrawsSome (Q.drawing chances.old) (Q.drawing chances.new) }
    ensures answer { AnswersBy (at_seal_desk (with_changes changes.new table.now) result)
        (by_seal_heard heard seal number name.now now
        (trust_desk (with_changes changes.old table.now) work) sealing
        (Q.drawing chances.old).left)
        (Q.drawing chances.new).left }
{
    match heard {
        Heard::Close(cause) => {
            Ok((
                (tell_on(work, Action::Close(number, cause))?, sealing),
                None,
            ))
        }
        Heard::Answer(bytes, talk) => Ok((
            (tell_on(work, Action::Send(number, bytes))?, sealing),
            Some(talk),
        )),
        Heard::Waits(talk) => Ok(((work, sealing), Some(talk))),
        Heard::Asked(line, call, talk) => answer_call(
            alloc, table, changes, name, now, line, seal, call, talk, work, sealing, chances,
        ),
    }
}

/// Answers a call.
fn answer_call<Q: Chances>(
    alloc: Global,
    table: &Table,
    changes: &mut TableChanges,
    name: &Name,
    now: u64,
    line: Line,
    seal: Option<LinkSeal>,
    call: ControllerCall,
    talk: Talk,
    work: TrustWork,
    sealing: Sealing,
    chances: &mut Q,
) -> Result<((TrustWork, Sealing), Option<Talk>), StepRefused>
    requires { IsLine line }
    ensures draws { DrawsSome (Q.drawing chances.old) (Q.drawing chances.new) }
    ensures answer { AnswersBy (at_seal_desk (with_changes changes.new table.now) result)
        (by_seal_call call seal line talk name.now now
        (trust_desk (with_changes changes.old table.now) work) sealing
        (Q.drawing chances.old).left)
        (Q.drawing chances.new).left }
{
    match call {
        ControllerCall::Challenge(call) => {
            let server = match chances.next() {
                Ok(server) => server,
                Err(why) => return Err(why.into()),
            };
            let work = challenge_with(alloc, table, changes, line, call, server, work)?;
            Ok(((work, sealing), Some(talk)))
        }
        ControllerCall::Authenticate(call) => {
            let (work, sealing) = open_secure(alloc, table, changes, line, call, work, sealing)?;
            Ok(((work, sealing), Some(talk)))
        }
        ControllerCall::Judged(call) => answer_judged(
            alloc, table, changes, name, now, line, seal, call, talk, work, sealing, chances,
        ),
    }
}

/// Answers NetrServerAuthenticate2. The queues stay as they are.
fn open_secure(
    alloc: Global,
    table: &Table,
    changes: &TableChanges,
    line: Line,
    call: AuthCall,
    work: TrustWork,
    sealing: Sealing,
) -> Result<(TrustWork, Sealing), NoMemory>
    requires { IsLine line }
    ensures work { IfOk result (λ done. done.0 ≡ record work {
      work = answer_granting secure_flags
          (with_changes changes.now table.now) line call work.work;
    }) }
    ensures sealing { IfOk result (λ done. done.1 ≡ with_seals (seals_opened
        (channel_opened secure_flags (with_changes changes.now table.now) call
        work.work.computers) secure_flags call sealing.seals) sealing) }
{
    let TrustWork { work, queues } = work;
    let Sealing {
        seals,
        links,
        asked,
    } = sealing;
    let (work, seals) = answer_secure(alloc, table, changes, line, call, seals, work)?;
    let sealing = Sealing {
        seals,
        links,
        asked,
    };
    Ok((TrustWork { work, queues }, sealing))
}

/// Answers a call on a secure channel, which came on a link with that seal or on one that isn't sealed.
fn answer_judged<Q: Chances>(
    alloc: Global,
    table: &Table,
    changes: &mut TableChanges,
    name: &Name,
    now: u64,
    line: Line,
    seal: Option<LinkSeal>,
    call: JudgedCall,
    talk: Talk,
    work: TrustWork,
    sealing: Sealing,
    chances: &mut Q,
) -> Result<((TrustWork, Sealing), Option<Talk>), StepRefused>
    requires { IsLine line }
    ensures draws { DrawsSome (Q.drawing chances.old) (Q.drawing chances.new) }
    ensures answer { AnswersBy (at_seal_desk (with_changes changes.new table.now) result)
        (judge_on_link seal call line talk name.now now
        (trust_desk (with_changes changes.old table.now) work) sealing
        (Q.drawing chances.old).left)
        (Q.drawing chances.new).left }
{
    let own = belongs(&seal, &call, &sealing.seals);
    match seal {
        None => {
            let work = judge_owned(alloc, own, table, changes, name, now, line, call, work)?;
            Ok(((work, sealing), Some(talk)))
        }
        Some(link) => judge_drawn(
            alloc, own, table, changes, name, now, line, link, call, talk, work, sealing, chances,
        ),
    }
}

/// A call on a link that isn't sealed is answered as where nothing is sealed, unless the computer's channel seals.
fn judge_owned(
    alloc: Global,
    own: bool,
    table: &Table,
    changes: &mut TableChanges,
    name: &Name,
    now: u64,
    line: Line,
    call: JudgedCall,
    work: TrustWork,
) -> Result<TrustWork, NoMemory>
    requires { IsLine line }
    ensures { IfOk result (λ w. trust_desk (with_changes changes.new table.now) w
        ≡ answer_owned own call name.now now line
        (trust_desk (with_changes changes.old table.now) work)) }
{
    if own {
        return judge_with(alloc, table, changes, name, now, line, call, work);
    }
    let TrustWork { work, queues } = work;
    let work = refuse_unowned(alloc, line, call, work)?;
    Ok(TrustWork { work, queues })
}

/// A confounder is drawn for a call on a sealed link, with which its reply is sealed.
fn judge_drawn<Q: Chances>(
    alloc: Global,
    own: bool,
    table: &Table,
    changes: &mut TableChanges,
    name: &Name,
    now: u64,
    line: Line,
    link: LinkSeal,
    call: JudgedCall,
    talk: Talk,
    work: TrustWork,
    sealing: Sealing,
    chances: &mut Q,
) -> Result<((TrustWork, Sealing), Option<Talk>), StepRefused>
    requires line { IsLine line }
    requires own { own ≡ belongs (Some link) (computer_named call) sealing.seals }
    ensures draws { DrawsSome (Q.drawing chances.old) (Q.drawing chances.new) }
    ensures answer { AnswersBy (at_seal_desk (with_changes changes.new table.now) result)
        (draw_confounder (Q.drawing chances.old).left call link line talk name.now now
        (trust_desk (with_changes changes.old table.now) work) sealing)
        (Q.drawing chances.new).left }
{
    let confounder = match chances.next() {
        Ok(confounder) => confounder,
        Err(why) => return Err(why.into()),
    };
    let reply = ReplySeal { link, confounder };
    let done = judge_sealed(
        alloc, own, table, changes, name, now, line, reply, call, talk, work, sealing,
    )?;
    Ok(done)
}

/// A call on a sealed link: its reply goes out sealed, or its logon waits for the controller of a trusted domain.
fn judge_sealed(
    alloc: Global,
    own: bool,
    table: &Table,
    changes: &mut TableChanges,
    name: &Name,
    now: u64,
    line: Line,
    reply: ReplySeal,
    call: JudgedCall,
    talk: Talk,
    work: TrustWork,
    sealing: Sealing,
) -> Result<((TrustWork, Sealing), Option<Talk>), NoMemory>
    requires line { IsLine line }
    requires own { own ≡ belongs (Some reply.link) (computer_named call) sealing.seals }
    ensures { IfOk result (λ done. at_table (with_changes changes.new table.now) done
        ≡ judge_sealed call reply.link reply.confounder line talk name.now now
        (trust_desk (with_changes changes.old table.now) work) sealing) }
{
    let TrustWork { work, queues } = work;
    let trusts = queues.requesters.len();
    let (work, unsent) = owned_unsent(
        alloc, own, table, changes, name, now, line, trusts, call, work,
    )?;
    let work = TrustWork { work, queues };
    after_unsent(alloc, unsent.0, unsent.1, reply, line, talk, work, sealing)
}

/// What follows of a call on a sealed link once it is judged: the reply with that stub goes out sealed, or the logon
/// that is handed on waits.
fn after_unsent(
    alloc: Global,
    stub: Option<Blob>,
    handed: Option<HandOn>,
    reply: ReplySeal,
    line: Line,
    talk: Talk,
    work: TrustWork,
    sealing: Sealing,
) -> Result<((TrustWork, Sealing), Option<Talk>), NoMemory>
    requires { IfSome stub (λ bytes. length bytes ≤ 65536) }
    ensures { IfOk result
        (λ done. done ≡ after_unsent stub handed reply line work sealing talk) }
{
    match stub {
        Some(stub) => reply_sealed(alloc, &reply, line, stub, talk, work, sealing),
        None => match handed {
            Some(handed) => forward_sealed(alloc, handed, reply, line, talk, work, sealing),
            None => Ok(((work, sealing), Some(talk))),
        },
    }
}
