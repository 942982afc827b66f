//! What is heard on a link, answered.

ghost use Rattle.std.specs.Prelude.{◌≡◌, IfOk};
ghost use Rattle.outside.specs.Drawing.{DrawsSome};
ghost use Rattle.outside.specs.Machine.{AnswersBy};
ghost use Rattle.controller_calls.specs.Desk.{IsLine};
ghost use Rattle.controller_calls.specs.Opening.{answer_authenticate, answer_challenge};
ghost use Rattle.end_links.specs.Bounds.{IsShortSend};
ghost use Rattle.domain_controller.specs.Forwarding.{answer_trust_call, at_trust_desk, by_trust_call, by_trust_heard, told, trust_desk};
ghost use Rattle.domain_controller.specs.Hearing.{CanAnswer};
ghost use Rattle.account_table.specs.Changes.{with_changes};

use crate::forwarding::forward;
use crate::hearing::Heard;
use crate::state::Talk;
use crate::trusting::TrustWork;
use account_table::{Table, TableChanges};
use controller_calls::{
    ControllerCall, JudgedCall, Line, answer_authenticate, answer_challenge, judge_call, tell,
};
use logon_stubs::{AuthCall, ChallengeCall};
use outside::{Action, Chances, StepRefused};
use std::alloc::Global;
use wire_base::{Name, NoMemory};

/// One action more, behind those so far.
pub(crate) fn tell_on(work: TrustWork, what: Action) -> Result<TrustWork, NoMemory>
    requires { IsShortSend what }
    ensures { IfOk result (λ w. w ≡ told what work) }
{
    let TrustWork { work, queues } = work;
    let work = tell(work, what)?;
    Ok(TrustWork { work, queues })
}

/// Answers what is heard on the link: what the controller has then, and what is said on the link, or None where it is
/// closed. What a call changes of the accounts stands in `changes`, behind what stood there.
pub(crate) fn answer_heard<Q: Chances>(
    alloc: Global,
    table: &Table,
    changes: &mut TableChanges,
    name: &Name,
    now: u64,
    link: u32,
    heard: Heard,
    work: TrustWork,
    chances: &mut Q,
) -> Result<(TrustWork, Option<Talk>), StepRefused>
    requires { CanAnswer heard }
    ensures draws { DrawsSome (Q.drawing chances.old) (Q.drawing chances.new) }
    ensures answer { AnswersBy (at_trust_desk (with_changes changes.new table.now) result)
        (by_trust_heard heard link name.now now
        (trust_desk (with_changes changes.old table.now) work) (Q.drawing chances.old).left)
        (Q.drawing chances.new).left }
{
    match heard {
        Heard::Close(cause) => Ok((tell_on(work, Action::Close(link, cause))?, None)),
        Heard::Answer(bytes, talk) => {
            Ok((tell_on(work, Action::Send(link, bytes))?, Some(talk)))
        }
        Heard::Waits(talk) => Ok((work, Some(talk))),
        Heard::Asked(line, call, talk) => {
            answer_call(
                alloc, table, changes, name, now, line, call, talk, work, chances,
            )
        }
    }
}

/// Answers a call.
fn answer_call<Q: Chances>(
    alloc: Global,
    table: &Table,
    changes: &mut TableChanges,
    name: &Name,
    now: u64,
    line: Line,
    call: ControllerCall,
    talk: Talk,
    work: TrustWork,
    chances: &mut Q,
) -> Result<(TrustWork, Option<Talk>), StepRefused>
    requires { IsLine line }
    ensures draws { DrawsSome (Q.drawing chances.old) (Q.drawing chances.new) }
    ensures answer { AnswersBy (at_trust_desk (with_changes changes.new table.now) result)
        (by_trust_call call line talk name.now now
        (trust_desk (with_changes changes.old table.now) work) (Q.drawing chances.old).left)
        (Q.drawing chances.new).left }
{
    match call {
        ControllerCall::Challenge(call) => {
            let server = match chances.next() {
                Ok(server) => server,
                Err(why) => return Err(why.into()),
            };
            let work = challenge_with(alloc, table, changes, line, call, server, work)?;
            Ok((work, Some(talk)))
        }
        ControllerCall::Authenticate(call) => {
            let work = authenticate_with(alloc, table, changes, line, call, work)?;
            Ok((work, Some(talk)))
        }
        ControllerCall::Judged(call) => {
            let work = judge_with(alloc, table, changes, name, now, line, call, work)?;
            Ok((work, Some(talk)))
        }
    }
}

/// Answers NetrServerReqChallenge. The queues stay as they are.
pub(crate) fn challenge_with(
    alloc: Global,
    table: &Table,
    changes: &TableChanges,
    line: Line,
    call: ChallengeCall,
    server: [u8; 8],
    work: TrustWork,
) -> Result<TrustWork, NoMemory>
    requires { IsLine line }
    ensures { IfOk result (λ w. w ≡ record work {
      work = answer_challenge
          (with_changes changes.now table.now) line call server work.work;
    }) }
{
    let TrustWork { work, queues } = work;
    let work = answer_challenge(alloc, table, changes, line, call, server, work)?;
    Ok(TrustWork { work, queues })
}

/// Answers NetrServerAuthenticate2. The queues stay as they are.
fn authenticate_with(
    alloc: Global,
    table: &Table,
    changes: &TableChanges,
    line: Line,
    call: AuthCall,
    work: TrustWork,
) -> Result<TrustWork, NoMemory>
    requires { IsLine line }
    ensures { IfOk result (λ w. w ≡ record work {
      work = answer_authenticate
          (with_changes changes.now table.now) line call work.work;
    }) }
{
    let TrustWork { work, queues } = work;
    let work = answer_authenticate(alloc, table, changes, line, call, work)?;
    Ok(TrustWork { work, queues })
}

/// Answers a call on a secure channel, or lets its logon wait for the controller of a trusted domain.
#[tactic(auto, using(crate::proofs::TrustEventLaws::handing))]
pub(crate) fn judge_with(
    alloc: Global,
    table: &Table,
    changes: &mut TableChanges,
    name: &Name,
    now: u64,
    line: Line,
    call: JudgedCall,
    work: TrustWork,
) -> Result<TrustWork, NoMemory>
    requires { IsLine line }
    ensures { IfOk result (λ w. trust_desk (with_changes changes.new table.now) w
        ≡ answer_trust_call call name.now now line
        (trust_desk (with_changes changes.old table.now) work)) }
{
    let TrustWork { work, queues } = work;
    let trusts = queues.requesters.len();
    let (work, handed) = judge_call(alloc, table, changes, name, now, line, trusts, call, work)?;
    let work = TrustWork { work, queues };
    match handed {
        Some(handed) => forward(alloc, handed, line, work),
        None => Ok(work),
    }
}
