//! The turn that is out, and its link: what a member does of it beside what every end that asks does.

ghost use Rattle.std.specs.Prelude.{◌≡◌, ◌≤◌, ◌+◌, None, length, IfOk};
ghost use Rattle.outside.specs.Drawing.{DrawsSome};
ghost use Rattle.outside.specs.Machine.{AnswersBy};
ghost use Rattle.end_links.specs.Bounds.{units_in_piece};
ghost use Rattle.channel_client.specs.Machine.{can_start};
ghost use Rattle.channel_turns.specs.Turning.{link_answers, link_closes, link_hears};
ghost use Rattle.member_server.specs.Machine.{fail_dial};
ghost use Rattle.member_server.specs.Outcomes.{end_logon};
ghost use Rattle.member_server.specs.SealStep.{hear_sealed, next_sealed};
ghost use Rattle.member_server.specs.Secrets.{changes_text, confirmed_of, give_secrets, is_denied, secrets_after};
ghost use Rattle.member_server.specs.Turns.{after_ended, after_turned, close_ended, end_turn, ending_of, keep_ended, next_turn, turning_of};

use crate::outcomes::{Ending, end_logon, tell_at};
use crate::plan::MemberPlan;
use crate::state::{Logon, Logons, Talk, Work};
use channel_client::PlainChannel;
use channel_turns::{
    Dialling, TurnEnd, TurnEnded, Turning, link_answers, link_closes, link_hears, next_dial,
    next_sealed_dial, no_dial, sealed_link_hears,
};
use end_links::Links;
use logon_stubs::Verdict;
use outside::{Action, Chances, CloseCause, DropCause, StepRefused};
use secret_change::Secrets;
use std::alloc::Global;
use wire_base::{List, NoMemory};

// ---- what follows of a turn that ended

/// How a logon ended on which the controller's verdict is this one.
fn ending_of(verdict: Verdict) -> Ending
    ensures { result ≡ ending_of verdict }
{
    match verdict {
        Verdict::Granted(info) => Ending::Granted(info),
        Verdict::Status(status) => Ending::Refused(status),
    }
}

/// Ends the logon of that place as `how` says, which is let go.
fn end_by(alloc: Global, place: u32, how: Ending, work: Work) -> Result<Work, NoMemory>
    ensures { IfOk result (λ ended. ended ≡ end_logon place how work) }
{
    end_logon(alloc, place, &how, work)
}

/// What follows of a turn that ended so.
fn end_turn(alloc: Global, how: TurnEnd, work: Work) -> Result<Work, NoMemory>
    ensures { IfOk result (λ ended. ended ≡ end_turn how work) }
{
    match how {
        TurnEnd::Half | TurnEnd::Opened | TurnEnd::Set => Ok(work),
        TurnEnd::Answer(place, verdict) => {
            let verdict = verdict.into_verdict();
            end_by(alloc, place, ending_of(verdict), work)
        }
        TurnEnd::Dropped(place, cause) => {
            end_by(alloc, place, Ending::NoController(cause), work)
        }
    }
}

/// Whether the controller denied the channel, or the call on it.
fn is_denied(cause: DropCause) -> bool
    ensures { result ≡ is_denied cause }
{
    match cause {
        DropCause::Denied => true,
        DropCause::QueueFull
        | DropCause::DialFailed
        | DropCause::LinkClosed
        | DropCause::Bind
        | DropCause::Fault(_)
        | DropCause::NotNext
        | DropCause::BadReply
        | DropCause::BadSeal => false,
    }
}

/// What a turn that ended so makes of the secrets. It takes no memory.
fn change_secrets(how: &TurnEnd, secrets: &mut Secrets)
    ensures { secrets.new ≡ secrets_after how.now secrets.old }
{
    match how {
        TurnEnd::Half | TurnEnd::Answer(_, _) => {}
        TurnEnd::Opened => secrets.opened(),
        TurnEnd::Dropped(_, cause) => {
            if is_denied(*cause) {
                secrets.denied();
            }
        }
        TurnEnd::Set => confirm(secrets),
    }
}

/// The account has the next secret, where one is kept. It takes no memory.
#[tactic(auto, using(crate::proofs::SecretLaws::stays_unconfirmed))]
fn confirm(secrets: &mut Secrets)
    ensures { secrets.new ≡ confirmed_of secrets.old }
{
    if secrets.next().is_some() {
        secrets.confirmed();
    }
}

/// The secrets are changed as a turn that ended so makes it. True exactly where their text is another then. It takes no
/// memory.
#[tactic(auto, using(crate::proofs::SecretLaws::replacing))]
fn replace_secrets(how: &TurnEnd, secrets: &mut Secrets) -> bool
    ensures answer { result ≡ changes_text how.now secrets.old }
    ensures secrets { secrets.new ≡ secrets_after how.now secrets.old }
{
    let changing = secrets.next().is_some();
    change_secrets(how, secrets);
    changing && secrets.next().is_none()
}

/// The secrets after a turn that ended so; where their text is another, it is to be kept.
fn keep_ended(alloc: Global, how: &TurnEnd, work: Work) -> Result<Work, NoMemory>
    ensures { IfOk result (λ kept. kept ≡ keep_ended how.now work) }
{
    let mut work = work;
    if !replace_secrets(how, &mut work.logons.plan.secrets) {
        return Ok(work);
    }
    let text = work.logons.plan.secrets.text(alloc)?;
    tell_at(work, Action::Keep(text))
}

/// The link of the turn is closed, where it is still open.
fn close_ended(closes: Option<(u32, CloseCause)>, work: Work) -> Result<Work, NoMemory>
    ensures { IfOk result (λ closed. closed ≡ close_ended closes work) }
{
    match closes {
        Some((link, cause)) => tell_at(work, Action::Close(link, cause)),
        None => Ok(work),
    }
}

/// Where a turn ended, a new text of the secrets is kept, its link is closed, and then comes what follows.
fn after_ended(alloc: Global, ended: Option<TurnEnded>, work: Work) -> Result<Work, NoMemory>
    ensures { IfOk result (λ after. after ≡ after_ended ended work) }
{
    match ended {
        Some(TurnEnded { closes, how }) => {
            let work = keep_ended(alloc, &how, work)?;
            end_turn(alloc, how, close_ended(closes, work)?)
        }
        None => Ok(work),
    }
}

// ---- the turn of a member at work, and the rest of it

/// What a member at work has beside its channel, the link of the turn and the actions.
#[derive(Drop)]
struct Beside {
    plan: MemberPlan,
    asked: List<(u32, Logon)>,
    links: Links<Talk>,
}

/// The turn, and what the member has beside it. It takes no memory.
fn apart(work: Work, dialling: Dialling) -> (Turning, Beside)
    ensures { result ≡ (
      turning_of work dialling,
      record {
        plan = work.logons.plan;
        asked = work.logons.asked;
        links = work.links;
      },
    ) }
{
    let Work {
        logons,
        links,
        actions,
    } = work;
    let (plan, channel, asked) = logons.apart();
    let turning = Turning {
        channel,
        dialling,
        actions,
    };
    (turning, Beside { plan, asked, links })
}

/// A turn and what stands beside it, together again. It takes no memory.
fn together(turning: Turning, beside: Beside) -> (Work, Dialling)
    ensures { result ≡ (
      record {
        logons = record {
          plan = beside.plan;
          channel = turning.channel;
          asked = beside.asked;
        };
        links = beside.links;
        actions = turning.actions;
      },
      turning.dialling,
    ) }
{
    let Turning {
        channel,
        dialling,
        actions,
    } = turning;
    let Beside { plan, asked, links } = beside;
    let work = Work {
        logons: Logons {
            plan,
            channel,
            asked,
        },
        links,
        actions,
    };
    (work, dialling)
}

// ---- events on its link

/// The link of the turn is closed.
pub(crate) fn close_turn(
    alloc: Global,
    how: Dialling,
    link: u32,
    work: Work,
) -> Result<(Work, Dialling), NoMemory>
    ensures { IfOk result
        (λ dial_work. dial_work ≡ after_turned (link_closes link (turning_of work how)) work) }
{
    let (turning, beside) = apart(work, how);
    let (turning, ended) = link_closes(link, turning);
    let (work, how) = together(turning, beside);
    Ok((after_ended(alloc, ended, work)?, how))
}

/// The dial failed.
pub(crate) fn fail_dial(
    alloc: Global,
    how: Dialling,
    work: Work,
) -> Result<(Work, Dialling), NoMemory>
    ensures { IfOk result (λ dial_work. dial_work ≡ fail_dial how work) }
{
    let (turning, beside) = apart(work, how);
    let (turning, ended) = no_dial(turning);
    let (work, how) = together(turning, beside);
    Ok((after_ended(alloc, ended, work)?, how))
}

/// The dial was answered by this link: the bind goes out.
pub(crate) fn send_bind(
    alloc: Global,
    how: Dialling,
    link: u32,
    work: Work,
) -> Result<(Work, Dialling), NoMemory>
    ensures { IfOk result (λ dial_work. dial_work
        ≡ after_turned (link_answers link (turning_of work how), None) work) }
{
    let (turning, beside) = apart(work, how);
    let turning = link_answers(alloc, link, turning)?;
    Ok(together(turning, beside))
}

/// Bytes came on the link of the turn. No challenge is drawn.
pub(crate) fn hear_turn<Q: Chances>(
    alloc: Global,
    link: u32,
    piece: &[u8],
    how: Dialling,
    work: Work,
    chances: &mut Q,
) -> Result<(Work, Dialling), NoMemory>
    ensures value { IfOk result (λ dial_work. dial_work
        ≡ after_turned (link_hears link piece.now (turning_of work how)) work) }
    ensures undrawn { Q.drawing chances.new ≡ Q.drawing chances.old }
{
    let (turning, beside) = apart(work, how);
    let (turning, ended) = match link_hears(alloc, link, piece, turning, chances) {
        Ok(heard) => heard,
        Err(NoMemory) => return Err(NoMemory),
    };
    let (work, how) = together(turning, beside);
    match after_ended(alloc, ended, work) {
        Ok(work) => Ok((work, how)),
        Err(NoMemory) => Err(NoMemory),
    }
}

// ---- the next turn

/// Where a turn can start, the channel is given the next secret, or none, and while it is none the secret that is
/// tried. It takes no memory.
#[tactic(auto, using(crate::proofs::SecretLaws::giving))]
fn give_secrets(secrets: &Secrets, channel: &mut PlainChannel)
    ensures { channel.new
        ≡ give_secrets (can_start channel.old.turn channel.old.waiting) secrets.now channel.old }
{
    if !channel.can_start() {
        return;
    }
    if channel.needs_challenge() {
        channel.use_secret(secrets.tried());
    }
    channel.set_next(secrets.next());
}

/// The turn, whose channel is given the secrets. It takes no memory.
fn make_ready(secrets: &Secrets, turning: Turning) -> Turning
    ensures { result ≡ record turning {
      channel = give_secrets
          (can_start turning.channel.turn turning.channel.waiting) secrets.now turning.channel;
    } }
{
    let Turning {
        mut channel,
        dialling,
        actions,
    } = turning;
    give_secrets(secrets, &mut channel);
    Turning {
        channel,
        dialling,
        actions,
    }
}

/// The next turn starts, where one can: the channel is given the secrets, and the controller is dialled. A challenge is
/// drawn where the channel needs one: one at most, whatever the result.
#[tactic(auto, using(crate::proofs::SharingLaws::next_refused))]
pub(crate) fn next_turn<Q: Chances>(
    alloc: Global,
    now: u64,
    work: Work,
    how: Dialling,
    chances: &mut Q,
) -> Result<(Work, Dialling), StepRefused>
    ensures draws { DrawsSome (Q.drawing chances.old) (Q.drawing chances.new) }
    ensures answer { AnswersBy result (next_turn now (work, how) (Q.drawing chances.old).left)
        (Q.drawing chances.new).left }
    ensures few { length (Q.drawing chances.old).left ≤ length (Q.drawing chances.new).left + 1 }
{
    let (turning, beside) = apart(work, how);
    let turning = make_ready(&beside.plan.secrets, turning);
    match next_dial(alloc, now, &beside.plan.controller, turning, chances) {
        Ok(turning) => Ok(together(turning, beside)),
        Err(why) => Err(why),
    }
}

// ---- a channel that seals

/// Bytes came on a link, whose units a turn of a channel that seals hears where it is the turn's; and whether that link
/// is sealed afterwards, where it was so before. No challenge is drawn.
#[tactic(auto, using(crate::proofs::SealLaws::hearing))]
pub(crate) fn hear_sealed<Q: Chances>(
    alloc: Global,
    link: u32,
    piece: &[u8],
    how: Dialling,
    work: Work,
    is_link_sealed: bool,
    chances: &mut Q,
) -> Result<((Work, Dialling), bool), StepRefused>
    ensures draws { DrawsSome (Q.drawing chances.old) (Q.drawing chances.new) }
    ensures answer { AnswersBy result
        (hear_sealed link piece.now how work is_link_sealed (Q.drawing chances.old).left)
        (Q.drawing chances.new).left }
    ensures few { length (Q.drawing chances.old).left
        ≤ length (Q.drawing chances.new).left + units_in_piece (length piece.now) }
{
    let (turning, beside) = apart(work, how);
    let ((turning, ended), sealed) = match sealed_link_hears(
        alloc,
        link,
        piece,
        is_link_sealed,
        turning,
        chances,
    ) {
        Ok(turned) => turned,
        Err(why) => return Err(why),
    };
    let (work, how) = together(turning, beside);
    match after_ended(alloc, ended, work) {
        Ok(work) => Ok(((work, how), sealed)),
        Err(NoMemory) => Err(StepRefused::Memory),
    }
}

/// The next turn of a channel that seals starts, where one can: the channel is given the secrets, and the controller is
/// dialled. A challenge is drawn where the channel needs one: one at most, whatever the result.
#[tactic(auto, using(crate::proofs::SealLaws::dialling_next))]
pub(crate) fn next_sealed<Q: Chances>(
    alloc: Global,
    now: u64,
    work: Work,
    how: Dialling,
    is_link_sealed: bool,
    chances: &mut Q,
) -> Result<((Work, Dialling), bool), StepRefused>
    ensures draws { DrawsSome (Q.drawing chances.old) (Q.drawing chances.new) }
    ensures answer { AnswersBy result
        (next_sealed now ((work, how), is_link_sealed) (Q.drawing chances.old).left)
        (Q.drawing chances.new).left }
    ensures few { length (Q.drawing chances.old).left ≤ length (Q.drawing chances.new).left + 1 }
{
    let (turning, beside) = apart(work, how);
    let turning = make_ready(&beside.plan.secrets, turning);
    match next_sealed_dial(alloc, now, &beside.plan.controller, turning, chances) {
        Ok(turning) => Ok((together(turning, beside), is_link_sealed)),
        Err(why) => Err(why),
    }
}
