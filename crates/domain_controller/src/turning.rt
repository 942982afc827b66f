//! The turn that is out, over all trusts, and its link.

ghost use Rattle.std.specs.Prelude.{◌≡◌, ◌≤◌, ◌<◌, ◌+◌, [], None, Some, length, nat_lt, slice_get, IfOk, IfSome};
ghost use Rattle.outside.specs.Drawing.{DrawsSome};
ghost use Rattle.outside.specs.Machine.{AnswersBy};
ghost use Rattle.channel_turns.specs.Turning.{link_answers, link_closes, link_hears, no_dial};
ghost use Rattle.domain_controller.specs.TrustStep.{first_waiting, is_idle, next_turn, on_turn, start_on, turning_of};
ghost use Rattle.domain_controller.specs.TurnApart.{beside_of, put_back};

use crate::forwarding::after_ended;
use crate::state::Talk;
use crate::trusting::{ForwardedCalls, Parts, Queues, TrustWork};
use account_table::{Table, Trust};
use channel_client::PlainChannel;
use channel_turns::{
    Dialling, TurnEnded, Turning, link_answers, link_closes, link_hears, next_dial, no_dial,
};
use controller_calls::{Computers, Work};
use end_links::Links;
use outside::{Chances, StepRefused};
use std::alloc::Global;
use wire_base::{List, NoMemory};

// ---- the turn of a controller at work, and the rest of it

/// What a controller at work has beside the channel of a trust, the link of the turn and the actions.
#[derive(Drop)]
pub struct Beside {
    pub computers: Computers,
    pub requesters: List<PlainChannel>,
    pub forwarded: ForwardedCalls,
    pub links: Links<Talk>,
}

/// Whether there is a requester of that number. It takes no memory.
pub(crate) fn has_requester(parts: &Parts, trust: usize) -> bool
    ensures { result ≡ nat_lt trust (length parts.now.work.queues.requesters) }
{
    trust < parts.work.queues.requesters.len()
}

/// The turn of the channel of that trust, and what the controller has beside it. It takes no memory.
#[tactic(auto, using(crate::proofs::ForwardLaws::apart))]
pub(crate) fn apart(parts: Parts, trust: usize) -> (Turning, Beside)
    requires { trust < length parts.work.queues.requesters }
    ensures whose { slice_get parts.work.queues.requesters trust ≡ Some result.0.channel }
    ensures turning { result.0 ≡ turning_of result.0.channel parts }
    ensures beside { result.1 ≡ beside_of trust parts }
    ensures inside { trust ≤ length result.1.requesters }
{
    let Parts {
        work,
        links,
        dialling,
        ..
    } = parts;
    let TrustWork { work, queues } = work;
    let Work { computers, actions } = work;
    let Queues {
        requesters,
        forwarded,
    } = queues;
    let mut requesters = requesters.into_vec();
    let channel = requesters.remove(trust);
    let turning = Turning {
        channel,
        dialling,
        actions,
    };
    let beside = Beside {
        computers,
        requesters: List::from_vec(requesters),
        forwarded,
        links,
    };
    (turning, beside)
}

/// The channel is at its place again, and what follows of its turn is done, where it ended.
pub(crate) fn put_back(
    alloc: Global,
    trust: usize,
    turning: Turning,
    ended: Option<TurnEnded>,
    beside: Beside,
) -> Result<Parts, NoMemory>
    requires { trust ≤ length beside.requesters }
    ensures { IfOk result (λ parts. parts ≡ put_back trust (turning, ended) beside) }
{
    let Turning {
        channel,
        dialling,
        actions,
    } = turning;
    let Beside {
        computers,
        requesters,
        forwarded,
        links,
    } = beside;
    let mut requesters = requesters.into_vec();
    requesters.insert(trust, channel)?;
    let work = TrustWork {
        work: Work { computers, actions },
        queues: Queues {
            requesters: List::from_vec(requesters),
            forwarded,
        },
    };
    let work = after_ended(alloc, ended, trust, work)?;
    Ok(Parts {
        work,
        links,
        turn_of: trust,
        dialling,
    })
}

// ---- events on its link

/// The link of the turn is closed.
#[tactic(auto, using(crate::proofs::ForwardLaws::turned, crate::proofs::ForwardLaws::unturned))]
pub(crate) fn close_turn(alloc: Global, link: u32, parts: Parts) -> Result<Parts, NoMemory>
    ensures { IfOk result (λ after. after ≡ on_turn (λ turning. link_closes link turning) parts) }
{
    let trust = parts.turn_of;
    if !has_requester(&parts, trust) {
        return Ok(parts);
    }
    let (turning, beside) = apart(parts, trust);
    let (turning, ended) = link_closes(link, turning);
    put_back(alloc, trust, turning, ended, beside)
}

/// The dial failed.
#[tactic(auto, using(crate::proofs::ForwardLaws::turned, crate::proofs::ForwardLaws::unturned))]
pub(crate) fn fail_turn(alloc: Global, parts: Parts) -> Result<Parts, NoMemory>
    ensures { IfOk result (λ after. after ≡ on_turn (λ turning. no_dial turning) parts) }
{
    let trust = parts.turn_of;
    if !has_requester(&parts, trust) {
        return Ok(parts);
    }
    let (turning, beside) = apart(parts, trust);
    let (turning, ended) = no_dial(turning);
    put_back(alloc, trust, turning, ended, beside)
}

/// The dial was answered by this link: the bind goes out.
#[tactic(auto, using(crate::proofs::ForwardLaws::turned, crate::proofs::ForwardLaws::unturned))]
pub(crate) fn bind_turn(alloc: Global, link: u32, parts: Parts) -> Result<Parts, NoMemory>
    ensures { IfOk result (λ after.
        after ≡ on_turn (λ turning. (link_answers link turning, None)) parts) }
{
    let trust = parts.turn_of;
    if !has_requester(&parts, trust) {
        return Ok(parts);
    }
    let (turning, beside) = apart(parts, trust);
    let turning = link_answers(alloc, link, turning)?;
    put_back(alloc, trust, turning, None, beside)
}

/// Bytes came on the link of the turn. No challenge is drawn.
#[tactic(auto, using(crate::proofs::ForwardLaws::turned, crate::proofs::ForwardLaws::unturned))]
pub(crate) fn hear_turn<Q: Chances>(
    alloc: Global,
    link: u32,
    piece: &[u8],
    parts: Parts,
    chances: &mut Q,
) -> Result<Parts, NoMemory>
    ensures value { IfOk result (λ after.
        after ≡ on_turn (λ turning. link_hears link piece.now turning) parts) }
    ensures undrawn { Q.drawing chances.new ≡ Q.drawing chances.old }
{
    let trust = parts.turn_of;
    if !has_requester(&parts, trust) {
        return Ok(parts);
    }
    let (turning, beside) = apart(parts, trust);
    match link_hears(alloc, link, piece, turning, chances) {
        Ok((turning, ended)) => put_back(alloc, trust, turning, ended, beside),
        Err(NoMemory) => Err(NoMemory),
    }
}

// ---- the next turn

/// Whether no turn is out. It takes no memory.
fn is_idle(dialling: &Dialling) -> bool
    ensures { result ≡ is_idle dialling.now }
{
    match dialling {
        Dialling::Nothing => true,
        Dialling::Waits(..) | Dialling::On(..) => false,
    }
}

/// The first trust at whose requester a logon waits for a turn. It takes no memory.
#[tactic(auto, using(wire_base::proofs::PlaceLaws::places))]
fn first_waiting(requesters: &[PlainChannel]) -> Option<usize>
    ensures first { result ≡ first_waiting requesters.now }
    ensures inside { IfSome result (λ trust. trust < length requesters.now) }
{
    for (place, requester) in requesters.iter().enumerate() {
        if requester.can_start() {
            return Some(place);
        }
    }
    None
}

/// Where no turn is out, that of the first trust at which a logon waits starts, and its controller is dialled. A
/// challenge is drawn where the channel needs one: one at most, whatever the result.
#[tactic(auto, using(crate::proofs::TrustStepLaws::starting, crate::proofs::TrustStepLaws::nobody_waits))]
pub(crate) fn next_turn<Q: Chances>(
    alloc: Global,
    now: u64,
    table: &Table,
    parts: Parts,
    chances: &mut Q,
) -> Result<Parts, StepRefused>
    ensures draws { DrawsSome (Q.drawing chances.old) (Q.drawing chances.new) }
    ensures answer { AnswersBy result
        (next_turn table.now.trusts now parts (Q.drawing chances.old).left)
        (Q.drawing chances.new).left }
    ensures few { length (Q.drawing chances.old).left ≤ length (Q.drawing chances.new).left + 1 }
    // None is drawn where nobody is asked.
    ensures undrawn { parts.work.queues.requesters ≡ [] →
        length (Q.drawing chances.old).left ≤ length (Q.drawing chances.new).left }
{
    if !is_idle(&parts.dialling) {
        return Ok(parts);
    }
    let Some(trust) = first_waiting(parts.work.queues.requesters.items()) else {
        return Ok(parts);
    };
    match table.trusts().get(trust) {
        Some(entry) => start_turn(alloc, now, entry, trust, parts, chances),
        None => Ok(parts),
    }
}

/// The turn of that trust starts.
#[tactic(auto, using(crate::proofs::TrustStepLaws::starting))]
fn start_turn<Q: Chances>(
    alloc: Global,
    now: u64,
    entry: &Trust,
    trust: usize,
    parts: Parts,
    chances: &mut Q,
) -> Result<Parts, StepRefused>
    requires { trust < length parts.work.queues.requesters }
    ensures draws { DrawsSome (Q.drawing chances.old) (Q.drawing chances.new) }
    ensures answer { AnswersBy result
        (start_on (slice_get parts.work.queues.requesters trust) (Some entry.now) trust now parts
        (Q.drawing chances.old).left)
        (Q.drawing chances.new).left }
    ensures few { length (Q.drawing chances.old).left ≤ length (Q.drawing chances.new).left + 1 }
{
    let (turning, beside) = apart(parts, trust);
    let turning = match next_dial(alloc, now, &entry.address, turning, chances) {
        Ok(turning) => turning,
        Err(why) => return Err(why),
    };
    match put_back(alloc, trust, turning, None, beside) {
        Ok(parts) => Ok(parts),
        Err(NoMemory) => Err(StepRefused::Memory),
    }
}
