//! Logons that are asked of the controllers of trusted domains: how they come to wait, and how they are answered.

ghost use Rattle.std.specs.Prelude.{◌≡◌, ◌<◌, true, length, IfOk, IfSome};
ghost use Rattle.wire_base.specs.Maps.{has_key, lookup, place_of, take_out};
ghost use Rattle.logon_stubs.specs.Writing.{CanWriteNetworkInfo, CanWriteSamInfo};
ghost use Rattle.logon_stubs.specs.Verdicts.{IfGranted};
ghost use Rattle.controller_calls.specs.Desk.{IsLine};
ghost use Rattle.domain_controller.specs.Forwarding.{after_ended, answer_place, ask_trust, calls_without, close_ended, end_turn, fits_on, forget_link, forward_if, leave_unasked, wait_at};
ghost use Rattle.domain_controller.specs.Trusting.{same_place};

use crate::trusting::{ForwardedCalls, Queues, TrustWork};
use channel_client::{AskRefused, PlainChannel};
use channel_turns::{TurnEnd, TurnEnded};
use controller_calls::{ForwardedCall, HandOn, Line, answer_forwarded, answer_unasked, tell};
use logon_stubs::{NetworkInfo, STATUS_NO_LOGON_SERVERS, Verdict};
use outside::{Action, CloseCause, Judged};
use std::alloc::Global;
use wire_base::{List, NoMemory};

/// The most bytes of a logon's texts and responses, so that the call that asks for it is heard whole: in its frames it
/// has fewer than 65,536 (this project's own choice).
const MOST_BYTES: usize = 57_000;

/// Whether the logon's texts and responses have few enough bytes. It takes no memory.
pub(crate) fn fits_on(info: &NetworkInfo) -> bool
    ensures value { result ≡ fits_on info.now }
    ensures writable { result ≡ true → CanWriteNetworkInfo info.now }
{
    let units = info.domain.units().len()
        + info.user.units().len()
        + info.workstation.units().len();
    if units > MOST_BYTES / 2 {
        return false;
    }
    let bytes = 2 * units + info.nt.bytes().len();
    if bytes > MOST_BYTES {
        return false;
    }
    bytes + info.lm.bytes().len() <= MOST_BYTES
}

/// Nobody is asked for the logon.
fn leave_unasked(
    alloc: Global,
    call: &ForwardedCall,
    line: Line,
    work: TrustWork,
) -> Result<TrustWork, NoMemory>
    requires { IsLine line }
    ensures { IfOk result (λ w. w ≡ leave_unasked call.now line work) }
{
    let TrustWork { work, queues } = work;
    let work = answer_unasked(alloc, call, line, work)?;
    Ok(TrustWork { work, queues })
}

/// A logon that is handed on waits for its turn where it is asked, and nothing is sent. Nobody is asked for it where as
/// many wait there as may, or where it is too long to be asked.
#[tactic(auto, using(crate::proofs::ForwardLaws::asking))]
pub(crate) fn forward(
    alloc: Global,
    handed: HandOn,
    line: Line,
    work: TrustWork,
) -> Result<TrustWork, NoMemory>
    requires { IsLine line }
    ensures { IfOk result (λ w. w ≡ forward_if (fits_on handed.info) handed line work) }
{
    let HandOn { trust, info, call } = handed;
    let trust = trust as usize;
    if !fits_on(&info) {
        return leave_unasked(alloc, &call, line, work);
    }
    let TrustWork { work, queues } = work;
    let Queues {
        requesters,
        forwarded,
    } = queues;
    let (requesters, place) = ask_trust(info, trust, requesters)?;
    let work = TrustWork {
        work,
        queues: Queues {
            requesters,
            forwarded,
        },
    };
    match place {
        Some(place) => wait_at(place, trust, call, work),
        None => leave_unasked(alloc, &call, line, work),
    }
}

/// The requester of that trust is asked: the place that the logon has there, or None where as many wait as may.
#[tactic(auto, using(crate::proofs::ForwardLaws::asking))]
pub(crate) fn ask_trust(
    info: NetworkInfo,
    trust: usize,
    requesters: List<PlainChannel>,
) -> Result<(List<PlainChannel>, Option<u32>), NoMemory>
    requires { CanWriteNetworkInfo info }
    ensures { IfOk result (λ asked. asked ≡ ask_trust info trust requesters) }
{
    let mut requesters = requesters.into_vec();
    if trust >= requesters.len() {
        return Ok((List::from_vec(requesters), None));
    }
    match requesters[trust].ask(info) {
        Ok(place) => Ok((List::from_vec(requesters), Some(place))),
        Err(AskRefused::QueueFull) => Ok((List::from_vec(requesters), None)),
        Err(AskRefused::Memory) => Err(NoMemory),
    }
}

/// The logon waits at that place, which is told.
pub(crate) fn wait_at(
    place: u32,
    trust: usize,
    call: ForwardedCall,
    work: TrustWork,
) -> Result<TrustWork, NoMemory>
    ensures { IfOk result (λ w. w ≡ wait_at place trust call work.queues.requesters work) }
{
    let TrustWork { work, queues } = work;
    let Queues {
        requesters,
        mut forwarded,
    } = queues;
    let work = tell(work, Action::Judged(Judged::Forwarded))?;
    forwarded.push(((trust, place), call))?;
    Ok(TrustWork {
        work,
        queues: Queues {
            requesters,
            forwarded,
        },
    })
}

// ---- links that close

/// An accepted link of that number is closed: its logons have no line any more. It takes no memory.
pub(crate) fn forget_link(number: u32, work: TrustWork) -> TrustWork
    ensures { result ≡ forget_link number work }
{
    let TrustWork { work, queues } = work;
    let Queues {
        requesters,
        forwarded,
    } = queues;
    TrustWork {
        work,
        queues: Queues {
            requesters,
            forwarded: calls_without(number, forwarded),
        },
    }
}

/// The logons, without the lines on the link of that number.
fn calls_without(number: u32, calls: ForwardedCalls) -> ForwardedCalls
    ensures { result ≡ calls_without number calls }
{
    let mut calls = calls.into_vec();
    for entry in calls.iter_mut() {
        entry.1.forget_link(number);
    }
    List::from_vec(calls)
}

// ---- turns that end

/// Where the logon of the place is among these, if it is there.
#[tactic(auto, using(wire_base::proofs::PlaceLaws::places))]
fn find_call(calls: &[((usize, u32), ForwardedCall)], trust: usize, place: u32) -> Option<usize>
    ensures at { result ≡ place_of (has_key same_place (trust, place)) calls.now }
    ensures inside { IfSome result (λ at. at < length calls.now) }
{
    for (index, entry) in calls.iter().enumerate() {
        if is_place(&entry.0, trust, place) {
            return Some(index);
        }
    }
    None
}

/// Whether `at` is that place at that trust.
pub(crate) fn is_place(at: &(usize, u32), trust: usize, place: u32) -> bool
    ensures { result ≡ same_place (trust, place) at.now }
{
    trust == at.0 && place == at.1
}

/// The logons without that of the place, and the logon.
#[tactic(auto, using(wire_base::proofs::MapLaws::take_out_at, wire_base::proofs::MapLaws::take_out_none, wire_base::proofs::MapLaws::lookup_at, wire_base::proofs::MapLaws::lookup_none))]
fn take_call(
    calls: ForwardedCalls,
    trust: usize,
    place: u32,
) -> (ForwardedCalls, Option<ForwardedCall>)
    ensures rest { result.0 ≡ take_out same_place (trust, place) calls }
    ensures call { result.1 ≡ lookup same_place (trust, place) calls }
{
    let Some(at) = find_call(calls.items(), trust, place) else {
        return (calls, None);
    };
    let mut items = calls.into_vec();
    let (_, call) = items.remove(at);
    (List::from_vec(items), Some(call))
}

/// The logon of that place has its verdict; nothing where there is none.
pub(crate) fn answer_place(
    alloc: Global,
    trust: usize,
    place: u32,
    verdict: Verdict,
    work: TrustWork,
) -> Result<TrustWork, NoMemory>
    requires { IfGranted verdict CanWriteSamInfo }
    ensures { IfOk result (λ w. w ≡ answer_place (trust, place) verdict work) }
{
    let TrustWork { work, queues } = work;
    let Queues {
        requesters,
        forwarded,
    } = queues;
    let (forwarded, found) = take_call(forwarded, trust, place);
    let work = match found {
        Some(call) => answer_forwarded(alloc, verdict, call, work)?,
        None => work,
    };
    Ok(TrustWork {
        work,
        queues: Queues {
            requesters,
            forwarded,
        },
    })
}

/// What follows of a turn of that trust that ended so.
fn end_turn(
    alloc: Global,
    how: TurnEnd,
    trust: usize,
    work: TrustWork,
) -> Result<TrustWork, NoMemory>
    ensures { IfOk result (λ w. w ≡ end_turn how trust work) }
{
    match how {
        TurnEnd::Half | TurnEnd::Opened | TurnEnd::Set => Ok(work),
        TurnEnd::Answer(place, verdict) => {
            answer_place(alloc, trust, place, verdict.into_verdict(), work)
        }
        TurnEnd::Dropped(place, _) => {
            let verdict = Verdict::Status(STATUS_NO_LOGON_SERVERS);
            answer_place(alloc, trust, place, verdict, work)
        }
    }
}

/// The link of the turn is closed, where it is still open.
pub(crate) fn close_ended(
    closes: Option<(u32, CloseCause)>,
    work: TrustWork,
) -> Result<TrustWork, NoMemory>
    ensures { IfOk result (λ w. w ≡ close_ended closes work) }
{
    let Some((link, cause)) = closes else {
        return Ok(work);
    };
    let TrustWork { work, queues } = work;
    let work = tell(work, Action::Close(link, cause))?;
    Ok(TrustWork { work, queues })
}

/// Where a turn of that trust ended, its link is closed, and then comes what follows.
pub(crate) fn after_ended(
    alloc: Global,
    ended: Option<TurnEnded>,
    trust: usize,
    work: TrustWork,
) -> Result<TrustWork, NoMemory>
    ensures { IfOk result (λ w. w ≡ after_ended ended trust work) }
{
    match ended {
        Some(TurnEnded { closes, how }) => {
            end_turn(alloc, how, trust, close_ended(closes, work)?)
        }
        None => Ok(work),
    }
}
