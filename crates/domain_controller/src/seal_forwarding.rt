//! Replies on sealed links, and logons from those that are asked of the controllers of trusted domains.

ghost use Rattle.std.specs.Prelude.{◌≡◌, ◌≤◌, ◌<◌, IfOk, IfSome, length};
ghost use Rattle.wire_base.specs.Maps.{has_key, lookup, place_of, take_out};
ghost use Rattle.logon_stubs.specs.Verdicts.{IfGranted};
ghost use Rattle.logon_stubs.specs.Writing.{CanWriteSamInfo};
ghost use Rattle.controller_calls.specs.Limits.{stub_limit};
ghost use Rattle.domain_controller.specs.Forwarding.{after_ended, answer_place, fits_on};
ghost use Rattle.domain_controller.specs.Sealing.{asked_without, unseal_link, without_asked};
ghost use Rattle.domain_controller.specs.SealServing.{answer_asked, answer_on_line, forward_sealed, reply_sealed, unasked_sealed, wait_sealed};
ghost use Rattle.domain_controller.specs.SealStep.{answer_ended, end_verdict};
ghost use Rattle.domain_controller.specs.Trusting.{same_place};

use crate::answering::tell_on;
use crate::forwarding::{answer_place, ask_trust, close_ended, fits_on, is_place, wait_at};
use crate::sealed::{AskedCalls, SealedCall, Sealing};
use crate::state::Talk;
use crate::trusting::{Queues, TrustWork};
use crate::verdicts::copy_verdict;
use channel_turns::{TurnEnd, TurnEnded};
use controller_calls::{
    ForwardedCall, HandOn, Line, ReplySeal, forwarded_stub, seal_reply, stands, told_unasked,
    unasked_stub,
};
use logon_stubs::{STATUS_NO_LOGON_SERVERS, Verdict};
use outside::{Action, CloseCause};
use std::alloc::Global;
use wire_base::{Blob, List, NoMemory, take_number};

/// The reply with that stub goes out sealed. Where the numbers of the channel's end are used up, the link is closed.
pub(crate) fn reply_sealed(
    alloc: Global,
    reply: &ReplySeal,
    line: Line,
    stub: Blob,
    talk: Talk,
    work: TrustWork,
    sealing: Sealing,
) -> Result<((TrustWork, Sealing), Option<Talk>), NoMemory>
    requires { length stub ≤ stub_limit }
    ensures { IfOk result (λ done. done ≡ reply_sealed reply.now line stub work sealing talk) }
{
    let Sealing {
        seals,
        links,
        asked,
    } = sealing;
    let (seals, bytes) = seal_reply(alloc, reply, line, stub, seals)?;
    let sealing = Sealing {
        seals,
        links,
        asked,
    };
    match bytes {
        Some(bytes) => Ok((
            (tell_on(work, Action::Send(line.link, bytes))?, sealing),
            Some(talk),
        )),
        None => {
            let closes = Action::Close(line.link, CloseCause::BadAuthentication);
            Ok(((tell_on(work, closes)?, sealing), None))
        }
    }
}

/// Nobody is asked for the logon.
fn leave_sealed(
    alloc: Global,
    call: &ForwardedCall,
    reply: &ReplySeal,
    line: Line,
    talk: Talk,
    work: TrustWork,
    sealing: Sealing,
) -> Result<((TrustWork, Sealing), Option<Talk>), NoMemory>
    ensures { IfOk result
        (λ done. done ≡ unasked_sealed call.now reply.now line work sealing talk) }
{
    let stub = unasked_stub(alloc, call)?;
    let TrustWork { work, queues } = work;
    let work = TrustWork {
        work: told_unasked(work)?,
        queues,
    };
    reply_sealed(alloc, reply, line, stub, talk, work, sealing)
}

/// A logon that is handed on waits for its turn where it is asked, and nothing is sent. Nobody is asked for it where as
/// many wait there as may, or where it is too long to be asked.
#[tactic(auto, using(crate::proofs::ForwardLaws::asking))]
pub(crate) fn forward_sealed(
    alloc: Global,
    handed: HandOn,
    reply: ReplySeal,
    line: Line,
    talk: Talk,
    work: TrustWork,
    sealing: Sealing,
) -> Result<((TrustWork, Sealing), Option<Talk>), NoMemory>
    ensures { IfOk result (λ done. done
        ≡ forward_sealed (fits_on handed.info) handed reply line work sealing talk) }
{
    let HandOn { trust, info, call } = handed;
    let trust = trust as usize;
    if !fits_on(&info) {
        return leave_sealed(alloc, &call, &reply, line, talk, work, sealing);
    }
    let TrustWork { work, queues } = work;
    let Queues {
        requesters,
        forwarded,
    } = queues;
    let (requesters, place) = ask_trust(info, trust, requesters)?;
    let work = TrustWork {
        work,
        queues: Queues {
            requesters,
            forwarded,
        },
    };
    match place {
        Some(place) => wait_sealed(place, trust, call, reply, line, talk, work, sealing),
        None => leave_sealed(alloc, &call, &reply, line, talk, work, sealing),
    }
}

/// The logon waits at that place without a line, which is told. Where its reply goes is kept with what seals it.
fn wait_sealed(
    place: u32,
    trust: usize,
    call: ForwardedCall,
    reply: ReplySeal,
    line: Line,
    talk: Talk,
    work: TrustWork,
    sealing: Sealing,
) -> Result<((TrustWork, Sealing), Option<Talk>), NoMemory>
    ensures { IfOk result (λ done. done
        ≡ wait_sealed place trust call reply line work.queues.requesters work sealing talk) }
{
    let mut waiting = call.copy();
    waiting.forget_link(line.link);
    let work = wait_at(place, trust, waiting, work)?;
    let Sealing {
        seals,
        links,
        mut asked,
    } = sealing;
    asked.push(((trust, place), SealedCall { reply, call }))?;
    let sealing = Sealing {
        seals,
        links,
        asked,
    };
    Ok(((work, sealing), Some(talk)))
}

// ---- links that close

/// A link of that number closes: it is sealed no more, and its logons have no line any more. It takes no memory.
pub(crate) fn unseal_link(number: u32, sealing: Sealing) -> Sealing
    ensures { result ≡ unseal_link number sealing }
{
    let Sealing {
        seals,
        links,
        asked,
    } = sealing;
    let (links, _seal) = take_number(links, number);
    Sealing {
        seals,
        links,
        asked: asked_without(number, asked),
    }
}

/// The logons, without the lines on the link of that number.
fn asked_without(number: u32, asked: AskedCalls) -> AskedCalls
    ensures { result ≡ asked_without number asked }
{
    let mut asked = asked.into_vec();
    for entry in asked.iter_mut() {
        entry.1.call.forget_link(number);
    }
    List::from_vec(asked)
}

// ---- turns that end

/// Where the logon of the place is among these, if it is there.
#[tactic(auto, using(wire_base::proofs::PlaceLaws::places))]
fn find_asked(asked: &[((usize, u32), SealedCall)], trust: usize, place: u32) -> Option<usize>
    ensures at { result ≡ place_of (has_key same_place (trust, place)) asked.now }
    ensures inside { IfSome result (λ at. at < length asked.now) }
{
    for (index, entry) in asked.iter().enumerate() {
        if is_place(&entry.0, trust, place) {
            return Some(index);
        }
    }
    None
}

/// The logons without that of the place, and the logon.
#[tactic(auto, using(wire_base::proofs::MapLaws::take_out_at, wire_base::proofs::MapLaws::take_out_none, wire_base::proofs::MapLaws::lookup_at, wire_base::proofs::MapLaws::lookup_none))]
fn take_asked(asked: AskedCalls, trust: usize, place: u32) -> (AskedCalls, Option<SealedCall>)
    ensures rest { result.0 ≡ take_out same_place (trust, place) asked }
    ensures call { result.1 ≡ lookup same_place (trust, place) asked }
{
    let Some(at) = find_asked(asked.items(), trust, place) else {
        return (asked, None);
    };
    let mut items = asked.into_vec();
    let (_, call) = items.remove(at);
    (List::from_vec(items), Some(call))
}

/// The verdict on a logon from a sealed link goes out sealed where its link is open and its channel stands, else to
/// nobody. Where the numbers of the channel's end are used up, the link is closed, whose number is given.
fn answer_sealed(
    alloc: Global,
    sealed: SealedCall,
    verdict: Verdict,
    work: TrustWork,
    sealing: Sealing,
) -> Result<((TrustWork, Sealing), Option<u32>), NoMemory>
    requires { IfGranted verdict CanWriteSamInfo }
    ensures { IfOk result (λ done. done
        ≡ answer_on_line sealed.call.line sealed verdict work sealing) }
{
    let SealedCall { reply, call } = sealed;
    let Some(line) = call.line() else {
        return Ok(((work, sealing), None));
    };
    if !stands(&reply.link, &sealing.seals) {
        return Ok(((work, sealing), None));
    }
    let stub = forwarded_stub(alloc, verdict, &call)?;
    let Sealing {
        seals,
        links,
        asked,
    } = sealing;
    let (seals, bytes) = seal_reply(alloc, &reply, line, stub, seals)?;
    let sealing = Sealing {
        seals,
        links,
        asked,
    };
    match bytes {
        Some(bytes) => Ok((
            (tell_on(work, Action::Send(line.link, bytes))?, sealing),
            None,
        )),
        None => {
            let closes = Action::Close(line.link, CloseCause::BadAuthentication);
            Ok(((tell_on(work, closes)?, sealing), Some(line.link)))
        }
    }
}

/// What is kept to seal without the logon of the place, and the logon. It takes no memory.
fn take_sealed(trust: usize, place: u32, sealing: Sealing) -> (Sealing, Option<SealedCall>)
    ensures rest { result.0 ≡ without_asked (trust, place) sealing }
    ensures call { result.1 ≡ lookup same_place (trust, place) sealing.asked }
{
    let Sealing {
        seals,
        links,
        asked,
    } = sealing;
    let (asked, found) = take_asked(asked, trust, place);
    let sealing = Sealing {
        seals,
        links,
        asked,
    };
    (sealing, found)
}

/// The logon of that place has its verdict, which is told, and where it came on a sealed link it is answered there.
#[tactic(auto, using(crate::proofs::ForwardLaws::none_kept))]
fn answer_asked(
    alloc: Global,
    trust: usize,
    place: u32,
    verdict: Verdict,
    work: TrustWork,
    sealing: Sealing,
) -> Result<((TrustWork, Sealing), Option<u32>), NoMemory>
    requires { IfGranted verdict CanWriteSamInfo }
    ensures { IfOk result (λ done. done ≡ answer_asked (trust, place) verdict
        (answer_place (trust, place) verdict work) sealing) }
{
    let (sealing, found) = take_sealed(trust, place, sealing);
    let Some(sealed) = found else {
        let work = answer_place(alloc, trust, place, verdict, work)?;
        return Ok(((work, sealing), None));
    };
    answer_found(alloc, sealed, trust, place, verdict, work, sealing)
}

/// The logon of that place, which came on a sealed link, has its verdict, which is told, and it is answered there.
fn answer_found(
    alloc: Global,
    sealed: SealedCall,
    trust: usize,
    place: u32,
    verdict: Verdict,
    work: TrustWork,
    sealing: Sealing,
) -> Result<((TrustWork, Sealing), Option<u32>), NoMemory>
    requires { IfGranted verdict CanWriteSamInfo }
    ensures { IfOk result (λ done. done ≡ answer_on_line sealed.call.line sealed verdict
        (answer_place (trust, place) verdict work) sealing) }
{
    let copy = copy_verdict(alloc, &verdict)?;
    let work = answer_place(alloc, trust, place, verdict, work)?;
    answer_sealed(alloc, sealed, copy, work, sealing)
}

/// What follows of a turn of that trust that ended so: its link is closed, where it is still open; and its logon is
/// answered, behind what is told of it.
pub(crate) fn after_ended_sealing(
    alloc: Global,
    ended: Option<TurnEnded>,
    trust: usize,
    work: TrustWork,
    sealing: Sealing,
) -> Result<((TrustWork, Sealing), Option<u32>), NoMemory>
    ensures { IfOk result (λ done. done ≡ answer_ended (end_verdict ended) trust
        (after_ended ended trust work) sealing) }
{
    let Some(TurnEnded { closes, how }) = ended else {
        return Ok(((work, sealing), None));
    };
    let work = close_ended(closes, work)?;
    match how {
        TurnEnd::Half | TurnEnd::Opened | TurnEnd::Set => Ok(((work, sealing), None)),
        TurnEnd::Answer(place, verdict) => {
            answer_asked(alloc, trust, place, verdict.into_verdict(), work, sealing)
        }
        TurnEnd::Dropped(place, _) => {
            let verdict = Verdict::Status(STATUS_NO_LOGON_SERVERS);
            answer_asked(alloc, trust, place, verdict, work, sealing)
        }
    }
}
