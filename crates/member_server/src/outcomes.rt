//! How the outcome of a logon reaches its link.

ghost use Rattle.std.specs.Prelude.{◌≡◌, ◌≤◌, ◌<◌, Option, Some, None, false, length, is_some, IfOk, IsTrue};
ghost use Rattle.end_links.specs.Bounds.{IsShortSend};
ghost use Rattle.wire_base.specs.Maps.{lookup, same_number};
ghost use Rattle.member_server.specs.Units.{serve_held};
ghost use Rattle.member_server.specs.Outcomes.{at_link, tell_at, without_link, keep_link, after_served, name_in, key_in, session_in, outcome_of, phase_after, waiting_at, waiting_on, reach_alone, reach_in_map, reach_link, without_logon, end_logon};
ghost use Rattle.rpc_units.specs.Stream.{rest_limit};

use crate::held::Held;
use crate::state::{AtLink, Bound, LoggedOn, Logon, Phase, Talk, Work};
use crate::units::serve_held;
use crate::work::let_go;
use end_links::{Link, Links};
use logon_stubs::SamInfo;
use ntlm_flags::{NTLMSSP_NEGOTIATE_EXTENDED_SESSIONSECURITY, has_flag};
use ntlm_responses::{exchange_key, exported_key};
use ntlm_seal::{Session, Side};
use outside::{Action, DropCause, Outcome};
use rpc_units::{ACCESS_DENIED, Inflow, Joiner, NO_CONTROLLER};
use std::alloc::Global;
use std::mem;
use wire_base::{List, NoMemory, Units, take_number};

/// How a logon ended: the controller granted it, or refused it with this NTSTATUS, or none gave an answer.
#[derive(Debug, Drop)]
pub enum Ending {
    Granted(SamInfo),
    Refused(u32),
    NoController(DropCause),
}

/// One action more.
pub(crate) fn tell_at(work: Work, what: Action) -> Result<Work, NoMemory>
    requires { IsShortSend what }
    ensures { IfOk result (λ told. told ≡ tell_at work what) }
{
    let mut work = work;
    work.actions.push(what)?;
    Ok(work)
}

// ---- what is known of a user who is let in

/// The domain, a backslash and the user.
fn name_in(alloc: Global, info: &SamInfo) -> Result<Units, NoMemory>
    ensures { IfOk result (λ name. name ≡ name_in info.now) }
{
    let mut units = Vec::from_slice(alloc, info.domain.units())?;
    units.push(0x5C)?;
    units.extend_from_slice(info.effective_name.units())?;
    Ok(Units::from_vec(units))
}

/// The exported session key.
fn key_in(info: &SamInfo, logon: &Logon) -> [u8; 16]
    ensures { result ≡ key_in info.now logon.now }
{
    let message = &logon.message;
    let exchange = exchange_key(
        info.key,
        logon.agreed,
        logon.challenge,
        message.lm.bytes(),
        message.nt.bytes(),
    );
    match exported_key(exchange, logon.agreed, message.key.bytes()) {
        Some(key) => key,
        None => exchange,
    }
}

/// The session that signs and seals, where extended session security is agreed.
fn session_in(key: [u8; 16], agreed: u32) -> Option<Session>
    ensures { result ≡ session_in key agreed }
{
    if !has_flag(agreed, NTLMSSP_NEGOTIATE_EXTENDED_SESSIONSECURITY) {
        return None;
    }
    Some(Session::new(key, agreed, Side::Server))
}

// ---- an outcome, and how far a link is that waited for it

/// What is told of it.
fn outcome_of(alloc: Global, how: &Ending, logon: &Logon) -> Result<Outcome, NoMemory>
    ensures { IfOk result (λ outcome. outcome ≡ outcome_of how.now logon.now) }
{
    match how {
        Ending::Granted(info) => Ok(Outcome::In {
            domain: info.domain.duplicate(alloc)?,
            user: info.effective_name.duplicate(alloc)?,
            key: key_in(info, logon),
        }),
        Ending::Refused(status) => Ok(Outcome::Out(*status)),
        Ending::NoController(cause) => Ok(Outcome::NoController(*cause)),
    }
}

/// How far the link is then.
fn phase_after(alloc: Global, how: &Ending, logon: &Logon, bound: Bound) -> Result<Phase, NoMemory>
    ensures { IfOk result (λ phase. phase ≡ phase_after how.now logon.now bound) }
{
    match how {
        Ending::Granted(info) => {
            let key = key_in(info, logon);
            Ok(Phase::In(LoggedOn {
                bound,
                name: name_in(alloc, info)?,
                key,
                session: session_in(key, logon.agreed),
            }))
        }
        Ending::Refused(_) => Ok(Phase::Out {
            bound,
            status: ACCESS_DENIED,
        }),
        Ending::NoController(_) => Ok(Phase::Out {
            bound,
            status: NO_CONTROLLER,
        }),
    }
}

// ---- the link

/// Whether the link of that number waits for the logon of this place.
fn is_waiting(links: &Links<Talk>, number: u32, place: u32) -> bool
    ensures { result ≡ is_some (waiting_on place (lookup same_number number links.now)) }
{
    match links.get(number) {
        Some(link) => waits_at(&link.talk().phase, place),
        None => false,
    }
}

/// Whether a link in this phase waits for the logon of this place.
fn waits_at(phase: &Phase, place: u32) -> bool
    ensures { result ≡ is_some (waiting_at place phase.now) }
{
    match phase {
        Phase::Asked { place: other, .. } => *other == place,
        _ => false,
    }
}

/// A link is put back, with this stream, where it stays open.
pub(crate) fn keep_link(
    flow: Inflow,
    said: Option<Talk>,
    number: u32,
    work: Work,
) -> Result<Work, NoMemory>
    requires runs { flow.broken ≡ false }
    requires waits { length flow.held ≤ rest_limit }
    requires room { length work.links < 256 }
    ensures { IfOk result (λ kept. kept ≡ keep_link said flow.held number work) }
{
    let Some(talk) = said else {
        return Ok(work);
    };
    let Work {
        logons,
        links,
        actions,
    } = work;
    Ok(Work {
        logons,
        links: links.put(number, Link::again(flow, talk))?,
        actions,
    })
}

/// A link that waits for this place and is out of the map is in or out, and what is held is served.
fn reach_alone(
    alloc: Global,
    place: u32,
    how: &Ending,
    logon: &Logon,
    link: Link<Talk>,
    work: Work,
) -> Result<Work, NoMemory>
    requires room { length work.links < 256 }
    ensures { IfOk result (λ turned. turned
        ≡ reach_alone (waiting_at place link.talk.phase) link how.now logon.now work) }
{
    // Reading the length makes it known that the link holds at most 5,839 bytes.
    let _short = link.rest_len();
    let (flow, talk) = link.parts();
    reach_talk(alloc, place, how, logon, flow, talk, work)
}

/// Tells a link that is out of the map of its logon's end, by its stream and what is said on it.
fn reach_talk(
    alloc: Global,
    place: u32,
    how: &Ending,
    logon: &Logon,
    flow: Inflow,
    talk: Talk,
    work: Work,
) -> Result<Work, NoMemory>
    requires runs { flow.broken ≡ false }
    requires waits { length flow.held ≤ rest_limit }
    requires room { length work.links < 256 }
    ensures { IfOk result (λ turned. turned
        ≡ reach_alone (waiting_at place talk.phase)
        (record { rest = flow.held; talk = talk }) how.now logon.now work) }
{
    let Talk { joiner, phase } = talk;
    match phase {
        Phase::Asked {
            bound,
            place: other,
            held,
        } => {
            if other != place {
                return Ok(work);
            }
            reach_waiting(alloc, how, logon, bound, held, joiner, flow, work)
        }
        Phase::Fresh | Phase::Challenged { .. } | Phase::In(_) | Phase::Out { .. } => Ok(work),
    }
}

/// Tells a link that waits of its logon's end, by what is bound and held on it.
fn reach_waiting(
    alloc: Global,
    how: &Ending,
    logon: &Logon,
    bound: Bound,
    held: Held,
    joiner: Joiner,
    flow: Inflow,
    work: Work,
) -> Result<Work, NoMemory>
    requires runs { flow.broken ≡ false }
    requires waits { length flow.held ≤ rest_limit }
    requires room { length work.links < 256 }
    ensures { IfOk result (λ turned. turned ≡ after_served
        (serve_held held (at_link logon.now.link work)
        (record { joiner = joiner; phase = phase_after how.now logon.now bound }))
        flow.held logon.now.link work) }
{
    match phase_after(alloc, how, logon, bound) {
        Ok(phase) => serve_waiting(alloc, logon.link, held, Talk { joiner, phase }, flow, work),
        Err(NoMemory) => Err(let_go(joiner)),
    }
}

/// What is held on a link is served, with what is said on it then.
fn serve_waiting(
    alloc: Global,
    number: u32,
    held: Held,
    talk: Talk,
    flow: Inflow,
    work: Work,
) -> Result<Work, NoMemory>
    requires runs { flow.broken ≡ false }
    requires waits { length flow.held ≤ rest_limit }
    requires room { length work.links < 256 }
    ensures { IfOk result (λ served. served
        ≡ after_served (serve_held held (at_link number work) talk) flow.held number work) }
{
    let Work {
        logons,
        links,
        actions,
    } = work;
    let at = AtLink {
        link: number,
        logons,
        actions,
    };
    let (at, said) = match serve_held(alloc, held.into_units(), at, talk) {
        Ok(served) => served,
        Err(NoMemory) => return Err(NoMemory),
    };
    let AtLink {
        logons,
        actions,
        ..
    } = at;
    let work = Work {
        logons,
        links,
        actions,
    };
    keep_link(flow, said, number, work)
}

/// The link of the logon, where it waits for this place, is in or out; any other stays as it is.
#[tactic(auto, using(crate::proofs::OutcomeLaws::turned))]
fn reach_link(
    alloc: Global,
    place: u32,
    how: &Ending,
    logon: &Logon,
    work: Work,
) -> Result<Work, NoMemory>
    ensures { IfOk result (λ reached. reached
        ≡ reach_link (lookup same_number logon.now.link work.links) place how.now logon.now work) }
{
    if !is_waiting(&work.links, logon.link, place) {
        return Ok(work);
    }
    let Work {
        logons,
        links,
        actions,
    } = work;
    let (links, found) = links.take(logon.link);
    let work = Work {
        logons,
        links,
        actions,
    };
    match found {
        Some(link) => reach_alone(alloc, place, how, logon, link, work),
        None => unreachable!(),
    }
}

// ---- the logon of a place

/// The logon of that place, which is kept no more. It takes no memory.
fn take_logon(alloc: Global, place: u32, work: Work) -> (Work, Option<Logon>)
    ensures work { result.0 ≡ without_logon place work }
    ensures logon { result.1 ≡ lookup same_number place work.logons.asked }
{
    let mut work = work;
    let asked = mem::replace(&mut work.logons.asked, List::new(alloc));
    let (asked, found) = take_number(asked, place);
    work.logons.asked = asked;
    (work, found)
}

/// The logon of that place ended so: it is told, and reaches its link.
pub(crate) fn end_logon(
    alloc: Global,
    place: u32,
    how: &Ending,
    work: Work,
) -> Result<Work, NoMemory>
    ensures { IfOk result (λ ended. ended ≡ end_logon place how.now work) }
{
    let (work, found) = take_logon(alloc, place, work);
    let Some(logon) = found else {
        return Ok(work);
    };
    let outcome = outcome_of(alloc, how, &logon)?;
    let work = tell_at(work, Action::Told(logon.link, outcome))?;
    reach_link(alloc, place, how, &logon, work)
}
