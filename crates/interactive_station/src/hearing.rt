//! What a unit on a station's link comes to.

ghost use Rattle.std.specs.Prelude.{◌≡◌, ◌==◌, ◌≤◌, IfOk, length};
ghost use Rattle.rpc_units.specs.Reading.{unit_of};
ghost use Rattle.logon_stubs.specs.Calls.{reply_of};
ghost use Rattle.end_links.specs.Binding.{limit_of};
ghost use Rattle.end_links.specs.Bounds.{send_limit};
ghost use Rattle.channel_client.specs.Machine.{is_accepting};
ghost use Rattle.interactive_station.specs.Calls.{awaited, opnum_of};
ghost use Rattle.interactive_station.specs.Machine.{breaks, fails, hear_ack, hear_body, hear_reply, hear_stub, hear_unit, hear_whole, request_bytes, sends, shut};

use crate::outcome::StationOutcome;
use crate::plan::Task;
use crate::settling::settle;
use crate::state::{StationCall, StationStep, StationTalk, StationWork};
use crate::working::{end_by, fail, tell};
use channel_turns::{Heard, hear};
use end_links::{call_bytes, fragment_limit, request};
use logon_stubs::{StubRefused, read_reply};
use outside::{Action, CloseCause, DropCause};
use rpc_units::{Body, Joiner, Results, Unit};
use std::alloc::Global;
use wire_base::{Blob, NoMemory};

/// A unit or a fragment is refused, and closes the link.
pub(crate) fn break_off(
    cause: CloseCause,
    link: u32,
    work: StationWork,
) -> Result<StationWork, NoMemory>
    ensures { IfOk result (λ w. w ≡ breaks cause link work) }
{
    let outcome = StationOutcome::BadPeer(DropCause::BadReply);
    end_by(cause, outcome, link, work)
}

/// The peer is to blame, and nothing more is said on the link.
fn blame(
    cause: DropCause,
    link: u32,
    work: StationWork,
) -> Result<(StationWork, Option<StationTalk>), NoMemory>
    ensures { IfOk result (λ end. end ≡ shut (fails cause link work)) }
{
    Ok((fail(cause, link, work)?, None))
}

/// What the stub of a response comes to, once the call went out.
fn hear_asked(
    alloc: Global,
    asked: StationCall,
    stub: &[u8],
    link: u32,
    work: StationWork,
) -> Result<StationWork, NoMemory>
    ensures { IfOk result (λ w. w
        ≡ hear_reply asked (reply_of (opnum_of asked) stub.now) link work) }
{
    match read_reply(alloc, asked.opnum(), stub) {
        Ok(reply) => settle(alloc, asked, reply, link, work),
        Err(StubRefused::Memory) => Err(NoMemory),
        Err(_) => fail(DropCause::BadReply, link, work),
    }
}

/// What the stub of a response comes to.
fn hear_stub(
    alloc: Global,
    step: StationStep,
    stub: &[u8],
    link: u32,
    work: StationWork,
) -> Result<StationWork, NoMemory>
    ensures { IfOk result (λ w. w ≡ hear_stub step stub.now link work) }
{
    match step {
        StationStep::Bound(_) => fail(DropCause::BadReply, link, work),
        StationStep::Asked(asked) => hear_asked(alloc, asked, stub, link, work),
    }
}

/// The bytes of the request of a call, in fragments of at most that limit.
fn request_bytes(
    alloc: Global,
    asked: &StationCall,
    task: &Task,
    receive: u16,
) -> Result<Blob, NoMemory>
    ensures exact { IfOk result (λ bytes. bytes
        ≡ request_bytes asked.now task.now (limit_of receive)) }
    ensures short { IfOk result (λ bytes. length bytes ≤ send_limit) }
{
    let stub = asked.stub(alloc, task)?;
    let unit = request(asked.bind_number() + 1, 0, asked.opnum(), stub);
    call_bytes(alloc, &unit, fragment_limit(receive))
}

/// The request of the call goes out.
fn send(
    alloc: Global,
    asked: StationCall,
    receive: u16,
    joiner: Joiner,
    link: u32,
    work: StationWork,
) -> Result<(StationWork, Option<StationTalk>), NoMemory>
    ensures { IfOk result (λ end. end ≡ sends asked (limit_of receive) joiner link work) }
{
    let bytes = request_bytes(alloc, &asked, &work.task, receive)?;
    let work = tell(work, Action::Send(link, bytes))?;
    let talk = StationTalk {
        link,
        joiner,
        step: StationStep::Asked(asked),
    };
    Ok((work, Some(talk)))
}

/// Whether a bind_ack accepts the first context.
fn is_accepting(results: &Results) -> bool
    ensures { result ≡ is_accepting results.now }
{
    match results.get(0) {
        Some(first) => first.0 == 0,
        None => false,
    }
}

/// A bind_ack of a peer that receives `receive` bytes.
fn hear_ack(
    alloc: Global,
    accepting: bool,
    step: StationStep,
    receive: u16,
    joiner: Joiner,
    link: u32,
    work: StationWork,
) -> Result<(StationWork, Option<StationTalk>), NoMemory>
    ensures { IfOk result (λ end. end ≡ hear_ack accepting step receive joiner link work) }
{
    if !accepting {
        return blame(DropCause::Bind, link, work);
    }
    match step {
        StationStep::Bound(asked) => send(alloc, asked, receive, joiner, link, work),
        StationStep::Asked(_) => blame(DropCause::BadReply, link, work),
    }
}

/// A unit of the number that is waited for.
fn hear_body(
    alloc: Global,
    body: &Body,
    step: StationStep,
    joiner: Joiner,
    link: u32,
    work: StationWork,
) -> Result<(StationWork, Option<StationTalk>), NoMemory>
    ensures { IfOk result (λ end. end ≡ hear_body body.now step joiner link work) }
{
    match body {
        Body::BindNak(_) => blame(DropCause::Bind, link, work),
        Body::BindAck {
            receive,
            results,
            ..
        } => {
            let accepting = is_accepting(results);
            hear_ack(alloc, accepting, step, *receive, joiner, link, work)
        }
        Body::Fault { status, .. } => blame(DropCause::Fault(*status), link, work),
        Body::Response { stub, .. } => {
            Ok((hear_stub(alloc, step, stub.bytes(), link, work)?, None))
        }
        Body::Bind { .. } | Body::Request { .. } | Body::Auth3 => {
            blame(DropCause::BadReply, link, work)
        }
    }
}

/// The number of the unit that is waited for.
fn awaited(step: &StationStep) -> u32
    ensures { result ≡ awaited step.now }
{
    match step {
        StationStep::Bound(asked) => asked.bind_number(),
        StationStep::Asked(asked) => asked.bind_number() + 1,
    }
}

/// A whole unit. One of another number than is waited for is passed over.
fn hear_whole(
    alloc: Global,
    unit: &Unit,
    joiner: Joiner,
    step: StationStep,
    link: u32,
    work: StationWork,
) -> Result<(StationWork, Option<StationTalk>), NoMemory>
    ensures { IfOk result (λ end. end
        ≡ hear_whole (unit.now.call == awaited step) unit.now joiner step link work) }
{
    if unit.call != awaited(&step) {
        return Ok((work, Some(StationTalk { link, joiner, step })));
    }
    hear_body(alloc, &unit.body, step, joiner, link, work)
}

/// The bytes of a unit on the link.
pub(crate) fn hear_unit(
    alloc: Global,
    bytes: &[u8],
    talk: StationTalk,
    work: StationWork,
) -> Result<(StationWork, Option<StationTalk>), NoMemory>
    ensures { IfOk result (λ end. end ≡ hear_unit (unit_of bytes.now) talk work) }
{
    let StationTalk { link, joiner, step } = talk;
    match hear(alloc, bytes, joiner)? {
        Heard::Waits(joiner) => Ok((work, Some(StationTalk { link, joiner, step }))),
        Heard::Whole(unit, joiner) => hear_whole(alloc, &unit, joiner, step, link, work),
        Heard::Broken(cause) => Ok((break_off(cause, link, work)?, None)),
    }
}
