//! What a unit comes to for the turn that is out.

ghost use Rattle.std.specs.Prelude.{◌≡◌, ◌≤◌, IfOk, None, Ok, length};
ghost use Rattle.logon_stubs.specs.Calls.{call_of, opnum_of_call};
ghost use Rattle.logon_stubs.specs.Writing.{CanWriteCall, written_call};
ghost use Rattle.end_links.specs.Binding.{limit_of};
ghost use Rattle.end_links.specs.Sending.{frames_of, request_of};
ghost use Rattle.channel_client.specs.Grants.{CanWriteHeard};
ghost use Rattle.channel_client.specs.Machine.{CanWriteStep, question_of, opnum_asked, is_accepting, hear_ack, hear_stub, hear_body, CanSendSet, hear_set_reply, stub_limit};
ghost use Rattle.rpc_units.specs.Joining.{IsWholeCall, stub_of};
ghost use Rattle.channel_client.specs.Sealed.{hear_room_ack, hear_room_body, next_if, room_frames_of, seal_heard, set_next_if};
ghost use Rattle.secret_change.specs.Calls.{set_opnum, set_reply_of, written_set_call};

use crate::sealing::seal_short;
use crate::short_frames::ShortFrames;
use crate::state::{Question, Sealing, SetStep, Step};
use channel_sealing::{OWN_CONTEXT, room_frames};
use end_links::{call_frames, fragment_limit, request};
use logon_stubs::{
    AUTHENTICATE_OPNUM, CHALLENGE_OPNUM, Call, LOGON_OPNUM, Reply, StubRefused, read_reply,
    write_call,
};
use outside::DropCause;
use rpc_units::{Body, Results, Unit};
use secret_change::{SetCall, SetReply, read_set_reply, write_set};
use std::alloc::Global;
use wire_base::{Blob, NoMemory};

/// What a unit comes to for the turn that is out.
#[derive(Debug, Drop)]
pub enum Hearing {
    /// The unit answers nothing that the turn waits for.
    Skip,
    /// The request of that question goes out, in these frames.
    Next(Question, ShortFrames),
    /// The unit is the reply to the question.
    Reply(Question, Reply),
    /// The turn ends without an answer.
    Drop(DropCause),
    /// What a unit comes to for a turn that sets a secret.
    Set(SetHearing),
}

/// What a unit comes to for a turn that sets a secret.
#[derive(Debug, Drop)]
pub enum SetHearing {
    /// The request goes out, in these frames.
    Next(ShortFrames),
    /// The unit is the reply to the call that sets the secret.
    Reply(SetReply),
}

/// The number of NetrServerPasswordSet (MS-NRPC 3.5.4).
const SET_OPNUM: u16 = 6;

/// What the body of a unit comes to for a turn that waits for its number. A request would go out with the number
/// `next`.
pub(crate) fn hear_body(
    alloc: Global,
    body: &Body,
    step: &Step,
    next: u32,
) -> Result<Hearing, NoMemory>
    requires { CanWriteStep step.now }
    ensures exact { IfOk result (λ heard. heard ≡ hear_body body.now step.now next) }
    ensures writable { IfOk result CanWriteHeard }
{
    match body {
        Body::BindNak(_) => Ok(Hearing::Drop(DropCause::Bind)),
        Body::BindAck {
            receive,
            results,
            ..
        } => hear_ack(alloc, is_accepting(results), step, *receive, next),
        Body::Fault { status, .. } => Ok(Hearing::Drop(DropCause::Fault(*status))),
        Body::Response { stub, .. } => hear_stub(alloc, step, stub.bytes()),
        Body::Bind { .. } | Body::Request { .. } | Body::Auth3 => {
            Ok(Hearing::Drop(DropCause::BadReply))
        }
    }
}

/// What the body of a unit comes to for a turn on the open channel of one that seals: the frames of the request have
/// room for signatures.
pub(crate) fn hear_room_body(
    alloc: Global,
    body: &Body,
    step: &Step,
    next: u32,
) -> Result<Hearing, NoMemory>
    requires { CanWriteStep step.now }
    ensures exact { IfOk result (λ heard. heard ≡ hear_room_body body.now step.now next) }
    ensures writable { IfOk result CanWriteHeard }
{
    match body {
        Body::BindAck {
            receive,
            results,
            ..
        } => hear_room_ack(alloc, is_accepting(results), step, *receive, next),
        Body::BindNak(_)
        | Body::Fault { .. }
        | Body::Response { .. }
        | Body::Bind { .. }
        | Body::Request { .. }
        | Body::Auth3 => hear_body(alloc, body, step, next),
    }
}

/// Whether a bind_ack accepts the first context.
fn is_accepting(results: &Results) -> bool
    ensures { result ≡ is_accepting results.now }
{
    match results.get(0) {
        Some(first) => first.0 == 0,
        None => false,
    }
}

/// What a bind_ack comes to, of a peer that receives `receive` bytes.
fn hear_ack(
    alloc: Global,
    accepting: bool,
    step: &Step,
    receive: u16,
    next: u32,
) -> Result<Hearing, NoMemory>
    requires { CanWriteStep step.now }
    ensures exact { IfOk result (λ heard. heard ≡ hear_ack accepting step.now receive next) }
    ensures writable { IfOk result CanWriteHeard }
{
    if !accepting {
        return Ok(Hearing::Drop(DropCause::Bind));
    }
    match step {
        Step::Bind(call) => {
            let stub = call_stub(alloc, call)?;
            let frames = request_frames(alloc, call.opnum(), stub, receive, next)?;
            Ok(Hearing::Next(question_of(call), frames))
        }
        Step::Set(SetStep::Bind(call)) => {
            let stub = set_stub(alloc, call)?;
            let frames = request_frames(alloc, SET_OPNUM, stub, receive, next)?;
            Ok(Hearing::Set(SetHearing::Next(frames)))
        }
        Step::Reply(_) | Step::Set(SetStep::Reply) => Ok(Hearing::Drop(DropCause::BadReply)),
    }
}

/// What the answer to a bind comes to, with room for signatures in the frames of the request.
fn hear_room_ack(
    alloc: Global,
    accepting: bool,
    step: &Step,
    receive: u16,
    next: u32,
) -> Result<Hearing, NoMemory>
    requires { CanWriteStep step.now }
    ensures exact { IfOk result (λ heard. heard ≡ hear_room_ack accepting step.now receive next) }
    ensures writable { IfOk result CanWriteHeard }
{
    if !accepting {
        return Ok(Hearing::Drop(DropCause::Bind));
    }
    match step {
        Step::Bind(call) => {
            let stub = call_stub(alloc, call)?;
            let frames = room_request(alloc, call.opnum(), stub, receive, next)?;
            Ok(Hearing::Next(question_of(call), frames))
        }
        Step::Set(SetStep::Bind(call)) => {
            let stub = set_stub(alloc, call)?;
            let frames = room_request(alloc, SET_OPNUM, stub, receive, next)?;
            Ok(Hearing::Set(SetHearing::Next(frames)))
        }
        Step::Reply(_) | Step::Set(SetStep::Reply) => Ok(Hearing::Drop(DropCause::BadReply)),
    }
}

/// The frames, with room for signatures, of the request of this call number and operation, on context 0, for a peer
/// that receives so many bytes.
fn room_request(
    alloc: Global,
    opnum: u16,
    stub: Blob,
    receive: u16,
    number: u32,
) -> Result<ShortFrames, NoMemory>
    requires { length stub ≤ stub_limit }
    ensures { IfOk result (λ frames. frames
        ≡ room_frames_of (request_of number 0 opnum stub) receive) }
{
    short_room(alloc, request(number, 0, opnum, stub), receive)
}

/// The frames, with room for signatures, of a request that is short enough for one send.
fn short_room(alloc: Global, unit: Unit, receive: u16) -> Result<ShortFrames, NoMemory>
    requires whole { IsWholeCall unit }
    requires short { length (stub_of unit.body) ≤ stub_limit }
    ensures { IfOk result (λ frames. frames ≡ room_frames_of unit receive) }
{
    Ok(ShortFrames::new(room_frames(alloc, unit, OWN_CONTEXT, receive)?))
}

/// The frames of the request of this call number and operation, on context 0, for a peer that receives `receive` bytes.
fn request_frames(
    alloc: Global,
    opnum: u16,
    stub: Blob,
    receive: u16,
    number: u32,
) -> Result<ShortFrames, NoMemory>
    requires { length stub ≤ stub_limit }
    ensures { IfOk result (λ frames. frames
        ≡ frames_of (request_of number 0 opnum stub) (limit_of receive)) }
{
    let unit = request(number, 0, opnum, stub);
    Ok(ShortFrames::new(call_frames(alloc, &unit, fragment_limit(receive))?))
}

/// The stub of a call that sets a secret, which is short enough for the hint of a request, and for one send.
fn set_stub(alloc: Global, call: &SetCall) -> Result<Blob, NoMemory>
    requires { CanSendSet call.now }
    ensures exact { IfOk result (λ stub. stub ≡ written_set_call call.now) }
    ensures short { IfOk result (λ stub. length stub ≤ stub_limit) }
{
    let stub = write_set(alloc, call)?;
    is_short_stub(call, &stub);
    Ok(stub)
}

/// The stub of a call that sets a secret is short enough for one send.
#[tactic(auto, using(crate::proofs::StubLaws::set_stub_short))]
fn is_short_stub(call: &SetCall, stub: &Blob)
    requires sends { CanSendSet call.now }
    requires exact { stub.now ≡ written_set_call call.now }
    ensures { length stub.now ≤ stub_limit }
{}

/// The stub of a call, which is short enough for the hint of a request, and for one send.
fn call_stub(alloc: Global, call: &Call) -> Result<Blob, NoMemory>
    requires { CanWriteCall call.now }
    ensures exact { IfOk result (λ stub. stub ≡ written_call call.now) }
    ensures short { IfOk result (λ stub. length stub ≤ stub_limit) }
{
    let stub = write_call(alloc, call)?;
    read_stub(call, stub.bytes());
    Ok(stub)
}

/// The stub of a call is short enough for one send. It reads the bytes, so that this is known.
#[tactic(auto, using(crate::proofs::StubLaws::stub_short))]
fn read_stub(call: &Call, stub: &[u8])
    requires writable { CanWriteCall call.now }
    requires again { call_of (opnum_of_call call.now) stub.now ≡ Ok call.now }
    requires exact { stub.now ≡ written_call call.now }
    ensures { length stub.now ≤ stub_limit }
{}

/// What a reply is judged by, of a call.
fn question_of(call: &Call) -> Question
    ensures { result ≡ question_of call.now }
{
    match call {
        Call::Logon(_) | Call::Logoff(_) => Question::Logon,
        Call::Challenge(value) => Question::Challenge(value.challenge),
        Call::Authenticate(_) => Question::Authenticate,
    }
}

/// The number of the call that asks a question.
fn opnum_asked(question: Question) -> u16
    ensures { result ≡ opnum_asked question }
{
    match question {
        Question::Challenge(_) => CHALLENGE_OPNUM,
        Question::Authenticate => AUTHENTICATE_OPNUM,
        Question::Logon => LOGON_OPNUM,
    }
}

/// What the stub of a response comes to. A reply that is read can be written again.
fn hear_stub(alloc: Global, step: &Step, stub: &[u8]) -> Result<Hearing, NoMemory>
    ensures exact { IfOk result (λ heard. heard ≡ hear_stub step.now stub.now) }
    ensures writable { IfOk result CanWriteHeard }
{
    match step {
        Step::Bind(_) | Step::Set(SetStep::Bind(_)) => Ok(Hearing::Drop(DropCause::BadReply)),
        Step::Set(SetStep::Reply) => Ok(hear_set_reply(stub)),
        Step::Reply(question) => match read_reply(alloc, opnum_asked(*question), stub) {
            Ok(reply) => Ok(Hearing::Reply(*question, reply)),
            Err(StubRefused::Memory) => Err(NoMemory),
            Err(_) => Ok(Hearing::Drop(DropCause::BadReply)),
        },
    }
}

/// What the stub of a response comes to for a turn that sets a secret.
fn hear_set_reply(stub: &[u8]) -> Hearing
    ensures { result ≡ hear_set_reply (set_reply_of stub.now) }
{
    match read_set_reply(stub) {
        Ok(reply) => Hearing::Set(SetHearing::Reply(reply)),
        Err(_) => Hearing::Drop(DropCause::BadReply),
    }
}

/// Seals what goes out. Where it can't be, the turn ends. It takes no memory.
pub(crate) fn seal_heard(alloc: Global, sealing: &mut Sealing, heard: Hearing) -> Hearing
    ensures heard { result ≡ (seal_heard heard sealing.old).0 }
    ensures sealing { sealing.new ≡ (seal_heard heard sealing.old).1 }
    ensures bind_value { sealing.new.bind_value ≡ sealing.old.bind_value }
{
    match heard {
        Hearing::Next(question, frames) => next_if(question, seal_short(alloc, sealing, frames)),
        Hearing::Set(SetHearing::Next(frames)) => {
            set_next_if(seal_short(alloc, sealing, frames))
        }
        Hearing::Skip => Hearing::Skip,
        Hearing::Reply(question, reply) => Hearing::Reply(question, reply),
        Hearing::Drop(cause) => Hearing::Drop(cause),
        Hearing::Set(SetHearing::Reply(reply)) => Hearing::Set(SetHearing::Reply(reply)),
    }
}

/// The request of that question goes out in these frames, if any.
fn next_if(question: Question, frames: Option<ShortFrames>) -> Hearing
    ensures { result ≡ next_if question frames }
{
    match frames {
        Some(frames) => Hearing::Next(question, frames),
        None => Hearing::Drop(DropCause::BadSeal),
    }
}

/// The request that sets a secret goes out in these frames, if any.
fn set_next_if(frames: Option<ShortFrames>) -> Hearing
    ensures { result ≡ set_next_if frames }
{
    match frames {
        Some(frames) => Hearing::Set(SetHearing::Next(frames)),
        None => Hearing::Drop(DropCause::BadSeal),
    }
}
