//! What a unit on a link comes to.

ghost use Rattle.std.specs.Prelude.{◌≡◌, ◌≤◌, IfOk, None, Some, length, option_map};
ghost use Rattle.rpc_units.specs.Joining.{HasStub, answer_of, open_after};
ghost use Rattle.rpc_units.specs.Reading.{unit_of};
ghost use Rattle.rpc_units.specs.Views.{body_shown, trailer_shown, unit_shown};
ghost use Rattle.rpc_units.specs.Writing.{ContextsFit};
ghost use Rattle.rpc_units.specs.Numbers.{context_limit};
ghost use Rattle.logon_stubs.specs.Interface.{netlogon_syntax};
ghost use Rattle.secret_change.specs.Calls.{set_call_of};
ghost use Rattle.interactive_logon.specs.Calls.{interactive_of, is_logon};
ghost use Rattle.controller_calls.specs.Desk.{IsLine};
ghost use Rattle.domain_controller.specs.Hearing.{CanAnswer, bound_talk, hear, hear_bind, hear_sealed_bind, hear_unbound, hear_fresh, is_served, hear_fault, interactive_by, hear_interactive, hear_netlogon, hear_set, hear_opnum, hear_context, hear_whole, hear_joined, hear_bound};

use crate::state::Talk;
use controller_calls::{ControllerCall, JudgedCall, Line, fault_bytes};
use end_links::{Binding, bind_ack, bind_nak, short_unit_bytes};
use interactive_logon::{InteractiveCall, read_interactive};
use logon_stubs::{
    AUTHENTICATE_OPNUM, CHALLENGE_OPNUM, Call, LOGOFF_OPNUM, LOGON_OPNUM, NETLOGON, StubRefused,
    read_call,
};
use outside::CloseCause;
use rpc_units::{
    BAD_STUB_DATA, Body, BodyView, Contexts, JoinRefused, Joiner, OPERATION_OUT_OF_RANGE,
    PROTOCOL_ERROR, Unit, UnitRefused, UnitView, read_unit, view_unit,
};
use secret_change::{SetRefused, read_set};
use std::alloc::Global;
use wire_base::{Blob, NoMemory};

/// The operation number of NetrServerPasswordSet (MS-NRPC 3.5.4.4.6).
const SET_OPNUM: u16 = 6;

/// What a unit on a link comes to.
#[derive(Drop)]
pub enum Heard {
    /// The link is closed.
    Close(CloseCause),
    /// The bytes, a unit, are sent, and that is said on the link then.
    Answer(Blob, Talk),
    /// Nothing is sent before more comes.
    Waits(Talk),
    /// A call that is served is whole.
    Asked(Line, ControllerCall, Talk),
}

/// What the bytes of a unit on the link come to, by what was said on it before.
pub(crate) fn hear(alloc: Global, link: u32, bytes: &[u8], talk: Talk) -> Result<Heard, NoMemory>
    ensures value { IfOk result (λ heard. heard ≡ hear link bytes.now talk) }
    ensures can { IfOk result CanAnswer }
{
    let Talk { joiner, binding } = talk;
    match binding {
        None => match read_unit(alloc, bytes) {
            Ok(unit) => hear_fresh(alloc, unit, joiner),
            Err(UnitRefused::Memory) => Err(NoMemory),
            Err(_) => Ok(Heard::Close(CloseCause::BadUnit)),
        },
        Some(binding) => match view_unit(bytes) {
            Ok(unit) => hear_bound(alloc, link, &unit, joiner, binding),
            Err(_) => Ok(Heard::Close(CloseCause::BadUnit)),
        },
    }
}

/// What a unit comes to on a link that isn't bound.
pub(crate) fn hear_fresh(alloc: Global, unit: Unit, joiner: Joiner) -> Result<Heard, NoMemory>
    requires { ContextsFit unit.body }
    ensures value { IfOk result (λ heard.
        heard ≡ hear_fresh unit.body unit.trailer unit.call joiner) }
    ensures can { IfOk result CanAnswer }
{
    match (unit.body, unit.trailer) {
        (
            Body::Bind {
                receive,
                contexts,
                ..
            },
            None,
        ) => hear_bind(alloc, unit.call, receive, &contexts, joiner),
        (Body::Bind { .. }, Some(_)) => hear_sealed_bind(alloc, unit.call, joiner),
        (Body::Request { context, .. }, _) => hear_unbound(alloc, unit.call, context, joiner),
        _ => Ok(Heard::Close(CloseCause::OutOfPlace)),
    }
}

/// A bind is answered by a bind_ack, and the link is bound by it.
pub(crate) fn hear_bind(
    alloc: Global,
    call: u32,
    receive: u16,
    contexts: &Contexts,
    joiner: Joiner,
) -> Result<Heard, NoMemory>
    requires { length contexts.now ≤ context_limit }
    ensures value { IfOk result (λ heard. heard ≡ hear_bind call receive contexts.now joiner) }
    ensures can { IfOk result CanAnswer }
{
    let answer = bind_ack(alloc, &NETLOGON, call, receive, contexts)?;
    let bytes = short_unit_bytes(alloc, &answer)?;
    let binding = Binding::new(alloc, &NETLOGON, receive, contexts)?;
    Ok(Heard::Answer(bytes, bound_talk(joiner, binding)))
}

/// A bind with a trailer is answered by a bind_nak.
pub(crate) fn hear_sealed_bind(alloc: Global, call: u32, joiner: Joiner) -> Result<Heard, NoMemory>
    ensures value { IfOk result (λ heard. heard ≡ hear_sealed_bind call joiner) }
    ensures can { IfOk result CanAnswer }
{
    let bytes = short_unit_bytes(alloc, &bind_nak(call))?;
    Ok(Heard::Answer(bytes, fresh_talk(joiner)))
}

/// A request on a link that isn't bound is answered by a fault.
pub(crate) fn hear_unbound(
    alloc: Global,
    call: u32,
    context: u16,
    joiner: Joiner,
) -> Result<Heard, NoMemory>
    ensures value { IfOk result (λ heard. heard ≡ hear_unbound call context joiner) }
    ensures can { IfOk result CanAnswer }
{
    let bytes = fault_bytes(alloc, call, context, PROTOCOL_ERROR)?;
    Ok(Heard::Answer(bytes, fresh_talk(joiner)))
}

/// What is said on a bound link.
pub(crate) fn bound_talk(joiner: Joiner, binding: Binding) -> Talk
    ensures { result ≡ bound_talk joiner binding }
{
    Talk {
        joiner,
        binding: Some(binding),
    }
}

/// What is said on a link that isn't bound.
fn fresh_talk(joiner: Joiner) -> Talk
    ensures { result ≡ record { joiner = joiner; binding = None } }
{
    Talk {
        joiner,
        binding: None,
    }
}

/// What a unit comes to on a bound link.
pub(crate) fn hear_bound(
    alloc: Global,
    link: u32,
    unit: &UnitView,
    joiner: Joiner,
    binding: Binding,
) -> Result<Heard, NoMemory>
    ensures value { IfOk result (λ heard. heard ≡ hear_bound (body_shown unit.now.body)
        (option_map trailer_shown unit.now.trailer) (unit_shown unit.now) link joiner binding) }
    ensures can { IfOk result CanAnswer }
{
    match (&unit.body, &unit.trailer) {
        (BodyView::Request { .. }, Some(_)) => Ok(Heard::Close(CloseCause::BadAuthentication)),
        (BodyView::Request { .. }, None) => hear_fragment(alloc, link, unit, joiner, binding),
        _ => Ok(Heard::Close(CloseCause::OutOfPlace)),
    }
}

/// What a fragment of a request comes to.
fn hear_fragment(
    alloc: Global,
    link: u32,
    unit: &UnitView,
    joiner: Joiner,
    binding: Binding,
) -> Result<Heard, NoMemory>
    requires { HasStub (body_shown unit.now.body) }
    ensures value { IfOk result (λ heard. heard ≡ hear_joined
        (answer_of joiner (unit_shown unit.now)) (open_after joiner (unit_shown unit.now))
        link binding) }
    ensures can { IfOk result CanAnswer }
{
    let mut joiner = joiner;
    match joiner.add_view(alloc, unit) {
        Ok(Some(whole)) => hear_whole(alloc, link, &whole, joiner, binding),
        Ok(None) => Ok(Heard::Waits(bound_talk(joiner, binding))),
        Err(JoinRefused::OutOfPlace) => Ok(Heard::Close(CloseCause::OutOfPlace)),
        Err(JoinRefused::CallTooLong) => Ok(Heard::Close(CloseCause::TooMuchHeld)),
        Err(JoinRefused::Memory) => Err(NoMemory),
    }
}

/// What a whole request comes to.
fn hear_whole(
    alloc: Global,
    link: u32,
    unit: &Unit,
    joiner: Joiner,
    binding: Binding,
) -> Result<Heard, NoMemory>
    ensures value { IfOk result (λ heard. heard ≡ hear_whole unit.now.body unit.now.call link
        binding (bound_talk joiner binding)) }
    ensures can { IfOk result CanAnswer }
{
    match &unit.body {
        Body::Request {
            context,
            opnum,
            stub,
            ..
        } => {
            let line = Line {
                link,
                call: unit.call,
                context: *context,
                limit: binding.limit(),
            };
            let accepted = binding.accepts(*context);
            let talk = bound_talk(joiner, binding);
            hear_call(alloc, accepted, *opnum, stub.bytes(), line, talk)
        }
        _ => Ok(Heard::Waits(bound_talk(joiner, binding))),
    }
}

/// What a call comes to, on a context that was accepted or wasn't.
fn hear_call(
    alloc: Global,
    accepted: bool,
    opnum: u16,
    stub: &[u8],
    line: Line,
    talk: Talk,
) -> Result<Heard, NoMemory>
    requires { IsLine line }
    ensures value { IfOk result (λ heard.
        heard ≡ hear_context accepted opnum stub.now line talk) }
    ensures can { IfOk result CanAnswer }
{
    if !accepted {
        return hear_fault(alloc, line, PROTOCOL_ERROR, talk);
    }
    if !is_served(opnum) {
        return hear_fault(alloc, line, OPERATION_OUT_OF_RANGE, talk);
    }
    if opnum == SET_OPNUM {
        return hear_set(alloc, stub, line, talk);
    }
    match read_call(alloc, opnum, stub) {
        Ok(call) => Ok(hear_netlogon(call, line, talk)),
        Err(StubRefused::BadArm(1)) => hear_interactive(alloc, opnum, stub, line, talk),
        Err(StubRefused::Memory) => Err(NoMemory),
        Err(_) => hear_fault(alloc, line, BAD_STUB_DATA, talk),
    }
}

/// What a stub comes to that may be an interactive logon's, or its logoff's.
fn hear_interactive(
    alloc: Global,
    opnum: u16,
    stub: &[u8],
    line: Line,
    talk: Talk,
) -> Result<Heard, NoMemory>
    requires { IsLine line }
    ensures value { IfOk result (λ heard. heard ≡ hear_interactive
        (interactive_of opnum stub.now) (is_logon opnum) line talk) }
    ensures can { IfOk result CanAnswer }
{
    match read_interactive(alloc, opnum, stub) {
        Ok(call) => Ok(Heard::Asked(
            line,
            ControllerCall::Judged(interactive_by(opnum == LOGON_OPNUM, call)),
            talk,
        )),
        Err(StubRefused::Memory) => Err(NoMemory),
        Err(_) => hear_fault(alloc, line, BAD_STUB_DATA, talk),
    }
}

/// An interactive logon, or its logoff.
fn interactive_by(logs_on: bool, call: InteractiveCall) -> JudgedCall
    ensures { result ≡ interactive_by logs_on call }
{
    if logs_on {
        JudgedCall::Interactive(call)
    } else {
        JudgedCall::Logoff(call)
    }
}

/// What a call of Netlogon comes to that was read.
fn hear_netlogon(call: Call, line: Line, talk: Talk) -> Heard
    requires { IsLine line }
    ensures value { result ≡ hear_netlogon call line talk }
    ensures can { CanAnswer result }
{
    let asked = match call {
        Call::Challenge(call) => ControllerCall::Challenge(call),
        Call::Authenticate(call) => ControllerCall::Authenticate(call),
        Call::Logon(call) => ControllerCall::Judged(JudgedCall::Network(call)),
        Call::Logoff(call) => ControllerCall::Judged(JudgedCall::NetworkLogoff(call)),
    };
    Heard::Asked(line, asked, talk)
}

/// What a stub of NetrServerPasswordSet comes to.
fn hear_set(alloc: Global, stub: &[u8], line: Line, talk: Talk) -> Result<Heard, NoMemory>
    requires { IsLine line }
    ensures value { IfOk result (λ heard. heard ≡ hear_set (set_call_of stub.now) line talk) }
    ensures can { IfOk result CanAnswer }
{
    match read_set(alloc, stub) {
        Ok(call) => Ok(Heard::Asked(line, ControllerCall::Judged(JudgedCall::Set(call)), talk)),
        Err(SetRefused::Memory) => Err(NoMemory),
        Err(SetRefused::BadStub(_)) => hear_fault(alloc, line, BAD_STUB_DATA, talk),
    }
}

/// Whether calls of the number are served.
fn is_served(opnum: u16) -> bool
    ensures { result ≡ is_served opnum }
{
    matches!(
        opnum,
        LOGON_OPNUM | LOGOFF_OPNUM | CHALLENGE_OPNUM | SET_OPNUM | AUTHENTICATE_OPNUM
    )
}

/// A call that isn't served is answered by a fault.
fn hear_fault(alloc: Global, line: Line, status: u32, talk: Talk) -> Result<Heard, NoMemory>
    ensures value { IfOk result (λ heard. heard ≡ hear_fault line status talk) }
    ensures can { IfOk result CanAnswer }
{
    let bytes = fault_bytes(alloc, line.call, line.context, status)?;
    Ok(Heard::Answer(bytes, talk))
}
