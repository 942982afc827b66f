//! Requests on links that are bound.

ghost use Rattle.std.specs.Prelude.{◌≡◌, ◌≤◌, ◌<◌, ◌+◌, ◌^◌, ◌==◌, length, nat_le, None, Some, IfOk, IfSome, Ok, option_map};
ghost use Rattle.end_links.specs.Bounds.{send_limit};
ghost use Rattle.outside.specs.declared.action.CloseCause.TheVariants as close;
ghost use Rattle.rpc_units.specs.Joining.{HasStub, answer_of, open_after};
ghost use Rattle.rpc_units.specs.Reading.{unit_of};
ghost use Rattle.rpc_units.specs.Views.{body_shown, trailer_shown, unit_shown};
ghost use Rattle.unit_security.specs.Securing.{open_unit, secure_call};
ghost use Rattle.end_links.specs.Agreed.{accepts};
ghost use Rattle.end_links.specs.Sending.{fault_of, response_of};
ghost use Rattle.rpc_units.specs.Calls.{bytes_of_call};
ghost use Rattle.member_server.specs.declared.state.Phase.TheVariants as phase;
ghost use Rattle.member_server.specs.Held.{held_size, held_limit};
ghost use Rattle.unit_security.specs.Levels.{is_plain};
ghost use Rattle.member_server.specs.Memo.{IsShortAnswer, call_answer, stub_limit};
ghost use Rattle.member_server.specs.Requests.{talk_in, send_secured, secure_reply, send_reply, reply, answer_call, join_by, join_request, join_unit, cause_by, is_due, signed_cause, join_opened, open_request, signed_unit, unit_in, body_out, unit_out, hold_by, body_asked, unit_asked};
ghost use Rattle.member_server.specs.Work.{send, send_unit, stay};

use crate::held::Held;
use crate::memo::{Answer, call_answer};
use crate::state::{AtLink, Bound, LoggedOn, Phase, Talk};
use crate::work::{let_go, send, send_unit, shut_call};
use end_links::{call_bytes, fault, response};
use ntlm_seal::Session;
use outside::CloseCause;
use rpc_units::{Body, BodyView, JoinRefused, Joiner, TrailerView, Unit, UnitView, view_unit};
use std::alloc::Global;
use unit_security::{Secured, is_plain, is_sealed, open_unit, secure_call};
use wire_base::{Blob, NoMemory};

// ---- no user is logged on

/// A unit on a link on which no user is logged on: a request is answered with a fault of that status.
pub(crate) fn unit_out(
    alloc: Global,
    bytes: &[u8],
    bound: Bound,
    status: u32,
    joiner: Joiner,
    at: AtLink,
) -> Result<(AtLink, Option<Talk>), NoMemory>
    ensures { IfOk result (λ served. served ≡ unit_out (unit_of bytes.now) bound status joiner at) }
{
    let Ok(unit) = view_unit(bytes) else {
        return shut_call(joiner, at, CloseCause::BadUnit);
    };
    match unit.body {
        BodyView::Request { context, .. } => {
            answer_out(alloc, unit.call, context, bound, status, joiner, at)
        }
        _ => shut_call(joiner, at, CloseCause::OutOfPlace),
    }
}

/// A request is answered with a fault of that status.
fn answer_out(
    alloc: Global,
    call: u32,
    context: u16,
    bound: Bound,
    status: u32,
    joiner: Joiner,
    at: AtLink,
) -> Result<(AtLink, Option<Talk>), NoMemory>
    ensures { IfOk result (λ served. served ≡ stay (send_unit at (fault_of call context status))
        (record { joiner = joiner; phase = phase.Out bound status })) }
{
    match send_fault(alloc, call, context, status, at) {
        Ok(at) => {
            let phase = Phase::Out { bound, status };
            Ok((at, Some(Talk { joiner, phase })))
        }
        Err(NoMemory) => Err(let_go(joiner)),
    }
}

/// A fault is sent.
fn send_fault(
    alloc: Global,
    call: u32,
    context: u16,
    status: u32,
    at: AtLink,
) -> Result<AtLink, NoMemory>
    ensures { IfOk result (λ sent. sent ≡ send_unit at (fault_of call context status)) }
{
    send_unit(alloc, at, &fault(call, context, status))
}

// ---- the logon is asked

/// A unit on a link whose logon is asked: a request is held.
pub(crate) fn unit_asked(
    alloc: Global,
    bytes: &[u8],
    bound: Bound,
    place: u32,
    held: Held,
    joiner: Joiner,
    at: AtLink,
) -> Result<(AtLink, Option<Talk>), NoMemory>
    ensures { IfOk result
        (λ served. served ≡ unit_asked (unit_of bytes.now) bytes.now bound place held joiner at) }
{
    let Ok(unit) = view_unit(bytes) else {
        return shut_call(joiner, at, CloseCause::BadUnit);
    };
    match unit.body {
        BodyView::Request { .. } => hold(alloc, bytes, bound, place, held, joiner, at),
        _ => shut_call(joiner, at, CloseCause::OutOfPlace),
    }
}

/// A request is held, where there is room.
fn hold(
    alloc: Global,
    bytes: &[u8],
    bound: Bound,
    place: u32,
    held: Held,
    joiner: Joiner,
    at: AtLink,
) -> Result<(AtLink, Option<Talk>), NoMemory>
    ensures { IfOk result (λ served. served
        ≡ hold_by (nat_le (held_size held + length bytes.now) held_limit)
        bytes.now bound place held joiner at) }
{
    if !held.has_room(bytes.len()) {
        return shut_call(joiner, at, CloseCause::TooMuchHeld);
    }
    match held.hold(alloc, bytes) {
        Ok(held) => {
            let phase = Phase::Asked { bound, place, held };
            Ok((at, Some(Talk { joiner, phase })))
        }
        Err(NoMemory) => Err(let_go(joiner)),
    }
}

// ---- replies

/// What is said on a link on which a user is logged on.
fn talk_in(joiner: Joiner, on: LoggedOn) -> Talk
    ensures { result ≡ talk_in joiner on }
{
    Talk {
        joiner,
        phase: Phase::In(on),
    }
}

/// The answer to a call is sent.
fn reply(
    alloc: Global,
    answer: Answer,
    call: u32,
    context: u16,
    on: LoggedOn,
    joiner: Joiner,
    at: AtLink,
) -> Result<(AtLink, Option<Talk>), NoMemory>
    requires { IsShortAnswer answer }
    ensures { IfOk result (λ served. served ≡ reply answer call context on joiner at) }
{
    match answer {
        Answer::Fault(status) => {
            match send_fault(alloc, call, context, status, at) {
                Ok(at) => Ok((at, Some(talk_in(joiner, on)))),
                Err(NoMemory) => Err(let_go(joiner)),
            }
        }
        Answer::Stub(stub) => send_reply(alloc, stub, call, context, on, joiner, at),
    }
}

/// A reply is sent: as it is, or signed.
fn send_reply(
    alloc: Global,
    stub: Blob,
    call: u32,
    context: u16,
    on: LoggedOn,
    joiner: Joiner,
    at: AtLink,
) -> Result<(AtLink, Option<Talk>), NoMemory>
    requires { length stub ≤ stub_limit }
    ensures { IfOk result
        (λ served. served ≡ send_reply (is_plain on.bound.level) call context stub on joiner at) }
{
    if !is_plain(on.bound.level) {
        return secure_reply(alloc, stub, call, context, on, joiner, at);
    }
    match plain_reply(alloc, stub, call, context, &on.bound) {
        Ok(bytes) => send_in(bytes, on, joiner, at),
        Err(NoMemory) => Err(let_go(joiner)),
    }
}

/// The bytes of a reply as it is.
fn plain_reply(
    alloc: Global,
    stub: Blob,
    call: u32,
    context: u16,
    bound: &Bound,
) -> Result<Blob, NoMemory>
    requires { length stub ≤ stub_limit }
    ensures value { IfOk result (λ bytes. bytes
        ≡ bytes_of_call (response_of call context stub) bound.now.binding.limit) }
    ensures short { IfOk result (λ bytes. length bytes ≤ send_limit) }
{
    let unit = response(call, context, stub);
    call_bytes(alloc, &unit, bound.binding.limit())
}

/// Sends these bytes on a link on which a user is logged on.
fn send_in(
    bytes: Blob,
    on: LoggedOn,
    joiner: Joiner,
    at: AtLink,
) -> Result<(AtLink, Option<Talk>), NoMemory>
    requires { length bytes ≤ send_limit }
    ensures { IfOk result (λ served. served ≡ stay (send at bytes) (talk_in joiner on)) }
{
    match send(at, bytes) {
        Ok(at) => Ok((at, Some(talk_in(joiner, on)))),
        Err(NoMemory) => Err(let_go(joiner)),
    }
}

/// A reply is signed or sealed, fragment by fragment, and sent. Where the session refuses one, the link is closed.
fn secure_reply(
    alloc: Global,
    stub: Blob,
    call: u32,
    context: u16,
    on: LoggedOn,
    joiner: Joiner,
    at: AtLink,
) -> Result<(AtLink, Option<Talk>), NoMemory>
    requires { length stub ≤ stub_limit }
    ensures { IfOk result
        (λ served. served ≡ secure_reply on.session call context stub on joiner at) }
{
    let LoggedOn {
        bound,
        name,
        key,
        session,
    } = on;
    let Some(session) = session else {
        return shut_call(joiner, at, CloseCause::BadAuthentication);
    };
    match secured_reply(alloc, stub, call, context, &bound, session) {
        Ok(Some(secured)) => {
            let Secured { bytes, session } = secured;
            let on = LoggedOn {
                bound,
                name,
                key,
                session: Some(session),
            };
            send_in(bytes, on, joiner, at)
        }
        Ok(None) => shut_call(joiner, at, CloseCause::BadAuthentication),
        Err(NoMemory) => Err(let_go(joiner)),
    }
}

/// The bytes of a reply that is signed or sealed, and the session afterwards. None where the session refuses a
/// fragment.
fn secured_reply(
    alloc: Global,
    stub: Blob,
    call: u32,
    context: u16,
    bound: &Bound,
    session: Session,
) -> Result<Option<Secured>, NoMemory>
    requires { length stub ≤ stub_limit }
    ensures value { IfOk result (λ sent. sent ≡ secure_call session bound.now.level
        bound.now.context (response_of call context stub) bound.now.binding.limit) }
    ensures short { IfOk result (λ sent. IfSome sent (λ secured.
        length secured.bytes ≤ send_limit)) }
{
    let reply = response(call, context, stub);
    let limit = bound.binding.limit();
    secure_call(alloc, session, bound.level, bound.context, reply, limit)
}

// ---- a user is logged on

/// A whole call is answered.
fn answer_call(
    alloc: Global,
    unit: &Unit,
    on: LoggedOn,
    joiner: Joiner,
    at: AtLink,
) -> Result<(AtLink, Option<Talk>), NoMemory>
    ensures { IfOk result
        (λ served. served ≡ answer_call unit.now.body unit.now.call on joiner at) }
{
    match &unit.body {
        Body::Request {
            context,
            opnum,
            stub,
            ..
        } => {
            let accepted = on.bound.binding.accepts(*context);
            match call_answer(alloc, accepted, *opnum, &on.name, stub.bytes()) {
                Ok(answer) => reply(alloc, answer, unit.call, *context, on, joiner, at),
                Err(NoMemory) => Err(let_go(joiner)),
            }
        }
        _ => shut_call(joiner, at, CloseCause::OutOfPlace),
    }
}

/// A whole call that was joined is answered, and let go.
fn answer_whole(
    alloc: Global,
    unit: Unit,
    on: LoggedOn,
    joiner: Joiner,
    at: AtLink,
) -> Result<(AtLink, Option<Talk>), NoMemory>
    ensures { IfOk result (λ served. served ≡ answer_call unit.body unit.call on joiner at) }
{
    answer_call(alloc, &unit, on, joiner, at)
}

/// A unit in plain form: a request is joined, and a whole call answered.
fn join_unit(
    alloc: Global,
    bytes: &[u8],
    on: LoggedOn,
    joiner: Joiner,
    at: AtLink,
) -> Result<(AtLink, Option<Talk>), NoMemory>
    ensures { IfOk result (λ served. served ≡ join_unit (unit_of bytes.now) on joiner at) }
{
    let Ok(unit) = view_unit(bytes) else {
        return shut_call(joiner, at, CloseCause::BadUnit);
    };
    match unit.body {
        BodyView::Request { .. } => join(alloc, &unit, on, joiner, at),
        _ => shut_call(joiner, at, CloseCause::OutOfPlace),
    }
}

/// A request is joined.
fn join(
    alloc: Global,
    unit: &UnitView,
    on: LoggedOn,
    joiner: Joiner,
    at: AtLink,
) -> Result<(AtLink, Option<Talk>), NoMemory>
    requires { HasStub (body_shown unit.now.body) }
    ensures { IfOk result (λ served. served
        ≡ join_by (answer_of joiner (unit_shown unit.now))
        (open_after joiner (unit_shown unit.now)) on at) }
{
    let mut joiner = joiner;
    match joiner.add_view(alloc, unit) {
        Ok(None) => Ok((at, Some(talk_in(joiner, on)))),
        Ok(Some(whole)) => answer_whole(alloc, whole, on, joiner, at),
        Err(JoinRefused::OutOfPlace) => shut_call(joiner, at, CloseCause::OutOfPlace),
        Err(JoinRefused::CallTooLong) => shut_call(joiner, at, CloseCause::TooMuchHeld),
        Err(JoinRefused::Memory) => Err(let_go(joiner)),
    }
}

/// Whether a trailer is there, of that level, and with a value of 16 bytes.
fn is_due(level: u8, trailer: &Option<TrailerView>) -> bool
    ensures { result ≡ is_due level (option_map trailer_shown trailer.now) }
{
    match trailer {
        Some(trailer) => trailer.level == level && trailer.value.len() == 16,
        None => false,
    }
}

/// Why a unit isn't a request with the trailer that is due at a level that signs, where it isn't.
fn signed_cause(level: u8, bytes: &[u8]) -> Option<CloseCause>
    ensures { result ≡ signed_cause (unit_of bytes.now) level }
{
    let Ok(unit) = view_unit(bytes) else {
        return Some(CloseCause::BadUnit);
    };
    match unit.body {
        BodyView::Request { .. } => {
            if is_due(level, &unit.trailer) {
                None
            } else {
                Some(CloseCause::BadAuthentication)
            }
        }
        _ => Some(CloseCause::OutOfPlace),
    }
}

/// A unit on a link on which a user is logged on. At a level that signs it is opened in its place.
pub(crate) fn unit_in(
    alloc: Global,
    bytes: &mut [u8],
    on: LoggedOn,
    joiner: Joiner,
    at: AtLink,
) -> Result<(AtLink, Option<Talk>), NoMemory>
    ensures len { length bytes.new ≡ length bytes.old }
    ensures served { IfOk result (λ served. served
        ≡ unit_in (is_plain on.bound.level) bytes.old on joiner at) }
{
    if is_plain(on.bound.level) {
        return join_unit(alloc, bytes, on, joiner, at);
    }
    if let Some(cause) = signed_cause(on.bound.level, bytes) {
        return shut_call(joiner, at, cause);
    }
    open_request(alloc, bytes, on, joiner, at)
}

/// A request with the trailer that is due: its signature is taken, and it is joined.
fn open_request(
    alloc: Global,
    bytes: &mut [u8],
    on: LoggedOn,
    joiner: Joiner,
    at: AtLink,
) -> Result<(AtLink, Option<Talk>), NoMemory>
    ensures len { length bytes.new ≡ length bytes.old }
    ensures served { IfOk result
        (λ served. served ≡ open_request on.session bytes.old on joiner at) }
{
    let LoggedOn {
        bound,
        name,
        key,
        session,
    } = on;
    let Some(session) = session else {
        return shut_call(joiner, at, CloseCause::BadAuthentication);
    };
    let mut session = session;
    if !open_unit(&mut session, is_sealed(bound.level), bytes) {
        return shut_call(joiner, at, CloseCause::BadAuthentication);
    }
    let on = LoggedOn {
        bound,
        name,
        key,
        session: Some(session),
    };
    join_unit(alloc, bytes, on, joiner, at)
}
