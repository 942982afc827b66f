//! What a unit comes to, before anything is drawn for it.

ghost use Rattle.std.specs.Prelude.{◌≡◌, ◌==◌, ◌≤◌, ◌<◌, ◌^◌, ◌%◌, IfOk, IfErr, Ok, Err, Some, None, length, map, true, bytes_eq, option_map, IsTrue};
ghost use Rattle.std.specs.List.{range_with_len};
ghost use Rattle.ntlm_flags.specs.Flags.{agreed_flags};
ghost use Rattle.ntlm_messages.specs.Pairs.{ArePairs};
ghost use Rattle.ntlm_messages.specs.Challenge.{challenge_shown};
ghost use Rattle.ntlm_messages.specs.declared.pairs.PairsRefused.{PairsRefused};
ghost use Rattle.wire_base.specs.Memory.{UpToMemory};
ghost use Rattle.rpc_units.specs.Joining.{HasStub, IsWholeCall, stub_of};
ghost use Rattle.rpc_units.specs.Numbers.{rpc_s_server_unavailable};
ghost use Rattle.end_links.specs.Binding.{limit_of};
ghost use Rattle.end_links.specs.Bounds.{IsShortSend};
ghost use Rattle.logon_client.specs.declared.outcome.ClientOutcome.{ClientOutcome};
ghost use Rattle.logon_client.specs.declared.state.Phase.{Phase};
ghost use Rattle.logon_client.specs.declared.state.Terms.{Terms};
ghost use Rattle.rpc_units.specs.Reading.{unit_of};
ghost use Rattle.rpc_units.specs.Views.{body_shown, trailer_shown, unit_shown};
ghost use Rattle.memo_stubs.specs.Memo.{FitsEcho, echo_request_limit, who_of, echo_reply_of, written_echo_request};
ghost use Rattle.logon_client.specs.Answering.{pairs_by, is_enough};
ghost use Rattle.logon_client.specs.Machine.{echo_bytes, told, concluded, closed_with, ends, done, fails, asks, asks_call, asks_who, asks_echo, hear_flags, hear_agreed, hear_pairs, hear_challenge, hear_trailer, hear_result, hear_ack, hear_name, hear_echo, hear_reply, hear_joined, hear_fragment, hear_body_opened, hear_unit_opened, hear_opened, hear_secured, hear_response, fault_outcome, outcome_of, is_response, hear_body, hear_call, hear_unit, hear, awaited, talk_on};
ghost use Rattle.logon_client.specs.Plans.{needs_ess};
ghost use Rattle.logon_client.specs.Securing.{has_level, send_call};

use crate::answering::ServerOffer;
use crate::outcome::{ClientOutcome, NoAnswerCause, PeerFault, RefusedCause};
use crate::plan::AuthKind;
use crate::securing::send_call;
use crate::state::{Phase, Question, Talk, Terms, Work};
use end_links::{fragment_limit, request};
use memo_stubs::{MemoRefused, read_echo_reply, read_who_reply, write_echo_request};
use ntlm_flags::{
    NTLMSSP_NEGOTIATE_EXTENDED_SESSIONSECURITY, NTLMSSP_NEGOTIATE_NTLM, NTLMSSP_NEGOTIATE_UNICODE,
    agreed_flags, has_flag,
};
use ntlm_messages::{ChallengeView, Pairs, PairsRefused, read_pairs, timestamp, view_challenge};
use ntlm_seal::Session;
use outside::{Action, CloseCause};
use rpc_units::{
    Body, BodyView, JoinRefused, Joiner, NO_CONTROLLER, Results, Trailer, TrailerView, Unit,
    UnitRefused, UnitView, read_unit, stub_of, view_unit,
};
use std::alloc::Global;
use unit_security::{is_signed, open_unit};
use wire_base::{Blob, NoMemory, Units};

/// What a unit comes to, before anything is drawn for it.
#[derive(Drop)]
pub enum Heard {
    /// Nothing is drawn: the client afterwards, and what is said on the link, or None where it is closed.
    Done(Work, Option<Talk>),
    /// A CHALLENGE is answered on the link of that number.
    Challenged(Work, u32, ServerOffer),
}

/// The work with one action more; a send has at most 589,824 bytes.
pub(crate) fn tell(work: Work, what: Action) -> Result<Work, NoMemory>
    requires { IsShortSend what }
    ensures { IfOk result (λ w. w ≡ told work what) }
{
    let Work {
        task,
        now,
        outcome,
        mut actions,
    } = work;
    actions.push(what)?;
    Ok(Work {
        task,
        now,
        outcome,
        actions,
    })
}

/// The work with its outcome.
pub(crate) fn conclude(outcome: ClientOutcome, work: Work) -> Work
    ensures { result ≡ concluded outcome work }
{
    Work {
        outcome: Some(outcome),
        ..work
    }
}

/// The outcome comes while the link is open, which is closed.
pub(crate) fn close_with(outcome: ClientOutcome, link: u32, work: Work) -> Result<Work, NoMemory>
    ensures { IfOk result (λ w. w ≡ closed_with outcome link work) }
{
    let work = tell(work, Action::Close(link, CloseCause::CallDone))?;
    Ok(conclude(outcome, work))
}

/// A unit brings the outcome.
fn fail(outcome: ClientOutcome, link: u32, work: Work) -> Result<Heard, NoMemory>
    ensures { IfOk result (λ h. h ≡ fails outcome link work) }
{
    Ok(Heard::Done(close_with(outcome, link, work)?, None))
}

/// A fault of the peer brings the outcome.
fn blame(fault: PeerFault, link: u32, work: Work) -> Result<Heard, NoMemory>
    ensures { IfOk result (λ h. h ≡ fails (ClientOutcome.BadPeer fault) link work) }
{
    fail(ClientOutcome::BadPeer(fault), link, work)
}

/// The bytes that are echoed.
#[tactic(auto, using(crate::proofs::HearingLaws::echoes))]
fn echo_bytes(alloc: Global, count: u32) -> Result<Blob, NoMemory>
    ensures value { IfOk result (λ bytes. bytes ≡ echo_bytes count) }
    ensures count { IfOk result (λ bytes. length bytes ≡ count) }
{
    let mut bytes = Vec::new(alloc);
    for place in 0..count {
        bytes.push((place % 251) as u8)?;
    }
    Ok(Blob::from_vec(bytes))
}

/// Sends a call whose stub is no longer than that of Echo may be, and whose response is waited for.
fn ask(
    alloc: Global,
    call: Unit,
    terms: Terms,
    question: Question,
    link: u32,
    work: Work,
) -> Result<(Work, Option<Talk>), NoMemory>
    requires whole { IsWholeCall call }
    requires plain { call.trailer ≡ None }
    requires short { length (stub_of call.body) ≤ echo_request_limit }
    ensures { IfOk result (λ end. end ≡ asks_call call terms question link work) }
{
    let level = work.task.level();
    let Terms {
        key,
        receive,
        session,
    } = terms;
    let sending = send_call(alloc, session, level, call, fragment_limit(receive))?;
    match sending {
        None => {
            let outcome = ClientOutcome::BadPeer(PeerFault::BadSeal);
            Ok((close_with(outcome, link, work)?, None))
        }
        Some(sending) => {
            let terms = Terms {
                key,
                receive,
                session: sending.session,
            };
            let talk = Talk {
                link,
                joiner: Joiner::new(),
                phase: Phase::Asked(terms, question),
            };
            Ok((tell(work, Action::Send(link, sending.bytes))?, Some(talk)))
        }
    }
}

/// Sends WhoAmI.
pub(crate) fn ask_who(
    alloc: Global,
    terms: Terms,
    link: u32,
    work: Work,
) -> Result<(Work, Option<Talk>), NoMemory>
    ensures { IfOk result (λ end. end ≡ asks_who terms link work) }
{
    let call = request(2, 0, 0, Blob::copy(alloc, &[])?);
    ask(alloc, call, terms, Question::Who, link, work)
}

/// The stub of Echo.
fn echo_stub(alloc: Global, count: u32) -> Result<Blob, NoMemory>
    requires { count ≤ 4096 }
    ensures value { IfOk result (λ stub. stub ≡ written_echo_request (echo_bytes count)) }
    ensures short { IfOk result (λ stub. length stub ≤ echo_request_limit) }
{
    let bytes = echo_bytes(alloc, count)?;
    read_echo(bytes.bytes());
    write_echo_request(alloc, &bytes)
}

/// The stub of bytes that are echoed is short. It reads them, so that this is known.
#[tactic(auto, using(crate::proofs::HearingLaws::echo_short))]
fn read_echo(bytes: &[u8])
    requires { FitsEcho bytes.now }
    ensures { length (written_echo_request bytes.now) ≤ echo_request_limit }
{}

/// Sends Echo.
fn ask_echo(
    alloc: Global,
    name: Units,
    terms: Terms,
    link: u32,
    work: Work,
) -> Result<(Work, Option<Talk>), NoMemory>
    ensures { IfOk result (λ end. end ≡ asks_echo name terms link work) }
{
    let stub = echo_stub(alloc, work.task.echo())?;
    let call = request(3, 0, 1, stub);
    ask(alloc, call, terms, Question::Echo(name), link, work)
}

/// Whether enough is agreed: texts in UTF-16LE, NTLM, and extended session security where it is needed.
fn is_enough(level: u8, auth: AuthKind, flags: u32) -> bool
    ensures { result ≡ is_enough level auth flags }
{
    let needs_ess = is_signed(level) || matches!(auth, AuthKind::V1Ess);
    has_flag(flags, NTLMSSP_NEGOTIATE_UNICODE)
        && has_flag(flags, NTLMSSP_NEGOTIATE_NTLM)
        && (!needs_ess || has_flag(flags, NTLMSSP_NEGOTIATE_EXTENDED_SESSIONSECURITY))
}

/// A CHALLENGE with its pairs, by the flags that are agreed.
fn hear_agreed(
    alloc: Global,
    flags: u32,
    challenge: &ChallengeView,
    pairs: &Pairs,
    receive: u16,
    link: u32,
    work: Work,
) -> Result<Heard, NoMemory>
    requires { ArePairs pairs.now }
    ensures { IfOk result (λ h. h ≡
        hear_agreed flags (challenge_shown challenge.now) pairs.now receive link work) }
{
    let plan = work.task.plan();
    if !is_enough(plan.level, plan.auth, flags) {
        return fail(ClientOutcome::Refused(RefusedCause::WeakOffer), link, work);
    }
    let offer = ServerOffer {
        flags,
        challenge: challenge.challenge,
        info: Blob::copy(alloc, challenge.info)?,
        time: timestamp(pairs).unwrap_or(work.now),
        receive,
    };
    Ok(Heard::Challenged(work, link, offer))
}

/// The pairs of target information, of which a CHALLENGE may have none.
fn pairs_in(alloc: Global, info: &[u8]) -> Result<Pairs, PairsRefused>
    ensures exact { UpToMemory PairsRefused.Memory result
        (pairs_by (length info.now == 0) info.now) }
    ensures items { IfOk result (λ pairs. ArePairs pairs) }
{
    if info.len() == 0 {
        return Ok(Pairs::new(alloc));
    }
    read_pairs(alloc, info)
}

/// A CHALLENGE that was read.
fn hear_challenge(
    alloc: Global,
    challenge: &ChallengeView,
    receive: u16,
    link: u32,
    work: Work,
) -> Result<Heard, NoMemory>
    ensures { IfOk result (λ h. h ≡
        hear_challenge (Ok (challenge_shown challenge.now)) receive link work) }
{
    let flags = agreed_flags(work.task.plan().auth.offer(), challenge.flags);
    match pairs_in(alloc, challenge.info) {
        Ok(pairs) => hear_agreed(alloc, flags, challenge, &pairs, receive, link, work),
        Err(PairsRefused::Memory) => Err(NoMemory),
        Err(_) => blame(PeerFault::BadMessage, link, work),
    }
}

/// The trailer of a bind_ack that accepts.
fn hear_trailer(
    alloc: Global,
    trailer: &Option<Trailer>,
    receive: u16,
    link: u32,
    work: Work,
) -> Result<Heard, NoMemory>
    ensures { IfOk result (λ h. h ≡ hear_trailer trailer.now receive link work) }
{
    let Some(trailer) = trailer else {
        return blame(PeerFault::BadMessage, link, work);
    };
    match view_challenge(trailer.value.bytes()) {
        Ok(challenge) => hear_challenge(alloc, &challenge, receive, link, work),
        Err(_) => blame(PeerFault::BadMessage, link, work),
    }
}

/// A bind_ack.
fn hear_ack(
    alloc: Global,
    results: &Results,
    trailer: &Option<Trailer>,
    receive: u16,
    link: u32,
    work: Work,
) -> Result<Heard, NoMemory>
    ensures { IfOk result (λ h. h ≡ hear_ack results.now trailer.now receive link work) }
{
    let Some(first) = results.get(0) else {
        return blame(PeerFault::BadMessage, link, work);
    };
    if first.0 != 0 {
        let cause = RefusedCause::Rejected(first.1);
        return fail(ClientOutcome::Refused(cause), link, work);
    }
    hear_trailer(alloc, trailer, receive, link, work)
}

/// The outcome of a fault.
fn fault_outcome(status: u32) -> ClientOutcome
    ensures { result ≡ fault_outcome (status == rpc_s_server_unavailable) status }
{
    if status == NO_CONTROLLER {
        return ClientOutcome::NoAnswer(NoAnswerCause::NoController);
    }
    ClientOutcome::Refused(RefusedCause::Fault(status))
}

/// The outcome of a unit that isn't what is waited for.
fn outcome_of(body: &BodyView) -> ClientOutcome
    ensures { result ≡ outcome_of (body_shown body.now) }
{
    match body {
        BodyView::BindNak(reason) => ClientOutcome::Refused(RefusedCause::Nak(*reason)),
        BodyView::Fault { status, .. } => fault_outcome(*status),
        BodyView::Bind { .. }
        | BodyView::BindAck { .. }
        | BodyView::Auth3
        | BodyView::Request { .. }
        | BodyView::Response { .. } => ClientOutcome::BadPeer(PeerFault::OutOfPlace),
    }
}

/// Whether a unit is a response.
fn is_response(body: &BodyView) -> bool
    ensures { result ≡ is_response (body_shown body.now) }
{
    matches!(body, BodyView::Response { .. })
}

/// The outcome of a unit that was read and isn't what is waited for.
fn outcome_by(body: &Body) -> ClientOutcome
    ensures { result ≡ outcome_of body.now }
{
    match body {
        Body::BindNak(reason) => ClientOutcome::Refused(RefusedCause::Nak(*reason)),
        Body::Fault { status, .. } => fault_outcome(*status),
        Body::Bind { .. }
        | Body::BindAck { .. }
        | Body::Auth3
        | Body::Request { .. }
        | Body::Response { .. } => ClientOutcome::BadPeer(PeerFault::OutOfPlace),
    }
}

/// A unit of the bind's number, while its answer is waited for.
fn hear_bound(
    alloc: Global,
    unit: &Unit,
    bytes: &[u8],
    joiner: Joiner,
    link: u32,
    work: Work,
) -> Result<Heard, NoMemory>
    ensures { IfOk result (λ h. h ≡
        hear_body unit.now.body Phase.Bound unit.now bytes.now joiner link work) }
{
    match &unit.body {
        Body::BindAck {
            receive,
            results,
            ..
        } => hear_ack(alloc, results, &unit.trailer, *receive, link, work),
        Body::Bind { .. }
        | Body::BindNak(_)
        | Body::Auth3
        | Body::Request { .. }
        | Body::Response { .. }
        | Body::Fault { .. } => fail(outcome_by(&unit.body), link, work),
    }
}

/// The name that WhoAmI gave: the client is logged on, or Echo is sent.
fn hear_name(
    alloc: Global,
    stub: &[u8],
    terms: Terms,
    link: u32,
    work: Work,
) -> Result<Heard, NoMemory>
    ensures { IfOk result (λ h. h ≡ hear_name (who_of stub.now) terms link work) }
{
    let name = match read_who_reply(alloc, stub) {
        Ok(name) => name,
        Err(MemoRefused::Memory) => return Err(NoMemory),
        Err(MemoRefused::BadStub(_)) => return blame(PeerFault::BadReply, link, work),
    };
    if work.task.echo() == 0 {
        let key = terms.key;
        let outcome = ClientOutcome::In {
            name,
            key,
            echoed: 0,
        };
        return fail(outcome, link, work);
    }
    let (work, talk) = ask_echo(alloc, name, terms, link, work)?;
    Ok(Heard::Done(work, talk))
}

/// Whether the bytes are those that are echoed.
fn is_echo(alloc: Global, bytes: &Blob, count: u32) -> Result<bool, NoMemory>
    ensures { IfOk result (λ same. same ≡ bytes_eq bytes.now (echo_bytes count)) }
{
    let wanted = echo_bytes(alloc, count)?;
    Ok(bytes.bytes() == wanted.bytes())
}

/// The bytes that Echo gave.
fn hear_echo(
    alloc: Global,
    stub: &[u8],
    name: Units,
    terms: Terms,
    link: u32,
    work: Work,
) -> Result<Heard, NoMemory>
    ensures { IfOk result (λ h. h ≡ hear_echo (echo_reply_of stub.now) name terms link work) }
{
    let bytes = match read_echo_reply(alloc, stub) {
        Ok(bytes) => bytes,
        Err(MemoRefused::Memory) => return Err(NoMemory),
        Err(MemoRefused::BadStub(_)) => return blame(PeerFault::BadReply, link, work),
    };
    let echoed = work.task.echo();
    if !is_echo(alloc, &bytes, echoed)? {
        return blame(PeerFault::BadReply, link, work);
    }
    let key = terms.key;
    fail(ClientOutcome::In { name, key, echoed }, link, work)
}

/// The stub of a response to a call.
fn hear_reply(
    alloc: Global,
    question: Question,
    stub: &[u8],
    terms: Terms,
    link: u32,
    work: Work,
) -> Result<Heard, NoMemory>
    ensures { IfOk result (λ h. h ≡ hear_reply question stub.now terms link work) }
{
    match question {
        Question::Who => hear_name(alloc, stub, terms, link, work),
        Question::Echo(name) => hear_echo(alloc, stub, name, terms, link, work),
    }
}

/// A fragment of a response.
fn hear_fragment(
    alloc: Global,
    unit: &UnitView,
    joiner: Joiner,
    terms: Terms,
    question: Question,
    link: u32,
    work: Work,
) -> Result<Heard, NoMemory>
    requires { HasStub (body_shown unit.now.body) }
    ensures { IfOk result (λ h. h ≡
        hear_fragment (unit_shown unit.now) joiner terms question link work) }
{
    let mut joiner = joiner;
    match joiner.add_view(alloc, unit) {
        Ok(None) => {
            let talk = Talk {
                link,
                joiner,
                phase: Phase::Asked(terms, question),
            };
            Ok(Heard::Done(work, Some(talk)))
        }
        Ok(Some(whole)) => hear_reply(alloc, question, stub_of(&whole.body), terms, link, work),
        Err(JoinRefused::Memory) => Err(NoMemory),
        Err(JoinRefused::OutOfPlace | JoinRefused::CallTooLong) => {
            blame(PeerFault::OutOfPlace, link, work)
        }
    }
}

/// A unit that was opened.
fn hear_opened(
    alloc: Global,
    bytes: &[u8],
    joiner: Joiner,
    terms: Terms,
    question: Question,
    link: u32,
    work: Work,
) -> Result<Heard, NoMemory>
    ensures { IfOk result (λ h. h ≡
        hear_unit_opened (unit_of bytes.now) joiner terms question link work) }
{
    let unit = match view_unit(bytes) {
        Ok(unit) => unit,
        Err(_) => return blame(PeerFault::BadUnit, link, work),
    };
    match unit.body {
        BodyView::Response { .. } => {
            hear_fragment(alloc, &unit, joiner, terms, question, link, work)
        }
        _ => blame(PeerFault::OutOfPlace, link, work),
    }
}

/// A response with a trailer of the level, which is opened in its place.
fn hear_secured(
    alloc: Global,
    bytes: &mut [u8],
    session: Session,
    joiner: Joiner,
    terms: Terms,
    question: Question,
    link: u32,
    work: Work,
) -> Result<Heard, NoMemory>
    ensures len { length bytes.new ≡ length bytes.old }
    ensures answer { IfOk result (λ h. h ≡
        hear_secured true bytes.old session joiner terms question link work) }
{
    let mut session = session;
    let seals = work.task.seals();
    if !open_unit(&mut session, seals, bytes) {
        return blame(PeerFault::BadSeal, link, work);
    }
    let terms = Terms {
        session: Some(session),
        ..terms
    };
    hear_opened(alloc, bytes, joiner, terms, question, link, work)
}

/// Whether a response has a trailer of the level.
fn has_level(level: u8, trailer: &Option<TrailerView>) -> bool
    ensures { result ≡ has_level level (option_map trailer_shown trailer.now) }
{
    match trailer {
        Some(trailer) => trailer.level == level,
        None => false,
    }
}

/// The number of a call.
fn number(question: &Question) -> u32
    ensures { (terms : Terms) → result ≡ awaited (Phase.Asked terms question.now) }
{
    match question {
        Question::Who => 2,
        Question::Echo(_) => 3,
    }
}

/// The bytes of a unit while the response to a call is waited for.
fn hear_asked(
    alloc: Global,
    bytes: &mut [u8],
    joiner: Joiner,
    terms: Terms,
    question: Question,
    link: u32,
    work: Work,
) -> Result<Heard, NoMemory>
    ensures len { length bytes.new ≡ length bytes.old }
    ensures answer { IfOk result (λ h. h ≡
        hear bytes.old (talk_on link joiner (Phase.Asked terms question)) work) }
{
    let unit = match view_unit(bytes) {
        Ok(unit) => unit,
        Err(_) => return blame(PeerFault::BadUnit, link, work),
    };
    if unit.call != number(&question) {
        return blame(PeerFault::OutOfPlace, link, work);
    }
    if !is_response(&unit.body) {
        return fail(outcome_of(&unit.body), link, work);
    }
    let Terms {
        key,
        receive,
        session,
    } = terms;
    let terms = Terms {
        key,
        receive,
        session: None,
    };
    let Some(session) = session else {
        return hear_fragment(alloc, &unit, joiner, terms, question, link, work);
    };
    if !has_level(work.task.level(), &unit.trailer) {
        return blame(PeerFault::BadSeal, link, work);
    }
    hear_secured(alloc, bytes, session, joiner, terms, question, link, work)
}

/// The bytes of a unit while the answer to the bind is waited for.
fn hear_first(
    alloc: Global,
    bytes: &[u8],
    joiner: Joiner,
    link: u32,
    work: Work,
) -> Result<Heard, NoMemory>
    ensures { IfOk result (λ h. h ≡ hear bytes.now (talk_on link joiner Phase.Bound) work) }
{
    let unit = match read_unit(alloc, bytes) {
        Ok(unit) => unit,
        Err(UnitRefused::Memory) => return Err(NoMemory),
        Err(_) => return blame(PeerFault::BadUnit, link, work),
    };
    if unit.call != 1 {
        return blame(PeerFault::OutOfPlace, link, work);
    }
    hear_bound(alloc, &unit, bytes, joiner, link, work)
}

/// The bytes of a unit, before anything is drawn for it. They may be opened in their place.
pub(crate) fn hear(
    alloc: Global,
    bytes: &mut [u8],
    talk: Talk,
    work: Work,
) -> Result<Heard, NoMemory>
    ensures len { length bytes.new ≡ length bytes.old }
    ensures answer { IfOk result (λ h. h ≡ hear bytes.old talk work) }
{
    let Talk {
        link,
        joiner,
        phase,
    } = talk;
    match phase {
        Phase::Bound => hear_first(alloc, bytes, joiner, link, work),
        Phase::Asked(terms, question) => {
            hear_asked(alloc, bytes, joiner, terms, question, link, work)
        }
    }
}
