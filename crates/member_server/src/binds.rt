//! A bind on a link on which nothing is bound.

ghost use Rattle.std.specs.Prelude.{◌≡◌, ◌≤◌, ◌<◌, ◌%◌, ◌==◌, ◌&&◌, true, [], ◌∷◌, length, Some, IfOk, IsTrue};
ghost use Rattle.wire_base.specs.Units.{utf16_of};
ghost use Rattle.ntlm_messages.specs.Challenge.{CanWriteChallenge, challenge_fields, written_challenge};
ghost use Rattle.ntlm_messages.specs.Fields.{FieldsFit};
ghost use Rattle.ntlm_messages.specs.Pairs.{written_pairs};
ghost use Rattle.outside.specs.Drawing.{DrawsSome};
ghost use Rattle.outside.specs.Machine.{AnswersBy};
ghost use Rattle.rpc_units.specs.Reading.{unit_of};
ghost use Rattle.rpc_units.specs.Writing.{written, ContextsFit, IsWritable};
ghost use Rattle.rpc_units.specs.Numbers.{context_limit, ntlm_provider};
ghost use Rattle.member_server.specs.Binds.{is_enough, offer_by, offer_at, offer_in, challenge_message, challenge_trailer, challenge_ack, ack_fits, FitsEach, bound_by, refusal_of_bind, answer_of_bind, answer_bind, bind_by, fresh_unit, ClosesBy};
ghost use Rattle.unit_security.specs.Levels.{is_level, is_plain};
ghost use Rattle.member_server.specs.Units.{first_unit};
ghost use Rattle.member_server.specs.Work.{send_unit, stay};
ghost use Rattle.member_server.specs.declared.state.Phase.TheVariants as phase;
ghost use Rattle.end_links.specs.Binding.{nak_of};
ghost use Rattle.end_links.specs.Bounds.{send_limit};

use crate::plan::MemberPlan;
use crate::state::{AtLink, Bound, Phase, Talk};
use crate::work::{let_go, send, send_unit, shut_call};
use end_links::{Binding, bind_ack, bind_nak, unit_bytes};
use memo_stubs::MEMO;
use ntlm_flags::{
    NTLMSSP_NEGOTIATE_EXTENDED_SESSIONSECURITY, NTLMSSP_NEGOTIATE_NTLM, NTLMSSP_NEGOTIATE_UNICODE,
    challenge_flags, has_flag,
};
use ntlm_messages::{Challenge, Pairs, WriteRefused, view_negotiate, write_challenge, write_pairs};
use outside::{Chances, CloseCause, Spent, StepRefused};
use rpc_units::{
    Body, Contexts, Joiner, NTLM_PROVIDER, Trailer, UNIT_LIMIT, Unit, UnitRefused, read_unit,
};
use std::alloc::Global;
use unit_security::{is_level, is_plain};
use wire_base::{Blob, Name, NoMemory};

/// What a bind offers: the level and the security context of its trailer, and the flags of the CHALLENGE that answers
/// it.
#[derive(Clone, Copy, Debug, PartialEq, Eq)]
pub struct Offer {
    pub level: u8,
    pub context: u32,
    pub flags: u32,
}

/// Whether flags are enough for a level.
fn is_enough(level: u8, flags: u32) -> bool
    ensures { result ≡ is_enough level flags }
{
    has_flag(flags, NTLMSSP_NEGOTIATE_UNICODE)
        && has_flag(flags, NTLMSSP_NEGOTIATE_NTLM)
        && (is_plain(level) || has_flag(flags, NTLMSSP_NEGOTIATE_EXTENDED_SESSIONSECURITY))
}

/// What the trailer of a bind offers. None where a bind with it is refused.
pub(crate) fn offer_in(trailer: &Option<Trailer>) -> Option<Offer>
    ensures { result ≡ offer_in trailer.now }
{
    match trailer {
        Some(trailer) => offer_at(trailer),
        None => None,
    }
}

/// What a trailer offers. None where a bind with it is refused.
fn offer_at(trailer: &Trailer) -> Option<Offer>
    ensures { result ≡
        offer_at ((trailer.now.kind == ntlm_provider) && is_level trailer.now.level) trailer.now }
{
    if trailer.kind != NTLM_PROVIDER || !is_level(trailer.level) {
        return None;
    }
    let Ok(message) = view_negotiate(trailer.value.bytes()) else {
        return None;
    };
    if !is_enough(trailer.level, message.flags) {
        return None;
    }
    Some(Offer {
        level: trailer.level,
        context: trailer.context,
        flags: challenge_flags(message.flags),
    })
}

/// A name as UTF-16LE, at most 128 bytes.
#[tactic(auto, using(crate::proofs::BindLaws::names))]
fn name_bytes(alloc: Global, name: &Name) -> Result<Blob, NoMemory>
    ensures value { IfOk result (λ bytes. bytes ≡ utf16_of name.now) }
    ensures even { IfOk result (λ bytes. length bytes % 2 ≡ 0) }
    ensures short { IfOk result (λ bytes. length bytes ≤ 128) }
{
    // Reading the bytes makes it known that the name has at most 64 bytes.
    let _short = name.bytes();
    name.units(alloc)?.bytes(alloc)
}

/// The target information of the CHALLENGE: the domain and the computer.
#[tactic(auto, using(crate::proofs::BindLaws::pairs))]
fn target_info(alloc: Global, domain: Blob, computer: Blob) -> Result<Blob, NoMemory>
    requires domain { length domain ≤ 128 }
    requires computer { length computer ≤ 128 }
    ensures value { IfOk result (λ info. info ≡ written_pairs ((2, domain) ∷ (1, computer) ∷ [])) }
    ensures short { IfOk result (λ info. length info ≤ 65535) }
{
    let mut pairs = Pairs::new(alloc);
    pairs.push((2, domain))?;
    pairs.push((1, computer))?;
    write_pairs(alloc, &pairs)
}

/// The CHALLENGE with these flags and this challenge.
fn challenge_message(
    alloc: Global,
    flags: u32,
    plan: &MemberPlan,
    challenge: [u8; 8],
) -> Result<Challenge, NoMemory>
    ensures value { IfOk result (λ message. message ≡ challenge_message flags plan.now challenge) }
    ensures writable { IfOk result CanWriteChallenge }
    ensures fits { IfOk result (λ message. FieldsFit (challenge_fields message)) }
{
    let domain = name_bytes(alloc, &plan.domain)?;
    let computer = name_bytes(alloc, &plan.computer)?;
    Ok(Challenge {
        flags,
        target: name_bytes(alloc, &plan.domain)?,
        challenge,
        info: target_info(alloc, domain, computer)?,
        version: None,
    })
}

/// The bytes of the CHALLENGE.
#[tactic(auto, using(crate::proofs::BindLaws::challenge_some))]
fn challenge_bytes(
    alloc: Global,
    flags: u32,
    plan: &MemberPlan,
    challenge: [u8; 8],
) -> Result<Blob, NoMemory>
    ensures value { IfOk result (λ bytes. bytes
        ≡ written_challenge (challenge_message flags plan.now challenge)) }
    ensures some { IfOk result (λ bytes. 0 < length bytes) }
{
    let message = challenge_message(alloc, flags, plan, challenge)?;
    match write_challenge(alloc, &message) {
        Ok(bytes) => Ok(bytes),
        Err(WriteRefused::Memory) => Err(NoMemory),
        Err(WriteRefused::TooLong(_)) => unreachable!(),
    }
}

/// The bind_ack that carries the CHALLENGE.
fn challenge_ack(
    alloc: Global,
    offer: Offer,
    plan: &MemberPlan,
    call: u32,
    receive: u16,
    contexts: &Contexts,
    challenge: [u8; 8],
) -> Result<Unit, NoMemory>
    requires { length contexts.now ≤ context_limit }
    ensures value { IfOk result (λ unit. unit
        ≡ challenge_ack offer plan.now call receive contexts.now challenge) }
    ensures writable { IfOk result IsWritable }
{
    let trailer = Trailer {
        kind: NTLM_PROVIDER,
        level: offer.level,
        context: offer.context,
        value: challenge_bytes(alloc, offer.flags, plan, challenge)?,
    };
    Ok(Unit {
        trailer: Some(trailer),
        ..bind_ack(alloc, &MEMO, call, receive, contexts)?
    })
}

/// Whether the answer to a bind fits a unit, whichever challenge it carries, and whatever is offered. It has 100 bytes
/// beside 24 for each context, four for each byte of the domain's name and two for each of the computer's.
#[tactic(auto, using(crate::proofs::BindLaws::each_fits))]
fn ack_fits(plan: &MemberPlan, contexts: &Contexts) -> bool
    requires { length contexts.now ≤ context_limit }
    ensures { FitsEach result plan.now contexts.now }
{
    let names = 4 * plan.domain.bytes().len() + 2 * plan.computer.bytes().len();
    100 + 24 * contexts.len() + names <= usize::from(UNIT_LIMIT)
}

/// A bind_nak is sent.
fn send_nak(alloc: Global, call: u32, at: AtLink) -> Result<AtLink, NoMemory>
    ensures { IfOk result (λ sent. sent ≡ send_unit at (nak_of call)) }
{
    send_unit(alloc, at, &bind_nak(call))
}

/// A bind is refused.
fn refuse_bind(
    alloc: Global,
    call: u32,
    joiner: Joiner,
    at: AtLink,
) -> Result<(AtLink, Option<Talk>), NoMemory>
    ensures { IfOk result (λ served. served ≡ refusal_of_bind call joiner at) }
{
    match send_nak(alloc, call, at) {
        Ok(at) => {
            let phase = Phase::Fresh;
            Ok((at, Some(Talk { joiner, phase })))
        }
        Err(NoMemory) => Err(let_go(joiner)),
    }
}

/// What a link is bound to, where its bind is answered.
fn bound_by(
    alloc: Global,
    offer: Offer,
    receive: u16,
    contexts: &Contexts,
) -> Result<Bound, NoMemory>
    ensures { IfOk result (λ bound. bound ≡ bound_by offer receive contexts.now) }
{
    let binding = Binding::new(alloc, &MEMO, receive, contexts)?;
    Ok(Bound {
        binding,
        level: offer.level,
        context: offer.context,
    })
}

/// The bytes of the bind_ack that carries the CHALLENGE.
#[tactic(auto, using(crate::proofs::BindLaws::ack_short))]
fn ack_bytes(
    alloc: Global,
    offer: Offer,
    plan: &MemberPlan,
    call: u32,
    receive: u16,
    contexts: &Contexts,
    challenge: [u8; 8],
) -> Result<Blob, NoMemory>
    requires few { length contexts.now ≤ context_limit }
    requires fits { IsTrue (ack_fits offer plan.now call receive contexts.now) }
    ensures value { IfOk result (λ bytes. bytes
        ≡ written (challenge_ack offer plan.now call receive contexts.now challenge)) }
    ensures short { IfOk result (λ bytes. length bytes ≤ send_limit) }
{
    let ack = challenge_ack(alloc, offer, plan, call, receive, contexts, challenge)?;
    unit_bytes(alloc, &ack)
}

/// Sends the answer to the bind.
fn send_ack(
    alloc: Global,
    offer: Offer,
    call: u32,
    receive: u16,
    contexts: &Contexts,
    challenge: [u8; 8],
    at: AtLink,
) -> Result<AtLink, NoMemory>
    requires few { length contexts.now ≤ context_limit }
    requires fits { IsTrue (ack_fits offer at.logons.plan call receive contexts.now) }
    ensures { IfOk result (λ sent. sent
        ≡ send_unit at (challenge_ack offer at.logons.plan call receive contexts.now challenge)) }
{
    match ack_bytes(
        alloc,
        offer,
        &at.logons.plan,
        call,
        receive,
        contexts,
        challenge,
    ) {
        Ok(bytes) => send(at, bytes),
        Err(NoMemory) => Err(NoMemory),
    }
}

/// A bind is answered with this challenge.
fn answer_bind(
    alloc: Global,
    offer: Offer,
    call: u32,
    receive: u16,
    contexts: &Contexts,
    challenge: [u8; 8],
    joiner: Joiner,
    at: AtLink,
) -> Result<(AtLink, Option<Talk>), NoMemory>
    requires few { length contexts.now ≤ context_limit }
    requires fits { IsTrue (ack_fits offer at.logons.plan call receive contexts.now) }
    ensures { IfOk result (λ served. served
        ≡ answer_of_bind offer call receive contexts.now challenge joiner at) }
{
    match send_ack(alloc, offer, call, receive, contexts, challenge, at) {
        Ok(at) => stay_challenged(alloc, offer, receive, contexts, challenge, joiner, at),
        Err(NoMemory) => Err(let_go(joiner)),
    }
}

/// The link was sent its CHALLENGE.
fn stay_challenged(
    alloc: Global,
    offer: Offer,
    receive: u16,
    contexts: &Contexts,
    challenge: [u8; 8],
    joiner: Joiner,
    at: AtLink,
) -> Result<(AtLink, Option<Talk>), NoMemory>
    ensures { IfOk result (λ served. served ≡ stay at (record {
      joiner = joiner;
      phase = phase.Challenged (bound_by offer receive contexts.now) challenge offer.flags;
    })) }
{
    match bound_by(alloc, offer, receive, contexts) {
        Ok(bound) => {
            let phase = Phase::Challenged {
                bound,
                challenge,
                flags: offer.flags,
            };
            Ok((at, Some(Talk { joiner, phase })))
        }
        Err(NoMemory) => Err(let_go(joiner)),
    }
}

/// A bind whose answer fits a unit: a challenge is drawn, and answers it.
#[tactic(auto, using(crate::proofs::BindLaws::drawing))]
fn draw_bind<Q: Chances>(
    alloc: Global,
    offer: Offer,
    call: u32,
    receive: u16,
    contexts: &Contexts,
    joiner: Joiner,
    at: AtLink,
    chances: &mut Q,
) -> Result<(AtLink, Option<Talk>), StepRefused>
    requires few { length contexts.now ≤ context_limit }
    requires fits { IsTrue (ack_fits offer at.logons.plan call receive contexts.now) }
    ensures draws { DrawsSome (Q.drawing chances.old) (Q.drawing chances.new) }
    ensures answer { AnswersBy result
        (answer_bind true offer call receive contexts.now joiner at (Q.drawing chances.old).left)
        (Q.drawing chances.new).left }
{
    let challenge = match chances.next() {
        Ok(challenge) => challenge,
        Err(Spent) => {
            drop(joiner);
            return Err(StepRefused::Spent);
        }
    };
    match answer_bind(alloc, offer, call, receive, contexts, challenge, joiner, at) {
        Ok(served) => Ok(served),
        Err(NoMemory) => Err(StepRefused::Memory),
    }
}

/// A bind with that trailer: a challenge is drawn, where it is answered.
#[tactic(auto, using(crate::proofs::BindLaws::drawing))]
fn take_bind<Q: Chances>(
    alloc: Global,
    trailer: &Option<Trailer>,
    call: u32,
    receive: u16,
    contexts: &Contexts,
    joiner: Joiner,
    at: AtLink,
    chances: &mut Q,
) -> Result<(AtLink, Option<Talk>), StepRefused>
    requires { length contexts.now ≤ context_limit }
    ensures draws { DrawsSome (Q.drawing chances.old) (Q.drawing chances.new) }
    ensures answer { AnswersBy result
        (bind_by (offer_in trailer.now) call receive contexts.now joiner at
        (Q.drawing chances.old).left)
        (Q.drawing chances.new).left }
{
    match offer_in(trailer) {
        Some(offer) => take_offer(alloc, offer, call, receive, contexts, joiner, at, chances),
        None => match refuse_bind(alloc, call, joiner, at) {
            Ok(served) => Ok(served),
            Err(NoMemory) => Err(StepRefused::Memory),
        },
    }
}

/// Takes a bind with what its trailer offers.
#[tactic(auto, using(crate::proofs::BindLaws::drawing))]
fn take_offer<Q: Chances>(
    alloc: Global,
    offer: Offer,
    call: u32,
    receive: u16,
    contexts: &Contexts,
    joiner: Joiner,
    at: AtLink,
    chances: &mut Q,
) -> Result<(AtLink, Option<Talk>), StepRefused>
    requires { length contexts.now ≤ context_limit }
    ensures draws { DrawsSome (Q.drawing chances.old) (Q.drawing chances.new) }
    ensures answer { AnswersBy result
        (bind_by (Some offer) call receive contexts.now joiner at (Q.drawing chances.old).left)
        (Q.drawing chances.new).left }
{
    if ack_fits(&at.logons.plan, contexts) {
        return draw_bind(alloc, offer, call, receive, contexts, joiner, at, chances);
    }
    match refuse_bind(alloc, call, joiner, at) {
        Ok(served) => Ok(served),
        Err(NoMemory) => Err(StepRefused::Memory),
    }
}

/// A unit where nothing is bound: a bind is taken.
#[tactic(auto, using(crate::proofs::BindLaws::drawing))]
fn take_unit<Q: Chances>(
    alloc: Global,
    unit: &Unit,
    joiner: Joiner,
    at: AtLink,
    chances: &mut Q,
) -> Result<(AtLink, Option<Talk>), StepRefused>
    requires { ContextsFit unit.now.body }
    ensures draws { DrawsSome (Q.drawing chances.old) (Q.drawing chances.new) }
    ensures answer { AnswersBy result
        (fresh_unit unit.now.body unit.now.trailer unit.now.call joiner at
        (Q.drawing chances.old).left)
        (Q.drawing chances.new).left }
{
    match &unit.body {
        Body::Bind {
            receive,
            contexts,
            ..
        } => take_bind(
            alloc,
            &unit.trailer,
            unit.call,
            *receive,
            contexts,
            joiner,
            at,
            chances,
        ),
        Body::BindAck { .. }
        | Body::BindNak(_)
        | Body::Auth3
        | Body::Request { .. }
        | Body::Response { .. }
        | Body::Fault { .. } => close(joiner, at, CloseCause::OutOfPlace),
    }
}

/// The link is closed.
fn close(
    joiner: Joiner,
    at: AtLink,
    cause: CloseCause,
) -> Result<(AtLink, Option<Talk>), StepRefused>
    ensures { ClosesBy result cause at }
{
    match shut_call(joiner, at, cause) {
        Ok(served) => Ok(served),
        Err(NoMemory) => Err(StepRefused::Memory),
    }
}

/// The bytes of a unit on a link on which nothing is bound: a bind is taken.
#[tactic(auto, using(crate::proofs::BindLaws::drawing))]
pub(crate) fn fresh_unit<Q: Chances>(
    alloc: Global,
    bytes: &[u8],
    joiner: Joiner,
    at: AtLink,
    chances: &mut Q,
) -> Result<(AtLink, Option<Talk>), StepRefused>
    ensures draws { DrawsSome (Q.drawing chances.old) (Q.drawing chances.new) }
    ensures answer { AnswersBy result
        (first_unit (unit_of bytes.now) joiner at (Q.drawing chances.old).left)
        (Q.drawing chances.new).left }
{
    match read_unit(alloc, bytes) {
        Ok(unit) => take_unit(alloc, &unit, joiner, at, chances),
        Err(UnitRefused::Memory) => {
            drop(joiner);
            Err(StepRefused::Memory)
        }
        Err(_) => close(joiner, at, CloseCause::BadUnit),
    }
}
