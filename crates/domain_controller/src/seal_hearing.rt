//! What a unit on a link comes to at a controller that can seal.

ghost use Rattle.std.specs.Prelude.{◌≡◌, ◌≤◌, [], IfOk, None, Some, length};
ghost use Rattle.channel_sealing.specs.Parts.{is_own_trailer, sealed_part_of};
ghost use Rattle.controller_calls.specs.Seals.{bytes_if};
ghost use Rattle.rpc_units.specs.Reading.{unit_of};
ghost use Rattle.rpc_units.specs.Writing.{ContextsFit};
ghost use Rattle.domain_controller.specs.Hearing.{CanAnswer};
ghost use Rattle.domain_controller.specs.SealHearing.{LeavesRoom, bind_by, bind_with, hear_opened, hear_plain, only_heard, open_part, opens_channel, opnum_in, seal_fresh, seal_hear};

use crate::hearing::{
    Heard, bound_talk, hear_bind, hear_bound, hear_fresh, hear_sealed_bind, hear_unbound,
};
use crate::state::Talk;
use channel_sealing::{NETLOGON_PROVIDER, SealedPart, sealed_ack, sealed_part};
use controller_calls::{ChannelSeals, LinkSeal, link_bound, open_unit, stands};
use end_links::{Binding, unit_bytes};
use logon_stubs::{AUTHENTICATE_OPNUM, CHALLENGE_OPNUM, NETLOGON};
use outside::CloseCause;
use rpc_units::{
    Body, BodyView, Contexts, Joiner, PRIVACY_LEVEL, Trailer, Unit, UnitRefused, UnitView,
    read_unit, view_unit,
};
use std::alloc::Global;
use wire_base::NoMemory;

/// What a unit comes to: what is heard; what is kept to open and to seal then; and the seal of the link, where a bind
/// sealed it.
#[derive(Drop)]
pub struct SealHeard {
    pub heard: Heard,
    pub seals: ChannelSeals,
    pub bound: Option<LinkSeal>,
}

/// What the bytes of a unit on the link come to, by the seal of the link and by what was said on it before. On a sealed
/// link a request is opened in the lent bytes.
pub(crate) fn seal_hear(
    alloc: Global,
    number: u32,
    bytes: &mut [u8],
    talk: Talk,
    link: &Option<LinkSeal>,
    seals: ChannelSeals,
) -> Result<SealHeard, NoMemory>
    ensures len { length bytes.new ≡ length bytes.old }
    ensures value { IfOk result (λ h. h ≡ seal_hear number bytes.old talk link.now seals) }
    ensures can { IfOk result (λ h. CanAnswer h.heard) }
{
    match link {
        Some(link) => hear_sealed(alloc, number, bytes, talk, link, seals),
        None => hear_unsealed(alloc, number, bytes, talk, seals),
    }
}

/// What is heard, where nothing changes of what is kept to seal.
fn only_heard(heard: Heard, seals: ChannelSeals) -> SealHeard
    ensures { result ≡ only_heard heard seals }
{
    SealHeard {
        heard,
        seals,
        bound: None,
    }
}

// ---- on a link that isn't sealed

/// What a unit comes to on a link that isn't sealed.
#[tactic(auto, using(crate::proofs::SealBindLaws::room_left))]
fn hear_unsealed(
    alloc: Global,
    number: u32,
    bytes: &[u8],
    talk: Talk,
    seals: ChannelSeals,
) -> Result<SealHeard, NoMemory>
    ensures value { IfOk result (λ h. h ≡ seal_hear number bytes.now talk None seals) }
    ensures can { IfOk result (λ h. CanAnswer h.heard) }
{
    let Talk { joiner, binding } = talk;
    match binding {
        None => match read_unit(alloc, bytes) {
            Ok(unit) => hear_unbound_unit(alloc, unit, joiner, seals),
            Err(UnitRefused::Memory) => Err(NoMemory),
            Err(_) => Ok(only_heard(Heard::Close(CloseCause::BadUnit), seals)),
        },
        Some(binding) => match view_unit(bytes) {
            Ok(unit) => {
                let heard = hear_bound(alloc, number, &unit, joiner, binding)?;
                Ok(only_heard(heard, seals))
            }
            Err(_) => Ok(only_heard(Heard::Close(CloseCause::BadUnit), seals)),
        },
    }
}

/// What a unit comes to on a link that isn't bound.
fn hear_unbound_unit(
    alloc: Global,
    unit: Unit,
    joiner: Joiner,
    seals: ChannelSeals,
) -> Result<SealHeard, NoMemory>
    requires fit { ContextsFit unit.body }
    requires room { LeavesRoom unit.body unit.trailer }
    ensures value { IfOk result (λ h.
        h ≡ seal_fresh unit.body unit.trailer unit.call joiner seals) }
    ensures can { IfOk result (λ h. CanAnswer h.heard) }
{
    match (unit.body, unit.trailer) {
        (
            Body::Bind {
                receive,
                contexts,
                ..
            },
            Some(trailer),
        ) => bind_with(
            alloc, &trailer, unit.call, receive, &contexts, joiner, seals,
        ),
        (
            Body::Bind {
                receive,
                contexts,
                ..
            },
            None,
        ) => {
            let heard = hear_bind(alloc, unit.call, receive, &contexts, joiner)?;
            Ok(only_heard(heard, seals))
        }
        (Body::Request { context, .. }, _) => {
            let heard = hear_unbound(alloc, unit.call, context, joiner)?;
            Ok(only_heard(heard, seals))
        }
        _ => Ok(only_heard(Heard::Close(CloseCause::OutOfPlace), seals)),
    }
}

/// What a bind with a trailer comes to: a bind_ack with one, where a channel that seals stands for the computer that
/// the trailer names, else a bind_nak.
fn bind_with(
    alloc: Global,
    trailer: &Trailer,
    call: u32,
    receive: u16,
    contexts: &Contexts,
    joiner: Joiner,
    seals: ChannelSeals,
) -> Result<SealHeard, NoMemory>
    requires { length contexts.now ≤ 241 }
    ensures value { IfOk result (λ h. h ≡ bind_with (is_own_trailer (Some trailer.now))
        trailer.now call receive contexts.now joiner seals) }
    ensures can { IfOk result (λ h. CanAnswer h.heard) }
{
    if !is_own(trailer) {
        return refuse_bind(alloc, call, joiner, seals);
    }
    let value = trailer.value.bytes();
    match link_bound(alloc, value, trailer.context, receive, &seals)? {
        Some(link) => bind_sealed(alloc, link, call, receive, contexts, joiner, seals),
        None => refuse_bind(alloc, call, joiner, seals),
    }
}

/// Whether a trailer is one of Netlogon at the level at which stubs are sealed.
fn is_own(trailer: &Trailer) -> bool
    ensures { result ≡ is_own_trailer (Some trailer.now) }
{
    trailer.kind == NETLOGON_PROVIDER && trailer.level == PRIVACY_LEVEL
}

/// A bind that is refused is answered by a bind_nak.
fn refuse_bind(
    alloc: Global,
    call: u32,
    joiner: Joiner,
    seals: ChannelSeals,
) -> Result<SealHeard, NoMemory>
    ensures value { IfOk result (λ h. h ≡ bind_by None call 0 [] joiner seals) }
    ensures can { IfOk result (λ h. CanAnswer h.heard) }
{
    let heard = hear_sealed_bind(alloc, call, joiner)?;
    Ok(only_heard(heard, seals))
}

/// A bind of a channel that stands is answered by a bind_ack, and the link is bound and sealed by it.
fn bind_sealed(
    alloc: Global,
    link: LinkSeal,
    call: u32,
    receive: u16,
    contexts: &Contexts,
    joiner: Joiner,
    seals: ChannelSeals,
) -> Result<SealHeard, NoMemory>
    requires { length contexts.now ≤ 241 }
    ensures value { IfOk result (λ h.
        h ≡ bind_by (Some link) call receive contexts.now joiner seals) }
    ensures can { IfOk result (λ h. CanAnswer h.heard) }
{
    let answer = sealed_ack(alloc, &NETLOGON, call, receive, contexts, link.context)?;
    let bytes = unit_bytes(alloc, &answer)?;
    let binding = Binding::new(alloc, &NETLOGON, receive, contexts)?;
    Ok(SealHeard {
        heard: Heard::Answer(bytes, bound_talk(joiner, binding)),
        seals,
        bound: Some(link),
    })
}

// ---- on a sealed link

/// What a unit comes to on a sealed link: a request is opened and heard, another unit closes the link.
#[tactic(auto, using(crate::proofs::SealBindLaws::by_opnum, crate::proofs::SealBindLaws::by_cause))]
fn hear_sealed(
    alloc: Global,
    number: u32,
    bytes: &mut [u8],
    talk: Talk,
    link: &LinkSeal,
    seals: ChannelSeals,
) -> Result<SealHeard, NoMemory>
    ensures len { length bytes.new ≡ length bytes.old }
    ensures value { IfOk result (λ h. h ≡ seal_hear number bytes.old talk (Some link.now) seals) }
    ensures can { IfOk result (λ h. CanAnswer h.heard) }
{
    match request_opnum(bytes) {
        Ok(opnum) => open_and_hear(alloc, number, opnum, bytes, talk, link, seals),
        Err(cause) => Ok(only_heard(Heard::Close(cause), seals)),
    }
}

/// The operation number of a request, or the cause for which another unit closes a sealed link.
fn request_opnum(bytes: &[u8]) -> Result<u16, CloseCause>
    ensures { result ≡ opnum_in (unit_of bytes.now) }
{
    match view_unit(bytes) {
        Ok(unit) => match unit.body {
            BodyView::Request { opnum, .. } => Ok(opnum),
            _ => Err(CloseCause::OutOfPlace),
        },
        Err(_) => Err(CloseCause::BadUnit),
    }
}

/// A request of that operation is opened, and what is found is heard.
fn open_and_hear(
    alloc: Global,
    number: u32,
    opnum: u16,
    bytes: &mut [u8],
    talk: Talk,
    link: &LinkSeal,
    seals: ChannelSeals,
) -> Result<SealHeard, NoMemory>
    ensures len { length bytes.new ≡ length bytes.old }
    ensures value { IfOk result (λ h. h ≡ hear_opened
        (open_part (sealed_part_of bytes.old) opnum bytes.old link.now seals) number talk) }
    ensures can { IfOk result (λ h. CanAnswer h.heard) }
{
    let (seals, done) = open_request(alloc, opnum, bytes, link, seals)?;
    if !done {
        return Ok(only_heard(Heard::Close(CloseCause::BadAuthentication), seals));
    }
    let heard = hear_plain(alloc, number, bytes, talk)?;
    Ok(only_heard(heard, seals))
}

/// What is found in a sealed unit is heard as on a link that isn't sealed.
fn hear_plain(alloc: Global, number: u32, bytes: &[u8], talk: Talk) -> Result<Heard, NoMemory>
    ensures value { IfOk result (λ heard. heard ≡ hear_plain (unit_of bytes.now) number talk) }
    ensures can { IfOk result CanAnswer }
{
    let Talk { joiner, binding } = talk;
    match binding {
        None => match read_unit(alloc, bytes) {
            Ok(unit) => hear_fresh(
                alloc,
                Unit {
                    trailer: None,
                    ..unit
                },
                joiner,
            ),
            Err(UnitRefused::Memory) => Err(NoMemory),
            Err(_) => Ok(Heard::Close(CloseCause::BadUnit)),
        },
        Some(binding) => match view_unit(bytes) {
            Ok(unit) => {
                let plain = UnitView {
                    trailer: None,
                    ..unit
                };
                hear_bound(alloc, number, &plain, joiner, binding)
            }
            Err(_) => Ok(Heard::Close(CloseCause::BadUnit)),
        },
    }
}

/// Whether calls of the number open a channel.
fn opens_channel(opnum: u16) -> bool
    ensures { result ≡ opens_channel opnum }
{
    matches!(opnum, CHALLENGE_OPNUM | AUTHENTICATE_OPNUM)
}

/// Opens a request of that operation on a sealed link, in the lent bytes: whether that is done, and what is kept then.
/// It isn't done where the request has no signature, where the link's channel was replaced, where the operation opens a
/// channel, or where the channel's end refuses.
fn open_request(
    alloc: Global,
    opnum: u16,
    bytes: &mut [u8],
    link: &LinkSeal,
    seals: ChannelSeals,
) -> Result<(ChannelSeals, bool), NoMemory>
    ensures len { length bytes.new ≡ length bytes.old }
    ensures seals { IfOk result (λ done. done.0
        ≡ (open_part (sealed_part_of bytes.old) opnum bytes.old link.now seals).seals) }
    ensures bytes { IfOk result (λ done. bytes_if done.1 bytes.new
        ≡ (open_part (sealed_part_of bytes.old) opnum bytes.old link.now seals).bytes) }
{
    match sealed_part(bytes) {
        SealedPart::Range(from, to) => {
            if !stands(link, &seals) {
                return Ok((seals, false));
            }
            if opens_channel(opnum) {
                return Ok((seals, false));
            }
            open_unit(alloc, link, bytes, from, to, seals)
        }
        SealedPart::Nothing | SealedPart::Missing => Ok((seals, false)),
    }
}
