//! An AUTHENTICATE on a link that was sent its CHALLENGE.

ghost use Rattle.std.specs.Prelude.{◌≡◌, ◌≤◌, ◌==◌, [], ◌∷◌, length, option_map, IfOk, IsTrue, Ok};
ghost use Rattle.wire_base.specs.Maps.{put, same_number};
ghost use Rattle.ntlm_flags.specs.Flags.{has_flag, agreed_flags, negotiate_unicode};
ghost use Rattle.ntlm_messages.specs.Authenticate.{CanWriteAuthenticate, authenticate_fields, authenticate_of};
ghost use Rattle.ntlm_messages.specs.Fields.{FieldsFit, IsText};
ghost use Rattle.ntlm_messages.specs.Text.{units_of_text};
ghost use Rattle.logon_stubs.specs.Writing.{CanWriteNetworkInfo};
ghost use Rattle.ndr_codec.specs.Parts.{FitsText};
ghost use Rattle.channel_client.specs.Machine.{ask_of};
ghost use Rattle.rpc_units.specs.Numbers.{rpc_s_server_unavailable};
ghost use Rattle.rpc_units.specs.Views.{trailer_shown};
ghost use Rattle.outside.specs.declared.action.Action.TheVariants as action;
ghost use Rattle.outside.specs.declared.action.DropCause.TheVariants as drop_cause;
ghost use Rattle.outside.specs.declared.action.Outcome.TheVariants as outcome;
ghost use Rattle.member_server.specs.declared.state.Phase.TheVariants as phase;
ghost use Rattle.member_server.specs.Work.{stay, tell};
ghost use Rattle.member_server.specs.Messages.{is_fit, info_of, with_logon, wait_by, wait_for, ask_by, take_message, take_trailer, take_auth3};

use crate::held::Held;
use crate::state::{AtLink, Bound, Logon, Logons, Phase, Talk};
use crate::work::{let_go, shut_call, tell};
use channel_client::AskRefused;
use logon_stubs::NetworkInfo;
use ntlm_flags::{
    NTLMSSP_NEGOTIATE_EXTENDED_SESSIONSECURITY, NTLMSSP_NEGOTIATE_KEY_EXCH,
    NTLMSSP_NEGOTIATE_UNICODE, agreed_flags, has_flag,
};
use ntlm_messages::{Authenticate, MessageRefused, read_authenticate, units_of_text};
use ntlm_responses::challenge_for;
use outside::{Action, CloseCause, DropCause, Outcome};
use rpc_units::{Joiner, NO_CONTROLLER, NTLM_PROVIDER, TrailerView};
use std::alloc::Global;
use std::mem;
use unit_security::is_plain;
use wire_base::{Blob, List, NoMemory, Units, put_number};

/// Whether what is agreed serves the level.
fn is_fit(level: u8, agreed: u32, message: &Authenticate) -> bool
    ensures value { result ≡ is_fit level agreed message.now }
    ensures unicode { IsTrue result → IsTrue (has_flag agreed negotiate_unicode) }
{
    has_flag(agreed, NTLMSSP_NEGOTIATE_UNICODE)
        && (is_plain(level) || has_flag(agreed, NTLMSSP_NEGOTIATE_EXTENDED_SESSIONSECURITY))
        && (!has_flag(agreed, NTLMSSP_NEGOTIATE_KEY_EXCH) || message.key.bytes().len() == 16)
}

/// The units of a text of UTF-16LE.
#[tactic(auto, using(crate::proofs::MessageLaws::text_fits))]
fn text(alloc: Global, flags: u32, text: &[u8]) -> Result<Units, NoMemory>
    requires unicode { IsTrue (has_flag flags negotiate_unicode) }
    requires even { IsText flags text.now }
    requires short { length text.now ≤ 65535 }
    ensures value { IfOk result (λ units. units ≡ units_of_text flags text.now) }
    ensures fits { IfOk result FitsText }
{
    units_of_text(alloc, flags, text)
}

/// What the controller is asked for a message.
fn info_of(
    alloc: Global,
    message: &Authenticate,
    agreed: u32,
    challenge: [u8; 8],
) -> Result<NetworkInfo, NoMemory>
    requires unicode { IsTrue (has_flag message.now.flags negotiate_unicode) }
    requires texts { CanWriteAuthenticate message.now }
    requires fits { FieldsFit (authenticate_fields message.now) }
    ensures value { IfOk result (λ info. info ≡ info_of message.now agreed challenge) }
    ensures writable { IfOk result CanWriteNetworkInfo }
{
    let flags = message.flags;
    Ok(NetworkInfo {
        domain: text(alloc, flags, message.domain.bytes())?,
        control: 0,
        logon_id: 0,
        user: text(alloc, flags, message.user.bytes())?,
        workstation: text(alloc, flags, message.workstation.bytes())?,
        challenge: challenge_for(agreed, challenge, message.lm.bytes(), message.nt.bytes()),
        nt: Blob::copy(alloc, message.nt.bytes())?,
        lm: Blob::copy(alloc, message.lm.bytes())?,
    })
}

/// The logon of that place is kept.
fn keep(alloc: Global, logons: Logons, place: u32, logon: Logon) -> Result<Logons, NoMemory>
    ensures { IfOk result (λ kept. kept ≡ with_logon logons place logon) }
{
    let mut logons = logons;
    let asked = mem::replace(&mut logons.asked, List::new(alloc));
    match put_number(asked, place, logon) {
        Ok(asked) => {
            logons.asked = asked;
            Ok(logons)
        }
        Err(NoMemory) => Err(NoMemory),
    }
}

/// The logon is asked, and waits.
fn wait_for(
    alloc: Global,
    info: NetworkInfo,
    logon: Logon,
    bound: Bound,
    joiner: Joiner,
    at: AtLink,
) -> Result<(AtLink, Option<Talk>), NoMemory>
    requires { CanWriteNetworkInfo info }
    ensures { IfOk result (λ served. served
        ≡ wait_for (ask_of at.logons.channel info) logon bound joiner at) }
{
    let AtLink {
        link,
        mut logons,
        actions,
    } = at;
    match logons.channel.ask(info) {
        Ok(place) => {
            let at = AtLink {
                link,
                logons,
                actions,
            };
            wait_at(alloc, place, logon, bound, joiner, at)
        }
        Err(AskRefused::QueueFull) => {
            let at = AtLink {
                link,
                logons,
                actions,
            };
            refuse_full(bound, joiner, at)
        }
        Err(AskRefused::Memory) => Err(let_go(joiner)),
    }
}

/// The logon waits at that place.
fn wait_at(
    alloc: Global,
    place: u32,
    logon: Logon,
    bound: Bound,
    joiner: Joiner,
    at: AtLink,
) -> Result<(AtLink, Option<Talk>), NoMemory>
    ensures { IfOk result (λ served. served ≡ wait_by (Ok place) at.logons logon bound joiner at) }
{
    let AtLink {
        link,
        logons,
        actions,
    } = at;
    match keep(alloc, logons, place, logon) {
        Ok(logons) => {
            let phase = Phase::Asked {
                bound,
                place,
                held: Held::new(alloc),
            };
            let at = AtLink {
                link,
                logons,
                actions,
            };
            Ok((at, Some(Talk { joiner, phase })))
        }
        Err(NoMemory) => Err(let_go(joiner)),
    }
}

/// As many logons wait as may, so that no controller will answer this one.
fn refuse_full(bound: Bound, joiner: Joiner, at: AtLink) -> Result<(AtLink, Option<Talk>), NoMemory>
    ensures { IfOk result (λ served. served
        ≡ stay (tell at (action.Told at.link (outcome.NoController drop_cause.QueueFull)))
        (record { joiner = joiner; phase = phase.Out bound rpc_s_server_unavailable })) }
{
    let what = Action::Told(at.link, Outcome::NoController(DropCause::QueueFull));
    match tell(at, what) {
        Ok(at) => {
            let phase = Phase::Out {
                bound,
                status: NO_CONTROLLER,
            };
            Ok((at, Some(Talk { joiner, phase })))
        }
        Err(NoMemory) => Err(let_go(joiner)),
    }
}

/// A message that was read is asked, where it is fit.
#[tactic(auto, using(crate::proofs::MessageLaws::agreed_in_message))]
fn take_message(
    alloc: Global,
    message: Authenticate,
    bound: Bound,
    challenge: [u8; 8],
    flags: u32,
    joiner: Joiner,
    at: AtLink,
) -> Result<(AtLink, Option<Talk>), NoMemory>
    requires texts { CanWriteAuthenticate message }
    requires fits { FieldsFit (authenticate_fields message) }
    ensures { IfOk result (λ served. served
        ≡ take_message (Ok message) bound challenge flags joiner at) }
{
    let agreed = agreed_flags(flags, message.flags);
    let fit = is_fit(bound.level, agreed, &message);
    ask_by(alloc, fit, message, agreed, challenge, bound, joiner, at)
}

/// Asks for the logon of a message, by whether it is fit.
fn ask_by(
    alloc: Global,
    fit: bool,
    message: Authenticate,
    agreed: u32,
    challenge: [u8; 8],
    bound: Bound,
    joiner: Joiner,
    at: AtLink,
) -> Result<(AtLink, Option<Talk>), NoMemory>
    requires unicode { IsTrue fit → IsTrue (has_flag message.flags negotiate_unicode) }
    requires texts { CanWriteAuthenticate message }
    requires fits { FieldsFit (authenticate_fields message) }
    ensures { IfOk result (λ served. served
        ≡ ask_by fit message agreed challenge bound joiner at) }
{
    if !fit {
        return shut_call(joiner, at, CloseCause::BadAuthentication);
    }
    match info_of(alloc, &message, agreed, challenge) {
        Ok(info) => {
            let logon = Logon {
                link: at.link,
                challenge,
                message,
                agreed,
            };
            wait_for(alloc, info, logon, bound, joiner, at)
        }
        Err(NoMemory) => Err(let_go(joiner)),
    }
}

/// An auth3 on a link that was sent its CHALLENGE, with this challenge and these flags.
pub(crate) fn take_auth3(
    alloc: Global,
    trailer: &Option<TrailerView>,
    bound: Bound,
    challenge: [u8; 8],
    flags: u32,
    joiner: Joiner,
    at: AtLink,
) -> Result<(AtLink, Option<Talk>), NoMemory>
    ensures { IfOk result (λ served. served
        ≡ take_auth3 (option_map trailer_shown trailer.now) bound challenge flags joiner at) }
{
    let Some(trailer) = trailer else {
        return shut_call(joiner, at, CloseCause::OutOfPlace);
    };
    if trailer.kind != NTLM_PROVIDER {
        return shut_call(joiner, at, CloseCause::OutOfPlace);
    }
    match read_authenticate(alloc, trailer.value) {
        Ok(message) => take_message(alloc, message, bound, challenge, flags, joiner, at),
        Err(MessageRefused::Memory) => Err(let_go(joiner)),
        Err(_) => shut_call(joiner, at, CloseCause::BadAuthentication),
    }
}
