//! The bind of a client, and its answer to a CHALLENGE.

ghost use Rattle.std.specs.Prelude.{◌≡◌, ◌≤◌, ◌<◌, ◌++◌, ◌==◌, [], IfOk, IfSome, Some, Ok, length, replicate};
ghost use Rattle.outside.specs.Drawing.{DrawsSome};
ghost use Rattle.outside.specs.Machine.{AnswersBy};
ghost use Rattle.ntlm_flags.specs.Flags.{has_flag, negotiate_unicode};
ghost use Rattle.ntlm_messages.specs.Authenticate.{CanWriteAuthenticate, authenticate_fields, written_authenticate};
ghost use Rattle.ntlm_messages.specs.Fields.{form_of, IsText};
ghost use Rattle.ntlm_messages.specs.Negotiate.{written_negotiate};
ghost use Rattle.ntlm_responses.specs.Keys.{exchange_key_of};
ghost use Rattle.ntlm_responses.specs.Verification.{Verifies, base_key_of};
ghost use Rattle.rpc_units.specs.Writing.{IsWritable, written};
ghost use Rattle.logon_client.specs.Answering.{negotiate_for, bind_for, drawn_for, pairs_sent, responses_of, keys_by, keys_of, answer_by, answer_of, auth3_unit, auth3_of, bytes_within, with_base, nt_by, lm_by};

use crate::plan::{AuthKind, ClientPlan};
use crate::securing::TRAILER_CONTEXT;
use end_links::{bind, unit_bytes};
use memo_stubs::MEMO;
use ntlm_messages::{Authenticate, Negotiate, WriteRefused, write_authenticate, write_negotiate};
use ntlm_responses::{
    exchange_key, hashed_challenge, respond_v1, respond_v1_ess, respond_v2, verify,
};
use outside::{Chances, StepRefused};
use rc4_stream::Rc4;
use rpc_units::{Body, Unit, UnitWriteRefused, write_unit};
use std::alloc::Global;
use unit_security::trailer;
use wire_base::{Blob, NoMemory};

/// What a server's CHALLENGE offers: the flags that are agreed, its challenge, its target information, the time of an
/// NTLMv2 response, and the bytes that the server receives in a unit.
#[derive(Debug, Drop)]
pub struct ServerOffer {
    pub flags: u32,
    pub challenge: [u8; 8],
    pub info: Blob,
    pub time: u64,
    pub receive: u16,
}

/// What is drawn for an answer: the client's challenge, and the exported key where keys are exchanged.
#[derive(Clone, Copy, Debug)]
pub struct Drawn {
    pub client: [u8; 8],
    pub chosen: Option<[u8; 16]>,
}

/// The LM response, the NT response, and the session base key of them.
#[derive(Debug, Drop)]
pub struct Responses {
    pub lm: Blob,
    pub nt: Blob,
    pub base: [u8; 16],
}

/// The exported session key, and the key field of the message.
#[derive(Debug, Drop)]
pub struct Keys {
    pub exported: [u8; 16],
    pub field: Blob,
}

/// An AUTHENTICATE, and the exported session key.
#[derive(Debug, Drop)]
pub struct Answer {
    pub message: Authenticate,
    pub key: [u8; 16],
}

/// The NEGOTIATE.
fn negotiate_bytes(alloc: Global, auth: AuthKind) -> Result<Blob, NoMemory>
    ensures { IfOk result (λ bytes. bytes ≡ written_negotiate (negotiate_for auth)) }
{
    let message = Negotiate {
        flags: auth.offer(),
        domain: Blob::copy(alloc, &[])?,
        workstation: Blob::copy(alloc, &[])?,
        version: None,
    };
    match write_negotiate(alloc, &message) {
        Ok(bytes) => Ok(bytes),
        Err(WriteRefused::Memory) => Err(NoMemory),
        Err(WriteRefused::TooLong(_)) => unreachable!(),
    }
}

/// The bind with the NEGOTIATE.
pub(crate) fn bind_bytes(alloc: Global, level: u8, auth: AuthKind) -> Result<Blob, NoMemory>
    ensures value { IfOk result (λ bytes. bytes ≡ written (bind_for level auth)) }
    ensures most { IfOk result (λ bytes. length bytes ≤ 5840) }
{
    let unit = Unit {
        trailer: Some(trailer(level, TRAILER_CONTEXT, negotiate_bytes(alloc, auth)?)),
        ..bind(alloc, &MEMO, 1)?
    };
    unit_bytes(alloc, &unit)
}

/// Two challenges, one after the other.
fn join(first: [u8; 8], second: [u8; 8]) -> [u8; 16]
    ensures { result ≡ first ++ second }
{
    let mut joined = [0; 16];
    joined[..8].copy_from_slice(&first);
    joined[8..].copy_from_slice(&second);
    joined
}

/// Draws the client's challenge, and where keys are exchanged two more.
pub(crate) fn draw<Q: Chances>(exchanges: bool, chances: &mut Q) -> Result<Drawn, StepRefused>
    ensures draws { DrawsSome (Q.drawing chances.old) (Q.drawing chances.new) }
    ensures answer { AnswersBy result (drawn_for exchanges (Q.drawing chances.old).left)
        (Q.drawing chances.new).left }
{
    let client = match chances.next() {
        Ok(challenge) => challenge,
        Err(_) => return Err(StepRefused::Spent),
    };
    if !exchanges {
        return Ok(Drawn {
            client,
            chosen: None,
        });
    }
    let first = match chances.next() {
        Ok(challenge) => challenge,
        Err(_) => return Err(StepRefused::Spent),
    };
    let second = match chances.next() {
        Ok(challenge) => challenge,
        Err(_) => return Err(StepRefused::Spent),
    };
    Ok(Drawn {
        client,
        chosen: Some(join(first, second)),
    })
}

/// Both responses with the session base key, where the NT response answers that challenge.
fn with_base(plan: &ClientPlan, challenge: [u8; 8], lm: Blob, nt: Blob) -> Responses
    requires { Verifies plan.now.hash plan.now.user plan.now.domain challenge nt }
    ensures { result ≡ with_base plan.now lm nt }
{
    let base = verify(
        &plan.hash,
        plan.user.units(),
        plan.domain.units(),
        challenge,
        nt.bytes(),
    );
    match base {
        Some(base) => Responses { lm, nt, base },
        None => unreachable!(),
    }
}

/// The LM response of extended session security: the client's challenge and 16 zeros.
fn ess_lm(alloc: Global, client: [u8; 8]) -> Result<Blob, NoMemory>
    ensures { IfOk result (λ lm. lm ≡ client ++ replicate 16 0) }
{
    let mut lm = Vec::from_slice(alloc, &client)?;
    lm.extend_from_slice(&[0; 16])?;
    Ok(Blob::from_vec(lm))
}

/// The pairs that an NTLMv2 response carries.
fn pairs_sent(info: &[u8]) -> &[u8]
    ensures { result.now ≡ pairs_sent (length info.now == 0) info.now }
{
    if info.len() == 0 { &[0; 4] } else { info }
}

/// The responses.
pub(crate) fn respond(
    alloc: Global,
    plan: &ClientPlan,
    offer: &ServerOffer,
    client: [u8; 8],
) -> Result<Responses, NoMemory>
    ensures { IfOk result (λ r. r ≡ responses_of plan.now offer.now client) }
{
    let challenge = offer.challenge;
    match plan.auth {
        AuthKind::V1 => {
            let nt = respond_v1(&plan.hash, challenge);
            let lm = Blob::copy(alloc, &nt)?;
            let nt = Blob::copy(alloc, &nt)?;
            Ok(with_base(plan, challenge, lm, nt))
        }
        AuthKind::V1Ess => {
            let lm = ess_lm(alloc, client)?;
            let nt = respond_v1_ess(&plan.hash, challenge, client);
            let nt = Blob::copy(alloc, &nt)?;
            Ok(with_base(plan, hashed_challenge(challenge, client), lm, nt))
        }
        AuthKind::V2 => {
            let lm = Blob::copy(alloc, &[0; 24])?;
            let nt = respond_v2(
                alloc,
                &plan.hash,
                plan.user.units(),
                plan.domain.units(),
                challenge,
                offer.time,
                client,
                pairs_sent(offer.info.bytes()),
            )?;
            Ok(with_base(plan, challenge, lm, nt))
        }
    }
}

/// The keys, of the exported key where it was chosen, and else of the exchange key.
fn make_keys(alloc: Global, chosen: Option<[u8; 16]>, exchange: [u8; 16]) -> Result<Keys, NoMemory>
    ensures { IfOk result (λ keys. keys ≡ keys_by chosen exchange) }
{
    match chosen {
        None => Ok(Keys {
            exported: exchange,
            field: Blob::copy(alloc, &[])?,
        }),
        Some(chosen) => {
            let mut field = chosen;
            Rc4::new(&exchange).apply(&mut field);
            Ok(Keys {
                exported: chosen,
                field: Blob::copy(alloc, &field)?,
            })
        }
    }
}

/// The answer of these responses and keys.
fn answer_by(
    alloc: Global,
    plan: &ClientPlan,
    offer: &ServerOffer,
    responses: Responses,
    keys: Keys,
) -> Result<Answer, NoMemory>
    ensures { IfOk result (λ answer. answer ≡ answer_by plan.now offer.now responses keys) }
{
    Ok(Answer {
        message: Authenticate {
            flags: offer.flags,
            lm: responses.lm,
            nt: responses.nt,
            domain: plan.domain.bytes(alloc)?,
            user: plan.user.bytes(alloc)?,
            workstation: plan.workstation.bytes(alloc)?,
            key: keys.field,
            version: None,
            mic: None,
        },
        key: keys.exported,
    })
}

/// The AUTHENTICATE and the exported key.
pub(crate) fn make_answer(
    alloc: Global,
    plan: &ClientPlan,
    offer: &ServerOffer,
    drawn: Drawn,
) -> Result<Answer, NoMemory>
    ensures value { IfOk result (λ a. a ≡ answer_of plan.now offer.now drawn) }
    ensures writable { IfOk result (λ a. CanWriteAuthenticate a.message) }
{
    let responses = respond(alloc, plan, offer, drawn.client)?;
    let exchange = exchange_key(
        responses.base,
        offer.flags,
        offer.challenge,
        responses.lm.bytes(),
        responses.nt.bytes(),
    );
    let keys = make_keys(alloc, drawn.chosen, exchange)?;
    answer_by(alloc, plan, offer, responses, keys)
}

/// The bytes of a unit, where they are no more than a unit may have.
fn bytes_within(alloc: Global, unit: &Unit) -> Result<Option<Blob>, NoMemory>
    requires { IsWritable unit.now }
    ensures value { IfOk result (λ bytes. bytes ≡ bytes_within unit.now) }
    ensures most { IfOk result (λ made. IfSome made (λ bytes. length bytes ≤ 5840)) }
{
    match write_unit(alloc, unit) {
        Ok(bytes) => Ok(Some(bytes)),
        Err(UnitWriteRefused::Memory) => Err(NoMemory),
        Err(UnitWriteRefused::TooLong) => Ok(None),
    }
}

/// The bytes of auth3; None where the message doesn't fit into a unit.
pub(crate) fn auth3_bytes(
    alloc: Global,
    level: u8,
    message: &Authenticate,
) -> Result<Option<Blob>, NoMemory>
    requires { CanWriteAuthenticate message.now }
    ensures value { IfOk result (λ bytes. bytes ≡ auth3_of level message.now) }
    ensures most { IfOk result (λ made. IfSome made (λ bytes. length bytes ≤ 5840)) }
{
    let message = match write_authenticate(alloc, message) {
        Ok(bytes) => bytes,
        Err(WriteRefused::Memory) => return Err(NoMemory),
        Err(WriteRefused::TooLong(_)) => return Ok(None),
    };
    let unit = Unit {
        first: true,
        last: true,
        call: 1,
        body: Body::Auth3,
        trailer: Some(trailer(level, TRAILER_CONTEXT, message)),
    };
    bytes_within(alloc, &unit)
}
