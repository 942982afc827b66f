//! Units that a session signs or seals in their place.

ghost use Rattle.std.specs.Prelude.{◌≡◌, ◌+◌, ◌*◌, ◌≤◌, ◌++◌, length, take, drop, IfOk, IfSome, Some, replicate};
ghost use Rattle.rpc_units.specs.Joining.{IsWholeCall, cut_of, stub_of};
ghost use Rattle.rpc_units.specs.Writing.{value_len};
ghost use Rattle.ntlm_seal.specs.Directions.{combine};
ghost use Rattle.ntlm_seal.specs.Sessions.{seal_of, judge_of, open_of, unit_left};
ghost use Rattle.unit_security.specs.Levels.{is_sealed};
ghost use Rattle.unit_security.specs.Securing.{trailer_of, with_room, range_of, signed_part, signature_part, secured_if, secured_with, secure_unit, open_unit, secure_all, secure_call};

use crate::levels::is_sealed;
use end_links::unit_bytes;
use ntlm_seal::Session;
use rpc_units::{NTLM_PROVIDER, Trailer, Unit, cut_call, sealed_range, set_value};
use std::alloc::Global;
use wire_base::{Blob, NoMemory};

/// The trailer of NTLM with that level, context number and authentication value (MS-RPCE 2.2.2.11).
pub fn trailer(level: u8, context: u32, value: Blob) -> Trailer
    ensures { result ≡ trailer_of level context value }
{
    Trailer {
        kind: NTLM_PROVIDER,
        level,
        context,
        value,
    }
}

/// The stub of a unit and its padding, where a trailer and a value of 16 bytes follow to the end.
fn range_of(bytes: &[u8]) -> Option<(usize, usize)>
    ensures value { result ≡ range_of bytes.now }
    ensures inside { IfSome result (λ range.
        (range.0 ≤ range.1) × (range.1 + 24 ≡ length bytes.now)) }
    ensures few { IfSome result (λ range. length bytes.now ≤ 5840) }
{
    let (from, to) = sealed_range(bytes)?;
    if to + 24 != bytes.len() {
        return None;
    }
    Some((from, to))
}

/// Signs a unit in its place, and seals it where units are (MS-NLMP 3.4.2 and 3.4.3). Whether it is done: it isn't
/// exactly where the unit has no room for a signature at its end, or the session refuses. It takes no memory.
pub fn secure_unit(session: &mut Session, seals: bool, bytes: &mut [u8]) -> bool
    ensures answer { secure_unit seals session.old bytes.old
        ≡ secured_if result bytes.new session.new }
    ensures len { length bytes.new ≡ length bytes.old }
{
    let Some((from, to)) = range_of(bytes) else {
        return false;
    };
    let answer = if seals {
        session.seal(&mut bytes[..to + 8], from, to)
    } else {
        session.sign(&bytes[..to + 8])
    };
    match answer {
        Ok(signature) => {
            set_value(bytes, &signature);
            true
        }
        Err(_) => false,
    }
}

/// Takes the signature of a unit that came, and opens the unit in its place where units are sealed (MS-NLMP 3.4.3 and
/// 3.4.4). Whether it is taken: it isn't exactly where the unit has no signature at its end, or the session refuses it.
/// It takes no memory.
pub fn open_unit(session: &mut Session, seals: bool, bytes: &mut [u8]) -> bool
    ensures answer { open_unit seals session.old bytes.old
        ≡ secured_if result bytes.new session.new }
    ensures len { length bytes.new ≡ length bytes.old }
{
    let Some((from, to)) = range_of(bytes) else {
        return false;
    };
    let mut signature = [0; 16];
    signature.copy_from_slice(&bytes[to + 8..]);
    if seals {
        session
            .open(&mut bytes[..to + 8], from, to, &signature)
            .is_ok()
    } else {
        session.check(&bytes[..to + 8], &signature).is_ok()
    }
}

/// The unit with room for a signature.
fn with_room(alloc: Global, level: u8, context: u32, unit: Unit) -> Result<Unit, NoMemory>
    ensures { IfOk result (λ room. room ≡ with_room level context unit) }
{
    Ok(Unit {
        trailer: Some(trailer(level, context, Blob::copy(alloc, &[0; 16])?)),
        ..unit
    })
}

/// The bytes of all fragments of a call, signed, and sealed where units are; None where the session refuses. They are
/// at most twice the bytes of the stub, and 51 more.
fn secure_fragments(
    alloc: Global,
    session: &mut Session,
    seals: bool,
    call: &Unit,
    limit: u16,
) -> Result<Option<Blob>, NoMemory>
    requires whole { IsWholeCall call.now }
    requires value { value_len call.now.trailer ≡ 16 }
    requires least { 1432 ≤ limit }
    requires most { limit ≤ 5840 }
    ensures answer { IfOk result (λ bytes. secure_all seals session.old (cut_of call.now limit)
        ≡ secured_with bytes session.new) }
    ensures short { IfOk result (λ sent. IfSome sent (λ bytes.
        length bytes ≤ 2 * length (stub_of call.now.body) + 51)) }
{
    let units = cut_call(alloc, call, limit)?;
    let mut bytes = Vec::new(alloc);
    for unit in units.items() {
        let room = unit_bytes(alloc, unit)?;
        let mut one = room.into_vec();
        if !secure_unit(session, seals, &mut one) {
            return Ok(None);
        }
        bytes.extend_from_slice(&one)?;
    }
    Ok(Some(Blob::from_vec(bytes)))
}

/// The bytes of what is secured, and the session after it.
#[derive(Drop)]
pub struct Secured {
    pub bytes: Blob,
    pub session: Session,
}

/// A call or response at a level that signs, as it is sent to a peer that receives so many bytes: its fragments, each
/// signed, and sealed at the level that seals, one after another (MS-RPCE 2.2.2.11). None where the session refuses.
/// What is sent has at most twice the bytes of the stub, and 51 more. `context` is the trailer's context number.
pub fn secure_call(
    alloc: Global,
    session: Session,
    level: u8,
    context: u32,
    call: Unit,
    limit: u16,
) -> Result<Option<Secured>, NoMemory>
    requires whole { IsWholeCall call }
    requires least { 1432 ≤ limit }
    requires most { limit ≤ 5840 }
    ensures value { IfOk result (λ sent. sent ≡ secure_call session level context call limit) }
    ensures short { IfOk result (λ sent. IfSome sent (λ secured.
        length secured.bytes ≤ 2 * length (stub_of call.body) + 51)) }
{
    let mut session = session;
    let call = with_room(alloc, level, context, call)?;
    match secure_fragments(alloc, &mut session, is_sealed(level), &call, limit)? {
        Some(bytes) => Ok(Some(Secured { bytes, session })),
        None => Ok(None),
    }
}
