//! The client's session at a level, and its calls under it.

ghost use Rattle.std.specs.Prelude.{◌≡◌, ◌+◌, ◌*◌, ◌≤◌, length, IfOk, IfSome, None};
ghost use Rattle.rpc_units.specs.Joining.{IsWholeCall, stub_of};
ghost use Rattle.logon_client.specs.Securing.{session_for, send_call};

use end_links::call_bytes;
use ntlm_flags::{NTLMSSP_NEGOTIATE_EXTENDED_SESSIONSECURITY, has_flag};
use ntlm_seal::{Session, Side};
use rpc_units::Unit;
use std::alloc::Global;
use unit_security::{is_signed, secure_call};
use wire_base::{Blob, NoMemory};

/// The security context of all trailers that the client writes.
pub(crate) const TRAILER_CONTEXT: u32 = 1;

/// The session at a level: at the levels integrity and privacy that of the client.
pub(crate) fn session_at(level: u8, key: [u8; 16], flags: u32) -> Option<Session>
    ensures { result ≡ session_for level key flags }
{
    if is_signed(level) && has_flag(flags, NTLMSSP_NEGOTIATE_EXTENDED_SESSIONSECURITY) {
        return Some(Session::new(key, flags, Side::Client));
    }
    None
}

/// The bytes of all fragments of a call as they are sent, and the session after them.
#[derive(Drop)]
pub struct Sending {
    pub bytes: Blob,
    pub session: Option<Session>,
}

/// A call at a level, as it is sent to a peer that receives so many bytes; None where the session refuses. What is sent
/// has at most twice the bytes of the stub, and 51 more.
pub(crate) fn send_call(
    alloc: Global,
    session: Option<Session>,
    level: u8,
    call: Unit,
    limit: u16,
) -> Result<Option<Sending>, NoMemory>
    requires whole { IsWholeCall call }
    requires plain { call.trailer ≡ None }
    requires least { 1432 ≤ limit }
    requires most { limit ≤ 5840 }
    ensures value { IfOk result (λ sending. sending ≡ send_call session level call limit) }
    ensures short { IfOk result (λ sent. IfSome sent (λ sending.
        length sending.bytes ≤ 2 * length (stub_of call.body) + 51)) }
{
    let Some(session) = session else {
        return Ok(Some(Sending {
            bytes: call_bytes(alloc, &call, limit)?,
            session: None,
        }));
    };
    match secure_call(alloc, session, level, TRAILER_CONTEXT, call, limit)? {
        Some(secured) => Ok(Some(Sending {
            bytes: secured.bytes,
            session: Some(secured.session),
        })),
        None => Ok(None),
    }
}
