//! Stubs to the call and its reply.

ghost use Rattle.std.specs.Prelude.{◌≡◌, IfOk, Ok};
ghost use Rattle.wire_base.specs.Memory.{UpToMemory};
ghost use Rattle.ndr_codec.specs.Layout.{raw};
ghost use Rattle.ndr_codec.specs.Stub.{ReadsBy, Begins, item};
ghost use Rattle.secret_change.specs.declared.calls.SetCall.{SetCall as call};
ghost use Rattle.secret_change.specs.declared.calls.SetReply.{SetReply as reply};
ghost use Rattle.secret_change.specs.Calls.{set_refused, ReadsWithoutMemory, authenticator, set_call, set_reply, set_call_of, set_reply_of};
ghost use Rattle.secret_change.specs.Ranges.{InRangeSetCall, InRangeSetReply};

use crate::calls::{SetCall, SetReply};
use crate::refused::SetRefused;
use ndr_codec::{Reader, read_unique_text};
use std::alloc::Global;
use wire_base::Authenticator;

/// A credential.
fn read_eight(reader: &mut Reader<'_>) -> Result<[u8; 8], SetRefused>
    ensures { ReadsWithoutMemory (item (raw 8)) result reader.old reader.new }
{
    let mut eight = [0; 8];
    eight.copy_from_slice(reader.take(8)?);
    Ok(eight)
}

/// A hidden secret.
fn read_sixteen(reader: &mut Reader<'_>) -> Result<[u8; 16], SetRefused>
    ensures { ReadsWithoutMemory (item (raw 16)) result reader.old reader.new }
{
    let mut sixteen = [0; 16];
    sixteen.copy_from_slice(reader.take(16)?);
    Ok(sixteen)
}

/// An authenticator, behind its padding.
#[tactic(auto, unfolding(crate::specs::Calls::authenticator))]
fn read_authenticator(reader: &mut Reader<'_>) -> Result<Authenticator, SetRefused>
    ensures { ReadsWithoutMemory authenticator result reader.old reader.new }
{
    reader.gap()?;
    Ok(Authenticator {
        credential: read_eight(reader)?,
        timestamp: reader.long()?,
    })
}

/// The parameters of the call, one after the other.
#[tactic(auto, unfolding(crate::specs::Calls::set_call))]
fn read_set_call(alloc: Global, reader: &mut Reader<'_>) -> Result<SetCall, SetRefused>
    ensures { ReadsBy SetRefused.Memory set_refused set_call result reader.old reader.new }
{
    Ok(SetCall {
        primary: read_unique_text(alloc, reader)?,
        account: reader.text(alloc)?,
        channel: reader.short()?,
        computer: reader.text(alloc)?,
        authenticator: read_authenticator(reader)?,
        hidden: read_sixteen(reader)?,
    })
}

/// The call that a whole stub is.
#[tactic(auto, unfolding(crate::specs::Calls::set_call_of))]
fn set_call_in(alloc: Global, stub: &[u8]) -> Result<SetCall, SetRefused>
    ensures { UpToMemory SetRefused.Memory result (set_call_of stub.now) }
{
    let mut reader = Reader::new(stub);
    read_set_call(alloc, &mut reader)
}

/// The parameters of a request of NetrServerPasswordSet (MS-NRPC 3.5.4.4.6). What follows the last parameter is passed
/// over. `BadStub` at the first item that isn't of its layout.
pub fn read_set(alloc: Global, stub: &[u8]) -> Result<SetCall, SetRefused>
    // What stands there or the first refusal.
    ensures exact { UpToMemory SetRefused.Memory result (set_call_of stub.now) }
    // What is read lies in front of the stub by its layout.
    ensures found { IfOk result (λ value. Begins set_call value stub.now) }
    // What lies there by the layout is read, unless memory runs out.
    ensures only { (value : call) → Begins set_call value stub.now →
        UpToMemory SetRefused.Memory result (Ok value) }
{
    set_call_in(alloc, stub)
}

/// The parameters of the reply, one after the other.
#[tactic(auto, unfolding(crate::specs::Calls::set_reply))]
fn read_reply(reader: &mut Reader<'_>) -> Result<SetReply, SetRefused>
    ensures { ReadsWithoutMemory set_reply result reader.old reader.new }
{
    Ok(SetReply {
        returned: read_authenticator(reader)?,
        status: reader.long()?,
    })
}

/// The reply that a whole stub is.
#[tactic(auto, unfolding(crate::specs::Calls::set_reply_of))]
fn set_reply_in(stub: &[u8]) -> Result<SetReply, SetRefused>
    ensures { result ≡ set_reply_of stub.now }
{
    let mut reader = Reader::new(stub);
    read_reply(&mut reader)
}

/// The parameters of the reply to NetrServerPasswordSet. What follows the last parameter is passed over. `BadStub` at
/// the first item that isn't of its layout. It takes no memory.
pub fn read_set_reply(stub: &[u8]) -> Result<SetReply, SetRefused>
    // What stands there or the first refusal.
    ensures exact { result ≡ set_reply_of stub.now }
    // What is read lies in front of the stub by its layout.
    ensures found { IfOk result (λ value. Begins set_reply value stub.now) }
    // What lies there by the layout is read.
    ensures only { (value : reply) → Begins set_reply value stub.now → result ≡ Ok value }
{
    set_reply_in(stub)
}
