//! The call and its reply to stubs.

ghost use Rattle.std.specs.Prelude.{ℕ, List, ◌≡◌, ◌+◌, ◌*◌, ◌≤◌, IfOk, OnOk, Ok, length};
ghost use Rattle.wire_base.specs.Numbers.{AreBytes};
ghost use Rattle.ndr_codec.specs.Parts.{text_size, size_if_there};
ghost use Rattle.secret_change.specs.declared.calls.SetCall.{SetCall as call};
ghost use Rattle.secret_change.specs.declared.calls.SetReply.{SetReply as reply};
ghost use Rattle.secret_change.specs.Calls.{CanWriteSet, put_authenticator, set_call_of, set_reply_of, written_set_call, written_set_reply};
ghost use Rattle.secret_change.specs.Ranges.{InRangeSetCall, InRangeSetReply, IsAuthenticator};

use crate::calls::{SetCall, SetReply};
use ndr_codec::{Writer, write_unique_text};
use std::alloc::Global;
use wire_base::{Authenticator, Blob, NoMemory};

/// An authenticator, behind its padding.
#[tactic(auto, unfolding(crate::specs::Calls::put_authenticator))]
fn write_authenticator(writer: &mut Writer, value: &Authenticator) -> Result<(), NoMemory>
    ensures { OnOk result (writer.new ≡ put_authenticator value.now writer.old) }
{
    writer.gap()?;
    writer.raw(&value.credential)?;
    writer.long(value.timestamp)
}

/// The stub of a request of NetrServerPasswordSet (MS-NRPC 3.5.4.4.6), whose texts have at most 32,767 units each.
/// `NoMemory` where no memory was found.
#[tactic(auto, unfolding(crate::specs::Calls::written_set_call, crate::specs::Calls::put_set_call))]
pub fn write_set(alloc: Global, call: &SetCall) -> Result<Blob, NoMemory>
    requires { CanWriteSet call.now }
    // The bytes of the written form, as they are read back by `what_is_put_is_read`.
    ensures { IfOk result (λ stub. stub ≡ written_set_call call.now) }
{
    let mut writer = Writer::new(alloc);
    write_unique_text(&mut writer, &call.primary)?;
    writer.text(&call.account)?;
    writer.short(call.channel)?;
    writer.text(&call.computer)?;
    write_authenticator(&mut writer, &call.authenticator)?;
    writer.raw(&call.hidden)?;
    Ok(writer.finish())
}

/// The stub of its reply. `NoMemory` where no memory was found.
#[tactic(auto, unfolding(crate::specs::Calls::written_set_reply, crate::specs::Calls::put_set_reply))]
pub fn write_set_reply(alloc: Global, reply: &SetReply) -> Result<Blob, NoMemory>
    ensures { IfOk result (λ stub. stub ≡ written_set_reply reply.now) }
{
    let mut writer = Writer::new(alloc);
    write_authenticator(&mut writer, &reply.returned)?;
    writer.long(reply.status)?;
    Ok(writer.finish())
}

/// What is written is read, and is bytes, in at most so many.
pub fn what_is_put_is_read()
    ensures call { (value : call) → CanWriteSet value → InRangeSetCall value →
        set_call_of (written_set_call value) ≡ Ok value }
    ensures reply { (value : reply) → InRangeSetReply value →
        set_reply_of (written_set_reply value) ≡ Ok value }
    ensures call_bytes { (value : call) → CanWriteSet value → InRangeSetCall value →
        AreBytes (written_set_call value) }
    ensures reply_bytes { (value : reply) → InRangeSetReply value →
        AreBytes (written_set_reply value) }
    ensures call_short { (value : call) → CanWriteSet value → InRangeSetCall value →
        length (written_set_call value) ≤ 80 + size_if_there text_size value.primary
        + 2 * length value.account + 2 * length value.computer }
    ensures reply_short { (value : reply) → InRangeSetReply value →
        length (written_set_reply value) ≤ 25 }
    // What is read of bytes is in range.
    ensures call_range { (stub : List ℕ) (value : call) → AreBytes stub →
        set_call_of stub ≡ Ok value → InRangeSetCall value }
    ensures reply_range { (stub : List ℕ) (value : reply) → AreBytes stub →
        set_reply_of stub ≡ Ok value → InRangeSetReply value }
{}
