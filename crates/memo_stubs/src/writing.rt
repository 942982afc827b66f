//! What is said to stubs.

ghost use Rattle.std.specs.Prelude.{ℕ, List, ◌≡◌, ◌+◌, ◌*◌, ◌≤◌, IfOk, OnOk, Ok, length};
ghost use Rattle.wire_base.specs.Numbers.{AreBytes};
ghost use Rattle.wire_base.specs.Units.{AreUnits};
ghost use Rattle.ndr_codec.specs.Parts.{FitsText};
ghost use Rattle.memo_stubs.specs.Memo.{FitsEcho, echo_reply_limit, echo_request_limit, put_echo_request, who_of, echo_request_of, echo_reply_of, written_who_reply, written_echo_request, written_echo_reply};

use ndr_codec::Writer;
use std::alloc::Global;
use wire_base::{Blob, NoMemory, Units};

/// The count of the bytes, and the bytes.
#[tactic(auto, unfolding(crate::specs::Memo::put_echo_request))]
fn write_echo(writer: &mut Writer, bytes: &Blob) -> Result<(), NoMemory>
    requires { FitsEcho bytes.now }
    ensures { OnOk result (writer.new ≡ put_echo_request bytes.now writer.old) }
{
    writer.long(bytes.bytes().len() as u32)?;
    writer.raw(bytes.bytes())
}

/// The stub of a reply of WhoAmI, of a name of at most 32,767 units: the domain, a backslash and the name of who is
/// logged on. The status is
/// 0. `NoMemory` where no memory was found.
#[tactic(auto, unfolding(crate::specs::Memo::written_who_reply, crate::specs::Memo::put_who_reply))]
pub fn write_who_reply(alloc: Global, name: &Units) -> Result<Blob, NoMemory>
    requires { FitsText name.now }
    // The bytes of the written form, as they are read back by `what_is_written_is_read`.
    ensures { IfOk result (λ stub. stub ≡ written_who_reply name.now) }
{
    let mut writer = Writer::new(alloc);
    writer.text(name)?;
    writer.long(0)?;
    Ok(writer.finish())
}

/// The stub of a request of Echo, of at most 4,096 bytes. `NoMemory` where no memory was found.
#[tactic(auto, unfolding(crate::specs::Memo::written_echo_request))]
pub fn write_echo_request(alloc: Global, bytes: &Blob) -> Result<Blob, NoMemory>
    requires { FitsEcho bytes.now }
    ensures { IfOk result (λ stub. stub ≡ written_echo_request bytes.now) }
{
    let mut writer = Writer::new(alloc);
    write_echo(&mut writer, bytes)?;
    Ok(writer.finish())
}

/// The stub of a reply of Echo, of at most 4,096 bytes. The status is 0. `NoMemory` where no memory was found.
#[tactic(auto, unfolding(crate::specs::Memo::written_echo_reply, crate::specs::Memo::put_echo_reply))]
pub fn write_echo_reply(alloc: Global, bytes: &Blob) -> Result<Blob, NoMemory>
    requires { FitsEcho bytes.now }
    ensures { IfOk result (λ stub. stub ≡ written_echo_reply bytes.now) }
{
    let mut writer = Writer::new(alloc);
    write_echo(&mut writer, bytes)?;
    writer.long(0)?;
    Ok(writer.finish())
}

/// What is written is read, and is bytes, in at most so many.
pub fn what_is_written_is_read()
    ensures who { (name : List ℕ) → FitsText name → AreUnits name →
        who_of (written_who_reply name) ≡ Ok name }
    ensures request { (bytes : List ℕ) → FitsEcho bytes → AreBytes bytes →
        echo_request_of (written_echo_request bytes) ≡ Ok bytes }
    ensures reply { (bytes : List ℕ) → FitsEcho bytes → AreBytes bytes →
        echo_reply_of (written_echo_reply bytes) ≡ Ok bytes }
    ensures who_bytes { (name : List ℕ) → FitsText name → AreUnits name →
        AreBytes (written_who_reply name) }
    ensures request_bytes { (bytes : List ℕ) → FitsEcho bytes → AreBytes bytes →
        AreBytes (written_echo_request bytes) }
    ensures reply_bytes { (bytes : List ℕ) → FitsEcho bytes → AreBytes bytes →
        AreBytes (written_echo_reply bytes) }
    ensures who_short { (name : List ℕ) → FitsText name → AreUnits name →
        length (written_who_reply name) ≤ 24 + 2 * length name }
    ensures request_short { (bytes : List ℕ) → FitsEcho bytes → AreBytes bytes →
        length (written_echo_request bytes) ≤ echo_request_limit }
    ensures reply_short { (bytes : List ℕ) → FitsEcho bytes → AreBytes bytes →
        length (written_echo_reply bytes) ≤ echo_reply_limit }
{}
