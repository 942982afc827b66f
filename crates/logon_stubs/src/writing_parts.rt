//! Parts of a stub that stand in several calls, written.

ghost use Rattle.std.specs.Prelude.{◌≡◌, OnOk};
ghost use Rattle.ndr_codec.specs.Layout.{raw};
ghost use Rattle.ndr_codec.specs.Writing.{put};
ghost use Rattle.ndr_codec.specs.Parts.{IfThere, put_unique};
ghost use Rattle.logon_stubs.specs.Writing.{put_authenticator};
ghost use Rattle.logon_stubs.specs.Ranges.{IsBlock, IsAuthenticator};

use ndr_codec::Writer;
use wire_base::{Authenticator, NoMemory};

/// A challenge or a credential.
pub(crate) fn write_eight(writer: &mut Writer, value: [u8; 8]) -> Result<(), NoMemory>
    ensures exact { OnOk result (writer.new ≡ put (raw 8) value writer.old) }
    ensures range { OnOk result (IsBlock 8 value) }
{
    writer.raw(&value)
}

/// A session key or a hash: 16 bytes. Without memory what was put before it stays.
pub fn write_sixteen(writer: &mut Writer, value: [u8; 16]) -> Result<(), NoMemory>
    ensures exact { OnOk result (writer.new ≡ put (raw 16) value writer.old) }
    ensures range { OnOk result (IsBlock 16 value) }
{
    writer.raw(&value)
}

/// An authenticator.
#[tactic(auto, unfolding(crate::specs::Writing::put_authenticator))]
fn write_authenticator(writer: &mut Writer, value: &Authenticator) -> Result<(), NoMemory>
    ensures exact { OnOk result (writer.new ≡ put_authenticator value.now writer.old) }
    ensures range { OnOk result (IsAuthenticator value.now) }
{
    write_eight(writer, value.credential)?;
    writer.long(value.timestamp)
}

/// A unique pointer to an authenticator, and the authenticator. Without memory what was put before it stays.
pub fn write_unique_authenticator(
    writer: &mut Writer,
    value: &Option<Authenticator>,
) -> Result<(), NoMemory>
    ensures exact { OnOk result (writer.new ≡ put_unique put_authenticator value.now writer.old) }
    ensures range { OnOk result (IfThere IsAuthenticator value.now) }
{
    match value {
        Some(authenticator) => {
            writer.pointer(true)?;
            write_authenticator(writer, authenticator)
        }
        None => writer.pointer(false),
    }
}
