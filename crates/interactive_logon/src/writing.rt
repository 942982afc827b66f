//! Calls to stubs.

ghost use Rattle.std.specs.Prelude.{ℕ, List, ◌≡◌, ◌==◌, ◌+◌, ◌^◌, ◌<◌, ◌≤◌, IfOk, OnOk, Ok, length};
ghost use Rattle.wire_base.specs.Numbers.{AreBytes};
ghost use Rattle.interactive_logon.specs.declared.calls.InteractiveCall.{InteractiveCall as call};
ghost use Rattle.interactive_logon.specs.Calls.{interactive_of, IsInteractive};
ghost use Rattle.interactive_logon.specs.Writing.{CanWriteInfo, CanWriteInteractive, CanWriteParameters, put_info, put_leveled_info, put_validation, put_interactive, written_interactive};
ghost use Rattle.interactive_logon.specs.Ranges.{InRangeInfo, InRangeInteractive, content_of};

use crate::calls::{InteractiveCall, InteractiveInfo};
use crate::reading::LEVEL;
use logon_stubs::{LOGON_OPNUM, write_sixteen, write_unique_authenticator};
use ndr_codec::{Writer, write_halves, write_unique_text, write_units, write_units_head};
use std::alloc::Global;
use wire_base::{Blob, NoMemory};

/// An interactive logon.
#[tactic(auto, unfolding(crate::specs::Writing::put_info))]
fn write_info(writer: &mut Writer, info: &InteractiveInfo) -> Result<(), NoMemory>
    requires fits { CanWriteInfo info.now }
    ensures exact { OnOk result (writer.new ≡ put_info info.now writer.old) }
    ensures range { OnOk result (InRangeInfo info.now) }
{
    write_units_head(writer, &info.domain)?;
    writer.long(info.control)?;
    write_halves(writer, info.logon_id)?;
    write_units_head(writer, &info.user)?;
    write_units_head(writer, &info.workstation)?;
    write_sixteen(writer, info.lm)?;
    write_sixteen(writer, info.nt)?;
    write_units(writer, &info.domain)?;
    write_units(writer, &info.user)?;
    write_units(writer, &info.workstation)
}

/// The logon, behind its level and the same as the union's tag.
#[tactic(auto, unfolding(crate::specs::Writing::put_leveled_info))]
fn write_leveled_info(writer: &mut Writer, info: &InteractiveInfo) -> Result<(), NoMemory>
    requires fits { CanWriteInfo info.now }
    ensures exact { OnOk result (writer.new ≡ put_leveled_info info.now writer.old) }
    ensures range { OnOk result (InRangeInfo info.now) }
{
    writer.short(LEVEL)?;
    writer.short(LEVEL)?;
    writer.pointer(true)?;
    write_info(writer, info)
}

/// The validation level that a logon asks for; a logoff has none.
fn write_validation(writer: &mut Writer, is_logon: bool, level: u16) -> Result<(), NoMemory>
    ensures exact { OnOk result (writer.new ≡ put_validation is_logon level writer.old) }
    ensures range { OnOk result (level < 2 ^ 16) }
{
    if !is_logon {
        return Ok(());
    }
    writer.short(level)
}

/// The parameters of a logon, or of a logoff.
#[tactic(auto, unfolding(crate::specs::Writing::put_interactive))]
fn write_parameters(
    writer: &mut Writer,
    call: &InteractiveCall,
    is_logon: bool,
) -> Result<(), NoMemory>
    requires fits { CanWriteParameters call.now }
    ensures exact { OnOk result (writer.new ≡ put_interactive is_logon call.now writer.old) }
    ensures range { OnOk result (InRangeInteractive call.now) }
{
    write_unique_text(writer, &call.server)?;
    write_unique_text(writer, &call.computer)?;
    write_unique_authenticator(writer, &call.authenticator)?;
    write_unique_authenticator(writer, &call.returned)?;
    write_leveled_info(writer, &call.info)?;
    write_validation(writer, is_logon, call.validation)
}

/// The stub of an interactive logon, opnum 2, or of its logoff, opnum 3, in the one form of docs/FORMATS.md. `NoMemory`
/// where no memory was found.
#[tactic(auto, unfolding(crate::specs::Writing::written_interactive), using(crate::proofs::WrittenLaws::written))]
pub fn write_interactive(
    alloc: Global,
    opnum: u16,
    call: &InteractiveCall,
) -> Result<Blob, NoMemory>
    requires { CanWriteInteractive opnum call.now }
    // The bytes of the written form.
    ensures exact { IfOk result (λ stub. stub ≡ written_interactive opnum call.now) }
    // The bytes have the layout of the call, and are read as it.
    ensures layout { IfOk result (λ stub. IsInteractive opnum stub call.now) }
    ensures again { IfOk result (λ stub. interactive_of opnum stub ≡ Ok call.now) }
{
    let mut writer = Writer::new(alloc);
    write_parameters(&mut writer, call, opnum == LOGON_OPNUM)?;
    Ok(writer.finish())
}

/// What is written is read, of calls whose numbers, units and bytes have their ranges; and what is read of bytes has
/// them. A stub is bytes, fewer than 2^20, and at most 300 more than its texts have.
pub fn what_is_written_is_read()
    ensures calls { (opnum : ℕ) (value : call) → CanWriteInteractive opnum value →
        InRangeInteractive value →
        interactive_of opnum (written_interactive opnum value) ≡ Ok value }
    ensures bytes { (opnum : ℕ) (value : call) → CanWriteInteractive opnum value →
        InRangeInteractive value →
        AreBytes (written_interactive opnum value) }
    ensures limit { (opnum : ℕ) (value : call) → CanWriteInteractive opnum value →
        InRangeInteractive value →
        length (written_interactive opnum value) < 2 ^ 20 }
    ensures short { (opnum : ℕ) (value : call) → CanWriteInteractive opnum value →
        InRangeInteractive value →
        length (written_interactive opnum value) ≤ 300 + content_of value }
    ensures ranges { (opnum : ℕ) (stub : List ℕ) (value : call) →
        AreBytes stub → interactive_of opnum stub ≡ Ok value → InRangeInteractive value }
{}
