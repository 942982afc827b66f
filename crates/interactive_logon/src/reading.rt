//! Stubs to calls.

ghost use Rattle.std.specs.Prelude.{ℕ, List, ◌≡◌, ◌==◌, IfOk, Ok, Err};
ghost use Rattle.wire_base.specs.Memory.{UpToMemory};
ghost use Rattle.interactive_logon.specs.declared.calls.InteractiveCall.{InteractiveCall as call};
ghost use Rattle.logon_stubs.specs.Calls.{call_of};
ghost use Rattle.logon_stubs.specs.Layout.{Reads};
ghost use Rattle.interactive_logon.specs.Calls.{interactive_info, leveled_info, validation_asked, interactive_call, interactive_of, IsInteractive};

use crate::calls::{InteractiveCall, InteractiveInfo};
use logon_stubs::{
    LOGOFF_OPNUM, LOGON_OPNUM, StubRefused, read_sixteen, read_unique_authenticator,
};
use ndr_codec::{Reader, read_halves, read_head, read_some_pointer, read_unique_text, read_units};
use std::alloc::Global;

/// The level of an interactive logon (NetlogonInteractiveInformation, MS-NRPC 2.2.1.4.16).
pub(crate) const LEVEL: u16 = 1;

/// An interactive logon.
#[tactic(auto, unfolding(crate::specs::Calls::interactive_info))]
fn read_info(alloc: Global, reader: &mut Reader<'_>) -> Result<InteractiveInfo, StubRefused>
    ensures { Reads interactive_info result reader.old reader.new }
{
    let domain = read_head(reader, 2)?;
    let control = reader.long()?;
    let logon_id = read_halves(reader)?;
    let user = read_head(reader, 2)?;
    let workstation = read_head(reader, 2)?;
    let lm = read_sixteen(reader)?;
    let nt = read_sixteen(reader)?;
    Ok(InteractiveInfo {
        domain: read_units(alloc, reader, domain)?,
        control,
        logon_id,
        user: read_units(alloc, reader, user)?,
        workstation: read_units(alloc, reader, workstation)?,
        lm,
        nt,
    })
}

/// The logon, behind its level.
#[tactic(auto, unfolding(crate::specs::Calls::leveled_info, crate::specs::Calls::info_arm))]
fn read_leveled_info(alloc: Global, reader: &mut Reader<'_>) -> Result<InteractiveInfo, StubRefused>
    ensures { Reads leveled_info result reader.old reader.new }
{
    let level = reader.short()?;
    let tag = reader.short()?;
    if tag != level || tag != LEVEL {
        return Err(StubRefused::BadArm(tag));
    }
    read_some_pointer(reader)?;
    read_info(alloc, reader)
}

/// The validation level that a logon asks for; a logoff has none.
fn read_validation(reader: &mut Reader<'_>, is_logon: bool) -> Result<u16, StubRefused>
    ensures { Reads (validation_asked is_logon) result reader.old reader.new }
{
    if !is_logon {
        return Ok(0);
    }
    Ok(reader.short()?)
}

/// The parameters of a logon, or of a logoff.
#[tactic(auto, unfolding(crate::specs::Calls::interactive_call))]
fn read_parameters(
    alloc: Global,
    reader: &mut Reader<'_>,
    is_logon: bool,
) -> Result<InteractiveCall, StubRefused>
    ensures { Reads (interactive_call is_logon) result reader.old reader.new }
{
    Ok(InteractiveCall {
        server: read_unique_text(alloc, reader)?,
        computer: read_unique_text(alloc, reader)?,
        authenticator: read_unique_authenticator(reader)?,
        returned: read_unique_authenticator(reader)?,
        info: read_leveled_info(alloc, reader)?,
        validation: read_validation(reader, is_logon)?,
    })
}

/// The call, by its number.
#[tactic(auto, unfolding(crate::specs::Calls::interactive_of))]
fn call_in(alloc: Global, opnum: u16, stub: &[u8]) -> Result<InteractiveCall, StubRefused>
    ensures { UpToMemory StubRefused.Memory result (interactive_of opnum stub.now) }
{
    if opnum != LOGON_OPNUM && opnum != LOGOFF_OPNUM {
        return Err(StubRefused::NoSuchCall(opnum));
    }
    let mut reader = Reader::new(stub);
    read_parameters(alloc, &mut reader, opnum == LOGON_OPNUM)
}

/// The parameters of an interactive logon, opnum 2, or of its logoff, opnum 3. What follows the last parameter is
/// passed over.
///
/// `NoSuchCall` for another number. Then the first of these in the order of the parameters (this project's own choice):
/// `BadArm` where the tag of the logon's information isn't its level, or isn't 1; `BadStub` at the first item that
/// isn't of its layout.
pub fn read_interactive(
    alloc: Global,
    opnum: u16,
    stub: &[u8],
) -> Result<InteractiveCall, StubRefused>
    // The parameters or the first refusal.
    ensures exact { UpToMemory StubRefused.Memory result (interactive_of opnum stub.now) }
    // What is read stands in the stub by the layout of the call.
    ensures found { IfOk result (λ value. IsInteractive opnum stub.now value) }
    // What stands there by the layout is read, unless memory runs out.
    ensures only { (value : call) → IsInteractive opnum stub.now value →
        UpToMemory StubRefused.Memory result (Ok value) }
{
    call_in(alloc, opnum, stub)
}

/// A stub that is read as an interactive logon or logoff is refused as a network logon or logoff, for its level. It
/// does nothing.
pub fn what_is_interactive_is_no_network_logon()
    ensures { (opnum : ℕ) (stub : List ℕ) (value : call) → interactive_of opnum stub ≡ Ok value →
        call_of opnum stub ≡ Err (StubRefused.BadArm 1) }
{}
