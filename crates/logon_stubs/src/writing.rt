//! Calls and replies to stubs.

ghost use Rattle.std.specs.Prelude.{ℕ, List, ◌≡◌, ◌+◌, ◌^◌, ◌<◌, ◌≤◌, IfOk, OnOk, Ok, length};
ghost use Rattle.wire_base.specs.Numbers.{AreBytes};
ghost use Rattle.ndr_codec.specs.Parts.{FitsText, IfThere, put_unique};
ghost use Rattle.logon_stubs.specs.declared.calls.Call.{Call as Asked};
ghost use Rattle.logon_stubs.specs.declared.calls.Reply.{Reply as Answered};
ghost use Rattle.logon_stubs.specs.Calls.{call_of, reply_of, opnum_of_call, opnum_of_reply, IsCall, IsReply};
ghost use Rattle.logon_stubs.specs.Structures.{has_extra};
ghost use Rattle.logon_stubs.specs.Writing.{CanWriteNetworkInfo, CanWriteLogonCall, CanWriteLogoffCall, CanWriteArm, CanWriteInfo, CanWriteCall, CanWriteReply, put_challenge_call, put_challenge_reply, put_auth_call, put_auth_reply, put_leveled_info, logoff_of, put_logoff_call, put_logoff_reply, put_logon_call, put_logon_reply, put_sam_info, put_call, put_reply, written_call, written_reply};
ghost use Rattle.logon_stubs.specs.Ranges.{InRangeNetworkInfo, InRangeSamInfo, InRangeChallengeCall, InRangeAuthCall, InRangeLogoffCall, InRangeLogonCall, InRangeCall, InRangeChallengeReply, InRangeAuthReply, InRangeLogoffReply, InRangeLogonReply, InRangeReply, call_content, short_reply_limit, IsShortReply};

use crate::calls::{
    AuthCall, AuthReply, Call, ChallengeCall, ChallengeReply, LogoffCall, LogoffReply, LogonCall,
    LogonReply, Reply,
};
use crate::info::{NetworkInfo, SamInfo};
use crate::writing_info::{write_network_info, write_sam_info};
use crate::writing_parts::{write_eight, write_unique_authenticator};
use ndr_codec::{Writer, write_unique_text};
use std::alloc::Global;
use wire_base::{Authenticator, Blob, NoMemory, Units};

/// The bytes for which room is taken before a stub is written. A logon with short names has fewer, and so has what is
/// granted to a user in a few groups; a longer stub takes more as it grows.
const STUB_ROOM: usize = 512;

#[tactic(auto, unfolding(crate::specs::Writing::put_challenge_call))]
fn write_challenge_call(writer: &mut Writer, value: &ChallengeCall) -> Result<(), NoMemory>
    requires primary { IfThere FitsText value.now.primary }
    requires computer { FitsText value.now.computer }
    ensures exact { OnOk result (writer.new ≡ put_challenge_call value.now writer.old) }
    ensures range { OnOk result (InRangeChallengeCall value.now) }
{
    write_unique_text(writer, &value.primary)?;
    writer.text(&value.computer)?;
    write_eight(writer, value.challenge)
}

#[tactic(auto, unfolding(crate::specs::Writing::put_challenge_reply))]
fn write_challenge_reply(writer: &mut Writer, value: &ChallengeReply) -> Result<(), NoMemory>
    ensures exact { OnOk result (writer.new ≡ put_challenge_reply value.now writer.old) }
    ensures range { OnOk result (InRangeChallengeReply value.now) }
{
    write_eight(writer, value.challenge)?;
    writer.long(value.status)
}

#[tactic(auto, unfolding(crate::specs::Writing::put_auth_call))]
fn write_auth_call(writer: &mut Writer, value: &AuthCall) -> Result<(), NoMemory>
    requires primary { IfThere FitsText value.now.primary }
    requires account { FitsText value.now.account }
    requires computer { FitsText value.now.computer }
    ensures exact { OnOk result (writer.new ≡ put_auth_call value.now writer.old) }
    ensures range { OnOk result (InRangeAuthCall value.now) }
{
    write_unique_text(writer, &value.primary)?;
    writer.text(&value.account)?;
    writer.short(value.channel)?;
    writer.text(&value.computer)?;
    write_eight(writer, value.credential)?;
    writer.long(value.flags)
}

#[tactic(auto, unfolding(crate::specs::Writing::put_auth_reply))]
fn write_auth_reply(writer: &mut Writer, value: &AuthReply) -> Result<(), NoMemory>
    ensures exact { OnOk result (writer.new ≡ put_auth_reply value.now writer.old) }
    ensures range { OnOk result (InRangeAuthReply value.now) }
{
    write_eight(writer, value.credential)?;
    writer.long(value.flags)?;
    writer.long(value.status)
}

/// A logon's information, behind its level and the same as the union's tag.
#[tactic(auto, unfolding(crate::specs::Writing::put_leveled_info))]
fn write_leveled_info(writer: &mut Writer, info: &NetworkInfo) -> Result<(), NoMemory>
    requires fits { CanWriteNetworkInfo info.now }
    ensures exact { OnOk result (writer.new ≡ put_leveled_info info.now writer.old) }
    ensures range { OnOk result (InRangeNetworkInfo info.now) }
{
    writer.short(2)?;
    writer.short(2)?;
    writer.pointer(true)?;
    write_network_info(writer, info)
}

/// The parameters that a logon and a logoff have in common: all of a logoff's.
#[tactic(auto, unfolding(crate::specs::Writing::put_logoff_call))]
fn write_logoff_parameters(
    writer: &mut Writer,
    server: &Option<Units>,
    computer: &Option<Units>,
    authenticator: &Option<Authenticator>,
    returned: &Option<Authenticator>,
    info: &NetworkInfo,
) -> Result<(), NoMemory>
    requires server { IfThere FitsText server.now }
    requires computer { IfThere FitsText computer.now }
    requires info { CanWriteNetworkInfo info.now }
    ensures exact { OnOk result (
        let call = logoff_of server.now computer.now authenticator.now returned.now info.now in
        writer.new ≡ put_logoff_call call writer.old) }
    ensures range { OnOk result (
        let call = logoff_of server.now computer.now authenticator.now returned.now info.now in
        InRangeLogoffCall call) }
{
    write_unique_text(writer, server)?;
    write_unique_text(writer, computer)?;
    write_unique_authenticator(writer, authenticator)?;
    write_unique_authenticator(writer, returned)?;
    write_leveled_info(writer, info)
}

fn write_logoff_call(writer: &mut Writer, value: &LogoffCall) -> Result<(), NoMemory>
    requires fits { CanWriteLogoffCall value.now }
    ensures exact { OnOk result (writer.new ≡ put_logoff_call value.now writer.old) }
    ensures range { OnOk result (InRangeLogoffCall value.now) }
{
    write_logoff_parameters(
        writer,
        &value.server,
        &value.computer,
        &value.authenticator,
        &value.returned,
        &value.info,
    )
}

#[tactic(auto, unfolding(crate::specs::Writing::put_logoff_reply))]
fn write_logoff_reply(writer: &mut Writer, value: &LogoffReply) -> Result<(), NoMemory>
    ensures exact { OnOk result (writer.new ≡ put_logoff_reply value.now writer.old) }
    ensures range { OnOk result (InRangeLogoffReply value.now) }
{
    write_unique_authenticator(writer, &value.returned)?;
    writer.long(value.status)
}

#[tactic(auto, unfolding(crate::specs::Writing::put_logon_call))]
fn write_logon_call(writer: &mut Writer, value: &LogonCall) -> Result<(), NoMemory>
    requires fits { CanWriteLogonCall value.now }
    ensures exact { OnOk result (writer.new ≡ put_logon_call value.now writer.old) }
    ensures range { OnOk result (InRangeLogonCall value.now) }
{
    write_logoff_parameters(
        writer,
        &value.server,
        &value.computer,
        &value.authenticator,
        &value.returned,
        &value.info,
    )?;
    writer.short(value.validation)
}

/// The arm of a validation level: a pointer, and the information that it points to.
fn write_validation_arm(
    writer: &mut Writer,
    level: u16,
    info: &Option<SamInfo>,
) -> Result<(), NoMemory>
    requires fits { CanWriteArm level info.now }
    ensures exact { OnOk result
        (writer.new ≡ put_unique (put_sam_info (has_extra level)) info.now writer.old) }
    ensures range { OnOk result (IfThere InRangeSamInfo info.now) }
{
    match info {
        Some(info) => {
            writer.pointer(true)?;
            write_sam_info(writer, info, level == 3)
        }
        None => writer.pointer(false),
    }
}

#[tactic(auto, unfolding(crate::specs::Writing::put_logon_reply))]
fn write_logon_reply(writer: &mut Writer, value: &LogonReply) -> Result<(), NoMemory>
    requires fits { CanWriteArm value.now.level value.now.info }
    ensures exact { OnOk result (writer.new ≡ put_logon_reply value.now writer.old) }
    ensures range { OnOk result (InRangeLogonReply value.now) }
{
    write_unique_authenticator(writer, &value.returned)?;
    writer.short(value.level)?;
    write_validation_arm(writer, value.level, &value.info)?;
    writer.byte(value.authoritative)?;
    writer.long(value.status)
}

/// The parameters of a request.
fn write_call_parameters(writer: &mut Writer, call: &Call) -> Result<(), NoMemory>
    requires fits { CanWriteCall call.now }
    ensures exact { OnOk result (writer.new ≡ put_call call.now writer.old) }
    ensures range { OnOk result (InRangeCall call.now) }
{
    match call {
        Call::Logon(value) => write_logon_call(writer, value),
        Call::Logoff(value) => write_logoff_call(writer, value),
        Call::Challenge(value) => write_challenge_call(writer, value),
        Call::Authenticate(value) => write_auth_call(writer, value),
    }
}

/// The parameters of a reply.
fn write_reply_parameters(writer: &mut Writer, reply: &Reply) -> Result<(), NoMemory>
    requires fits { CanWriteReply reply.now }
    ensures exact { OnOk result (writer.new ≡ put_reply reply.now writer.old) }
    ensures range { OnOk result (InRangeReply reply.now) }
{
    match reply {
        Reply::Logon(value) => write_logon_reply(writer, value),
        Reply::Logoff(value) => write_logoff_reply(writer, value),
        Reply::Challenge(value) => write_challenge_reply(writer, value),
        Reply::Authenticate(value) => write_auth_reply(writer, value),
    }
}

/// The stub of a request, in the one form of docs/FORMATS.md. `NoMemory` where no memory was found.
#[tactic(auto, unfolding(crate::specs::Writing::written_call), using(crate::proofs::WrittenLaws::written))]
pub fn write_call(alloc: Global, call: &Call) -> Result<Blob, NoMemory>
    requires { CanWriteCall call.now }
    // The bytes of the written form.
    ensures exact { IfOk result (λ stub. stub ≡ written_call call.now) }
    // The bytes have the layout of the call, and are read as it.
    ensures layout { IfOk result (λ stub. IsCall (opnum_of_call call.now) stub call.now) }
    ensures again { IfOk result (λ stub. call_of (opnum_of_call call.now) stub ≡ Ok call.now) }
{
    let mut writer = Writer::with_room(alloc, STUB_ROOM)?;
    write_call_parameters(&mut writer, call)?;
    Ok(writer.finish())
}

/// The stub of a reply, in the one form of docs/FORMATS.md. `NoMemory` where no memory was found.
#[tactic(auto, unfolding(crate::specs::Writing::written_reply), using(crate::proofs::WrittenLaws::written))]
pub fn write_reply(alloc: Global, reply: &Reply) -> Result<Blob, NoMemory>
    requires { CanWriteReply reply.now }
    // The bytes of the written form.
    ensures exact { IfOk result (λ stub. stub ≡ written_reply reply.now) }
    // The bytes have the layout of the reply, and are read as it.
    ensures layout { IfOk result (λ stub. IsReply (opnum_of_reply reply.now) stub reply.now) }
    ensures again { IfOk result (λ stub. reply_of (opnum_of_reply reply.now) stub ≡ Ok reply.now) }
{
    let mut writer = Writer::with_room(alloc, STUB_ROOM)?;
    write_reply_parameters(&mut writer, reply)?;
    Ok(writer.finish())
}

/// What is written is read, of calls and replies whose numbers, units and bytes have their ranges; and what is read of
/// bytes has them. A stub is bytes, fewer than 2^20. A call has at most 400 bytes more than its texts and responses. A
/// reply whose texts have at most 64 units each has at most 28,015, fewer than are joined from fragments: 65,536 (this
/// project's own choice).
///
/// What is read of bytes can be written: each reply, the information of each logon, and each call whose stub has at
/// most 65,536 bytes.
pub fn what_is_written_is_read()
    ensures calls { (value : Asked) → CanWriteCall value → InRangeCall value →
        call_of (opnum_of_call value) (written_call value) ≡ Ok value }
    ensures replies { (value : Answered) → CanWriteReply value → InRangeReply value →
        reply_of (opnum_of_reply value) (written_reply value) ≡ Ok value }
    ensures call_bytes { (value : Asked) → CanWriteCall value → InRangeCall value →
        AreBytes (written_call value) }
    ensures reply_bytes { (value : Answered) → CanWriteReply value → InRangeReply value →
        AreBytes (written_reply value) }
    ensures call_limit { (value : Asked) → CanWriteCall value → InRangeCall value →
        length (written_call value) < 2 ^ 20 }
    ensures reply_limit { (value : Answered) → CanWriteReply value → InRangeReply value →
        length (written_reply value) < 2 ^ 20 }
    ensures call_short { (value : Asked) → CanWriteCall value → InRangeCall value →
        length (written_call value) ≤ 400 + call_content value }
    ensures reply_joins { (value : Answered) → CanWriteReply value → InRangeReply value →
        IsShortReply value → length (written_reply value) ≤ short_reply_limit }
    ensures call_ranges { (opnum : ℕ) (stub : List ℕ) (value : Asked) →
        AreBytes stub → call_of opnum stub ≡ Ok value → InRangeCall value }
    ensures reply_ranges { (opnum : ℕ) (stub : List ℕ) (value : Answered) →
        AreBytes stub → reply_of opnum stub ≡ Ok value → InRangeReply value }
    ensures call_writable { (opnum : ℕ) (stub : List ℕ) (value : Asked) → AreBytes stub →
        length stub ≤ 65536 → call_of opnum stub ≡ Ok value → CanWriteCall value }
    ensures info_writable { (opnum : ℕ) (stub : List ℕ) (value : Asked) →
        AreBytes stub → call_of opnum stub ≡ Ok value → CanWriteInfo value }
    ensures reply_writable { (opnum : ℕ) (stub : List ℕ) (value : Answered) →
        AreBytes stub → reply_of opnum stub ≡ Ok value → CanWriteReply value }
{}
