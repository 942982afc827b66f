//! The start of a turn: its bind, and the call that waits behind it.

ghost use Rattle.std.specs.Prelude.{◌≡◌, ◌<◌, ◌^◌, ◌∷◌, [], IfOk, OnOk, OnErr, ◌≤◌, length};
ghost use Rattle.authenticators.specs.SecureChannels.{after_call};
ghost use Rattle.rpc_units.specs.Writing.{IsWritable, written};
ghost use Rattle.logon_stubs.specs.Writing.{CanWriteNetworkInfo, CanWriteCall};
ghost use Rattle.logon_stubs.specs.Parts.{FitsText};
ghost use Rattle.end_links.specs.Binding.{bind_of};
ghost use Rattle.logon_stubs.specs.Interface.{netlogon_syntax};
ghost use Rattle.wire_base.specs.Units.{AreUnits};
ghost use Rattle.channel_client.specs.declared.state.Standing.TheVariants as standing;
ghost use Rattle.channel_client.specs.Machine.{CanSendSet, CanWriteStep, challenge_call, auth_call, change_call, logon_call, begin_open, begin_with};
ghost use Rattle.channel_client.specs.Sealed.{begin_sealed, bind_by, secure_auth_call};

use crate::caller::Caller;
use crate::sealing::SECURE_FLAGS;
use crate::short_frames::ShortFrames;
use crate::state::{SetStep, Standing, Step};
use authenticators::SecureChannel;
use channel_keys::{SUPPORTED_FLAGS, cred, session_key};
use channel_sealing::sealed_bind;
use end_links::{bind, unit_bytes};
use logon_stubs::{AuthCall, Call, ChallengeCall, LogonCall, NETLOGON, NetworkInfo};
use rpc_units::Unit;
use secret_change::{SetCall, hide};
use std::alloc::Global;
use wire_base::{Authenticator, Blob, Frames, NoMemory};

/// The frames of the bind of that number.
pub(crate) fn bind_frames(alloc: Global, number: u32) -> Result<ShortFrames, NoMemory>
    ensures { IfOk result (λ frames. frames ≡ written (bind_of netlogon_syntax number) ∷ []) }
{
    one_frame(alloc, &bind(alloc, &NETLOGON, number)?)
}

/// The frames of the bind of that number of a channel that seals: on the open channel it tells who binds.
pub(crate) fn sealed_bind_frames(
    alloc: Global,
    standing: &Standing,
    bind_value: &Blob,
    number: u32,
) -> Result<ShortFrames, NoMemory>
    requires some { 0 < length bind_value.now }
    requires few { length bind_value.now ≤ 138 }
    ensures { IfOk result (λ frames. frames
        ≡ written (bind_by standing.now bind_value.now number) ∷ []) }
{
    match standing {
        Standing::Nothing | Standing::Half { .. } => bind_frames(alloc, number),
        Standing::Open(_) => one_frame(alloc, &sealed_bind(alloc, &NETLOGON, number, bind_value)?),
    }
}

/// One unit that isn't too long, as frames.
fn one_frame(alloc: Global, unit: &Unit) -> Result<ShortFrames, NoMemory>
    requires writable { IsWritable unit.now }
    requires short { length (written unit.now) ≤ 5840 }
    ensures { IfOk result (λ frames. frames ≡ written unit.now ∷ []) }
{
    let mut frames = Frames::new(alloc);
    frames.push(unit_bytes(alloc, unit)?)?;
    Ok(ShortFrames::new(frames))
}

/// The call of a turn, by how far the channel is, and how far it is then. Of the caller and the logon it copies what
/// the call carries. Without memory nothing changes.
pub(crate) fn begin_with(
    alloc: Global,
    standing: &mut Standing,
    next: Option<[u8; 16]>,
    caller: &Caller,
    info: &NetworkInfo,
    timestamp: u32,
    challenge: [u8; 8],
) -> Result<Step, NoMemory>
    requires computer { FitsText caller.now.computer }
    requires account { FitsText caller.now.account }
    requires info { CanWriteNetworkInfo info.now }
    ensures step { IfOk result (λ step. step
        ≡ (begin_with standing.old next caller.now info.now timestamp challenge).step) }
    ensures standing { OnOk result (standing.new
        ≡ (begin_with standing.old next caller.now info.now timestamp challenge).standing) }
    ensures unchanged { OnErr result (standing.new ≡ standing.old) }
    ensures writable { IfOk result (λ step. CanWriteStep step) }
{
    if let Standing::Open(channel) = standing {
        return begin_open(alloc, next, channel, caller, info, timestamp);
    }
    let call = match &*standing {
        Standing::Half { client, server } => auth_call(alloc, caller, *client, *server)?,
        Standing::Nothing | Standing::Open(_) => challenge_call(alloc, caller, challenge)?,
    };
    Ok(Step::Bind(call))
}

/// The step with which a turn begins on a channel that seals: it offers secure RPC.
pub(crate) fn begin_sealed(
    alloc: Global,
    standing: &mut Standing,
    next: Option<[u8; 16]>,
    caller: &Caller,
    info: &NetworkInfo,
    timestamp: u32,
    challenge: [u8; 8],
) -> Result<Step, NoMemory>
    requires computer { FitsText caller.now.computer }
    requires account { FitsText caller.now.account }
    requires info { CanWriteNetworkInfo info.now }
    ensures step { IfOk result (λ step. step
        ≡ (begin_sealed standing.old next caller.now info.now timestamp challenge).step) }
    ensures standing { OnOk result (standing.new
        ≡ (begin_sealed standing.old next caller.now info.now timestamp challenge).standing) }
    ensures unchanged { OnErr result (standing.new ≡ standing.old) }
    ensures writable { IfOk result (λ step. CanWriteStep step) }
{
    if let Standing::Open(channel) = standing {
        return begin_open(alloc, next, channel, caller, info, timestamp);
    }
    let call = match &*standing {
        Standing::Half { client, server } => secure_auth_call(alloc, caller, *client, *server)?,
        Standing::Nothing | Standing::Open(_) => challenge_call(alloc, caller, challenge)?,
    };
    Ok(Step::Bind(call))
}

/// The step with which a turn begins on an open channel: while there is a next secret, it is set.
fn begin_open(
    alloc: Global,
    next: Option<[u8; 16]>,
    channel: &mut SecureChannel,
    caller: &Caller,
    info: &NetworkInfo,
    timestamp: u32,
) -> Result<Step, NoMemory>
    requires computer { FitsText caller.now.computer }
    requires account { FitsText caller.now.account }
    requires info { CanWriteNetworkInfo info.now }
    ensures step { IfOk result (λ step. step
        ≡ (begin_open next channel.old caller.now info.now timestamp).step) }
    ensures standing { OnOk result (standing.Open channel.new
        ≡ (begin_open next channel.old caller.now info.now timestamp).standing) }
    ensures unchanged { OnErr result (channel.new ≡ channel.old) }
    ensures writable { IfOk result (λ step. CanWriteStep step) }
{
    match next {
        Some(secret) => match change_call(alloc, caller, channel, timestamp, secret) {
            Ok(call) => Ok(Step::Set(SetStep::Bind(call))),
            Err(NoMemory) => Err(NoMemory),
        },
        None => match logon_call(alloc, caller, channel, timestamp, info) {
            Ok(call) => Ok(Step::Bind(call)),
            Err(NoMemory) => Err(NoMemory),
        },
    }
}

/// NetrServerReqChallenge.
fn challenge_call(alloc: Global, caller: &Caller, challenge: [u8; 8]) -> Result<Call, NoMemory>
    requires { FitsText caller.now.computer }
    ensures value { IfOk result (λ call. call ≡ challenge_call caller.now challenge) }
    ensures writable { IfOk result (λ call. CanWriteCall call) }
{
    Ok(Call::Challenge(ChallengeCall {
        primary: None,
        computer: caller.computer.duplicate(alloc)?,
        challenge,
    }))
}

/// NetrServerAuthenticate2.
fn auth_call(
    alloc: Global,
    caller: &Caller,
    client: [u8; 8],
    server: [u8; 8],
) -> Result<Call, NoMemory>
    requires computer { FitsText caller.now.computer }
    requires account { FitsText caller.now.account }
    ensures value { IfOk result (λ call. call ≡ auth_call caller.now client server) }
    ensures writable { IfOk result (λ call. CanWriteCall call) }
{
    let key = session_key(caller.secret, client, server, SUPPORTED_FLAGS);
    Ok(Call::Authenticate(AuthCall {
        primary: None,
        account: caller.account.duplicate(alloc)?,
        channel: caller.kind,
        computer: caller.computer.duplicate(alloc)?,
        credential: cred(key, client),
        flags: SUPPORTED_FLAGS,
    }))
}

/// NetrServerAuthenticate2 that offers secure RPC.
fn secure_auth_call(
    alloc: Global,
    caller: &Caller,
    client: [u8; 8],
    server: [u8; 8],
) -> Result<Call, NoMemory>
    requires computer { FitsText caller.now.computer }
    requires account { FitsText caller.now.account }
    ensures value { IfOk result (λ call. call ≡ secure_auth_call caller.now client server) }
    ensures writable { IfOk result (λ call. CanWriteCall call) }
{
    let key = session_key(caller.secret, client, server, SECURE_FLAGS);
    Ok(Call::Authenticate(AuthCall {
        primary: None,
        account: caller.account.duplicate(alloc)?,
        channel: caller.kind,
        computer: caller.computer.duplicate(alloc)?,
        credential: cred(key, client),
        flags: SECURE_FLAGS,
    }))
}

/// NetrLogonSamLogon, with the channel's next authenticator. Without memory the channel is as it was.
fn logon_call(
    alloc: Global,
    caller: &Caller,
    channel: &mut SecureChannel,
    timestamp: u32,
    info: &NetworkInfo,
) -> Result<Call, NoMemory>
    requires computer { FitsText caller.now.computer }
    requires info { CanWriteNetworkInfo info.now }
    ensures call { IfOk result (λ call. call
        ≡ logon_call caller.now channel.old timestamp info.now) }
    ensures channel { OnOk result (channel.new ≡ after_call channel.old timestamp) }
    ensures unchanged { OnErr result (channel.new ≡ channel.old) }
    ensures writable { IfOk result (λ call. CanWriteCall call) }
{
    let computer = caller.computer.duplicate(alloc)?;
    let info = info.copy(alloc)?;
    Ok(Call::Logon(LogonCall {
        server: None,
        computer: Some(computer),
        authenticator: Some(channel.make(timestamp)),
        returned: Some(Authenticator {
            credential: [0; 8],
            timestamp: 0,
        }),
        info,
        validation: 3,
    }))
}

/// NetrServerPasswordSet of that secret, with the channel's next authenticator. Without memory the channel is as it
/// was.
#[tactic(auto, using(crate::proofs::StubLaws::change_sends))]
fn change_call(
    alloc: Global,
    caller: &Caller,
    channel: &mut SecureChannel,
    timestamp: u32,
    next: [u8; 16],
) -> Result<SetCall, NoMemory>
    requires computer { FitsText caller.now.computer }
    requires account { FitsText caller.now.account }
    ensures call { IfOk result (λ call. call
        ≡ change_call caller.now channel.old timestamp next) }
    ensures channel { OnOk result (channel.new ≡ after_call channel.old timestamp) }
    ensures unchanged { OnErr result (channel.new ≡ channel.old) }
    ensures writable { IfOk result (λ call. CanSendSet call) }
{
    // Reading them makes it known that numbers and texts have their widths.
    are_units(caller.account.units());
    are_units(caller.computer.units());
    is_short(caller.kind);
    is_long(timestamp);
    let account = caller.account.duplicate(alloc)?;
    let computer = caller.computer.duplicate(alloc)?;
    let hidden = hide(channel.key(), next);
    Ok(SetCall {
        primary: None,
        account,
        channel: caller.kind,
        computer,
        authenticator: channel.make(timestamp),
        hidden,
    })
}

/// Units of 16 bits are units.
fn are_units(units: &[u16])
    ensures { AreUnits units.now }
{}

/// A number of 16 bits is below 2^16.
fn is_short(number: u16)
    ensures { number < 2 ^ 16 }
{}

/// A number of 32 bits is below 2^32.
fn is_long(number: u32)
    ensures { number < 2 ^ 32 }
{}
