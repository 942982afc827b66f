//! The calls that a controller serves.

ghost use Rattle.std.specs.Prelude.{◌≡◌};
ghost use Rattle.controller_calls.specs.Calls.{asked_of, computer_named, given_in};

use interactive_logon::{InteractiveCall, InteractiveInfo};
use logon_stubs::{AuthCall, ChallengeCall, LogoffCall, LogonCall, NetworkInfo};
use secret_change::SetCall;
use wire_base::{Authenticator, Units};

/// A call that a controller serves.
#[derive(Debug, Drop)]
pub enum ControllerCall {
    Challenge(ChallengeCall),
    Authenticate(AuthCall),
    Judged(JudgedCall),
}

/// A call that asks for something on a secure channel: it names a computer and has an authenticator (MS-NRPC 3.1.4.5).
#[derive(Debug, Drop)]
pub enum JudgedCall {
    /// NetrLogonSamLogon with a network logon, at level 2 (MS-NRPC 3.5.4.5.3).
    Network(LogonCall),
    /// NetrLogonSamLogon with an interactive logon, at level 1 (MS-NRPC 3.5.4.5.3).
    Interactive(InteractiveCall),
    /// NetrLogonSamLogoff of an interactive logon, at level 1 (MS-NRPC 3.5.4.5.4).
    Logoff(InteractiveCall),
    /// NetrLogonSamLogoff of a network logon, at level 2 (MS-NRPC 3.5.4.5.4).
    NetworkLogoff(LogoffCall),
    /// NetrServerPasswordSet (MS-NRPC 3.5.4.4.6).
    Set(SetCall),
}

/// What is asked on a secure channel.
#[derive(Debug, Drop)]
pub enum Asked {
    /// A network logon, with the validation level that is asked for.
    Network(NetworkInfo, u16),
    /// An interactive logon, with the validation level that is asked for.
    Interactive(InteractiveInfo, u16),
    /// The logoff of an interactive logon.
    Logoff(InteractiveInfo),
    /// The logoff of a network logon, which is of no level that is served.
    NetworkLogoff,
    /// Another secret for the account of that name and type of channel; the secret is hidden under the channel's key.
    Set(Units, u16, [u8; 16]),
}

/// The computer that a call names, its authenticator, and what it asks.
pub(crate) fn parts(call: JudgedCall) -> (Option<Units>, Option<Authenticator>, Asked)
    ensures computer { result.0 ≡ computer_named call }
    ensures given { result.1 ≡ given_in call }
    ensures asked { result.2 ≡ asked_of call }
{
    match call {
        JudgedCall::Network(call) => (
            call.computer,
            call.authenticator,
            Asked::Network(call.info, call.validation),
        ),
        JudgedCall::Interactive(call) => (
            call.computer,
            call.authenticator,
            Asked::Interactive(call.info, call.validation),
        ),
        JudgedCall::Logoff(call) => {
            (call.computer, call.authenticator, Asked::Logoff(call.info))
        }
        JudgedCall::NetworkLogoff(call) => {
            (call.computer, call.authenticator, Asked::NetworkLogoff)
        }
        JudgedCall::Set(call) => (
            Some(call.computer),
            Some(call.authenticator),
            Asked::Set(call.account, call.channel, call.hidden),
        ),
    }
}
