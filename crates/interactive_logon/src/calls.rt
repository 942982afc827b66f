//! The parameters of an interactive logon and of its logoff.

use wire_base::{Authenticator, Units};

/// An interactive logon (NETLOGON_INTERACTIVE_INFO, MS-NRPC 2.2.1.4.3, with its NETLOGON_LOGON_IDENTITY_INFO,
/// 2.2.1.4.15): the names, and the hashes of the password.
#[derive(Debug, Drop)]
pub struct InteractiveInfo {
    pub domain: Units,
    /// Flags of the logon (ParameterControl, MS-NRPC 2.2.1.4.15).
    pub control: u32,
    /// What the sender calls the logon.
    pub logon_id: u64,
    pub user: Units,
    /// The name of the computer that the user is at.
    pub workstation: Units,
    /// The LM hash, as it travels: under RC4 with the session key (LM_OWF_PASSWORD, MS-NRPC 2.2.1.1.3).
    pub lm: [u8; 16],
    /// The NT hash, as it travels: under RC4 with the session key, from the cipher's first byte (NT_OWF_PASSWORD,
    /// MS-NRPC 2.2.1.1.4).
    pub nt: [u8; 16],
}

/// The request of NetrLogonSamLogon, opnum 2, or of NetrLogonSamLogoff, opnum 3, at level 1 (MS-NRPC 3.5.4.5.3,
/// 3.5.4.5.4).
#[derive(Debug, Drop)]
pub struct InteractiveCall {
    /// The name of the controller that is asked.
    pub server: Option<Units>,
    /// The name of the computer that asks.
    pub computer: Option<Units>,
    pub authenticator: Option<Authenticator>,
    /// What the client puts in place of the authenticator to be returned.
    pub returned: Option<Authenticator>,
    pub info: InteractiveInfo,
    /// The validation level that a logon asks for; 0 of a logoff, which has none.
    pub validation: u16,
}
