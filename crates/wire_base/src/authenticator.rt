//! What proves a call on a secure channel.

/// A Netlogon authenticator (MS-NRPC 2.2.1.1.5): the credential of the sender at this moment, and the seconds since
/// 1970 that it added to the seed.
#[derive(Clone, Copy, Debug, PartialEq, Eq)]
pub struct Authenticator {
    pub credential: [u8; 8],
    pub timestamp: u32,
}
