//! The three messages as values (MS-NLMP 2.2.1).

use wire_base::Blob;

/// NEGOTIATE_MESSAGE (MS-NLMP 2.2.1.1).
#[derive(Debug, Drop)]
pub struct Negotiate {
    /// Negotiate flags.
    pub flags: u32,
    /// The client's domain in the OEM character set, empty where it isn't supplied.
    pub domain: Blob,
    /// The client's computer name in the OEM character set, empty where it isn't supplied.
    pub workstation: Blob,
    /// The VERSION structure, where there is one.
    pub version: Option<[u8; 8]>,
}

/// CHALLENGE_MESSAGE (MS-NLMP 2.2.1.2).
#[derive(Debug, Drop)]
pub struct Challenge {
    /// Negotiate flags.
    pub flags: u32,
    /// The name of the server or its domain, as text by the flags.
    pub target: Blob,
    /// The server challenge.
    pub challenge: [u8; 8],
    /// The target information, a list of AV_PAIRs or empty.
    pub info: Blob,
    /// The VERSION structure, where there is one.
    pub version: Option<[u8; 8]>,
}

/// AUTHENTICATE_MESSAGE (MS-NLMP 2.2.1.3).
#[derive(Debug, Drop)]
pub struct Authenticate {
    /// Negotiate flags.
    pub flags: u32,
    /// The LM response.
    pub lm: Blob,
    /// The NT response.
    pub nt: Blob,
    /// The domain of the account, as text by the flags.
    pub domain: Blob,
    /// The user's name, as text by the flags.
    pub user: Blob,
    /// The client's computer name, as text by the flags.
    pub workstation: Blob,
    /// The encrypted random session key, or empty.
    pub key: Blob,
    /// The VERSION structure, where there is one.
    pub version: Option<[u8; 8]>,
    /// The message integrity code, where there is one. It is carried and not judged.
    pub mic: Option<[u8; 16]>,
}

/// A NEGOTIATE that lends the parts of the bytes it was read from.
#[derive(Clone, Copy, Debug)]
pub struct NegotiateView<'a> {
    /// Negotiate flags.
    pub flags: u32,
    /// The client's domain.
    pub domain: &'a [u8],
    /// The client's computer name.
    pub workstation: &'a [u8],
    /// The VERSION structure, where there is one.
    pub version: Option<[u8; 8]>,
}

/// A CHALLENGE that lends the parts of the bytes it was read from.
#[derive(Clone, Copy, Debug)]
pub struct ChallengeView<'a> {
    /// Negotiate flags.
    pub flags: u32,
    /// The name of the server or its domain.
    pub target: &'a [u8],
    /// The server challenge.
    pub challenge: [u8; 8],
    /// The target information.
    pub info: &'a [u8],
    /// The VERSION structure, where there is one.
    pub version: Option<[u8; 8]>,
}

/// An AUTHENTICATE that lends the parts of the bytes it was read from.
#[derive(Clone, Copy, Debug)]
pub struct AuthenticateView<'a> {
    /// Negotiate flags.
    pub flags: u32,
    /// The LM response.
    pub lm: &'a [u8],
    /// The NT response.
    pub nt: &'a [u8],
    /// The domain of the account.
    pub domain: &'a [u8],
    /// The user's name.
    pub user: &'a [u8],
    /// The client's computer name.
    pub workstation: &'a [u8],
    /// The encrypted random session key, or empty.
    pub key: &'a [u8],
    /// The VERSION structure, where there is one.
    pub version: Option<[u8; 8]>,
    /// The message integrity code, where there is one.
    pub mic: Option<[u8; 16]>,
}
