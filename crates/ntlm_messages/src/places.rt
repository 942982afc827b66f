//! Where the parts of the three messages stand (MS-NLMP 2.2.1.1, 2.2.1.2, 2.2.1.3): places of the fixed header, counted
//! in bytes from the message's first one, and sizes of the fixed headers in bytes.

/// The message's type.
pub const TYPE: usize = 8;

/// The flags of NEGOTIATE.
pub const NEGOTIATE_FLAGS: usize = 12;
/// The domain's field of NEGOTIATE.
pub const NEGOTIATE_DOMAIN: usize = 16;
/// The workstation's field of NEGOTIATE.
pub const NEGOTIATE_WORKSTATION: usize = 24;
/// The size of the fixed header of NEGOTIATE.
pub const NEGOTIATE_SIZE: usize = 32;
/// The least length of a NEGOTIATE that is taken, since old clients end behind the flags.
pub const NEGOTIATE_LEAST: usize = 16;

/// The target's field of CHALLENGE.
pub const CHALLENGE_TARGET: usize = 12;
/// The flags of CHALLENGE.
pub const CHALLENGE_FLAGS: usize = 20;
/// The server challenge of CHALLENGE, 8 bytes.
pub const CHALLENGE_SERVER: usize = 24;
/// The target information's field of CHALLENGE.
pub const CHALLENGE_INFO: usize = 40;
/// The size of the fixed header of CHALLENGE.
pub const CHALLENGE_SIZE: usize = 48;

/// The LM response's field of AUTHENTICATE.
pub const AUTHENTICATE_LM: usize = 12;
/// The NT response's field of AUTHENTICATE.
pub const AUTHENTICATE_NT: usize = 20;
/// The domain's field of AUTHENTICATE.
pub const AUTHENTICATE_DOMAIN: usize = 28;
/// The user's field of AUTHENTICATE.
pub const AUTHENTICATE_USER: usize = 36;
/// The workstation's field of AUTHENTICATE.
pub const AUTHENTICATE_WORKSTATION: usize = 44;
/// The session key's field of AUTHENTICATE.
pub const AUTHENTICATE_KEY: usize = 52;
/// The flags of AUTHENTICATE.
pub const AUTHENTICATE_FLAGS: usize = 60;
/// The size of the fixed header of AUTHENTICATE.
pub const AUTHENTICATE_SIZE: usize = 64;
