//! The negotiated options of a secure channel (MS-NRPC 3.1.4.2, NegotiateFlags).

ghost use Rattle.std.specs.Prelude.{◌≡◌};
ghost use Rattle.channel_keys.specs.Flags.{granted_of};

/// RC4 for what is hidden under the session key.
pub const RC4: u32 = 0x0000_0004;
/// The strong session key.
pub const STRONG_KEY: u32 = 0x0000_4000;
/// AES and SHA2.
pub const AES: u32 = 0x0100_0000;
/// Secure RPC: the channel's calls may be sealed.
pub const SECURE_RPC: u32 = 0x4000_0000;

/// The flags that ends of this project offer and grant (this project's own choice).
pub const SUPPORTED_FLAGS: u32 = 0x0000_41ff;

/// The flags that an end grants of those offered: the ones that it supports (MS-NRPC 3.5.4.4.3, NegotiateFlags).
pub fn granted_flags(supported: u32, offered: u32) -> u32
    ensures { result ≡ granted_of supported offered }
{
    offered & supported
}
