//! The keys of a direction (MS-NLMP 3.4.5.2 and 3.4.5.3).

ghost use Rattle.std.specs.Prelude.{◌≡◌};
ghost use Rattle.ntlm_seal.specs.Keys.{signing_text, sealing_text, signing_key_of, sealing_length, sealing_key_of};

use crate::side::Side;
use md5::{Digest, Md5};
use ntlm_flags::{NTLMSSP_NEGOTIATE_56, NTLMSSP_NEGOTIATE_128, has_flag};

/// The key under which a side signs: MD5 of the exported session key and the text of the direction.
#[tactic(auto, unfolding(crate::specs::Keys::signing_key_of))]
pub fn signing_key(exported: &[u8; 16], side: Side) -> [u8; 16]
    ensures { result ≡ signing_key_of exported.now side }
{
    let mut digest = Md5::new();
    digest.update(exported);
    digest.update(signing_text(side));
    digest.finalize()
}

/// The key under which a side seals: MD5 of as much of the exported session key as the flags allow and the text of the
/// direction.
#[tactic(auto, unfolding(crate::specs::Keys::sealing_key_of))]
pub fn sealing_key(exported: &[u8; 16], flags: u32, side: Side) -> [u8; 16]
    ensures { result ≡ sealing_key_of exported.now flags side }
{
    let mut digest = Md5::new();
    digest.update(&exported[..sealing_length(flags)]);
    digest.update(sealing_text(side));
    digest.finalize()
}

/// How many bytes of the exported session key make a sealing key of 128 bits.
const OF_128_BITS: usize = 16;
/// How many bytes of the exported session key make a sealing key of 56 bits.
const OF_56_BITS: usize = 7;
/// How many bytes of the exported session key make a sealing key of 40 bits.
const OF_40_BITS: usize = 5;

/// How many bytes of the exported session key make the sealing key of a session.
fn sealing_length(flags: u32) -> usize
    ensures { result ≡ sealing_length flags }
{
    if has_flag(flags, NTLMSSP_NEGOTIATE_128) {
        OF_128_BITS
    } else if has_flag(flags, NTLMSSP_NEGOTIATE_56) {
        OF_56_BITS
    } else {
        OF_40_BITS
    }
}

/// The text of the direction from a side, for its signing key.
fn signing_text(side: Side) -> &'static [u8]
    ensures { result.now ≡ signing_text side }
{
    match side {
        Side::Client => b"session key to client-to-server signing key magic constant\0",
        Side::Server => b"session key to server-to-client signing key magic constant\0",
    }
}

/// The text of the direction from a side, for its sealing key.
fn sealing_text(side: Side) -> &'static [u8]
    ensures { result.now ≡ sealing_text side }
{
    match side {
        Side::Client => b"session key to client-to-server sealing key magic constant\0",
        Side::Server => b"session key to server-to-client sealing key magic constant\0",
    }
}
