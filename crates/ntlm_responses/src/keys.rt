//! The keys of a session.

ghost use Rattle.std.specs.Prelude.{◌≡◌, ◌≢◌, ◌↔◌, ◌++◌, length, IsNone, IfSome, Some, IsTrue};
ghost use Rattle.digest_parts.specs.Hmac.{hmac_of};
ghost use Rattle.ntlm_flags.specs.Flags.{has_flag, negotiate_key_exch};
ghost use Rattle.ntlm_responses.specs.Keys.{exchange_key_of, exported_key_of};

use crate::responses::client_challenge;
use digest_parts::Hmac;
use ntlm_flags::{NTLMSSP_NEGOTIATE_KEY_EXCH, has_flag};
use rc4_stream::Rc4;

/// The key exchange key (MS-NLMP 3.4.5.1, `KXKEY`), of the session base key, the flags, the server's challenge and both
/// responses. For NTLMv1 with extended session security it is HMAC-MD5 under the base key of the server's challenge and
/// the first 8 bytes of the LM response; else it is the base key.
pub fn exchange_key(
    base: [u8; 16],
    flags: u32,
    challenge: [u8; 8],
    lm: &[u8],
    nt: &[u8],
) -> [u8; 16]
    ensures { result ≡ exchange_key_of base flags challenge lm.now nt.now }
{
    match client_challenge(flags, lm, nt) {
        Some(client) => hmac_of_pair(&base, challenge, client),
        None => base,
    }
}

/// The exported session key (MS-NLMP 3.2.5.1.2) of the exchange key, the flags and the key field of AUTHENTICATE. Where
/// keys are exchanged it is the field under RC4 with the exchange key; else it is the exchange key. None exactly where
/// keys are exchanged and the field hasn't 16 bytes. Where keys are exchanged this undoes itself: under the same
/// exchange key what is given makes the field again, so by this call a client makes its key field of the key that it
/// chose.
#[tactic(auto, using(crate::proofs::ResponseLaws::undone))]
pub fn exported_key(exchange: [u8; 16], flags: u32, key: &[u8]) -> Option<[u8; 16]>
    ensures value { result ≡ exported_key_of exchange flags key.now }
    ensures undone { IfSome result (λ exported. IsTrue (has_flag flags negotiate_key_exch)
        → exported_key_of exchange flags exported ≡ Some key.now) }
    ensures none { IsNone result
        ↔ (IsTrue (has_flag flags negotiate_key_exch) × (length key.now ≢ 16)) }
{
    if !has_flag(flags, NTLMSSP_NEGOTIATE_KEY_EXCH) {
        return Some(exchange);
    }
    if key.len() != 16 {
        return None;
    }
    let mut exported = [0; 16];
    exported.copy_from_slice(key);
    Rc4::new(&exchange).apply(&mut exported);
    Some(exported)
}

/// HMAC-MD5 of two challenges.
fn hmac_of_pair(key: &[u8; 16], challenge: [u8; 8], client: [u8; 8]) -> [u8; 16]
    ensures { result ≡ hmac_of key.now (challenge ++ client) }
{
    let mut hmac = Hmac::new(key);
    hmac.update(&challenge);
    hmac.update(&client);
    hmac.finish()
}
