//! The check of an NT response.

ghost use Rattle.std.specs.Prelude.{◌≡◌, ◌≤◌, ◌↔◌, ℕ, List, ◌++◌, replicate, true, false, bytes_eq, length, take, drop, IsTrue, IsSome, IfSome};
ghost use Rattle.wire_base.specs.Units.{AreUnits, utf16_of};
ghost use Rattle.ntlm_flags.specs.Flags.{has_flag, negotiate_extended_sessionsecurity, negotiate_unicode};
ghost use Rattle.ntlm_messages.specs.declared.messages.Authenticate.{Authenticate};
ghost use Rattle.digest_parts.specs.Hmac.{hmac_of};
ghost use Rattle.digest_parts.specs.Md4.{md4_of};
ghost use Rattle.ntlm_responses.specs.Responses.{response_v1_of, response_ess_of, response_v2_of, proof_of};
ghost use Rattle.ntlm_responses.specs.Verification.{Verifies, PairVerifies, MessageVerifies, base_key_of, verified_by, verify_of};

use crate::hashes::nt_key_v2;
use crate::responses::{proof, respond_v1};
use digest_parts::{hmac_md5, md4};

/// The session base key of an NT response that verifies under the NT hash and the names, as the message has them,
/// against the challenge that it answers (MS-NLMP 3.3.1 and 3.3.2).
///
/// A response of 24 bytes must be the NTLMv1 response; one of 44 bytes or more must begin with the proof of NTLMv2 over
/// its rest, whatever the rest holds. None exactly where it isn't so; every other length is None.
#[tactic(auto, using(crate::proofs::VerificationLaws::lengths, crate::proofs::VerificationLaws::decided))]
pub fn verify(
    hash: &[u8; 16],
    user: &[u16],
    domain: &[u16],
    challenge: [u8; 8],
    nt: &[u8],
) -> Option<[u8; 16]>
    ensures value { result ≡ verify_of hash.now user.now domain.now challenge nt.now }
    ensures verifies { IsSome result ↔ Verifies hash.now user.now domain.now challenge nt.now }
    ensures base_key { IfSome result (λ key. key
        ≡ base_key_of hash.now user.now domain.now nt.now) }
{
    match nt.len() {
        24 => verify_v1(hash, challenge, nt),
        44.. => verify_v2(&nt_key_v2(hash, user, domain), challenge, nt),
        _ => None,
    }
}

/// The session base key of a response of 24 bytes that verifies; else None.
fn verify_v1(hash: &[u8; 16], challenge: [u8; 8], nt: &[u8]) -> Option<[u8; 16]>
    ensures { result
        ≡ verified_by (bytes_eq nt.now (response_v1_of hash.now challenge)) (md4_of hash.now) }
{
    if nt != respond_v1(hash, challenge).as_slice() {
        return None;
    }
    Some(md4(hash))
}

/// The session base key of a response of 44 bytes or more that verifies under the NTLMv2 key; else None.
fn verify_v2(key: &[u8; 16], challenge: [u8; 8], nt: &[u8]) -> Option<[u8; 16]>
    requires { 16 ≤ length nt.now }
    ensures { result ≡ verified_by
        (bytes_eq (take 16 nt.now) (proof_of key.now challenge (drop 16 nt.now)))
        (hmac_of key.now (take 16 nt.now)) }
{
    let (claimed, rest) = nt.split_at(16);
    if claimed != proof(key, challenge, rest).as_slice() {
        return None;
    }
    Some(hmac_md5(key, claimed))
}

/// What a client writes into a message is found right by the flags: an NTLMv1 response where extended session security
/// isn't set, one with it where it is and the LM response is the client's challenge and 16 zeros, and an NTLMv2
/// response; and so is a message whose names are written in UTF-16LE, where its responses are right under their units.
/// It does nothing.
pub fn what_is_written_verifies()
    ensures v1 { (hash user domain challenge lm : List ℕ) (flags : ℕ)
        → has_flag flags negotiate_extended_sessionsecurity ≡ false
        → PairVerifies hash flags user domain challenge lm (response_v1_of hash challenge) }
    ensures ess { (hash user domain challenge client : List ℕ) (flags : ℕ)
        → has_flag flags negotiate_extended_sessionsecurity ≡ true → length client ≡ 8
        → PairVerifies hash flags user domain challenge (client ++ replicate 16 0)
        (response_ess_of hash challenge client) }
    ensures v2 { (hash user domain challenge lm client pairs : List ℕ) (flags time : ℕ)
        → length client ≡ 8
        → PairVerifies hash flags user domain challenge lm
        (response_v2_of hash user domain challenge time client pairs) }
    ensures names { (hash user domain challenge : List ℕ) (flags : ℕ) (message : Authenticate)
        → IsTrue (has_flag message.flags negotiate_unicode) → AreUnits user → AreUnits domain
        → message.user ≡ utf16_of user → message.domain ≡ utf16_of domain
        → PairVerifies hash flags user domain challenge message.lm message.nt
        → MessageVerifies hash flags challenge message }
{}
