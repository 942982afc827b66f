//! The responses to a challenge, and the challenge that a response answers.

ghost use Rattle.std.specs.Prelude.{◌≡◌, ◌≤◌, ℕ, List, length, IfOk};
ghost use Rattle.des_cipher.specs.Des.{IsBlock};
ghost use Rattle.ntlm_responses.specs.Hashes.{desl_of};
ghost use Rattle.ntlm_responses.specs.Responses.{response_v1_of, hashed_challenge_of, response_ess_of, temp_of, proof_of, response_v2_of, client_challenge_of, challenge_for_of};
ghost use Rattle.ntlm_responses.specs.Verification.{Verifies};

use crate::hashes::{desl, nt_key_v2};
use digest_parts::Hmac;
use md5::{Digest, Md5};
use ntlm_flags::{NTLMSSP_NEGOTIATE_EXTENDED_SESSIONSECURITY, has_flag};
use std::alloc::Global;
use wire_base::{Blob, NoMemory};

/// The NTLMv1 response to a challenge (MS-NLMP 3.3.1): DESL of the challenge under the NT hash.
#[tactic(auto, using(crate::proofs::ResponseLaws::written), unfolding(crate::specs::Responses::response_v1_of))]
pub fn respond_v1(hash: &[u8; 16], challenge: [u8; 8]) -> [u8; 24]
    ensures value { result ≡ response_v1_of hash.now challenge }
    ensures verifies { (user domain : List ℕ) → Verifies hash.now user domain challenge result }
{
    desl(hash, challenge)
}

/// Under one hash no two challenges have one NTLMv1 response: its first block is the challenge under one key. It does
/// nothing.
pub fn one_response_answers_one_challenge()
    ensures { (hash one other : List ℕ) → IsBlock one → IsBlock other
        → response_v1_of hash one ≡ response_v1_of hash other → one ≡ other }
{}

/// The challenge that stands in the server's place under extended session security (MS-NLMP 3.3.1): the first 8 bytes
/// of MD5 of the server's challenge and the client's.
#[tactic(auto, unfolding(crate::specs::Responses::hashed_challenge_of))]
pub fn hashed_challenge(challenge: [u8; 8], client: [u8; 8]) -> [u8; 8]
    ensures { result ≡ hashed_challenge_of challenge client }
{
    let mut digest = Md5::new();
    digest.update(&challenge);
    digest.update(&client);
    let mut hashed = [0; 8];
    hashed.copy_from_slice(&digest.finalize()[..8]);
    hashed
}

/// The NTLMv1 response with extended session security (MS-NLMP 3.3.1): DESL of the hashed challenge under the NT hash.
#[tactic(auto, unfolding(crate::specs::Responses::response_ess_of))]
pub fn respond_v1_ess(hash: &[u8; 16], challenge: [u8; 8], client: [u8; 8]) -> [u8; 24]
    ensures value { result ≡ response_ess_of hash.now challenge client }
    ensures verifies { (user domain : List ℕ)
        → Verifies hash.now user domain (hashed_challenge_of challenge client) result }
{
    respond_v1(hash, hashed_challenge(challenge, client))
}

/// The NTLMv2 response to a challenge (MS-NLMP 3.3.2): the proof and what it is over, which holds the time (100 ns from
/// 1601), the client's challenge and the pairs with their end pair.
#[tactic(auto, unfolding(crate::specs::Responses::response_v2_of))]
pub fn respond_v2(
    alloc: Global,
    hash: &[u8; 16],
    user: &[u16],
    domain: &[u16],
    challenge: [u8; 8],
    time: u64,
    client: [u8; 8],
    pairs: &[u8],
) -> Result<Blob, NoMemory>
    ensures value { IfOk result (λ r. r
        ≡ response_v2_of hash.now user.now domain.now challenge time client pairs.now) }
    ensures verifies { IfOk result (λ r. Verifies hash.now user.now domain.now challenge r) }
{
    let temp = temp(alloc, time, client, pairs)?;
    let key = nt_key_v2(hash, user, domain);
    let mut response = Vec::from_slice(alloc, &proof(&key, challenge, &temp))?;
    response.extend_from_slice(&temp)?;
    Ok(Blob::from_vec(response))
}

/// The challenge that the NT response of a message answers (MS-NLMP 3.3.1): the hashed challenge with the first 8 bytes
/// of the LM response where the flag of extended session security is set and both responses have 24 bytes, else the
/// server's challenge.
pub fn challenge_for(flags: u32, challenge: [u8; 8], lm: &[u8], nt: &[u8]) -> [u8; 8]
    ensures { result ≡ challenge_for_of flags challenge lm.now nt.now }
{
    match client_challenge(flags, lm, nt) {
        Some(client) => hashed_challenge(challenge, client),
        None => challenge,
    }
}

/// The client's challenge, with which an LM response begins where the pair of responses is NTLMv1 with extended session
/// security: the flag is set and both have 24 bytes. None for another pair.
#[tactic(auto, unfolding(crate::specs::Responses::is_ess_pair))]
pub fn client_challenge(flags: u32, lm: &[u8], nt: &[u8]) -> Option<[u8; 8]>
    ensures { result ≡ client_challenge_of flags lm.now nt.now }
{
    if !has_flag(flags, NTLMSSP_NEGOTIATE_EXTENDED_SESSIONSECURITY)
        || lm.len() != 24
        || nt.len() != 24
    {
        return None;
    }
    let mut client = [0; 8];
    client.copy_from_slice(&lm[..8]);
    Some(client)
}

/// The proof of NTLMv2 over what follows it in a response.
#[tactic(auto, unfolding(crate::specs::Responses::proof_of))]
pub fn proof(key: &[u8; 16], challenge: [u8; 8], temp: &[u8]) -> [u8; 16]
    ensures { result ≡ proof_of key.now challenge temp.now }
{
    let mut hmac = Hmac::new(key);
    hmac.update(&challenge);
    hmac.update(temp);
    hmac.finish()
}

/// What the proof of NTLMv2 is over.
#[tactic(auto, unfolding(crate::specs::Responses::temp_of))]
fn temp(alloc: Global, time: u64, client: [u8; 8], pairs: &[u8]) -> Result<Vec<u8>, NoMemory>
    ensures value { IfOk result (λ v. v.items ≡ temp_of time client pairs.now) }
    ensures enough { IfOk result (λ v. 28 ≤ length v.items) }
{
    let mut temp = Vec::new(alloc);
    temp.extend_from_slice(&[1, 1, 0, 0, 0, 0, 0, 0])?;
    temp.extend_from_slice(&time.to_le_bytes())?;
    temp.extend_from_slice(&client)?;
    temp.extend_from_slice(&[0; 4])?;
    temp.extend_from_slice(pairs)?;
    temp.extend_from_slice(&[0; 4])?;
    Ok(temp)
}
