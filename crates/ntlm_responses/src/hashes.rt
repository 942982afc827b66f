//! The hashes of a password and the keys made of them.

ghost use Rattle.std.specs.Prelude.{◌≡◌, ℕ, List, ◌++◌};
ghost use Rattle.digest_parts.specs.StandsFor.{StandsForUnder};
ghost use Rattle.wire_base.specs.Names.{upper_of, upper_case};
ghost use Rattle.wire_base.specs.Units.{utf16_of};
ghost use Rattle.ntlm_responses.specs.Hashes.{nt_hash_of, lm_key_of, lm_hash_of, key_v2_of, desl_of};

use des_cipher::des_block;
use digest_parts::{Hmac, Md4Hasher};
use wire_base::upper_unit;

/// The text that the LM hash enciphers (MS-NLMP 3.3.1).
const LM_TEXT: [u8; 8] = *b"KGS!@#$%";

/// The NT hash of a password of 16-bit units (MS-NLMP 3.3.1, `NTOWFv1`): MD4 of it in UTF-16LE.
#[tactic(auto, using(wire_base::proofs::UnitLaws::writing), unfolding(crate::specs::Hashes::nt_hash_of))]
pub fn nt_hash(password: &[u16]) -> [u8; 16]
    ensures { result ≡ nt_hash_of password.now }
{
    let mut hasher = Md4Hasher::new();
    for unit in password {
        hasher.update(&unit.to_le_bytes());
    }
    hasher.finish()
}

/// The LM hash of a password of bytes (MS-NLMP 3.3.1, `LMOWFv1`). Its first 14 bytes are used, a to z in upper case;
/// other bytes stand as they are in the character set of the caller.
#[tactic(auto, unfolding(crate::specs::Hashes::lm_hash_of))]
pub fn lm_hash(password: &[u8]) -> [u8; 16]
    ensures { result ≡ lm_hash_of password.now }
{
    let key = lm_key(password);
    let mut first = [0; 7];
    first.copy_from_slice(&key[..7]);
    let mut second = [0; 7];
    second.copy_from_slice(&key[7..]);
    join_two(des_block(first, LM_TEXT), des_block(second, LM_TEXT))
}

/// The NTLMv2 key of a user (MS-NLMP 3.3.2, `NTOWFv2`): HMAC-MD5 under the NT hash of the user's name in upper case and
/// the domain's name as it stands, in UTF-16LE.
#[tactic(auto, unfolding(crate::specs::Hashes::key_v2_of))]
pub fn nt_key_v2(hash: &[u8; 16], user: &[u16], domain: &[u16]) -> [u8; 16]
    ensures { result ≡ key_v2_of hash.now user.now domain.now }
{
    let mut hmac = Hmac::new(hash);
    update_upper_case(&mut hmac, user);
    update_text(&mut hmac, domain);
    hmac.finish()
}

/// DESL(K, D) (MS-NLMP 6): the block enciphered under bytes 0 to 6 of the key, under bytes 7 to 13, and under bytes 14
/// and 15 with five zeros.
#[tactic(auto, unfolding(crate::specs::Hashes::desl_of))]
pub fn desl(key: &[u8; 16], block: [u8; 8]) -> [u8; 24]
    ensures { result ≡ desl_of key.now block }
{
    let mut first = [0; 7];
    first.copy_from_slice(&key[..7]);
    let mut second = [0; 7];
    second.copy_from_slice(&key[7..14]);
    let mut third = [0; 7];
    third[..2].copy_from_slice(&key[14..]);
    join_three(
        des_block(first, block),
        des_block(second, block),
        des_block(third, block),
    )
}

/// Takes a text in upper case, in UTF-16LE.
fn update_upper_case(hmac: &mut Hmac, text: &[u16])
    ensures { (key message : List ℕ) → StandsForUnder hmac.old key message
        → StandsForUnder hmac.new key (message ++ utf16_of (upper_case text.now)) }
{
    for unit in text {
        hmac.update(&upper_unit(*unit).to_le_bytes());
    }
}

/// Takes a text as it stands, in UTF-16LE.
fn update_text(hmac: &mut Hmac, text: &[u16])
    ensures { (key message : List ℕ) → StandsForUnder hmac.old key message
        → StandsForUnder hmac.new key (message ++ utf16_of text.now) }
{
    for unit in text {
        hmac.update(&unit.to_le_bytes());
    }
}

/// The password in upper case, cut to 14 bytes or filled with zeros.
fn lm_key(password: &[u8]) -> [u8; 14]
    ensures { result ≡ lm_key_of password.now }
{
    let mut key = [0; 14];
    for i in 0..password.len().min(14) {
        key[i] = upper_byte(password[i]);
    }
    key
}

/// The ASCII upper case of a byte.
#[tactic(auto, unfolding(wire_base::specs::Names::upper_of))]
fn upper_byte(byte: u8) -> u8
    ensures { result ≡ upper_of byte }
{
    byte.to_ascii_uppercase()
}

/// Two blocks, one after the other.
fn join_two(first: [u8; 8], second: [u8; 8]) -> [u8; 16]
    ensures { result ≡ first ++ second }
{
    let mut joined = [0; 16];
    joined[..8].copy_from_slice(&first);
    joined[8..].copy_from_slice(&second);
    joined
}

/// Three blocks, one after another.
fn join_three(first: [u8; 8], second: [u8; 8], third: [u8; 8]) -> [u8; 24]
    ensures { result ≡ first ++ second ++ third }
{
    let mut joined = [0; 24];
    joined[..16].copy_from_slice(&join_two(first, second));
    joined[16..].copy_from_slice(&third);
    joined
}
