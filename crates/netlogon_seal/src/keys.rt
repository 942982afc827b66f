//! The numbers, the checksum and the keys of a unit (MS-NRPC 3.3.4.2.1).

ghost use Rattle.std.specs.Prelude.{◌≡◌, take, map, bit_xor};
ghost use Rattle.rc4_stream.specs.Rc4.{applied};
ghost use Rattle.netlogon_seal.specs.Signatures.{sequence_bytes, checksum_of, sealing_key_of, sequence_key_of, masked_key};

use digest_parts::hmac_md5;
use md5::{Digest, Md5};
use rc4_stream::Rc4;

/// The algorithms, padding and flags with which a signature begins (MS-NRPC 2.2.1.3.2): HMAC-MD5 and RC4.
pub(crate) const ALGORITHMS: [u8; 8] = [0x77, 0x00, 0x7A, 0x00, 0xFF, 0xFF, 0x00, 0x00];

/// The bytes of the number of a unit, high byte first, and of the end that sends it.
#[tactic(auto, unfolding(crate::specs::Signatures::sequence_bytes))]
pub(crate) fn sequence_bytes(number: u32, requester: bool) -> [u8; 8]
    ensures { result ≡ sequence_bytes number requester }
{
    let [a, b, c, d] = number.to_be_bytes();
    [a, b, c, d, if requester { 0x80 } else { 0 }, 0, 0, 0]
}

/// The checksum of a plain unit, before its signature.
#[tactic(auto, unfolding(crate::specs::Signatures::checksum_of))]
pub(crate) fn checksum(key: &[u8; 16], confounder: &[u8; 8], plain: &[u8]) -> [u8; 8]
    ensures { result ≡ checksum_of key.now confounder.now plain.now }
{
    let mut digest = Md5::new();
    digest.update(&[0; 4]);
    digest.update(&ALGORITHMS);
    digest.update(confounder);
    digest.update(plain);
    first_half(&hmac_md5(key, &digest.finalize()))
}

/// The first half of a digest.
fn first_half(digest: &[u8; 16]) -> [u8; 8]
    ensures { result ≡ take 8 digest.now }
{
    let mut half = [0; 8];
    half.copy_from_slice(&digest[..8]);
    half
}

/// The key under which a unit and its confounder are sealed.
#[tactic(auto, unfolding(crate::specs::Signatures::sealing_key_of))]
pub(crate) fn sealing_key(key: &[u8; 16], sequence: &[u8; 8]) -> [u8; 16]
    ensures { result ≡ sealing_key_of key.now sequence.now }
{
    hmac_md5(&hmac_md5(&mask_key(key), &[0; 4]), sequence)
}

/// The byte that is combined with each of the channel's key for sealing.
const MASK: u8 = 0xF0;

/// The channel's key, each byte combined with the mask.
#[tactic(auto, unfolding(crate::specs::Signatures::masked_key))]
fn mask_key(key: &[u8; 16]) -> [u8; 16]
    ensures { result ≡ masked_key key.now }
{
    let mut masked = *key;
    for byte in masked.iter_mut() {
        *byte ^= MASK;
    }
    masked
}

/// The key under which the number is hidden.
#[tactic(auto, unfolding(crate::specs::Signatures::sequence_key_of))]
pub(crate) fn sequence_key(key: &[u8; 16], checksum: &[u8; 8]) -> [u8; 16]
    ensures { result ≡ sequence_key_of key.now checksum.now }
{
    hmac_md5(&hmac_md5(key, &[0; 4]), checksum)
}

/// Eight bytes combined with the first of a key's stream.
pub(crate) fn combine_eight(key: &[u8; 16], mut bytes: [u8; 8]) -> [u8; 8]
    ensures { result ≡ applied key.now 0 bytes }
{
    Rc4::new(key).apply(&mut bytes);
    bytes
}
