//! HMAC-MD5 (RFC 2104) of a message under a key, whole or in pieces.

ghost use Rattle.std.specs.Prelude.{◌≡◌, ℕ, List, [], ◌++◌, map, bit_xor};
ghost use Rattle.md5.specs.Md5.{Holds};
ghost use Rattle.digest_parts.specs.Hmac.{hmac_of, key_block, padded_key};

use md5::{Digest, Md5};

/// The byte of the inner pad (RFC 2104 2).
const IPAD: u8 = 0x36;

/// The byte of the outer pad (RFC 2104 2).
const OPAD: u8 = 0x5c;

/// The HMAC-MD5 of a message under a key, both of any length (RFC 2104).
pub fn hmac_md5(key: &[u8], message: &[u8]) -> [u8; 16]
    ensures { result ≡ hmac_of key.now message.now }
{
    let mut hmac = Hmac::new(key);
    hmac.update(message);
    hmac.finish()
}

/// HMAC-MD5 (RFC 2104) of a message that comes in pieces: `new` with the key, an `update` for each piece,
/// and `finish`.
#[derive(Drop)]
pub struct Hmac {
    // The digest of the key combined with the inner pad and of the message.
    inner: Md5,
    // The digest of the key combined with the outer pad, which the inner digest is to follow.
    outer: Md5,
}

impl Hmac {
    ghost use Rattle.digest_parts.specs.StandsFor.{StandsForUnder};

    /// An HMAC that stands, under the key, for the empty message.
    #[tactic(auto, unfolding(crate::specs::StandsFor::StandsForUnder, crate::specs::Hmac::padded_key))]
    pub fn new(key: &[u8]) -> Hmac
        ensures { StandsForUnder result key.now [] }
    {
        let block = key_block(key);
        Hmac {
            inner: keyed(&block, IPAD),
            outer: keyed(&block, OPAD),
        }
    }

    /// Takes a piece: the HMAC then stands for its message followed by the piece.
    #[tactic(auto, unfolding(crate::specs::StandsFor::StandsForUnder))]
    pub fn update(&mut self, piece: &[u8])
        ensures { (key message : List ℕ) →
            StandsForUnder self.old key message →
            StandsForUnder self.new key (message ++ piece.now) }
    {
        self.inner.update(piece);
    }

    /// The HMAC-MD5 of the message, under the key, for which it stands.
    #[tactic(auto, unfolding(crate::specs::StandsFor::StandsForUnder, crate::specs::Hmac::hmac_of))]
    pub fn finish(self) -> [u8; 16]
        ensures { (key message : List ℕ) → StandsForUnder self key message →
            result ≡ hmac_of key message }
    {
        let Hmac { inner, mut outer } = self;
        outer.update(&inner.finalize());
        outer.finalize()
    }
}

// The key, or its digest where it is longer than a block, with zeros to the end of the block.
#[tactic(auto, unfolding(crate::specs::Hmac::key_block, crate::specs::Hmac::shortened))]
fn key_block(key: &[u8]) -> [u8; 64]
    ensures { result ≡ key_block key.now }
{
    let mut block = [0; 64];
    if key.len() > 64 {
        block[..16].copy_from_slice(&Md5::digest(key));
    } else {
        block[..key.len()].copy_from_slice(key);
    }
    block
}

// A digest that has taken a key's block combined with a pad.
fn keyed(block: &[u8; 64], pad: u8) -> Md5
    ensures { Holds result (map (λ byte. bit_xor byte pad) block.now) }
{
    let mut digest = Md5::new();
    digest.update(&combined(block, pad));
    digest
}

// A key's block combined with a pad.
fn combined(block: &[u8; 64], pad: u8) -> [u8; 64]
    ensures { result ≡ map (λ byte. bit_xor byte pad) block.now }
{
    let mut combined = *block;
    for byte in combined.iter_mut() {
        *byte ^= pad;
    }
    combined
}
