//! The session key of a secure channel, made of the account's secret and both challenges.

ghost use Rattle.std.specs.Prelude.{◌≡◌, ◌≤◌, ◌++◌, take, drop};
ghost use Rattle.std.specs.Int.{w32, from_le_bytes};
ghost use Rattle.channel_keys.specs.SessionKeys.{strong_key_of, des_key_of, key_of, half_sum, halves_sum};

use crate::flags::STRONG_KEY;
use crate::parts::des_under;
use digest_parts::hmac_md5;
use md5::{Digest, Md5};
use ntlm_flags::has_flag;

/// The session key of a channel with these flags: the strong key where `STRONG_KEY` is set, else the DES key
/// (MS-NRPC 3.1.4.3).
pub fn session_key(secret: [u8; 16], client: [u8; 8], server: [u8; 8], flags: u32) -> [u8; 16]
    ensures { result ≡ key_of secret client server flags }
{
    if has_flag(flags, STRONG_KEY) {
        strong_key(secret, client, server)
    } else {
        des_key(secret, client, server)
    }
}

/// The strong key (MS-NRPC 3.1.4.3.2): HMAC-MD5, under the account's secret (its NT hash), of MD5 of four zeros and
/// both challenges.
#[tactic(auto, unfolding(crate::specs::SessionKeys::strong_key_of))]
pub fn strong_key(secret: [u8; 16], client: [u8; 8], server: [u8; 8]) -> [u8; 16]
    ensures { result ≡ strong_key_of secret client server }
{
    let mut digest = Md5::new();
    digest.update(&[0; 4]);
    digest.update(&client);
    digest.update(&server);
    hmac_md5(&secret, &digest.finalize())
}

/// The DES key (MS-NRPC 3.1.4.3.3): the sum of both challenges, half by half, under bytes 0 to 6 of the secret and then
/// under bytes 9 to 15, and eight zeros.
#[tactic(auto, unfolding(crate::specs::SessionKeys::des_key_of))]
pub fn des_key(secret: [u8; 16], client: [u8; 8], server: [u8; 8]) -> [u8; 16]
    ensures { result ≡ des_key_of secret client server }
{
    let once = des_under(&secret, 0, &halves_sum(client, server));
    let mut key = [0; 16];
    key[..8].copy_from_slice(&des_under(&secret, 9, &once));
    key
}

/// The sum of two challenges, half by half.
#[tactic(auto, unfolding(crate::specs::SessionKeys::halves_sum))]
fn halves_sum(client: [u8; 8], server: [u8; 8]) -> [u8; 8]
    ensures { result ≡ halves_sum client server }
{
    join(half_sum(&client, &server, 0), half_sum(&client, &server, 4))
}

/// Two halves, one after the other.
fn join(first: [u8; 4], second: [u8; 4]) -> [u8; 8]
    ensures { result ≡ first ++ second }
{
    let mut whole = [0; 8];
    whole[..4].copy_from_slice(&first);
    whole[4..].copy_from_slice(&second);
    whole
}

/// The sum of the numbers of four bytes, low byte first, at a place of two challenges, modulo 2^32.
#[tactic(auto, unfolding(crate::specs::SessionKeys::half_sum))]
fn half_sum(client: &[u8; 8], server: &[u8; 8], at: usize) -> [u8; 4]
    requires { at ≤ 4 }
    ensures { result ≡ half_sum (take 4 (drop at client.now)) (take 4 (drop at server.now)) }
{
    let sum = word(client, at).wrapping_add(word(server, at));
    sum.to_le_bytes()
}

/// The number of four bytes of a challenge, low byte first, from a place on.
fn word(challenge: &[u8; 8], at: usize) -> u32
    requires { at ≤ 4 }
    ensures { result ≡ from_le_bytes w32 (take 4 (drop at challenge.now)) }
{
    let mut word = [0; 4];
    word.copy_from_slice(&challenge[at..at + 4]);
    u32::from_le_bytes(word)
}
