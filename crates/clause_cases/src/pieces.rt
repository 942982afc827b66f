//! What a caller proves of a message in two pieces, and in three, with no proof of its own.

ghost use Rattle.std.specs.Prelude.{◌≡◌, ◌++◌};
ghost use Rattle.digest_parts.specs.Hmac.{hmac_of};
ghost use Rattle.digest_parts.specs.Md4.{md4_of};

use digest_parts::{Hmac, Md4Hasher};
#[cfg(test)]
use digest_parts::{hmac_md5, md4};

/// The MD4 digest (RFC 1320), 16 bytes, of two pieces, one behind the other.
pub fn md4_of_two(first: &[u8], second: &[u8]) -> [u8; 16]
    ensures { result ≡ md4_of (first.now ++ second.now) }
{
    let mut hasher = Md4Hasher::new();
    hasher.update(first);
    hasher.update(second);
    hasher.finish()
}

/// The HMAC-MD5 (RFC 2104), 16 bytes, of two pieces under a key of any length.
pub fn hmac_of_two(key: &[u8], first: &[u8], second: &[u8]) -> [u8; 16]
    ensures { result ≡ hmac_of key.now (first.now ++ second.now) }
{
    let mut hmac = Hmac::new(key);
    hmac.update(first);
    hmac.update(second);
    hmac.finish()
}

/// The HMAC-MD5 (RFC 2104), 16 bytes, of three pieces under a key of 16 bytes: of a challenge of eight bytes, and of a
/// response in two parts, as MS-NLMP 3.3.2 takes it.
pub fn hmac_of_three(key: &[u8; 16], first: &[u8; 8], second: &[u8], third: &[u8]) -> [u8; 16]
    ensures { result ≡ hmac_of key.now (first.now ++ second.now ++ third.now) }
{
    let mut hmac = Hmac::new(key);
    hmac.update(first);
    hmac.update(second);
    hmac.update(third);
    hmac.finish()
}

#[test]
fn pieces_joined(rt: HostRuntime) {
    assert_eq!(rt; md4_of_two(b"message ", b"digest"), md4(b"message digest"));
    let key = [0x0b; 16];
    assert_eq!(rt;
        hmac_of_two(&key, b"Hi ", b"There"),
        hmac_md5(&key, b"Hi There")
    );
    assert_eq!(rt;
        hmac_of_three(&key, b"Test Usi", b"ng", b""),
        hmac_md5(&key, b"Test Using")
    );
}
