//! The key of a logon, hidden in a reply.

ghost use Rattle.std.specs.Prelude.{◌≡◌, ◌==◌};
ghost use Rattle.channel_keys.specs.Hidden.{is_zero, crypt_key};

use rc4_stream::Rc4;

/// The key of a logon under the session key of the channel, or the plain one again: combined with the first 16 bytes of
/// RC4 under the session key, unless it is all zeros (MS-NRPC 3.5.4.5.3; that zeros stay is this project's own choice).
/// It takes no memory.
pub fn crypt_key(session_key: [u8; 16], key: [u8; 16]) -> [u8; 16]
    ensures { result ≡ crypt_key session_key key }
{
    let mut crypted = key;
    if !is_zero(&key) {
        Rc4::new(&session_key).apply(&mut crypted);
    }
    crypted
}

/// Whether the key is all zeros.
fn is_zero(key: &[u8; 16]) -> bool
    ensures { result ≡ is_zero key.now }
{
    *key == [0; 16]
}
