//! DES under a part of a key of 16 bytes: each seven bytes are a key of DES.

ghost use Rattle.std.specs.Prelude.{◌≡◌, ◌≤◌, take, drop};
ghost use Rattle.des_cipher.specs.Des.{des_of, des_back_of, spread_of};

use des_cipher::{des_back, des_block};

/// DES of a block under seven bytes of a key, from a place on.
pub(crate) fn des_under(key: &[u8; 16], from: usize, block: &[u8; 8]) -> [u8; 8]
    requires { from ≤ 9 }
    ensures value { result ≡ des_of (spread_of (take 7 (drop from key.now))) block.now }
    ensures undone { des_back_of (spread_of (take 7 (drop from key.now))) result ≡ block.now }
{
    des_block(seven(key, from), *block)
}

/// The inverse of DES of a block under seven bytes of a key, from a place on.
pub(crate) fn des_back_under(key: &[u8; 16], from: usize, block: &[u8; 8]) -> [u8; 8]
    requires { from ≤ 9 }
    ensures value { result ≡ des_back_of (spread_of (take 7 (drop from key.now))) block.now }
    ensures undone { des_of (spread_of (take 7 (drop from key.now))) result ≡ block.now }
{
    des_back(seven(key, from), *block)
}

/// Seven bytes of a key, from a place on.
pub(crate) fn seven(key: &[u8; 16], from: usize) -> [u8; 7]
    requires { from ≤ 9 }
    ensures { result ≡ take 7 (drop from key.now) }
{
    let mut seven = [0; 7];
    seven.copy_from_slice(&key[from..from + 7]);
    seven
}
