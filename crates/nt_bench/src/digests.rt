//! Turns of digests and key streams.

use crate::bench::{KEY, Outcome, end_of};
use digest_parts::{hmac_md5, md4};
use rc4_stream::Rc4;

/// MD4 of a message, computed `turns` times.
pub fn digests(message: &[u8], turns: u32) -> Outcome {
    let mut digest = [0; 16];
    for _ in 0..turns {
        digest = md4(message);
    }
    end_of(&digest)
}

/// HMAC-MD5 of a message under the fixed key, computed `turns` times.
pub fn codes(message: &[u8], turns: u32) -> Outcome {
    let mut code = [0; 16];
    for _ in 0..turns {
        code = hmac_md5(&KEY, message);
    }
    end_of(&code)
}

/// The first 16 bytes of the key stream of the fixed key, computed `turns` times.
pub fn key_streams(turns: u32) -> Outcome {
    let mut stream = [0; 16];
    for _ in 0..turns {
        stream = key_stream();
    }
    end_of(&stream)
}

/// The first 16 bytes of the key stream of the fixed key.
fn key_stream() -> [u8; 16] {
    let mut bytes = [0; 16];
    Rc4::new(&KEY).apply(&mut bytes);
    bytes
}
