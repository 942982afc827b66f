//! Cases of `digest_parts`: keys, messages and digests in hex.

use case_words::{bytes, no_case, size, text, word};
use digest_parts::{Hmac, Md4Hasher, hmac_md5, md4};
use std::alloc::Global;

/// `md4 MESSAGE`: the digest.
fn md4_whole(alloc: Global, words: &[&str]) -> anyhow::Result<String> {
    let message = bytes(alloc, word(words, 1))?;
    text(alloc, &md4(&message))
}

/// `md4_pieces SIZE MESSAGE`: the digest of the message in pieces of a size, the last one shorter.
fn md4_pieces(alloc: Global, words: &[&str]) -> anyhow::Result<String> {
    let size = size(word(words, 1))?;
    let message = bytes(alloc, word(words, 2))?;
    let mut hasher = Md4Hasher::new();
    for piece in message.chunks(size.max(1)) {
        hasher.update(piece);
    }
    text(alloc, &hasher.finish())
}

/// `hmac KEY MESSAGE`: the HMAC-MD5.
fn hmac_whole(alloc: Global, words: &[&str]) -> anyhow::Result<String> {
    let key = bytes(alloc, word(words, 1))?;
    let message = bytes(alloc, word(words, 2))?;
    text(alloc, &hmac_md5(&key, &message))
}

/// `hmac_pieces SIZE KEY MESSAGE`: the HMAC-MD5 of the message in pieces of a size, the last one shorter.
fn hmac_pieces(alloc: Global, words: &[&str]) -> anyhow::Result<String> {
    let size = size(word(words, 1))?;
    let key = bytes(alloc, word(words, 2))?;
    let message = bytes(alloc, word(words, 3))?;
    let mut hmac = Hmac::new(&key);
    for piece in message.chunks(size.max(1)) {
        hmac.update(piece);
    }
    text(alloc, &hmac.finish())
}

/// What an operation gives.
pub(crate) fn answer(alloc: Global, operation: &str, words: &[&str]) -> anyhow::Result<String> {
    match operation {
        "md4" => md4_whole(alloc, words),
        "md4_pieces" => md4_pieces(alloc, words),
        "hmac" => hmac_whole(alloc, words),
        "hmac_pieces" => hmac_pieces(alloc, words),
        _ => no_case(alloc),
    }
}
