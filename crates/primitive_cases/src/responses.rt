//! Cases of `ntlm_responses`: hashes, challenges, responses and keys in hex, names and passwords as 16-bit units in
//! hex, flags in eight hex digits, times in sixteen.

use case_words::{bytes, eight, flags, no_case, sixteen, text, text_units, word};
use ntlm_responses::{
    challenge_for, exchange_key, exported_key, hashed_challenge, lm_hash, nt_hash, nt_key_v2,
    respond_v1, respond_v1_ess, respond_v2, verify,
};
use std::alloc::Global;

/// A key in hex, or `none`.
fn text_of_key(alloc: Global, key: Option<[u8; 16]>) -> anyhow::Result<String> {
    match key {
        Some(key) => text(alloc, &key),
        None => Ok("none".to_string(alloc)?),
    }
}

/// `nt_hash PASSWORD`, of units.
fn nt_hash_of(alloc: Global, words: &[&str]) -> anyhow::Result<String> {
    let password = text_units(alloc, word(words, 1))?;
    text(alloc, &nt_hash(password.units()))
}

/// `lm_hash PASSWORD`, of bytes.
fn lm_hash_of(alloc: Global, words: &[&str]) -> anyhow::Result<String> {
    let password = bytes(alloc, word(words, 1))?;
    text(alloc, &lm_hash(&password))
}

/// `nt_key_v2 HASH USER DOMAIN`.
fn nt_key_v2_of(alloc: Global, words: &[&str]) -> anyhow::Result<String> {
    let hash = sixteen(word(words, 1))?;
    let user = text_units(alloc, word(words, 2))?;
    let domain = text_units(alloc, word(words, 3))?;
    text(alloc, &nt_key_v2(&hash, user.units(), domain.units()))
}

/// `respond_v1 HASH CHALLENGE`.
fn respond_v1_of(alloc: Global, words: &[&str]) -> anyhow::Result<String> {
    let hash = sixteen(word(words, 1))?;
    let challenge = eight(word(words, 2))?;
    text(alloc, &respond_v1(&hash, challenge))
}

/// `hashed_challenge CHALLENGE CLIENT`.
fn hashed_challenge_of(alloc: Global, words: &[&str]) -> anyhow::Result<String> {
    let challenge = eight(word(words, 1))?;
    let client = eight(word(words, 2))?;
    text(alloc, &hashed_challenge(challenge, client))
}

/// `respond_v1_ess HASH CHALLENGE CLIENT`.
fn respond_v1_ess_of(alloc: Global, words: &[&str]) -> anyhow::Result<String> {
    let hash = sixteen(word(words, 1))?;
    let challenge = eight(word(words, 2))?;
    let client = eight(word(words, 3))?;
    text(alloc, &respond_v1_ess(&hash, challenge, client))
}

/// `respond_v2 HASH USER DOMAIN CHALLENGE TIME CLIENT PAIRS`.
fn respond_v2_of(alloc: Global, words: &[&str]) -> anyhow::Result<String> {
    let hash = sixteen(word(words, 1))?;
    let challenge = eight(word(words, 4))?;
    let time = u64::from_be_bytes(eight(word(words, 5))?);
    let client = eight(word(words, 6))?;
    let user = text_units(alloc, word(words, 2))?;
    let domain = text_units(alloc, word(words, 3))?;
    let pairs = bytes(alloc, word(words, 7))?;
    let response = respond_v2(
        alloc,
        &hash,
        user.units(),
        domain.units(),
        challenge,
        time,
        client,
        &pairs,
    )?;
    text(alloc, response.bytes())
}

/// `verify HASH USER DOMAIN CHALLENGE NT`: the base key, or `none`.
fn verify_of(alloc: Global, words: &[&str]) -> anyhow::Result<String> {
    let hash = sixteen(word(words, 1))?;
    let challenge = eight(word(words, 4))?;
    let user = text_units(alloc, word(words, 2))?;
    let domain = text_units(alloc, word(words, 3))?;
    let nt = bytes(alloc, word(words, 5))?;
    let key = verify(&hash, user.units(), domain.units(), challenge, &nt);
    text_of_key(alloc, key)
}

/// `challenge_for FLAGS CHALLENGE LM NT`.
fn challenge_for_of(alloc: Global, words: &[&str]) -> anyhow::Result<String> {
    let flags = flags(word(words, 1))?;
    let challenge = eight(word(words, 2))?;
    let lm = bytes(alloc, word(words, 3))?;
    let nt = bytes(alloc, word(words, 4))?;
    text(alloc, &challenge_for(flags, challenge, &lm, &nt))
}

/// `exchange_key BASE FLAGS CHALLENGE LM NT`.
fn exchange_key_of(alloc: Global, words: &[&str]) -> anyhow::Result<String> {
    let base = sixteen(word(words, 1))?;
    let flags = flags(word(words, 2))?;
    let challenge = eight(word(words, 3))?;
    let lm = bytes(alloc, word(words, 4))?;
    let nt = bytes(alloc, word(words, 5))?;
    text(alloc, &exchange_key(base, flags, challenge, &lm, &nt))
}

/// `exported_key EXCHANGE FLAGS KEY`: the key, or `none`.
fn exported_key_of(alloc: Global, words: &[&str]) -> anyhow::Result<String> {
    let exchange = sixteen(word(words, 1))?;
    let flags = flags(word(words, 2))?;
    let key = bytes(alloc, word(words, 3))?;
    text_of_key(alloc, exported_key(exchange, flags, &key))
}

/// What an operation gives.
pub(crate) fn answer(alloc: Global, operation: &str, words: &[&str]) -> anyhow::Result<String> {
    match operation {
        "nt_hash" => nt_hash_of(alloc, words),
        "lm_hash" => lm_hash_of(alloc, words),
        "nt_key_v2" => nt_key_v2_of(alloc, words),
        "respond_v1" => respond_v1_of(alloc, words),
        "hashed_challenge" => hashed_challenge_of(alloc, words),
        "respond_v1_ess" => respond_v1_ess_of(alloc, words),
        "respond_v2" => respond_v2_of(alloc, words),
        "verify" => verify_of(alloc, words),
        "challenge_for" => challenge_for_of(alloc, words),
        "exchange_key" => exchange_key_of(alloc, words),
        "exported_key" => exported_key_of(alloc, words),
        _ => no_case(alloc),
    }
}
