//! Cases of `channel_keys`: secrets, challenges, keys and credentials in hex, flags in eight hex digits.

use case_words::{eight, flags, no_case, sixteen, text, word};
use channel_keys::{
    AES, BACKUP_CONTROLLER_CHANNEL, CredKey, RC4, SECURE_RPC, STRONG_KEY, SUPPORTED_FLAGS,
    TRUSTED_DOMAIN_CHANNEL, WORKSTATION_CHANNEL, cred, cred_back, des_key, granted_flags,
    session_key, strong_key,
};
use ntlm_flags::has_flag;
use std::alloc::Global;

/// `session_key SECRET CLIENT SERVER FLAGS`: the session key of a channel with these flags.
fn session_key_of(alloc: Global, words: &[&str]) -> anyhow::Result<String> {
    let secret = sixteen(word(words, 1))?;
    let client = eight(word(words, 2))?;
    let server = eight(word(words, 3))?;
    let flags = flags(word(words, 4))?;
    text(alloc, &session_key(secret, client, server, flags))
}

/// `strong_key SECRET CLIENT SERVER`: the strong key.
fn strong_key_of(alloc: Global, words: &[&str]) -> anyhow::Result<String> {
    let secret = sixteen(word(words, 1))?;
    let client = eight(word(words, 2))?;
    let server = eight(word(words, 3))?;
    text(alloc, &strong_key(secret, client, server))
}

/// `des_key SECRET CLIENT SERVER`: the DES key.
fn des_key_of(alloc: Global, words: &[&str]) -> anyhow::Result<String> {
    let secret = sixteen(word(words, 1))?;
    let client = eight(word(words, 2))?;
    let server = eight(word(words, 3))?;
    text(alloc, &des_key(secret, client, server))
}

/// `cred KEY INPUT`: the credential.
fn cred_of(alloc: Global, words: &[&str]) -> anyhow::Result<String> {
    let key = sixteen(word(words, 1))?;
    let input = eight(word(words, 2))?;
    text(alloc, &cred(key, input))
}

/// `cred_key KEY INPUT`: the kept key, and the credential under it.
fn cred_key_of(alloc: Global, words: &[&str]) -> anyhow::Result<String> {
    let kept = CredKey::new(sixteen(word(words, 1))?);
    let input = eight(word(words, 2))?;
    let credential = text(alloc, &kept.cred(input))?;
    let key = text(alloc, &kept.key())?;
    Ok(format!(in alloc; "{key};{credential}")?)
}

/// `cred_back KEY OUTPUT`: the input of which the bytes are the credential.
fn cred_back_of(alloc: Global, words: &[&str]) -> anyhow::Result<String> {
    let key = sixteen(word(words, 1))?;
    let output = eight(word(words, 2))?;
    text(alloc, &cred_back(key, output))
}

/// `credentials SECRET CLIENT SERVER FLAGS`: the client's and the server's credential, each of its own challenge, under
/// the session key of a channel with these flags.
fn credentials(alloc: Global, words: &[&str]) -> anyhow::Result<String> {
    let secret = sixteen(word(words, 1))?;
    let client = eight(word(words, 2))?;
    let server = eight(word(words, 3))?;
    let flags = flags(word(words, 4))?;
    let key = CredKey::new(session_key(secret, client, server, flags));
    let of_client = text(alloc, &key.cred(client))?;
    let of_server = text(alloc, &key.cred(server))?;
    Ok(format!(in alloc; "{of_client};{of_server}")?)
}

/// The flag of a name.
fn flag_of(name: &str) -> u32 {
    match name {
        "RC4" => RC4,
        "STRONG_KEY" => STRONG_KEY,
        "AES" => AES,
        "SECURE_RPC" => SECURE_RPC,
        "SUPPORTED_FLAGS" => SUPPORTED_FLAGS,
        _ => 0,
    }
}

/// `flag NAME`: its number, and whether this project's ends offer it.
fn flag(alloc: Global, words: &[&str]) -> anyhow::Result<String> {
    let flag = flag_of(word(words, 1));
    let offered = has_flag(SUPPORTED_FLAGS, flag);
    Ok(format!(in alloc; "{flag:08x} {offered}")?)
}

/// `granted SUPPORTED OFFERED`: the flags that are granted.
fn granted(alloc: Global, words: &[&str]) -> anyhow::Result<String> {
    let supported = flags(word(words, 1))?;
    let offered = flags(word(words, 2))?;
    let granted = granted_flags(supported, offered);
    Ok(format!(in alloc; "{granted:08x}")?)
}

/// The number of a type of channel.
fn type_of(name: &str) -> u16 {
    match name {
        "WORKSTATION" => WORKSTATION_CHANNEL,
        "TRUSTED_DOMAIN" => TRUSTED_DOMAIN_CHANNEL,
        "BACKUP_CONTROLLER" => BACKUP_CONTROLLER_CHANNEL,
        _ => 0,
    }
}

/// `type NAME`: its number.
fn channel_type(alloc: Global, words: &[&str]) -> anyhow::Result<String> {
    let number = type_of(word(words, 1));
    Ok(format!(in alloc; "{number}")?)
}

/// What an operation gives.
pub(crate) fn answer(alloc: Global, operation: &str, words: &[&str]) -> anyhow::Result<String> {
    match operation {
        "session_key" => session_key_of(alloc, words),
        "strong_key" => strong_key_of(alloc, words),
        "des_key" => des_key_of(alloc, words),
        "cred" => cred_of(alloc, words),
        "cred_back" => cred_back_of(alloc, words),
        "cred_key" => cred_key_of(alloc, words),
        "credentials" => credentials(alloc, words),
        "flag" => flag(alloc, words),
        "granted" => granted(alloc, words),
        "type" => channel_type(alloc, words),
        _ => no_case(alloc),
    }
}
