//! Cases of `ntlm_messages`: the three messages. `pairs` has the lists in them.

ghost use Rattle.std.specs.Prelude.{◌≡◌, true};
ghost use Rattle.ntlm_messages.specs.Fields.{IsText};
ghost use Rattle.ntlm_messages.specs.Negotiate.{CanWriteNegotiate};
ghost use Rattle.ntlm_messages.specs.Challenge.{CanWriteChallenge};
ghost use Rattle.ntlm_messages.specs.Authenticate.{CanWriteAuthenticate};

use crate::outcomes::{not_to_be_written, written_text};
use crate::pairs;
use case_words::{blob, bytes, debug_text, eight, flags, sixteen, word};
use ntlm_flags::{
    NTLMSSP_NEGOTIATE_OEM_DOMAIN_SUPPLIED, NTLMSSP_NEGOTIATE_OEM_WORKSTATION_SUPPLIED,
    NTLMSSP_NEGOTIATE_UNICODE, NTLMSSP_NEGOTIATE_VERSION, has_flag,
};
use ntlm_messages::{
    Authenticate, Challenge, Negotiate, read_authenticate, read_challenge, read_negotiate,
    text_units, units_of_text, view_authenticate, view_challenge, view_negotiate,
    write_authenticate, write_challenge, write_negotiate,
};
use std::alloc::Global;
use wire_base::Blob;

/// The eight bytes of a version, where there is one.
fn version(word: &str) -> anyhow::Result<Option<[u8; 8]>> {
    if word == "-" {
        return Ok(None);
    }
    Ok(Some(eight(word)?))
}

/// The sixteen bytes of a message integrity code, where there is one.
fn mic(word: &str) -> anyhow::Result<Option<[u8; 16]>> {
    if word == "-" {
        return Ok(None);
    }
    Ok(Some(sixteen(word)?))
}

/// Whether a text has an even length, where texts are UTF-16LE.
fn is_even(flags: u32, text: &[u8]) -> bool
    ensures { result ≡ true → IsText flags text.now }
{
    !has_flag(flags, NTLMSSP_NEGOTIATE_UNICODE) || text.len() % 2 == 0
}

/// Whether the message may be written.
fn may_write_negotiate(value: &Negotiate) -> bool
    ensures { result ≡ true → CanWriteNegotiate value.now }
{
    let flags = value.flags;
    (value.version.is_none() || has_flag(flags, NTLMSSP_NEGOTIATE_VERSION))
        && (has_flag(flags, NTLMSSP_NEGOTIATE_OEM_DOMAIN_SUPPLIED)
            || value.domain.bytes().is_empty())
        && (has_flag(flags, NTLMSSP_NEGOTIATE_OEM_WORKSTATION_SUPPLIED)
            || value.workstation.bytes().is_empty())
}

/// Whether the message may be written.
fn may_write_challenge(value: &Challenge) -> bool
    ensures { result ≡ true → CanWriteChallenge value.now }
{
    (value.version.is_none() || has_flag(value.flags, NTLMSSP_NEGOTIATE_VERSION))
        && is_even(value.flags, value.target.bytes())
}

/// Whether the message may be written.
fn may_write_authenticate(value: &Authenticate) -> bool
    ensures { result ≡ true → CanWriteAuthenticate value.now }
{
    (value.version.is_none() || has_flag(value.flags, NTLMSSP_NEGOTIATE_VERSION))
        && (value.mic.is_none() || value.version.is_some())
        && is_even(value.flags, value.domain.bytes())
        && is_even(value.flags, value.user.bytes())
        && is_even(value.flags, value.workstation.bytes())
}

// ---- the bytes of a message

/// The bytes of a NEGOTIATE that was read.
fn negotiate_again(alloc: Global, bytes: &[u8]) -> anyhow::Result<String> {
    let read = read_negotiate(alloc, bytes)?;
    written_text(alloc, write_negotiate(alloc, &read))
}

/// The bytes of a CHALLENGE that was read.
fn challenge_again(alloc: Global, bytes: &[u8]) -> anyhow::Result<String> {
    let read = read_challenge(alloc, bytes)?;
    written_text(alloc, write_challenge(alloc, &read))
}

/// The bytes of an AUTHENTICATE that was read.
fn authenticate_again(alloc: Global, bytes: &[u8]) -> anyhow::Result<String> {
    let read = read_authenticate(alloc, bytes)?;
    written_text(alloc, write_authenticate(alloc, &read))
}

/// What an operation on bytes gives: `negotiate`, `negotiate_view`, `negotiate_again`, and the same of the other
/// messages.
fn answer_to_bytes(alloc: Global, operation: &str, bytes: &[u8]) -> anyhow::Result<String> {
    match operation {
        "negotiate" => debug_text(alloc, read_negotiate(alloc, bytes)),
        "negotiate_view" => debug_text(alloc, view_negotiate(bytes)),
        "negotiate_again" => negotiate_again(alloc, bytes),
        "challenge" => debug_text(alloc, read_challenge(alloc, bytes)),
        "challenge_view" => debug_text(alloc, view_challenge(bytes)),
        "challenge_again" => challenge_again(alloc, bytes),
        "authenticate" => debug_text(alloc, read_authenticate(alloc, bytes)),
        "authenticate_view" => debug_text(alloc, view_authenticate(bytes)),
        "authenticate_again" => authenticate_again(alloc, bytes),
        _ => pairs::answer_to_bytes(alloc, operation, bytes),
    }
}

/// What the operation on the bytes of a line gives.
fn answer_to_word(alloc: Global, operation: &str, words: &[&str]) -> anyhow::Result<String> {
    let bytes = bytes(alloc, word(words, 1))?;
    answer_to_bytes(alloc, operation, &bytes)
}

// ---- the fields of a message

/// The bytes of a NEGOTIATE, where it may be written.
fn negotiate_text(alloc: Global, value: &Negotiate) -> anyhow::Result<String> {
    if !may_write_negotiate(value) {
        return not_to_be_written(alloc);
    }
    written_text(alloc, write_negotiate(alloc, value))
}

/// `negotiate_of FLAGS DOMAIN WORKSTATION VERSION`.
fn negotiate_of(alloc: Global, words: &[&str]) -> anyhow::Result<String> {
    let flags = flags(word(words, 1))?;
    let version = version(word(words, 4))?;
    let domain = blob(alloc, word(words, 2))?;
    let workstation = blob(alloc, word(words, 3))?;
    let value = Negotiate {
        flags,
        domain,
        workstation,
        version,
    };
    negotiate_text(alloc, &value)
}

/// The bytes of a CHALLENGE, where it may be written.
fn challenge_text(alloc: Global, value: &Challenge) -> anyhow::Result<String> {
    if !may_write_challenge(value) {
        return not_to_be_written(alloc);
    }
    written_text(alloc, write_challenge(alloc, value))
}

/// `challenge_of FLAGS TARGET CHALLENGE INFO VERSION`.
fn challenge_of(alloc: Global, words: &[&str]) -> anyhow::Result<String> {
    let flags = flags(word(words, 1))?;
    let challenge = eight(word(words, 3))?;
    let version = version(word(words, 5))?;
    let target = blob(alloc, word(words, 2))?;
    let info = blob(alloc, word(words, 4))?;
    let value = Challenge {
        flags,
        target,
        challenge,
        info,
        version,
    };
    challenge_text(alloc, &value)
}

/// The bytes of an AUTHENTICATE, where it may be written.
fn authenticate_text(alloc: Global, value: &Authenticate) -> anyhow::Result<String> {
    if !may_write_authenticate(value) {
        return not_to_be_written(alloc);
    }
    written_text(alloc, write_authenticate(alloc, value))
}

/// The names of an AUTHENTICATE: domain, user and workstation.
fn names(alloc: Global, words: &[&str]) -> anyhow::Result<(Blob, Blob, Blob)> {
    let domain = blob(alloc, word(words, 4))?;
    let user = blob(alloc, word(words, 5))?;
    let workstation = blob(alloc, word(words, 6))?;
    Ok((domain, user, workstation))
}

/// The responses of an AUTHENTICATE and its key: LM, NT and the session key.
fn responses(alloc: Global, words: &[&str]) -> anyhow::Result<(Blob, Blob, Blob)> {
    let lm = blob(alloc, word(words, 2))?;
    let nt = blob(alloc, word(words, 3))?;
    let key = blob(alloc, word(words, 7))?;
    Ok((lm, nt, key))
}

/// `authenticate_of FLAGS LM NT DOMAIN USER WORKSTATION KEY VERSION MIC`.
fn authenticate_of(alloc: Global, words: &[&str]) -> anyhow::Result<String> {
    let flags = flags(word(words, 1))?;
    let version = version(word(words, 8))?;
    let mic = mic(word(words, 9))?;
    let (domain, user, workstation) = names(alloc, words)?;
    let (lm, nt, key) = responses(alloc, words)?;
    let value = Authenticate {
        flags,
        lm,
        nt,
        domain,
        user,
        workstation,
        key,
        version,
        mic,
    };
    authenticate_text(alloc, &value)
}

// ---- the texts of a message

/// The text of a message that was read.
fn read_text(alloc: Global, flags: u32, bytes: &[u8]) -> anyhow::Result<String> {
    if !is_even(flags, bytes) {
        return Ok("odd".to_string(alloc)?);
    }
    debug_text(alloc, units_of_text(alloc, flags, bytes)?)
}

/// `text FLAGS BYTES`, and `read_text FLAGS BYTES`: the text of a message that is yet to be read, and of one that was.
fn text(alloc: Global, words: &[&str], was_read: bool) -> anyhow::Result<String> {
    let flags = flags(word(words, 1))?;
    let bytes = bytes(alloc, word(words, 2))?;
    if was_read {
        read_text(alloc, flags, &bytes)
    } else {
        debug_text(alloc, text_units(alloc, flags, &bytes))
    }
}

/// What an operation gives.
pub(crate) fn answer(alloc: Global, operation: &str, words: &[&str]) -> anyhow::Result<String> {
    match operation {
        "negotiate_of" => negotiate_of(alloc, words),
        "challenge_of" => challenge_of(alloc, words),
        "authenticate_of" => authenticate_of(alloc, words),
        "text" => text(alloc, words, false),
        "read_text" => text(alloc, words, true),
        "pairs_of" => pairs::pairs_of(alloc, words),
        "pair_value" => pairs::value_of_id(alloc, words),
        _ => answer_to_word(alloc, operation, words),
    }
}
