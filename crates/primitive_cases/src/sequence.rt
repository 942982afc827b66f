//! Cases of `authenticators`: what one end's sequence answers to each step of a line.

ghost use Rattle.std.specs.Prelude.{◌≡◌};

use authenticators::{Sequence, timestamp_at};
use case_words::{add_answer, eight, flags, no_case, number, number64, sixteen, text, word};
use channel_keys::{cred, session_key};
use std::alloc::Global;
use wire_base::Authenticator;

/// `make=TIMESTAMP`: the next authenticator.
fn make(alloc: Global, sequence: &mut Sequence, value: &str) -> anyhow::Result<String> {
    let timestamp = number(value)?;
    let made = sequence.make(timestamp);
    Ok(format!(in alloc; "{made:?}")?)
}

/// `judge=TIMESTAMP:CREDENTIAL`: the return credential, or the refusal.
fn judge(alloc: Global, sequence: &mut Sequence, value: &str) -> anyhow::Result<String> {
    let (timestamp, credential) = value.split_once(':').unwrap_or((value, ""));
    let given = Authenticator {
        credential: eight(credential)?,
        timestamp: number(timestamp)?,
    };
    let answer = sequence.judge(&given);
    Ok(format!(in alloc; "{answer:?}")?)
}

/// `return=CREDENTIAL`: whether it is the one that is awaited.
fn take_return(alloc: Global, sequence: &mut Sequence, value: &str) -> anyhow::Result<String> {
    let credential = eight(value)?;
    if sequence.awaits().is_none() {
        return Ok("none is awaited".to_string(alloc)?);
    }
    let answer = sequence.take_return(credential);
    Ok(format!(in alloc; "{answer:?}")?)
}

/// `awaits`: the return credential that is awaited.
fn awaits(alloc: Global, sequence: &Sequence) -> anyhow::Result<String> {
    let awaited = sequence.awaits();
    Ok(format!(in alloc; "{awaited:?}")?)
}

/// What a step gives.
fn step(alloc: Global, sequence: &mut Sequence, step: &str) -> anyhow::Result<String> {
    let (name, value) = step.split_once('=').unwrap_or((step, ""));
    match name {
        "make" => make(alloc, sequence, value),
        "judge" => judge(alloc, sequence, value),
        "return" => take_return(alloc, sequence, value),
        "awaits" => awaits(alloc, sequence),
        "key" => text(alloc, &sequence.key()),
        _ => no_case(alloc),
    }
}

/// What each step gives, from a place of the words on.
fn steps(
    alloc: Global,
    sequence: &mut Sequence,
    words: &[&str],
    from: usize,
) -> anyhow::Result<String> {
    let mut answers = String::new(alloc);
    for each in words.iter().skip(from) {
        let answer = step(alloc, sequence, each)?;
        add_answer(&mut answers, &answer)?;
    }
    Ok(answers)
}

/// `run KEY SEED STEP..`: what each step gives. A step `key` is answered with the session key.
fn run(alloc: Global, words: &[&str]) -> anyhow::Result<String> {
    let key = sixteen(word(words, 1))?;
    let seed = eight(word(words, 2))?;
    steps(alloc, &mut Sequence::new(key, seed), words, 3)
}

/// `channel SECRET CLIENT SERVER FLAGS STEP..`: the same on a new channel of this secret, these challenges and these
/// flags, whose seed is the client's credential.
fn channel(alloc: Global, words: &[&str]) -> anyhow::Result<String> {
    let secret = sixteen(word(words, 1))?;
    let client = eight(word(words, 2))?;
    let server = eight(word(words, 3))?;
    let flags = flags(word(words, 4))?;
    let key = session_key(secret, client, server, flags);
    steps(alloc, &mut Sequence::new(key, cred(key, client)), words, 5)
}

/// `timestamp NOW`: the timestamp of a moment.
fn timestamp(alloc: Global, words: &[&str]) -> anyhow::Result<String> {
    let timestamp = timestamp_at(number64(word(words, 1))?);
    Ok(format!(in alloc; "{timestamp}")?)
}

/// What an operation gives.
pub(crate) fn answer(alloc: Global, operation: &str, words: &[&str]) -> anyhow::Result<String> {
    match operation {
        "run" => run(alloc, words),
        "channel" => channel(alloc, words),
        "timestamp" => timestamp(alloc, words),
        _ => no_case(alloc),
    }
}
