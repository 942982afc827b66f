//! Cases of `ntlm_seal`: what one end's session answers to each step of a line.

ghost use Rattle.std.specs.Prelude.{◌≡◌};

use case_words::{add_answer, bytes, flags, no_case, sixteen, size, text, word};
use ntlm_flags::{NTLMSSP_NEGOTIATE_EXTENDED_SESSIONSECURITY, has_flag};
use ntlm_seal::{SealRefused, Session, Side};
use std::alloc::Global;

/// A signature in hex, or the refusal.
fn text_of_signature(
    alloc: Global,
    answer: Result<[u8; 16], SealRefused>,
) -> anyhow::Result<String> {
    match answer {
        Ok(signature) => text(alloc, &signature),
        Err(refusal) => Ok(format!(in alloc; "{refusal:?}")?),
    }
}

/// `sign UNIT`: the signature.
fn sign(alloc: Global, session: &mut Session, parts: &[&str]) -> anyhow::Result<String> {
    let unit = bytes(alloc, word(parts, 1))?;
    text_of_signature(alloc, session.sign(&unit))
}

/// `check UNIT SIGNATURE`: whether it is that of the next unit.
fn check(alloc: Global, session: &mut Session, parts: &[&str]) -> anyhow::Result<String> {
    let unit = bytes(alloc, word(parts, 1))?;
    let signature = sixteen(word(parts, 2))?;
    let answer = session.check(&unit, &signature);
    Ok(format!(in alloc; "{answer:?}")?)
}

/// `seal UNIT FROM TO`: the signature, and the unit with its range sealed.
fn seal(alloc: Global, session: &mut Session, parts: &[&str]) -> anyhow::Result<String> {
    let from = size(word(parts, 2))?;
    let to = size(word(parts, 3))?;
    let mut unit = bytes(alloc, word(parts, 1))?;
    if from > to || to > unit.len() || unit.len() > 65536 {
        return no_case(alloc);
    }
    let answer = session.seal(&mut unit, from, to);
    let signature = text_of_signature(alloc, answer)?;
    let left = text(alloc, &unit)?;
    Ok(format!(in alloc; "{signature} {left}")?)
}

/// `open UNIT FROM TO SIGNATURE`: the answer, and what the unit then is.
fn open_unit(alloc: Global, session: &mut Session, parts: &[&str]) -> anyhow::Result<String> {
    let from = size(word(parts, 2))?;
    let to = size(word(parts, 3))?;
    let signature = sixteen(word(parts, 4))?;
    let mut unit = bytes(alloc, word(parts, 1))?;
    if from > to || to > unit.len() || unit.len() > 65536 {
        return no_case(alloc);
    }
    let answer = session.open(&mut unit, from, to, &signature);
    let left = text(alloc, &unit)?;
    Ok(format!(in alloc; "{answer:?} {left}")?)
}

/// What a step, whose parts stand between commas, gives.
fn step(alloc: Global, session: &mut Session, step: &str) -> anyhow::Result<String> {
    let parts: Vec<&str> = step.split(',').collect(alloc)?;
    match word(&parts, 0) {
        "sign" => sign(alloc, session, &parts),
        "check" => check(alloc, session, &parts),
        "seal" => seal(alloc, session, &parts),
        "open" => open_unit(alloc, session, &parts),
        _ => no_case(alloc),
    }
}

/// The side of a name.
fn side(name: &str) -> Side {
    match name {
        "client" => Side::Client,
        _ => Side::Server,
    }
}

/// `seal.run EXPORTED FLAGS SIDE STEP..`: what each step gives. The flag of extended session security is among the
/// flags.
pub(crate) fn run(alloc: Global, words: &[&str]) -> anyhow::Result<String> {
    let exported = sixteen(word(words, 1))?;
    let flags = flags(word(words, 2))?;
    if !has_flag(flags, NTLMSSP_NEGOTIATE_EXTENDED_SESSIONSECURITY) {
        return no_case(alloc);
    }
    let mut session = Session::new(exported, flags, side(word(words, 3)));
    let mut answers = String::new(alloc);
    for each in words.iter().skip(4) {
        let answer = step(alloc, &mut session, each)?;
        add_answer(&mut answers, &answer)?;
    }
    Ok(answers)
}
