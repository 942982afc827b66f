//! Cases of `secret_change`: secrets as they travel, and what a machine keeps after each step of a line.

use case_words::{add_answer, bytes, no_case, sixteen, text, word};
use secret_change::{Secrets, hide, show};
use std::alloc::Global;

/// The text of the secrets and the one that is tried.
fn state(alloc: Global, secrets: &Secrets) -> anyhow::Result<String> {
    let kept = text(alloc, secrets.text(alloc)?.bytes())?;
    let tried = text(alloc, &secrets.tried())?;
    let next = match secrets.next() {
        Some(next) => text(alloc, &next)?,
        None => "none".to_string(alloc)?,
    };
    Ok(format!(in alloc; "{kept} {tried} {next}")?)
}

/// What a step does to the secrets: `begin,SECRET`, `denied`, `opened` or `confirmed`.
fn step(alloc: Global, secrets: &mut Secrets, step: &str) -> anyhow::Result<String> {
    let parts: Vec<&str> = step.split(',').collect(alloc)?;
    match word(&parts, 0) {
        "begin" => {
            let answer = secrets.begin(sixteen(word(&parts, 1))?);
            let left = state(alloc, secrets)?;
            return Ok(format!(in alloc; "{answer:?} {left}")?);
        }
        "denied" => secrets.denied(),
        "opened" => secrets.opened(),
        "confirmed" => {
            if secrets.next().is_none() {
                return no_case(alloc);
            }
            secrets.confirmed();
        }
        _ => return no_case(alloc),
    }
    state(alloc, secrets)
}

/// `run TEXT STEP..`: the secrets that the text has, and after each step.
fn run(alloc: Global, words: &[&str]) -> anyhow::Result<String> {
    let content = bytes(alloc, word(words, 1))?;
    let mut secrets = match Secrets::read(&content) {
        Ok(secrets) => secrets,
        Err(refused) => return Ok(format!(in alloc; "{refused:?}")?),
    };
    let mut answers = state(alloc, &secrets)?;
    for each in words.iter().skip(2) {
        let answer = step(alloc, &mut secrets, each)?;
        add_answer(&mut answers, &answer)?;
    }
    Ok(answers)
}

/// `secrets.hide KEY SECRET`, `secrets.show KEY HIDDEN` and `secrets.run TEXT STEP..`.
pub(crate) fn answer(alloc: Global, operation: &str, words: &[&str]) -> anyhow::Result<String> {
    match operation {
        "hide" => text(
            alloc,
            &hide(sixteen(word(words, 1))?, sixteen(word(words, 2))?),
        ),
        "show" => text(
            alloc,
            &show(sixteen(word(words, 1))?, sixteen(word(words, 2))?),
        ),
        "run" => run(alloc, words),
        _ => no_case(alloc),
    }
}
