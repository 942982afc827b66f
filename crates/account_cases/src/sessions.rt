//! Cases of `interactive_logon`: the sessions that a controller keeps.

use case_words::{answer_steps, debug_text, no_case, number64, text_units, truth, word};
use interactive_logon::{AddRefused, Sessions};
use std::alloc::Global;

/// What is answered where a session is added: `COMPUTER/USER/ID`, behind the first part.
fn add(alloc: Global, sessions: &mut Sessions, parts: &[&str]) -> anyhow::Result<String> {
    let computer = text_units(alloc, word(parts, 1))?;
    let user = text_units(alloc, word(parts, 2))?;
    let id = number64(word(parts, 3))?;
    let added = sessions.add(computer.units(), user.units(), id);
    debug_text(alloc, added)
}

/// What is answered where one is taken out.
fn remove(alloc: Global, sessions: &mut Sessions, parts: &[&str]) -> anyhow::Result<String> {
    let computer = text_units(alloc, word(parts, 1))?;
    let user = text_units(alloc, word(parts, 2))?;
    let id = number64(word(parts, 3))?;
    let removed = sessions.remove(computer.units(), user.units(), id);
    Ok(truth(removed).to_string(alloc)?)
}

/// Adds as many sessions as the fourth part says, with logon ids from 0 on, and tells what the last one is answered.
fn fill(alloc: Global, sessions: &mut Sessions, parts: &[&str]) -> anyhow::Result<String> {
    let computer = text_units(alloc, word(parts, 1))?;
    let user = text_units(alloc, word(parts, 2))?;
    let count = number64(word(parts, 3))?;
    let mut last: Result<(), AddRefused> = Ok(());
    for id in 0..count {
        last = sessions.add(computer.units(), user.units(), id);
    }
    debug_text(alloc, last)
}

/// What a step answers: `add/COMPUTER/USER/ID`, `remove/COMPUTER/USER/ID`, `fill/COMPUTER/USER/COUNT`, `count`, `all`.
fn step(alloc: Global, sessions: &mut Sessions, step: &str) -> anyhow::Result<String> {
    let parts: Vec<&str> = step.split('/').collect(alloc)?;
    match word(&parts, 0) {
        "add" => add(alloc, sessions, &parts),
        "remove" => remove(alloc, sessions, &parts),
        "fill" => fill(alloc, sessions, &parts),
        "count" => Ok(sessions.items().len().to_string(alloc)?),
        "all" => Ok(format!(in alloc; "{:?}", sessions.items())?),
        _ => no_case(alloc),
    }
}

/// `sessions.steps STEP..`: what each step answers.
pub(crate) fn answer(alloc: Global, words: &[&str]) -> anyhow::Result<String> {
    let mut sessions = Sessions::new(alloc)?;
    answer_steps(alloc, words, 1, &mut sessions, step)
}
