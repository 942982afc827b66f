//! Cases of `domain_controller`: a controller and its events, a scenario a line, and the lines that it puts.

use crate::members::name;
use crate::scenes::{chances, play_and_count};
use crate::sealed_controllers;
use account_table::Table;
use case_words::{add_part, bytes, debug_text, flags, list_text, no_case, text, word};
use domain_controller::Controller;
use end_loop::End;
use outside::{Action, CloseCause, DropCause, Judged, Outcome};
use std::alloc::Global;
use wire_base::Blob;

/// The account table of a word.
pub(crate) fn table(alloc: Global, word: &str) -> anyhow::Result<Table> {
    let document = bytes(alloc, word)?;
    Ok(Table::read(alloc, &document)?)
}

/// The controller of a line: its table and its name.
fn controller(alloc: Global, words: &[&str]) -> anyhow::Result<Controller> {
    let name = name(alloc, word(words, 2))?;
    let table = table(alloc, word(words, 1))?;
    Ok(Controller::new(alloc, table, name)?)
}

/// `controller.run DOCUMENT NAME CHALLENGES STEP ..`: the answers to the steps, and the number of challenges that are
/// left.
fn run(alloc: Global, words: &[&str]) -> anyhow::Result<String> {
    let Some(steps) = words.get(4..) else {
        return no_case(alloc);
    };
    let mut chances = chances(alloc, word(words, 3))?;
    let mut end = controller(alloc, words)?;
    play_and_count(alloc, &mut end, &mut chances, steps)
}

/// `controller.trusts DOCUMENT NAME CHALLENGES STEP ..`: the same of a controller that asks the controllers of trusted
/// domains.
fn run_trusting(alloc: Global, words: &[&str]) -> anyhow::Result<String> {
    let Some(steps) = words.get(4..) else {
        return no_case(alloc);
    };
    let mut chances = chances(alloc, word(words, 3))?;
    let name = name(alloc, word(words, 2))?;
    let table = table(alloc, word(words, 1))?;
    let mut end = Controller::with_trusts(alloc, table, name)?;
    play_and_count(alloc, &mut end, &mut chances, steps)
}

/// A text that is to be kept.
fn keep(alloc: Global) -> anyhow::Result<Action> {
    Ok(Action::Keep(Blob::copy(alloc, b"text")?))
}

/// The counts of bad passwords of the accounts, of at most 1,000.
fn counts_text(alloc: Global, table: &Table) -> anyhow::Result<String> {
    let mut all = String::new(alloc);
    for place in 0..1000 {
        match table.bad_count(place) {
            Some(count) => add_part(&mut all, &debug_text(alloc, count)?)?,
            None => return list_text(alloc, all),
        }
    }
    list_text(alloc, all)
}

/// `controller.counts DOCUMENT NAME CHALLENGES STEP ..`: the counts of bad passwords of the accounts after the steps.
fn counts(alloc: Global, words: &[&str]) -> anyhow::Result<String> {
    let Some(steps) = words.get(4..) else {
        return no_case(alloc);
    };
    let mut chances = chances(alloc, word(words, 3))?;
    let mut end = controller(alloc, words)?;
    play_and_count(alloc, &mut end, &mut chances, steps)?;
    let (table, _) = end.into_parts();
    counts_text(alloc, &table)
}

/// `controller.secrets DOCUMENT NAME CHALLENGES STEP ..`: the text of the secrets that were set, as the accounts stand
/// after the steps.
fn secrets(alloc: Global, words: &[&str]) -> anyhow::Result<String> {
    let Some(steps) = words.get(4..) else {
        return no_case(alloc);
    };
    let mut chances = chances(alloc, word(words, 3))?;
    let mut end = controller(alloc, words)?;
    play_and_count(alloc, &mut end, &mut chances, steps)?;
    let (table, _) = end.into_parts();
    let secrets = table.secrets(alloc)?;
    text(alloc, secrets.bytes())
}

/// Bytes that are sent.
fn send(alloc: Global) -> anyhow::Result<Action> {
    Ok(Action::Send(1, Blob::copy(alloc, b"bytes")?))
}

/// A peer that is dialled.
fn dial(alloc: Global) -> anyhow::Result<Action> {
    Ok(Action::Dial(Blob::copy(alloc, b"peer")?))
}

/// A call that passed with a status of eight hex digits, or, behind `answered/`, what one that was asked of another
/// controller came to.
fn judged_with(name: &str) -> anyhow::Result<Judged> {
    match name.strip_prefix("answered/") {
        Some(status) => Ok(Judged::Answered(flags(status)?)),
        None => Ok(Judged::Passed(flags(name)?)),
    }
}

/// How the call of a name was judged.
fn judged(name: &str) -> anyhow::Result<Action> {
    match name {
        "barred" => Ok(Action::Judged(Judged::Barred)),
        "none" => Ok(Action::Judged(Judged::NoChannel)),
        "forwarded" => Ok(Action::Judged(Judged::Forwarded)),
        name => Ok(Action::Judged(judged_with(name)?)),
    }
}

/// The action of a name: another name than these is one that `judged` has.
pub(crate) fn action(alloc: Global, name: &str) -> anyhow::Result<Action> {
    match name {
        "keep" => keep(alloc),
        "send" => send(alloc),
        "dial" => dial(alloc),
        "close" => Ok(Action::Close(1, CloseCause::CallDone)),
        "told" => Ok(Action::Told(1, Outcome::NoController(DropCause::BadReply))),
        name => judged(name),
    }
}

/// The line that an end puts for the action, as text.
fn line_text(alloc: Global, end: &Controller, action: &Action) -> anyhow::Result<String> {
    let line = end.line(alloc, action)?;
    debug_text(alloc, str::from_utf8(line.bytes()).unwrap_or("no text"))
}

/// `controller.line DOCUMENT NAME ACTION`: the line that the controller puts for the action, as text.
fn line(alloc: Global, words: &[&str]) -> anyhow::Result<String> {
    let action = action(alloc, word(words, 3))?;
    let end = controller(alloc, words)?;
    line_text(alloc, &end, &action)
}

/// What an operation gives.
pub(crate) fn answer(alloc: Global, operation: &str, words: &[&str]) -> anyhow::Result<String> {
    match operation {
        "run" => run(alloc, words),
        "trusts" => run_trusting(alloc, words),
        "sealing" => sealed_controllers::run(alloc, words),
        "counts" => counts(alloc, words),
        "secrets" => secrets(alloc, words),
        "line" => line(alloc, words),
        _ => no_case(alloc),
    }
}
