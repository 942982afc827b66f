//! Cases of `nt_top`.

use crate::in_memory::{Memory, run_over, sink};
use crate::line::{command_line, role};
use crate::narrow::NarrowSink;
use account_table::TableRefused;
use case_words::{add_answer, add_debug, debug_text, no_case, number, told, word};
use logon_client::{NoAnswerCause, PeerFault, RefusedCause};
use nt_top::{Exit, Role, exit_line, exit_text, report};
use outside::{Sink, VecSink};
use std::alloc::Global;

/// Runs a command over an outside in memory, of which the sink is given and the rest is empty.
fn run_on<S: Sink>(alloc: Global, role: Role, words: &[String], out: &mut S) -> (Exit, bool) {
    let mut memory = Memory::empty(alloc);
    let exit = run_over(alloc, role, words, &mut memory, out);
    (exit, memory.tells())
}

/// An exit: the status, and the line that is printed on standard error, as text.
pub(crate) fn text_of_exit(alloc: Global, exit: &Exit) -> anyhow::Result<String> {
    let line = exit_line(alloc, exit)?;
    let mut text = debug_text(alloc, exit)?;
    add_debug(alloc, &mut text, exit.status())?;
    add_debug(
        alloc,
        &mut text,
        str::from_utf8(line.bytes()).unwrap_or("no text"),
    )?;
    Ok(text)
}

/// Adds the text that was put, and whether all that was kept is still told.
fn add_put(alloc: Global, text: &mut String, put: &[u8], tells: bool) -> anyhow::Result<()> {
    add_debug(alloc, text, str::from_utf8(put).unwrap_or("no text"))?;
    add_answer(text, told(tells))
}

/// An exit, the text that was put, and whether all that was kept is still told.
fn text_of_run(alloc: Global, exit: &Exit, put: &[u8], tells: bool) -> anyhow::Result<String> {
    let mut text = text_of_exit(alloc, exit)?;
    add_put(alloc, &mut text, put, tells)?;
    Ok(text)
}

/// `run ROLE FAILING WORD..`: how the command ends over a sink of which these calls fail, and what was put.
fn run_case(alloc: Global, words: &[&str]) -> anyhow::Result<String> {
    let command = command_line(alloc, words, 3)?;
    let mut out = sink(alloc, word(words, 2))?;
    let (exit, tells) = run_on(alloc, role(word(words, 1)), &command, &mut out);
    text_of_run(alloc, &exit, out.bytes(), tells && out.tells())
}

/// `narrow ROLE FAILING WORD..`: the same over a sink that takes at most three bytes of a piece.
fn narrow_case(alloc: Global, words: &[&str]) -> anyhow::Result<String> {
    let command = command_line(alloc, words, 3)?;
    let mut out = NarrowSink(sink(alloc, word(words, 2))?);
    let (exit, tells) = run_on(alloc, role(word(words, 1)), &command, &mut out);
    text_of_run(alloc, &exit, out.0.bytes(), tells && out.0.tells())
}

/// The exit of a name and a number.
fn exit_of(name: &str, number: u32) -> Exit {
    match name {
        "Done" => Exit::Done,
        "Refused" => Exit::Refused(RefusedCause::Response),
        "BadWords" => Exit::BadWords(number),
        "FileFault" => Exit::FileFault,
        "BadTable" => Exit::BadTable(TableRefused::TooMany),
        "BadInput" => Exit::BadInput(number),
        "PortFault" => Exit::PortFault,
        "SinkFault" => Exit::SinkFault,
        "NoAnswer" => Exit::NoAnswer(NoAnswerCause::LinkClosed),
        "BadPeer" => Exit::BadPeer(PeerFault::BadUnit),
        "Spent" => Exit::Spent,
        _ => Exit::NoMemory,
    }
}

/// `exit NAME NUMBER`: its status and its line.
fn exit_case(alloc: Global, words: &[&str]) -> anyhow::Result<String> {
    let number = number(word(words, 2))?;
    text_of_exit(alloc, &exit_of(word(words, 1), number))
}

/// What is reported of an exit, and what was put.
fn text_of_report(alloc: Global, exit: &Exit, errors: &mut VecSink) -> anyhow::Result<String> {
    let said = exit_text(alloc, exit)?;
    let status = report(exit, said.bytes(), errors);
    let mut text = debug_text(alloc, status)?;
    add_put(alloc, &mut text, errors.bytes(), errors.tells())?;
    Ok(text)
}

/// `say FAILING NAME NUMBER`: the status of the exit that is reported to a sink of which these calls fail, and what was
/// put.
fn say_case(alloc: Global, words: &[&str]) -> anyhow::Result<String> {
    let number = number(word(words, 3))?;
    let mut errors = sink(alloc, word(words, 1))?;
    text_of_report(alloc, &exit_of(word(words, 2), number), &mut errors)
}

/// What an operation gives.
pub(crate) fn answer(alloc: Global, operation: &str, words: &[&str]) -> anyhow::Result<String> {
    match operation {
        "run" => run_case(alloc, words),
        "narrow" => narrow_case(alloc, words),
        "exit" => exit_case(alloc, words),
        "say" => say_case(alloc, words),
        _ => no_case(alloc),
    }
}
