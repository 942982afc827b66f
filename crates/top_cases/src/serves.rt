//! Cases of the commands that serve: a run over an outside in memory, a line each.

use crate::in_memory::{Memory, clock, run_over, sink};
use crate::jobs::files;
use crate::line::{command_line, role};
use crate::top::text_of_exit;
use case_words::{
    add_answer, add_debug, blob, eight_list, no_case, number, number_list, sends_text, told, word,
};
use nt_top::{Exit, Role};
use outside::{Event, Events, Files, ListChances, ScriptPort, Sends, VecSink};
use std::alloc::Global;

/// An event of its parts.
fn event_of(alloc: Global, parts: &[&str]) -> anyhow::Result<Event> {
    let link = number(word(parts, 1)).unwrap_or(0);
    match word(parts, 0) {
        "opened" => Ok(Event::Opened(link)),
        "bytes" => Ok(Event::Bytes(link, blob(alloc, word(parts, 2))?)),
        "closed" => Ok(Event::Closed(link)),
        _ => Ok(Event::Stop),
    }
}

/// An event: `opened:LINK`, `bytes:LINK:BYTES`, `closed:LINK`, else `Stop`.
fn event(alloc: Global, word: &str) -> anyhow::Result<Event> {
    let parts: Vec<&str> = word.split(':').collect(alloc)?;
    event_of(alloc, &parts)
}

/// Puts so many links that open, from link 1 on.
fn put_openings(events: &mut Events, count: u32) -> anyhow::Result<()> {
    for link in 0..count.min(999) {
        events.push(Event::Opened(link + 1))?;
    }
    Ok(())
}

/// Puts the events of a part: `opens:COUNT`, or one event.
fn put_events(alloc: Global, events: &mut Events, part: &str) -> anyhow::Result<()> {
    if let Some(count) = part.strip_prefix("opens:") {
        return put_openings(events, number(count)?);
    }
    let event = event(alloc, part)?;
    events.push(event)?;
    Ok(())
}

/// Events between commas, or `-` for none; `opens:COUNT` is that many links that open, from link 1 on.
fn events(alloc: Global, word: &str) -> anyhow::Result<Events> {
    let mut events = Events::new(alloc);
    if word != "-" {
        for part in word.split(',') {
            put_events(alloc, &mut events, part)?;
        }
    }
    Ok(events)
}

/// The port of these events, whose calls of these numbers fail. None where it may not list the events.
fn port(alloc: Global, word: &str, failing: &str) -> anyhow::Result<Option<ScriptPort>> {
    let failing = number_list(alloc, failing)?;
    let events = events(alloc, word)?;
    if !ScriptPort::may_list(events.items()) {
        return Ok(None);
    }
    Ok(Some(ScriptPort::new(alloc, events, failing)))
}

/// The challenges of a word, to be drawn.
fn chances(alloc: Global, word: &str) -> anyhow::Result<ListChances> {
    Ok(ListChances::new(eight_list(alloc, word)?))
}

/// The outside of a line, but for its sink. None where its port may not list the events.
fn memory_of(alloc: Global, words: &[&str]) -> anyhow::Result<Option<Memory>> {
    let chances = chances(alloc, word(words, 5))?;
    let files = files(alloc, word(words, 6), word(words, 3))?;
    let Some(port) = port(alloc, word(words, 1), word(words, 2))? else {
        return Ok(None);
    };
    Ok(Some(Memory {
        port,
        files,
        clock: clock(alloc),
        chances,
    }))
}

/// What is seen after a run: the exit, the text put, what was sent.
fn seen(alloc: Global, exit: &Exit, put: &[u8], sends: &Sends) -> anyhow::Result<String> {
    let mut answers = text_of_exit(alloc, exit)?;
    add_debug(
        alloc,
        &mut answers,
        str::from_utf8(put).unwrap_or("no text"),
    )?;
    let sends = sends_text(alloc, sends.items())?;
    add_answer(&mut answers, &sends)?;
    Ok(answers)
}

/// How a command ends, what it put and sent, and whether all that was kept is still told.
fn text_of_run(
    alloc: Global,
    role: Role,
    command: &[String],
    memory: &mut Memory,
    out: &mut VecSink,
) -> anyhow::Result<String> {
    let exit = run_over(alloc, role, command, memory, out);
    let mut answers = seen(alloc, &exit, out.bytes(), memory.port.sent())?;
    add_answer(&mut answers, told(memory.tells() && out.tells()))?;
    Ok(answers)
}

/// `run EVENTS FAILING FAILING_READS FAILING_PUTS DRAWS FILES ROLE WORD..`: how the command ends over a port of these
/// events, whose calls of these numbers fail, over these files and challenges.
fn run_case(alloc: Global, words: &[&str]) -> anyhow::Result<String> {
    let command = command_line(alloc, words, 8)?;
    let mut out = sink(alloc, word(words, 4))?;
    let Some(mut memory) = memory_of(alloc, words)? else {
        return no_case(alloc);
    };
    text_of_run(alloc, role(word(words, 7)), &command, &mut memory, &mut out)
}

/// Adds what the file `c` holds after a run, `none` where there is none.
fn add_kept(alloc: Global, text: &mut String, memory: &mut Memory) -> anyhow::Result<()> {
    match memory.files.read(alloc, b"c") {
        Ok(content) => {
            let content = case_words::text(alloc, content.bytes())?;
            add_answer(text, &content)
        }
        Err(_) => add_answer(text, "none"),
    }
}

/// How a command ends, what it put and sent, whether all that was kept is still told, and what the file `c` holds.
fn text_of_keeping(
    alloc: Global,
    role: Role,
    command: &[String],
    memory: &mut Memory,
    out: &mut VecSink,
) -> anyhow::Result<String> {
    let mut answers = text_of_run(alloc, role, command, memory, out)?;
    add_kept(alloc, &mut answers, memory)?;
    Ok(answers)
}

/// `keep EVENTS FAILING FAILING_FILES FAILING_PUTS DRAWS FILES ROLE WORD..`: the same as `run`, and what the file `c`
/// holds then.
fn keep_case(alloc: Global, words: &[&str]) -> anyhow::Result<String> {
    let command = command_line(alloc, words, 8)?;
    let mut out = sink(alloc, word(words, 4))?;
    let Some(mut memory) = memory_of(alloc, words)? else {
        return no_case(alloc);
    };
    text_of_keeping(alloc, role(word(words, 7)), &command, &mut memory, &mut out)
}

/// What an operation gives.
pub(crate) fn answer(alloc: Global, operation: &str, words: &[&str]) -> anyhow::Result<String> {
    match operation {
        "run" => run_case(alloc, words),
        "keep" => keep_case(alloc, words),
        _ => no_case(alloc),
    }
}
