//! Cases of `end_loop`: a small end is served over the outside in memory, a scenario a line.

ghost use Rattle.std.specs.Prelude.{◌≡◌, false};

use crate::scenes::{chances, event};
use crate::small::Small;
use case_words::{
    add_answer, add_debug, debug_text, no_case, number, number_list, number64, sends_text, text,
    told, word,
};
use end_loop::{Halt, begin_with, serve_at};
use outside::{
    Action, Actions, Event, Events, Files, ListChances, ListClock, MapFiles, Moments, ScriptPort,
    Texts, VecSink,
};
use std::alloc::Global;
use wire_base::Blob;

/// An event `NAME:LINK:BYTES` with the parts of `scenes::event`.
fn event_of_word(alloc: Global, word: &str) -> anyhow::Result<Event> {
    let parts: Vec<&str> = word.split(':').collect(alloc)?;
    event(alloc, &parts)
}

/// Events between commas, or `-` for none.
fn events(alloc: Global, word: &str) -> anyhow::Result<Events> {
    let mut events = Events::new(alloc);
    if word != "-" {
        for part in word.split(',') {
            let event = event_of_word(alloc, part)?;
            events.push(event)?;
        }
    }
    Ok(events)
}

/// The outside in memory that the small end is served over.
struct Memory {
    port: ScriptPort,
    out: VecSink,
    clock: ListClock,
    chances: ListChances,
    files: MapFiles,
}

impl Drop for Memory {
    // The drop that would be derived. Written out, it is one call wherever a value that holds a `Memory` is let go,
    // which keeps the proofs of those places short.
    fn drop(self) {
        let Memory {
            port: _port,
            out: _out,
            clock: _clock,
            chances: _chances,
            files: _files,
        } = self;
    }
}

/// Adds what was sent, and the lines put.
fn add_sent(alloc: Global, answers: &mut String, memory: &Memory) -> anyhow::Result<()> {
    let sends = sends_text(alloc, memory.port.sent().items())?;
    add_answer(answers, &sends)?;
    let lines = text(alloc, memory.out.bytes())?;
    add_answer(answers, &lines)
}

/// What the file `kept` holds after a run, `none` where there is none.
fn text_of_kept(alloc: Global, files: &mut MapFiles) -> anyhow::Result<String> {
    match files.read(alloc, b"kept") {
        Ok(content) => text(alloc, content.bytes()),
        Err(_) => Ok("none".to_string(alloc)?),
    }
}

/// Whether port, sink, clock and files still tell all.
fn tells_all(memory: &Memory) -> bool {
    memory.port.tells() && memory.out.tells() && memory.clock.tells() && memory.files.tells()
}

/// What is seen after a run: how it ended, what was sent, the lines put, the end, what was kept, and whether port,
/// sink, clock and files still tell all.
fn seen(
    alloc: Global,
    done: Result<(), Halt>,
    memory: &mut Memory,
    end: &Small,
) -> anyhow::Result<String> {
    let mut answers = debug_text(alloc, done)?;
    add_sent(alloc, &mut answers, memory)?;
    add_debug(alloc, &mut answers, end)?;
    let kept = text_of_kept(alloc, &mut memory.files)?;
    add_answer(&mut answers, &kept)?;
    add_answer(&mut answers, told(tells_all(memory)))?;
    Ok(answers)
}

/// A small end at its start.
fn small() -> Small
    ensures { result.stopped ≡ false }
{
    Small {
        waiting: 0,
        link: None,
        over: false,
        stopped: false,
    }
}

/// The port of a line: its events, and the numbers of its calls that fail. None where it may not list the events.
fn port(alloc: Global, words: &[&str]) -> anyhow::Result<Option<ScriptPort>> {
    let failing = number_list(alloc, word(words, 2))?;
    let events = events(alloc, word(words, 1))?;
    if !ScriptPort::may_list(events.items()) {
        return Ok(None);
    }
    Ok(Some(ScriptPort::new(alloc, events, failing)))
}

/// The sink of a line: the numbers of its puts that fail.
fn sink(alloc: Global, words: &[&str]) -> anyhow::Result<VecSink> {
    Ok(VecSink::new(alloc, number_list(alloc, word(words, 3))?))
}

/// The outside of a line: its clock has a first moment, which repeats. None where the port may not list the events.
fn memory_of(alloc: Global, words: &[&str]) -> anyhow::Result<Option<Memory>> {
    let first = number64(word(words, 5))?;
    let chances = chances(alloc, word(words, 4))?;
    let out = sink(alloc, words)?;
    let files = MapFiles::new(
        alloc,
        Texts::new(alloc),
        number_list(alloc, word(words, 8))?,
    );
    let Some(port) = port(alloc, words)? else {
        return Ok(None);
    };
    Ok(Some(Memory {
        port,
        out,
        clock: ListClock::new(alloc, first, Moments::new(alloc)),
        chances,
        files,
    }))
}

/// The name of the file that texts are kept in, where the line names one.
fn file<'a>(words: &[&'a str]) -> Option<&'a [u8]> {
    match word(words, 7) {
        "-" => None,
        name => Some(name.as_bytes()),
    }
}

/// How the small end, where so many dials wait, is served at an address from these actions on.
fn serve_over(
    alloc: Global,
    memory: &mut Memory,
    first: &Actions,
    waiting: u32,
    most: u32,
    file: Option<&[u8]>,
) -> anyhow::Result<String> {
    let mut end = small();
    end.waiting = waiting;
    let done = serve_at(
        alloc,
        &mut end,
        first,
        b"here",
        [0; 32],
        1,
        most,
        &mut memory.port,
        &mut memory.out,
        file,
        &mut memory.files,
        &mut memory.clock,
        &mut memory.chances,
    );
    seen(alloc, done, memory, &end)
}

/// `loop.serve EVENTS FAILING FAILING_PUTS DRAWS MOMENT MOST FILE FAILING_WRITES`: the small end is served at an
/// address, and its texts are kept in that file.
fn serve(alloc: Global, words: &[&str]) -> anyhow::Result<String> {
    let most = number(word(words, 6))?;
    let Some(mut memory) = memory_of(alloc, words)? else {
        return no_case(alloc);
    };
    let none = Actions::new(alloc);
    serve_over(alloc, &mut memory, &none, 0, most, file(words))
}

/// A first dial.
fn first_dial(alloc: Global) -> anyhow::Result<Actions> {
    let peer = Blob::copy(alloc, b"peer")?;
    let mut first = Actions::new(alloc);
    first.push(Action::Dial(peer))?;
    Ok(first)
}

/// A text to keep, and a dial.
fn first_text(alloc: Global) -> anyhow::Result<Actions> {
    let text = Blob::copy(alloc, b"first")?;
    let peer = Blob::copy(alloc, b"peer")?;
    let mut first = Actions::new(alloc);
    first.push(Action::Keep(text))?;
    first.push(Action::Dial(peer))?;
    Ok(first)
}

/// `loop.serve_first EVENTS FAILING FAILING_PUTS DRAWS MOMENT MOST FILE FAILING_WRITES`: the small end, where a dial
/// waits, is served at an address from a text to keep and a dial on, and its texts are kept in that file.
fn serve_first(alloc: Global, words: &[&str]) -> anyhow::Result<String> {
    let most = number(word(words, 6))?;
    let first = first_text(alloc)?;
    let Some(mut memory) = memory_of(alloc, words)? else {
        return no_case(alloc);
    };
    serve_over(alloc, &mut memory, &first, 1, most, file(words))
}

/// How the small end, where a dial waits, is served from these actions on.
fn begin_over(
    alloc: Global,
    memory: &mut Memory,
    first: &Actions,
    most: u32,
    file: Option<&[u8]>,
) -> anyhow::Result<String> {
    let mut end = small();
    end.waiting = 1;
    let done = begin_with(
        alloc,
        &mut end,
        first,
        most,
        &mut memory.port,
        &mut memory.out,
        file,
        &mut memory.files,
        &mut memory.clock,
        &mut memory.chances,
    );
    seen(alloc, done, memory, &end)
}

/// `loop.begin EVENTS FAILING FAILING_PUTS DRAWS MOMENT MOST FILE FAILING_WRITES`: the small end, where a dial waits,
/// is served from a first dial on, and its texts are kept in that file.
fn begin(alloc: Global, words: &[&str]) -> anyhow::Result<String> {
    let most = number(word(words, 6))?;
    let first = first_dial(alloc)?;
    let Some(mut memory) = memory_of(alloc, words)? else {
        return no_case(alloc);
    };
    begin_over(alloc, &mut memory, &first, most, file(words))
}

/// The answer to an operation.
pub(crate) fn answer(alloc: Global, operation: &str, words: &[&str]) -> anyhow::Result<String> {
    match operation {
        "serve" => serve(alloc, words),
        "serve_first" => serve_first(alloc, words),
        "begin" => begin(alloc, words),
        _ => no_case(alloc),
    }
}
