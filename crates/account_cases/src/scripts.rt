//! Cases of `outside`: what each step of a line is answered in memory, and at its end what was kept and whether it is
//! still told.

use case_words::{
    add_answer, add_debug, answer_steps, blob, bytes, debug_text, eight_list, no_case, number,
    number_list, number64, text, told, word,
};
use hex::FromHex;
use outside::{
    Chances, Clock, CounterChances, Event, Events, Files, ListChances, ListClock, MapFiles,
    Moments, Port, ScriptPort, Sends, Sink, SurePort, SureSink, Texts, VecSink,
};
use std::alloc::Global;
use wire_base::Blob;

// ---- sinks

/// How much is taken of a piece.
fn put<S: Sink>(alloc: Global, sink: &mut S, piece: &str) -> anyhow::Result<String> {
    let piece = bytes(alloc, piece)?;
    debug_text(alloc, sink.put(&piece))
}

/// The bytes that were kept, and whether all is told, behind the answers.
fn add_kept(alloc: Global, answers: &mut String, kept: &[u8], tells: bool) -> anyhow::Result<()> {
    let kept = text(alloc, kept)?;
    add_answer(answers, &kept)?;
    add_answer(answers, told(tells))
}

/// What a sink takes of each piece, and the bytes kept.
fn text_of_sink(alloc: Global, sink: &mut VecSink, words: &[&str]) -> anyhow::Result<String> {
    let mut answers = answer_steps(alloc, words, 2, sink, put::<VecSink>)?;
    add_kept(alloc, &mut answers, sink.bytes(), sink.tells())?;
    Ok(answers)
}

/// `sink FAILING PIECE..`: how much was taken of each piece, and the bytes kept.
fn sink(alloc: Global, words: &[&str]) -> anyhow::Result<String> {
    let mut sink = VecSink::new(alloc, number_list(alloc, word(words, 1))?);
    text_of_sink(alloc, &mut sink, words)
}

/// What a sink that never fails takes of each piece, and the bytes kept.
fn text_of_sure_sink(alloc: Global, sink: &mut SureSink, words: &[&str]) -> anyhow::Result<String> {
    let mut answers = answer_steps(alloc, words, 1, sink, put::<SureSink>)?;
    add_kept(alloc, &mut answers, sink.bytes(), sink.tells())?;
    Ok(answers)
}

/// `sure_sink PIECE..`: the same of a sink that never fails.
fn sure_sink(alloc: Global, words: &[&str]) -> anyhow::Result<String> {
    let mut sink = SureSink::new(alloc);
    text_of_sure_sink(alloc, &mut sink, words)
}

// ---- clocks

/// Moments between commas, or `-` for none.
fn moments(alloc: Global, word: &str) -> anyhow::Result<Moments> {
    let mut moments = Moments::new(alloc);
    if word != "-" {
        for part in word.split(',') {
            moments.push(number64(part)?)?;
        }
    }
    Ok(moments)
}

/// The next moments of a clock, as many as `count`.
fn text_of_clock(alloc: Global, clock: &mut ListClock, count: u32) -> anyhow::Result<String> {
    let mut answers = String::new(alloc);
    for _ in 0..count {
        add_debug(alloc, &mut answers, clock.now())?;
    }
    add_answer(&mut answers, told(clock.tells()))?;
    Ok(answers)
}

/// `clock FIRST LATER COUNT`: so many moments.
fn clock(alloc: Global, words: &[&str]) -> anyhow::Result<String> {
    let first = number64(word(words, 1))?;
    let count = number(word(words, 3))?;
    let later = moments(alloc, word(words, 2))?;
    let mut clock = ListClock::new(alloc, first, later);
    text_of_clock(alloc, &mut clock, count)
}

// ---- challenges

/// Starts a maker of challenges with a seed and a boot.
fn start<C: Chances>(
    alloc: Global,
    chances: &mut C,
    seed: &str,
    boot: &str,
) -> anyhow::Result<String> {
    let seed = <[u8; 32]>::from_hex(seed)?;
    chances.start(seed, number(boot)?);
    Ok("started".to_string(alloc)?)
}

/// A step of a maker of challenges: `next`, or `start,SEED,BOOT`.
fn draw<C: Chances>(alloc: Global, chances: &mut C, step: &str) -> anyhow::Result<String> {
    match step.split_once(',') {
        Some((_, rest)) => {
            let (seed, boot) = rest.split_once(',').unwrap_or((rest, ""));
            start(alloc, chances, seed, boot)
        }
        None => debug_text(alloc, chances.next()),
    }
}

/// `list_chances DRAWS STEP..`: what each step gives.
fn list_chances(alloc: Global, words: &[&str]) -> anyhow::Result<String> {
    let mut chances = ListChances::new(eight_list(alloc, word(words, 1))?);
    answer_steps(alloc, words, 2, &mut chances, draw::<ListChances>)
}

/// `counter_chances STEP..`: what each step gives.
fn counter_chances(alloc: Global, words: &[&str]) -> anyhow::Result<String> {
    let mut chances = CounterChances::new();
    answer_steps(alloc, words, 1, &mut chances, draw::<CounterChances>)
}

// ---- files

/// A name with its content, `NAME:CONTENT`.
fn file(alloc: Global, part: &str) -> anyhow::Result<(Blob, Blob)> {
    let (name, content) = part.split_once(':').unwrap_or((part, "-"));
    let name = blob(alloc, name)?;
    let content = blob(alloc, content)?;
    Ok((name, content))
}

/// Names with contents between commas, or `-` for none.
fn texts(alloc: Global, word: &str) -> anyhow::Result<Texts> {
    let mut texts = Texts::new(alloc);
    if word != "-" {
        for part in word.split(',') {
            let text = file(alloc, part)?;
            texts.push(text)?;
        }
    }
    Ok(texts)
}

/// What is read of a name.
fn read(alloc: Global, files: &mut MapFiles, name: &str) -> anyhow::Result<String> {
    let name = bytes(alloc, name)?;
    debug_text(alloc, files.read(alloc, &name))
}

/// What is answered to a write.
fn write(alloc: Global, files: &mut MapFiles, name: &str, content: &str) -> anyhow::Result<String> {
    let name = bytes(alloc, name)?;
    let content = bytes(alloc, content)?;
    debug_text(alloc, files.write(&name, &content))
}

/// What a step gives: `NAME` reads, `NAME=CONTENT` writes.
fn file_step(alloc: Global, files: &mut MapFiles, step: &str) -> anyhow::Result<String> {
    match step.split_once('=') {
        Some((name, content)) => write(alloc, files, name, content),
        None => read(alloc, files, step),
    }
}

/// What each step gives, and whether all is told.
fn text_of_files(alloc: Global, files: &mut MapFiles, words: &[&str]) -> anyhow::Result<String> {
    let mut answers = answer_steps(alloc, words, 3, files, file_step)?;
    add_answer(&mut answers, told(files.tells()))?;
    Ok(answers)
}

/// `files FILES FAILING STEP..`: what each read and write of a name gives.
fn files(alloc: Global, words: &[&str]) -> anyhow::Result<String> {
    let failing = number_list(alloc, word(words, 2))?;
    let texts = texts(alloc, word(words, 1))?;
    let mut files = MapFiles::new(alloc, texts, failing);
    text_of_files(alloc, &mut files, words)
}

// ---- events

/// Bytes that come on a link.
fn bytes_on(alloc: Global, link: u32, word: &str) -> anyhow::Result<Event> {
    Ok(Event::Bytes(link, blob(alloc, word)?))
}

/// An event: `opened:LINK`, `bytes:LINK:BYTES`, `closed:LINK`, `dialled:LINK`, `dial_failed`, else `Stop`.
fn event(alloc: Global, word: &str) -> anyhow::Result<Event> {
    let (name, rest) = word.split_once(':').unwrap_or((word, ""));
    let (link, bytes) = rest.split_once(':').unwrap_or((rest, ""));
    let link = number(link).unwrap_or(0);
    match name {
        "opened" => Ok(Event::Opened(link)),
        "bytes" => bytes_on(alloc, link, bytes),
        "closed" => Ok(Event::Closed(link)),
        "dialled" => Ok(Event::Dialled(link)),
        "dial_failed" => Ok(Event::DialFailed),
        _ => Ok(Event::Stop),
    }
}

/// Events between commas, or `-` for none.
fn events(alloc: Global, word: &str) -> anyhow::Result<Events> {
    let mut events = Events::new(alloc);
    if word != "-" {
        for part in word.split(',') {
            let event = event(alloc, part)?;
            events.push(event)?;
        }
    }
    Ok(events)
}

/// `event EVENT`: its copy.
fn copy_event(alloc: Global, words: &[&str]) -> anyhow::Result<String> {
    let event = event(alloc, word(words, 1))?;
    debug_text(alloc, event.copy(alloc))
}

// ---- ports

/// `listen,ADDRESS`.
fn listen<P: Port>(alloc: Global, port: &mut P, address: &str) -> anyhow::Result<String> {
    let address = bytes(alloc, address)?;
    debug_text(alloc, port.listen(&address))
}

/// `dial,PEER`.
fn dial<P: Port>(alloc: Global, port: &mut P, peer: &str) -> anyhow::Result<String> {
    let peer = bytes(alloc, peer)?;
    debug_text(alloc, port.dial(&peer))
}

/// `send,LINK,BYTES`.
fn send<P: Port>(alloc: Global, port: &mut P, rest: &str) -> anyhow::Result<String> {
    let (link, bytes_word) = rest.split_once(',').unwrap_or((rest, ""));
    let link = number(link)?;
    let bytes = bytes(alloc, bytes_word)?;
    debug_text(alloc, port.send(link, &bytes))
}

/// `close,LINK`.
fn close<P: Port>(alloc: Global, port: &mut P, link: &str) -> anyhow::Result<String> {
    port.close(number(link)?);
    Ok("closed".to_string(alloc)?)
}

/// A step of a port: `listen,ADDRESS`, `next` or `next,WANT`, `dial,PEER`, `send,LINK,BYTES`, `close,LINK`.
fn call<P: Port>(alloc: Global, port: &mut P, step: &str) -> anyhow::Result<String> {
    let (name, rest) = step.split_once(',').unwrap_or((step, ""));
    match name {
        "listen" => listen(alloc, port, rest),
        "next" => debug_text(alloc, port.next(number(rest).ok())),
        "dial" => dial(alloc, port, rest),
        "send" => send(alloc, port, rest),
        "close" => close(alloc, port, rest),
        _ => no_case(alloc),
    }
}

/// The sends that were kept, and whether all is told, behind the answers.
fn add_sends(alloc: Global, answers: &mut String, sent: &Sends, tells: bool) -> anyhow::Result<()> {
    add_debug(alloc, answers, sent)?;
    add_answer(answers, told(tells))
}

/// What each step gives, and the sends.
fn text_of_port(alloc: Global, port: &mut ScriptPort, words: &[&str]) -> anyhow::Result<String> {
    let mut answers = answer_steps(alloc, words, 3, port, call::<ScriptPort>)?;
    add_sends(alloc, &mut answers, port.sent(), port.tells())?;
    Ok(answers)
}

/// The answer to events that no port may list.
fn not_to_be_listed(alloc: Global) -> anyhow::Result<String> {
    Ok("not to be listed".to_string(alloc)?)
}

/// `port EVENTS FAILING STEP..`: what each step gives, and the sends.
fn port(alloc: Global, words: &[&str]) -> anyhow::Result<String> {
    let failing = number_list(alloc, word(words, 2))?;
    let events = events(alloc, word(words, 1))?;
    if !ScriptPort::may_list(events.items()) {
        return not_to_be_listed(alloc);
    }
    let mut port = ScriptPort::new(alloc, events, failing);
    text_of_port(alloc, &mut port, words)
}

/// What each step gives of a port that never fails, and the sends.
fn text_of_sure_port(alloc: Global, port: &mut SurePort, words: &[&str]) -> anyhow::Result<String> {
    let mut answers = answer_steps(alloc, words, 2, port, call::<SurePort>)?;
    add_sends(alloc, &mut answers, port.sent(), port.tells())?;
    Ok(answers)
}

/// `sure_port EVENTS STEP..`: the same of a port that never fails.
fn sure_port(alloc: Global, words: &[&str]) -> anyhow::Result<String> {
    let events = events(alloc, word(words, 1))?;
    if !ScriptPort::may_list(events.items()) {
        return not_to_be_listed(alloc);
    }
    let mut port = SurePort::new(alloc, events);
    text_of_sure_port(alloc, &mut port, words)
}

/// What an operation gives.
pub(crate) fn answer(alloc: Global, operation: &str, words: &[&str]) -> anyhow::Result<String> {
    match operation {
        "sink" => sink(alloc, words),
        "sure_sink" => sure_sink(alloc, words),
        "clock" => clock(alloc, words),
        "list_chances" => list_chances(alloc, words),
        "counter_chances" => counter_chances(alloc, words),
        "files" => files(alloc, words),
        "port" => port(alloc, words),
        "sure_port" => sure_port(alloc, words),
        "event" => copy_event(alloc, words),
        _ => no_case(alloc),
    }
}
