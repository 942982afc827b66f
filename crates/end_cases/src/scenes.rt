//! Scenarios of an end: its events, and its actions.

use case_words::{
    add_answer, add_debug, add_part, blob, debug_text, eight_list, list_text, number, number64,
    refusal_text, text, word,
};
use end_loop::End;
use outside::{Action, Actions, Chances, Event, Judged, ListChances};
use std::alloc::Global;
use std::fmt::Debug;

/// Bytes that come on a link.
fn bytes_on(alloc: Global, link: u32, word: &str) -> anyhow::Result<Event> {
    Ok(Event::Bytes(link, blob(alloc, word)?))
}

/// The event of a name without bytes, else `Stop`.
fn event_of(name: &str, link: u32) -> Event {
    match name {
        "opened" => Event::Opened(link),
        "closed" => Event::Closed(link),
        "dialled" => Event::Dialled(link),
        "failed" => Event::DialFailed,
        _ => Event::Stop,
    }
}

/// The event of these parts: `opened LINK`, `bytes LINK BYTES`, `closed LINK`, `dialled LINK`, `failed`; else `Stop`.
pub(crate) fn event(alloc: Global, parts: &[&str]) -> anyhow::Result<Event> {
    let link = number(word(parts, 1)).unwrap_or(0);
    match word(parts, 0) {
        "bytes" => bytes_on(alloc, link, word(parts, 2)),
        name => Ok(event_of(name, link)),
    }
}

/// A word, the number of what it tells of, and a value.
pub(crate) fn numbered_text<T: Debug + Drop>(
    alloc: Global,
    what: &str,
    number: u32,
    value: T,
) -> anyhow::Result<String> {
    Ok(format!(in alloc; "{what} {number} {value:?}")?)
}

/// How a call was judged, as a word.
fn judged_text(alloc: Global, how: &Judged) -> anyhow::Result<String> {
    Ok(format!(in alloc; "judged {how:?}")?)
}

/// An action as a word: `keep BYTES`, `send LINK BYTES`, `dial PEER`, `close LINK CAUSE`, `told LINK OUTCOME`, `judged
/// HOW`.
fn action_text(alloc: Global, action: &Action) -> anyhow::Result<String> {
    match action {
        Action::Keep(bytes) => keep_text(alloc, bytes.bytes()),
        Action::Send(link, bytes) => send_text(alloc, *link, bytes.bytes()),
        Action::Dial(peer) => dial_text(alloc, peer.bytes()),
        Action::Close(link, cause) => numbered_text(alloc, "close", *link, cause),
        Action::Told(link, outcome) => numbered_text(alloc, "told", *link, outcome),
        Action::Judged(how) => judged_text(alloc, how),
    }
}

/// What is to be kept, as a word.
fn keep_text(alloc: Global, bytes: &[u8]) -> anyhow::Result<String> {
    let bytes = text(alloc, bytes)?;
    Ok(format!(in alloc; "keep {bytes}")?)
}

/// What is sent, as a word.
fn send_text(alloc: Global, link: u32, bytes: &[u8]) -> anyhow::Result<String> {
    let bytes = text(alloc, bytes)?;
    Ok(format!(in alloc; "send {link} {bytes}")?)
}

/// Who is dialled, as a word.
fn dial_text(alloc: Global, peer: &[u8]) -> anyhow::Result<String> {
    let peer = text(alloc, peer)?;
    Ok(format!(in alloc; "dial {peer}")?)
}

/// Puts an action behind the others.
fn put_action(alloc: Global, all: &mut String, action: &Action) -> anyhow::Result<()> {
    let one = action_text(alloc, action)?;
    add_part(all, &one)
}

/// Actions between commas, or `-` for none.
pub(crate) fn actions_text(alloc: Global, actions: &Actions) -> anyhow::Result<String> {
    let mut all = String::new(alloc);
    for action in actions.items() {
        put_action(alloc, &mut all, action)?;
    }
    list_text(alloc, all)
}

/// The step for an event at the moment.
fn step<E: End>(
    alloc: Global,
    end: &mut E,
    event: &Event,
    now: u64,
    chances: &mut ListChances,
) -> anyhow::Result<String> {
    match end.step(alloc, event, now, chances) {
        Ok(actions) => actions_text(alloc, &actions),
        Err(refused) => refusal_text(alloc, refused),
    }
}

/// The link that the end waits for.
fn wants<E: End>(alloc: Global, end: &E) -> anyhow::Result<String> {
    debug_text(alloc, end.wants())
}

/// How many challenges are left, of at most 1,000.
fn count_left(chances: &mut ListChances) -> u32 {
    for count in 0..1000 {
        if chances.next().is_err() {
            return count;
        }
    }
    1000
}

/// The answer to an event.
fn answer_event<E: End>(
    alloc: Global,
    end: &mut E,
    chances: &mut ListChances,
    now: u64,
    word: &str,
) -> anyhow::Result<String> {
    let parts: Vec<&str> = word.split('/').collect(alloc)?;
    let event = event(alloc, &parts)?;
    step(alloc, end, &event, now, chances)
}

/// The answer to a step that is no moment: `wants`, or an event.
pub(crate) fn answer<E: End>(
    alloc: Global,
    end: &mut E,
    chances: &mut ListChances,
    now: u64,
    word: &str,
) -> anyhow::Result<String> {
    match word {
        "wants" => wants(alloc, end),
        _ => answer_event(alloc, end, chances, now, word),
    }
}

/// The answers to the steps of an end that may draw these challenges: `at/MOMENT`, `wants`, or an event.
pub(crate) fn play<E: End>(
    alloc: Global,
    end: &mut E,
    chances: &mut ListChances,
    steps: &[&str],
) -> anyhow::Result<String> {
    let mut answers = String::new(alloc);
    let mut now = 0;
    for each in steps {
        if let Some(("at", moment)) = each.split_once('/') {
            now = number64(moment)?;
            add_answer(&mut answers, "-")?;
        } else {
            let answer = answer(alloc, end, chances, now, each)?;
            add_answer(&mut answers, &answer)?;
        }
    }
    Ok(answers)
}

/// The challenges of a word, to be drawn.
pub(crate) fn chances(alloc: Global, word: &str) -> anyhow::Result<ListChances> {
    Ok(ListChances::new(eight_list(alloc, word)?))
}

/// Puts the number of challenges that are left behind the answers.
pub(crate) fn add_left(
    alloc: Global,
    answers: &mut String,
    chances: &mut ListChances,
) -> anyhow::Result<()> {
    add_debug(alloc, answers, count_left(chances))
}

/// The answers to the steps of an end, and the number of challenges that are left.
pub(crate) fn play_and_count<E: End>(
    alloc: Global,
    end: &mut E,
    chances: &mut ListChances,
    steps: &[&str],
) -> anyhow::Result<String> {
    let mut answers = play(alloc, end, chances, steps)?;
    add_left(alloc, &mut answers, chances)?;
    Ok(answers)
}
