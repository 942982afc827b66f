//! Cases of `end_links`: bindings, what is sent, and links by their numbers.

ghost use Rattle.std.specs.Prelude.{◌≡◌, ◌≤◌, ◌<◌, ◌^◌, true, length, None};
ghost use Rattle.rpc_units.specs.Joining.{IsWholeCall};
ghost use Rattle.rpc_units.specs.Numbers.{context_limit};

use crate::hearing;
use case_words::{
    add_answer, answer_steps, blob, bytes, debug_text, halves, no_case, number, number16, sixteen,
    text, truth, word,
};
use end_links::{
    Binding, Link, Links, SaysHeld, bind, bind_ack, bind_nak, call_bytes, call_frames, fault,
    fragment_limit, join_frames, request, response, short_unit_bytes, unit_bytes,
};
use rpc_units::{Body, Contexts, Syntax, Unit, read_unit};
use std::alloc::Global;
use std::mem;
use wire_base::{Blob, Frames};

// ---- bindings

/// An interface: its UUID, a point and its version.
pub(crate) fn interface(part: &str) -> anyhow::Result<Syntax> {
    let (uuid, version) = part.split_once('.').unwrap_or(("", ""));
    Ok(Syntax {
        uuid: sixteen(uuid)?,
        version: number(version)?,
    })
}

/// The bytes of the answer to a bind.
fn ack_text(
    alloc: Global,
    served: &Syntax,
    call: u32,
    receive: u16,
    contexts: &Contexts,
) -> anyhow::Result<String>
    requires { length contexts.now ≤ context_limit }
{
    let answer = bind_ack(alloc, served, call, receive, contexts)?;
    let bytes = short_unit_bytes(alloc, &answer)?;
    text(alloc, bytes.bytes())
}

/// Puts whether a binding accepts the context of a word behind the answers.
fn add_accepted(answer: &mut String, binding: &Binding, id: &str) -> anyhow::Result<()> {
    add_answer(answer, truth(binding.accepts(number16(id)?)))
}

/// The limit that a binding has, and whether it accepts each of these contexts, from the third word on.
fn binding_text(alloc: Global, binding: &Binding, words: &[&str]) -> anyhow::Result<String> {
    let mut answer = debug_text(alloc, binding.limit())?;
    for id in words.iter().skip(3) {
        add_accepted(&mut answer, binding, id)?;
    }
    Ok(answer)
}

/// What a bind agrees on.
fn agreed_text(
    alloc: Global,
    served: &Syntax,
    receive: u16,
    contexts: &Contexts,
    words: &[&str],
) -> anyhow::Result<String> {
    let binding = Binding::new(alloc, served, receive, contexts)?;
    binding_text(alloc, &binding, words)
}

/// What a bind is answered, and what it agrees on.
fn bound_text(
    alloc: Global,
    served: &Syntax,
    call: u32,
    receive: u16,
    contexts: &Contexts,
    words: &[&str],
) -> anyhow::Result<String>
    requires { length contexts.now ≤ context_limit }
{
    let mut answer = ack_text(alloc, served, call, receive, contexts)?;
    let agreed = agreed_text(alloc, served, receive, contexts, words)?;
    add_answer(&mut answer, &agreed)?;
    Ok(answer)
}

/// What the bind of these bytes is answered, and what it agrees on.
fn answer_to_bind(
    alloc: Global,
    served: &Syntax,
    bytes: &[u8],
    words: &[&str],
) -> anyhow::Result<String> {
    let unit = read_unit(alloc, bytes)?;
    match &unit.body {
        Body::Bind {
            receive,
            contexts,
            ..
        } => bound_text(alloc, served, unit.call, *receive, contexts, words),
        _ => no_case(alloc),
    }
}

/// `answer INTERFACE BIND ID ..`.
fn answer_to(alloc: Global, words: &[&str]) -> anyhow::Result<String> {
    let served = interface(word(words, 1))?;
    let bind = bytes(alloc, word(words, 2))?;
    answer_to_bind(alloc, &served, &bind, words)
}

/// `limit RECEIVE`.
fn limit(alloc: Global, words: &[&str]) -> anyhow::Result<String> {
    debug_text(alloc, fragment_limit(number16(word(words, 1))?))
}

/// `nak CALL`.
fn nak(alloc: Global, words: &[&str]) -> anyhow::Result<String> {
    let unit = bind_nak(number(word(words, 1))?);
    let bytes = short_unit_bytes(alloc, &unit)?;
    text(alloc, bytes.bytes())
}

/// `bind INTERFACE CALL`.
fn bind_text(alloc: Global, words: &[&str]) -> anyhow::Result<String> {
    let interface = interface(word(words, 1))?;
    let unit = bind(alloc, &interface, number(word(words, 2))?)?;
    let bytes = unit_bytes(alloc, &unit)?;
    text(alloc, bytes.bytes())
}

// ---- what is sent

/// `fault CALL CONTEXT STATUS`.
fn fault_text(alloc: Global, words: &[&str]) -> anyhow::Result<String> {
    let context = number16(word(words, 2))?;
    let unit = fault(number(word(words, 1))?, context, number(word(words, 3))?);
    let bytes = short_unit_bytes(alloc, &unit)?;
    text(alloc, bytes.bytes())
}

/// Whether a limit is one that a binding may have.
fn is_limit(limit: u16) -> bool
    ensures least { result ≡ true → 1432 ≤ limit }
    ensures most { result ≡ true → limit ≤ 5840 }
{
    1432 <= limit && limit <= 5840
}

/// Whether a stub's length is one of 32 bits.
fn has_length(stub: &Blob) -> bool
    ensures { result ≡ true → length stub.now < 2 ^ 32 }
{
    stub.bytes().len() <= 0xFFFF_FFFF
}

/// Puts a byte string in hex behind the answers.
fn add_text(alloc: Global, answer: &mut String, bytes: &[u8]) -> anyhow::Result<()> {
    let step = text(alloc, bytes)?;
    add_answer(answer, &step)
}

/// The frames one by one.
pub(crate) fn frames_in_hex(alloc: Global, frames: &Frames) -> anyhow::Result<String> {
    let mut answer = String::new(alloc);
    for frame in frames.items() {
        add_text(alloc, &mut answer, frame.bytes())?;
    }
    Ok(answer)
}

/// Whether the frames of a call or reply are its bytes when joined.
fn are_bytes(alloc: Global, frames: &Frames, unit: &Unit, limit: u16) -> anyhow::Result<bool>
    requires whole { IsWholeCall unit.now }
    requires plain { unit.now.trailer ≡ None }
    requires least { 1432 ≤ limit }
    requires most { limit ≤ 5840 }
{
    let joined = join_frames(alloc, frames)?;
    let bytes = call_bytes(alloc, unit, limit)?;
    Ok(joined.bytes() == bytes.bytes())
}

/// The frames of a call or reply, and whether they are its bytes when joined.
fn frames_text(alloc: Global, unit: &Unit, limit: u16) -> anyhow::Result<String>
    requires whole { IsWholeCall unit.now }
    requires plain { unit.now.trailer ≡ None }
{
    if !is_limit(limit) {
        return no_case(alloc);
    }
    let frames = call_frames(alloc, unit, limit)?;
    let are_bytes = are_bytes(alloc, &frames, unit, limit)?;
    let mut answer = frames_in_hex(alloc, &frames)?;
    add_answer(&mut answer, truth(are_bytes))?;
    Ok(answer)
}

/// `request LIMIT CALL CONTEXT OPNUM STUB`.
fn request_text(alloc: Global, words: &[&str]) -> anyhow::Result<String> {
    let limit = number16(word(words, 1))?;
    let call = number(word(words, 2))?;
    let context = number16(word(words, 3))?;
    let opnum = number16(word(words, 4))?;
    let stub = blob(alloc, word(words, 5))?;
    if !has_length(&stub) {
        return no_case(alloc);
    }
    frames_text(alloc, &request(call, context, opnum, stub), limit)
}

/// `response LIMIT CALL CONTEXT STUB`.
fn response_text(alloc: Global, words: &[&str]) -> anyhow::Result<String> {
    let limit = number16(word(words, 1))?;
    let call = number(word(words, 2))?;
    let context = number16(word(words, 3))?;
    let stub = blob(alloc, word(words, 4))?;
    if !has_length(&stub) {
        return no_case(alloc);
    }
    frames_text(alloc, &response(call, context, stub), limit)
}

// ---- links by their numbers

/// What is said on a link, by the bytes that it holds.
#[derive(Drop)]
struct Said {
    bytes: u16,
}

impl SaysHeld for Said {
    ghost bytes_held = { λ said. said.bytes };

    ghost most_held = { 65535 };

    fn held(&self) -> usize {
        usize::from(self.bytes)
    }
}

/// Links of this kind.
type SaidLinks = Links<Said>;

/// Puts one more link of that number, where there is room.
fn put(alloc: Global, links: &mut SaidLinks, number: u32, bytes: u16) -> anyhow::Result<()> {
    if links.is_full() {
        return Ok(());
    }
    let link = Link::new(alloc, Said { bytes })?;
    *links = mem::replace(links, Links::new(alloc)).put(number, link)?;
    Ok(())
}

/// Puts links of the numbers from `from` up to `to`, where there is room.
fn fill(alloc: Global, links: &mut SaidLinks, from: u32, to: u32) -> anyhow::Result<()> {
    for number in from..to {
        put(alloc, links, number, 0)?;
    }
    Ok(())
}

/// How many links there are, whether no more may be put, what they hold, and whether there is one of that number.
fn links_text(alloc: Global, links: &SaidLinks, number: u32) -> anyhow::Result<String> {
    let count = links.len();
    let full = links.is_full();
    let held = links.held();
    let found = links.get(number).is_some();
    Ok(format!(in alloc; "{count} {full} {held} {found}")?)
}

/// Takes the link of that number out. Whether there was one, and the links afterwards.
fn take(alloc: Global, links: &mut SaidLinks, number: u32) -> anyhow::Result<String> {
    let (rest, link) = mem::replace(links, Links::new(alloc)).take(number);
    *links = rest;
    let taken = link.is_some();
    let left = links_text(alloc, links, number)?;
    Ok(format!(in alloc; "{taken};{left}")?)
}

/// What a step on links gives: `put/NUMBER/BYTES`, `fill/FROM/TO`, `take/NUMBER/0`.
fn step(alloc: Global, links: &mut SaidLinks, step: &str) -> anyhow::Result<String> {
    let (name, rest) = halves(step);
    let (one, other) = halves(rest);
    let one = number(one)?;
    let other = number16(other)?;
    match name {
        "put" => put(alloc, links, one, other)?,
        "fill" => fill(alloc, links, one, u32::from(other))?,
        _ => return take(alloc, links, one),
    }
    links_text(alloc, links, one)
}

/// `map STEP ..`.
fn map(alloc: Global, words: &[&str]) -> anyhow::Result<String> {
    let mut links = SaidLinks::new(alloc);
    answer_steps(alloc, words, 1, &mut links, step)
}

/// What an operation gives.
pub(crate) fn answer(alloc: Global, operation: &str, words: &[&str]) -> anyhow::Result<String> {
    match operation {
        "answer" => answer_to(alloc, words),
        "limit" => limit(alloc, words),
        "nak" => nak(alloc, words),
        "bind" => bind_text(alloc, words),
        "fault" => fault_text(alloc, words),
        "request" => request_text(alloc, words),
        "response" => response_text(alloc, words),
        "map" => map(alloc, words),
        "hear" => hearing::hear_pieces(alloc, words),
        "cuts" => hearing::hear_cuts(alloc, words),
        _ => no_case(alloc),
    }
}
