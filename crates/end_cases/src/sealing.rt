//! Cases of `channel_sealing`: what binds of a channel that seals tell, and frames that one end seals and opens.

ghost use Rattle.std.specs.Prelude.{◌≡◌, ◌≤◌, ◌<◌, ◌^◌, true, length};
ghost use Rattle.rpc_units.specs.Joining.{IsWholeCall};

use crate::links::interface;
use crate::members::name;
use crate::turns::frames_text;
use case_words::{
    answer_steps, blob, bytes, eight, no_case, number, number8, number16, sixteen, text, word,
};
use channel_sealing::{
    SealedPart, bind_names, bind_value, range_of, room_frames, seal_frames, sealed_ack,
    sealed_bind, sealed_limit, sealed_link_limit, sealed_part,
};
use end_links::{request, response, unit_bytes};
use netlogon_seal::{NlRefused, NlSeal};
use rpc_units::{Body, Contexts, Syntax, Unit, read_unit};
use std::alloc::Global;
use wire_base::{Blob, Frames};

// ---- binds

/// `value DOMAIN COMPUTER`: what the bind of a computer in a domain tells.
fn value_text(alloc: Global, words: &[&str]) -> anyhow::Result<String> {
    let domain = name(alloc, word(words, 1))?;
    let computer = name(alloc, word(words, 2))?;
    let value = bind_value(alloc, &domain, &computer)?;
    text(alloc, value.bytes())
}

/// The names of domain and computer, a blank between them.
fn both_text(alloc: Global, domain: &[u8], computer: &[u8]) -> anyhow::Result<String> {
    let domain = text(alloc, domain)?;
    let computer = text(alloc, computer)?;
    Ok(format!(in alloc; "{domain} {computer}")?)
}

/// `names VALUE`: the domain and the computer that a bind tells by this value, or `none`.
fn names_text(alloc: Global, words: &[&str]) -> anyhow::Result<String> {
    let value = bytes(alloc, word(words, 1))?;
    match bind_names(&value) {
        Some((domain, computer)) => both_text(alloc, domain, computer),
        None => Ok("none".to_string(alloc)?),
    }
}

/// Whether a value is one that a bind has room for.
fn is_value(value: &Blob) -> bool
    ensures some { result ≡ true → 0 < length value.now }
    ensures few { result ≡ true → length value.now ≤ 138 }
{
    let length = value.bytes().len();
    0 < length && length <= 138
}

/// The bytes of a bind with that value.
fn bound_text(
    alloc: Global,
    interface: &Syntax,
    call: u32,
    value: &Blob,
) -> anyhow::Result<String> {
    if !is_value(value) {
        return no_case(alloc);
    }
    let unit = sealed_bind(alloc, interface, call, value)?;
    let bytes = unit_bytes(alloc, &unit)?;
    text(alloc, bytes.bytes())
}

/// `bind INTERFACE CALL VALUE`.
fn bind_text(alloc: Global, words: &[&str]) -> anyhow::Result<String> {
    let interface = interface(word(words, 1))?;
    let value = blob(alloc, word(words, 3))?;
    bound_text(alloc, &interface, number(word(words, 2))?, &value)
}

/// Whether there are as few contexts as a bind with an auth value has room for.
fn are_few(contexts: &Contexts) -> bool
    ensures { result ≡ true → length contexts.now ≤ 241 }
{
    contexts.len() <= 241
}

/// The bytes of the answer to a bind whose trailer has that context.
fn answer_text(
    alloc: Global,
    served: &Syntax,
    call: u32,
    receive: u16,
    contexts: &Contexts,
    context: u32,
) -> anyhow::Result<String> {
    if !are_few(contexts) {
        return no_case(alloc);
    }
    let answer = sealed_ack(alloc, served, call, receive, contexts, context)?;
    let bytes = unit_bytes(alloc, &answer)?;
    text(alloc, bytes.bytes())
}

/// The bytes of the answer to the bind that these bytes are, with a trailer.
fn answer_to_bind(alloc: Global, served: &Syntax, bytes: &[u8]) -> anyhow::Result<String> {
    let unit = read_unit(alloc, bytes)?;
    match (&unit.body, &unit.trailer) {
        (
            Body::Bind {
                receive,
                contexts,
                ..
            },
            Some(trailer),
        ) => answer_text(
            alloc,
            served,
            unit.call,
            *receive,
            contexts,
            trailer.context,
        ),
        _ => no_case(alloc),
    }
}

/// `ack INTERFACE BIND`.
fn ack_text(alloc: Global, words: &[&str]) -> anyhow::Result<String> {
    let served = interface(word(words, 1))?;
    let bind = bytes(alloc, word(words, 2))?;
    answer_to_bind(alloc, &served, &bind)
}

/// `limits RECEIVE`: the limit of a sealed link, and that by which a call is cut.
fn limits_text(alloc: Global, words: &[&str]) -> anyhow::Result<String> {
    let receive = number16(word(words, 1))?;
    let (link, cut) = (sealed_link_limit(receive), sealed_limit(receive));
    Ok(format!(in alloc; "{link} {cut}")?)
}

/// `part BYTES`: what of a unit is sealed, and the range in front of a trailer with a value of 32 bytes.
fn part_text(alloc: Global, words: &[&str]) -> anyhow::Result<String> {
    let bytes = bytes(alloc, word(words, 1))?;
    let (part, range) = (sealed_part(&bytes), range_of(&bytes));
    Ok(format!(in alloc; "{part:?} {range:?}")?)
}

// ---- one end of a channel

/// The frames of a list of byte strings, with commas between them.
fn frame_list(alloc: Global, word: &str) -> anyhow::Result<Frames> {
    let mut frames = Frames::new(alloc);
    for part in word.split(',') {
        frames.push(blob(alloc, part)?)?;
    }
    Ok(frames)
}

/// The frames as they are sealed; `none` where they can't be.
fn sealed_text(
    alloc: Global,
    seal: &mut NlSeal,
    confounder: &str,
    frames: Frames,
) -> anyhow::Result<String> {
    match seal_frames(alloc, seal, eight(confounder)?, frames) {
        Some(sealed) => frames_text(alloc, &sealed),
        None => Ok("none".to_string(alloc)?),
    }
}

/// The frames of a call or reply of a step `KIND/RECEIVE/CONTEXT/CONFOUNDER/..`, sealed, or with room for signatures
/// where the confounder is `-`.
fn call_text(alloc: Global, seal: &mut NlSeal, unit: Unit, parts: &[&str]) -> anyhow::Result<String>
    requires { IsWholeCall unit }
{
    let receive = number16(word(parts, 1))?;
    let frames = room_frames(alloc, unit, number(word(parts, 2))?, receive)?;
    match word(parts, 3) {
        "-" => frames_text(alloc, &frames),
        confounder => sealed_text(alloc, seal, confounder, frames),
    }
}

/// Whether a stub's length is one of 32 bits.
fn has_length(stub: &Blob) -> bool
    ensures { result ≡ true → length stub.now < 2 ^ 32 }
{
    stub.bytes().len() <= 0xFFFF_FFFF
}

/// `request/RECEIVE/CONTEXT/CONFOUNDER/CALL/BOUND/OPNUM/STUB`, where the request is for the context BOUND.
fn request_text(alloc: Global, seal: &mut NlSeal, parts: &[&str]) -> anyhow::Result<String> {
    let call = number(word(parts, 4))?;
    let bound = number16(word(parts, 5))?;
    let opnum = number16(word(parts, 6))?;
    let stub = blob(alloc, word(parts, 7))?;
    if !has_length(&stub) {
        return no_case(alloc);
    }
    call_text(alloc, seal, request(call, bound, opnum, stub), parts)
}

/// `response/RECEIVE/CONTEXT/CONFOUNDER/CALL/BOUND/STUB`, where the response is for the context BOUND.
fn response_text(alloc: Global, seal: &mut NlSeal, parts: &[&str]) -> anyhow::Result<String> {
    let call = number(word(parts, 4))?;
    let bound = number16(word(parts, 5))?;
    let stub = blob(alloc, word(parts, 6))?;
    if !has_length(&stub) {
        return no_case(alloc);
    }
    call_text(alloc, seal, response(call, bound, stub), parts)
}

/// The answer to a range that is opened, and what the unit then is.
fn left_text(alloc: Global, answer: Result<(), NlRefused>, unit: &[u8]) -> anyhow::Result<String> {
    let left = text(alloc, unit)?;
    Ok(format!(in alloc; "{answer:?} {left}")?)
}

/// `open/UNIT`: what of it is sealed; where that is a range, the answer as it is opened, and what the unit then is.
fn open_text(alloc: Global, seal: &mut NlSeal, unit: &str) -> anyhow::Result<String> {
    let mut unit = bytes(alloc, unit)?;
    match sealed_part(&unit) {
        SealedPart::Nothing => Ok("Nothing".to_string(alloc)?),
        SealedPart::Missing => Ok("Missing".to_string(alloc)?),
        SealedPart::Range(from, to) => {
            let answer = seal.open(&mut unit, from, to);
            left_text(alloc, answer, &unit)
        }
    }
}

/// What an altered unit comes to, as a letter: `n` and `m` where nothing is sealed or a signature is missing; `u`, `a`,
/// `s` and `c` where the end refuses it, by its numbers that are used up, its algorithms, its sequence or its checksum;
/// `o` where it is opened.
fn outcome(seal: &mut NlSeal, unit: &mut [u8]) -> char {
    match sealed_part(unit) {
        SealedPart::Nothing => 'n',
        SealedPart::Missing => 'm',
        SealedPart::Range(from, to) => match seal.open(unit, from, to) {
            Ok(()) => 'o',
            Err(NlRefused::Spent) => 'u',
            Err(NlRefused::BadAlgorithm) => 'a',
            Err(NlRefused::BadSequence { .. }) => 's',
            Err(NlRefused::BadChecksum) => 'c',
        },
    }
}

/// What a unit comes to of which one byte is altered.
fn altered(
    alloc: Global,
    seal: &mut NlSeal,
    unit: &[u8],
    at: usize,
    mask: u8,
) -> anyhow::Result<char>
    requires { at < length unit.now }
{
    let mut copy = unit.to_vec(alloc)?;
    copy[at] ^= mask;
    Ok(outcome(seal, &mut copy))
}

/// `altered/MASK/UNIT`: a letter for each byte of the unit, for what the unit comes to where that byte is altered by
/// these bits.
fn altered_text(alloc: Global, seal: &mut NlSeal, mask: u8, unit: &[u8]) -> anyhow::Result<String> {
    let mut letters = String::new(alloc);
    for at in 0..unit.len() {
        letters.push(altered(alloc, seal, unit, at, mask)?)?;
    }
    Ok(letters)
}

/// The answer to a step of these parts.
fn answer_step(alloc: Global, seal: &mut NlSeal, parts: &[&str]) -> anyhow::Result<String> {
    match word(parts, 0) {
        "request" => request_text(alloc, seal, parts),
        "response" => response_text(alloc, seal, parts),
        "frames" => sealed_text(
            alloc,
            seal,
            word(parts, 1),
            frame_list(alloc, word(parts, 2))?,
        ),
        "open" => open_text(alloc, seal, word(parts, 1)),
        "altered" => {
            let unit = bytes(alloc, word(parts, 2))?;
            altered_text(alloc, seal, number8(word(parts, 1))?, &unit)
        }
        _ => no_case(alloc),
    }
}

/// The answer to a step.
fn step(alloc: Global, seal: &mut NlSeal, step: &str) -> anyhow::Result<String> {
    let parts: Vec<&str> = step.split('/').collect(alloc)?;
    answer_step(alloc, seal, &parts)
}

/// `run KEY SIDE STEP ..`: what each step gives at the end of that side, `requester` or another word.
fn run(alloc: Global, words: &[&str]) -> anyhow::Result<String> {
    let key = sixteen(word(words, 1))?;
    let mut seal = NlSeal::new(key, word(words, 2) == "requester");
    answer_steps(alloc, words, 3, &mut seal, step)
}

/// What an operation gives.
pub(crate) fn answer(alloc: Global, operation: &str, words: &[&str]) -> anyhow::Result<String> {
    match operation {
        "value" => value_text(alloc, words),
        "names" => names_text(alloc, words),
        "bind" => bind_text(alloc, words),
        "ack" => ack_text(alloc, words),
        "limits" => limits_text(alloc, words),
        "part" => part_text(alloc, words),
        "run" => run(alloc, words),
        _ => no_case(alloc),
    }
}
