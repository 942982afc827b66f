//! Units of RPC as words of a line: fields joined by commas, the kind, the flags (1 FIRST, 2 LAST), the call and the
//! trailer first.

use anyhow::anyhow;
use case_words::{
    blob, counted, debug_text, halves, long_text, number, number8, number16, sixteen, word,
};
use rpc_units::{Body, Contexts, Results, Syntax, Syntaxes, Trailer, Unit};
use std::alloc::Global;

/// The parts of a word, between slashes.
fn parts<'a>(alloc: Global, word: &'a str) -> anyhow::Result<Vec<&'a str>> {
    Ok(word.split('/').collect(alloc)?)
}

/// A trailer of its kind, level, context and value.
fn trailer_of(alloc: Global, parts: &[&str]) -> anyhow::Result<Trailer> {
    let kind = number8(word(parts, 0))?;
    let level = number8(word(parts, 1))?;
    let context = number(word(parts, 2))?;
    let value = blob(alloc, word(parts, 3))?;
    Ok(Trailer {
        kind,
        level,
        context,
        value,
    })
}

/// The trailer of a word: its parts joined by `/`, or `-`.
fn trailer(alloc: Global, part: &str) -> anyhow::Result<Option<Trailer>> {
    if part == "-" {
        return Ok(None);
    }
    let parts = parts(alloc, part)?;
    Ok(Some(trailer_of(alloc, &parts)?))
}

/// A syntax: its UUID, a point and its version.
fn syntax(part: &str) -> anyhow::Result<Syntax> {
    let (uuid, version) = part.split_once('.').unwrap_or(("", ""));
    Ok(Syntax {
        uuid: sixteen(uuid)?,
        version: number(version)?,
    })
}

/// Appends a syntax as often as it stands.
fn push_syntaxes(syntaxes: &mut Syntaxes, part: &str) -> anyhow::Result<()> {
    let (count, rest) = counted(part)?;
    let syntax = syntax(rest)?;
    for _ in 0..count {
        syntaxes.push(syntax)?;
    }
    Ok(())
}

/// The transfer syntaxes of a context.
fn transfers(alloc: Global, parts: &[&str]) -> anyhow::Result<Syntaxes> {
    let mut transfers = Syntaxes::new(alloc);
    for part in parts.iter().skip(2) {
        push_syntaxes(&mut transfers, part)?;
    }
    Ok(transfers)
}

/// A context of its id, its abstract syntax and its transfer syntaxes.
fn context_of(alloc: Global, parts: &[&str]) -> anyhow::Result<(u16, Syntax, Syntaxes)> {
    let id = number16(word(parts, 0))?;
    let offered = syntax(word(parts, 1))?;
    let transfers = transfers(alloc, parts)?;
    Ok((id, offered, transfers))
}

/// Puts the context of a word, its parts joined by `/`, behind the others.
fn put_context(alloc: Global, contexts: &mut Contexts, part: &str) -> anyhow::Result<()> {
    let parts = parts(alloc, part)?;
    let context = context_of(alloc, &parts)?;
    Ok(contexts.push(context)?)
}

/// The part of a list and how often it stands. A count belongs to the whole part only where it comes before the first
/// `/`.
fn listed(part: &str) -> anyhow::Result<(u64, &str)> {
    match part.split_once('/') {
        Some((front, _)) if front.contains('*') => counted(part),
        _ => Ok((1, part)),
    }
}

/// Puts a context as often as it stands.
fn put_contexts(alloc: Global, contexts: &mut Contexts, part: &str) -> anyhow::Result<()> {
    let (count, rest) = listed(part)?;
    for _ in 0..count {
        put_context(alloc, contexts, rest)?;
    }
    Ok(())
}

/// The contexts of a word, joined by `:`, or `-`.
fn contexts(alloc: Global, part: &str) -> anyhow::Result<Contexts> {
    let mut contexts = Contexts::new(alloc);
    if part != "-" {
        for one in part.split(':') {
            put_contexts(alloc, &mut contexts, one)?;
        }
    }
    Ok(contexts)
}

/// A result: result, reason and syntax, joined by `/`.
fn answer_of_context(part: &str) -> anyhow::Result<(u16, u16, Syntax)> {
    let (outcome, rest) = halves(part);
    let (reason, syntax_word) = halves(rest);
    Ok((number16(outcome)?, number16(reason)?, syntax(syntax_word)?))
}

/// Puts a result as often as it stands.
fn put_results(results: &mut Results, part: &str) -> anyhow::Result<()> {
    let (count, rest) = listed(part)?;
    let answer = answer_of_context(rest)?;
    for _ in 0..count {
        results.push(answer)?;
    }
    Ok(())
}

/// The results of a word, joined by `:`, or `-`.
fn results(alloc: Global, part: &str) -> anyhow::Result<Results> {
    let mut results = Results::new(alloc);
    if part != "-" {
        for one in part.split(':') {
            put_results(&mut results, one)?;
        }
    }
    Ok(results)
}

/// `send, receive, group, contexts`.
fn bind(alloc: Global, parts: &[&str]) -> anyhow::Result<Body> {
    let send = number16(word(parts, 4))?;
    let receive = number16(word(parts, 5))?;
    let group = number(word(parts, 6))?;
    Ok(Body::Bind {
        send,
        receive,
        group,
        contexts: contexts(alloc, word(parts, 7))?,
    })
}

/// `send, receive, group, results`.
fn ack(alloc: Global, parts: &[&str]) -> anyhow::Result<Body> {
    let send = number16(word(parts, 4))?;
    let receive = number16(word(parts, 5))?;
    let group = number(word(parts, 6))?;
    Ok(Body::BindAck {
        send,
        receive,
        group,
        results: results(alloc, word(parts, 7))?,
    })
}

/// `hint, context, opnum, stub`.
fn request(alloc: Global, parts: &[&str]) -> anyhow::Result<Body> {
    let hint = number(word(parts, 4))?;
    let context = number16(word(parts, 5))?;
    let opnum = number16(word(parts, 6))?;
    Ok(Body::Request {
        hint,
        context,
        opnum,
        stub: blob(alloc, word(parts, 7))?,
    })
}

/// `hint, context, stub`.
fn response(alloc: Global, parts: &[&str]) -> anyhow::Result<Body> {
    let hint = number(word(parts, 4))?;
    let context = number16(word(parts, 5))?;
    Ok(Body::Response {
        hint,
        context,
        stub: blob(alloc, word(parts, 6))?,
    })
}

/// `hint, context, status`.
fn fault(parts: &[&str]) -> anyhow::Result<Body> {
    let hint = number(word(parts, 4))?;
    let context = number16(word(parts, 5))?;
    let status = number(word(parts, 6))?;
    Ok(Body::Fault {
        hint,
        context,
        status,
    })
}

/// The body of a unit whose parts these are.
fn body(alloc: Global, parts: &[&str]) -> anyhow::Result<Body> {
    match word(parts, 0) {
        "bind" => bind(alloc, parts),
        "ack" => ack(alloc, parts),
        "nak" => Ok(Body::BindNak(number16(word(parts, 4))?)),
        "auth3" => Ok(Body::Auth3),
        "request" => request(alloc, parts),
        "response" => response(alloc, parts),
        "fault" => fault(parts),
        _ => Err(anyhow!("no such unit")),
    }
}

/// The unit of its parts.
fn unit_of(alloc: Global, parts: &[&str]) -> anyhow::Result<Unit> {
    let flags = number8(word(parts, 1))?;
    let call = number(word(parts, 2))?;
    let trailer = trailer(alloc, word(parts, 3))?;
    let body = body(alloc, parts)?;
    Ok(Unit {
        first: flags & 1 != 0,
        last: flags & 2 != 0,
        call,
        body,
        trailer,
    })
}

/// The unit of a word.
pub(crate) fn unit(alloc: Global, part: &str) -> anyhow::Result<Unit> {
    let parts: Vec<&str> = part.split(',').collect(alloc)?;
    unit_of(alloc, &parts)
}

/// The flags of a unit.
fn flags_of(unit: &Unit) -> u8 {
    match (unit.first, unit.last) {
        (false, false) => 0,
        (true, false) => 1,
        (false, true) => 2,
        (true, true) => 3,
    }
}

/// A trailer as it stands in a word.
fn trailer_text(alloc: Global, trailer: &Trailer) -> anyhow::Result<String> {
    let value = long_text(alloc, trailer.value.bytes())?;
    let (kind, level, context) = (trailer.kind, trailer.level, trailer.context);
    Ok(format!(in alloc; "{kind}/{level}/{context}/{value}")?)
}

/// A trailer that may be absent, as it stands in a word.
fn trailer_word(alloc: Global, trailer: &Option<Trailer>) -> anyhow::Result<String> {
    match trailer {
        Some(trailer) => trailer_text(alloc, trailer),
        None => Ok("-".to_string(alloc)?),
    }
}

/// What stands in front of the body of a unit of this kind.
fn front_text(alloc: Global, kind: &str, unit: &Unit) -> anyhow::Result<String> {
    let trailer = trailer_word(alloc, &unit.trailer)?;
    let (flags, call) = (flags_of(unit), unit.call);
    Ok(format!(in alloc; "{kind},{flags},{call},{trailer}")?)
}

/// What stands in front of the stub of a request.
fn request_text(
    alloc: Global,
    unit: &Unit,
    hint: u32,
    context: u16,
    opnum: u16,
) -> anyhow::Result<String> {
    let front = front_text(alloc, "request", unit)?;
    Ok(format!(in alloc; "{front},{hint},{context},{opnum}")?)
}

/// What stands in front of the stub of a response.
fn response_text(alloc: Global, unit: &Unit, hint: u32, context: u16) -> anyhow::Result<String> {
    let front = front_text(alloc, "response", unit)?;
    Ok(format!(in alloc; "{front},{hint},{context}")?)
}

/// A unit as a word, of what stands in front of its stub.
fn with_stub(alloc: Global, front: &str, stub: &[u8]) -> anyhow::Result<String> {
    let stub = long_text(alloc, stub)?;
    Ok(format!(in alloc; "{front},{stub}")?)
}

/// A request or response as a word; what `{:?}` prints of another unit.
pub(crate) fn word_of(alloc: Global, unit: &Unit) -> anyhow::Result<String> {
    match &unit.body {
        Body::Request {
            hint,
            context,
            opnum,
            stub,
        } => {
            let front = request_text(alloc, unit, *hint, *context, *opnum)?;
            with_stub(alloc, &front, stub.bytes())
        }
        Body::Response {
            hint,
            context,
            stub,
        } => {
            let front = response_text(alloc, unit, *hint, *context)?;
            with_stub(alloc, &front, stub.bytes())
        }
        _ => debug_text(alloc, unit),
    }
}
