//! Cases of `rpc_units`: streams of units.

ghost use Rattle.std.specs.Prelude.{◌≡◌, false, IfOk, IfSome, OnOk};

use case_words::{
    add_answer, add_bytes, add_debug, answer_steps, blob, bytes, debug_text, halves, long_text,
    no_case, sixteen,
};
use rpc_units::{Came, Incoming, Inflow, UnitRefused, read_stream, set_value};
use std::alloc::Global;
use wire_base::{Blob, Frames};

// ---- pieces

/// Puts a unit that came, with its bytes, behind the answers.
fn add_unit(alloc: Global, answer: &mut String, size: usize, unit: &[u8]) -> anyhow::Result<()> {
    let text = long_text(alloc, unit)?;
    let step = format!(in alloc; "Unit({size}) {text}")?;
    add_answer(answer, &step)
}

/// Puts a refusal behind the answers.
fn add_refused(alloc: Global, answer: &mut String, refused: UnitRefused) -> anyhow::Result<()> {
    let step = format!(in alloc; "Refused({refused:?})")?;
    add_answer(answer, &step)
}

/// What comes of a piece, up to a refusal, behind which there is no stream.
fn take_piece(
    alloc: Global,
    flow: Inflow,
    piece: &[u8],
    answer: &mut String,
) -> anyhow::Result<Option<Inflow>>
    requires { flow.broken ≡ false }
    ensures { IfOk result (λ found. IfSome found (λ next. next.broken ≡ false)) }
{
    let mut coming = Incoming::new(flow, piece);
    for _ in 0..u32::MAX {
        match coming.next() {
            Came::Unit(size) => {
                add_unit(alloc, answer, size, coming.unit())?;
                coming.done();
            }
            Came::Waits => {
                add_answer(answer, "Waits")?;
                return Ok(Some(coming.into_flow()));
            }
            Came::Refused(refused) => {
                add_refused(alloc, answer, refused)?;
                return Ok(None);
            }
        }
    }
    Ok(None)
}

/// What comes of the piece of a word.
fn take_word(
    alloc: Global,
    flow: Inflow,
    word: &str,
    answer: &mut String,
) -> anyhow::Result<Option<Inflow>>
    requires { flow.broken ≡ false }
    ensures { IfOk result (λ found. IfSome found (λ next. next.broken ≡ false)) }
{
    let piece = bytes(alloc, word)?;
    take_piece(alloc, flow, &piece, answer)
}

/// `stream PIECE ..`.
fn stream(alloc: Global, words: &[&str]) -> anyhow::Result<String> {
    let mut flow = Inflow::new(alloc)?;
    let mut answer = String::new(alloc);
    for word in words.iter().skip(1) {
        match take_word(alloc, flow, word, &mut answer)? {
            Some(next) => flow = next,
            None => return Ok(answer),
        }
    }
    Ok(answer)
}

/// Puts the piece of a word behind the others.
fn put_piece(alloc: Global, pieces: &mut Frames, word: &str) -> anyhow::Result<()> {
    let piece = blob(alloc, word)?;
    Ok(pieces.push(piece)?)
}

/// The pieces of the words.
fn pieces(alloc: Global, words: &[&str]) -> anyhow::Result<Frames> {
    let mut pieces = Frames::new(alloc);
    for word in words.iter().skip(1) {
        put_piece(alloc, &mut pieces, word)?;
    }
    Ok(pieces)
}

/// Units as their bytes, and the refusal behind them.
fn read_text(
    alloc: Global,
    units: &[Blob],
    refused: Option<UnitRefused>,
) -> anyhow::Result<String> {
    let mut answer = String::new(alloc);
    for unit in units {
        add_bytes(alloc, &mut answer, unit.bytes())?;
    }
    add_debug(alloc, &mut answer, refused)?;
    Ok(answer)
}

/// `whole PIECE ..`.
fn whole(alloc: Global, words: &[&str]) -> anyhow::Result<String> {
    let pieces = pieces(alloc, words)?;
    let (units, refused) = read_stream(alloc, pieces.items())?;
    read_text(alloc, units.items(), refused)
}

// ---- the calls one by one

/// A unit in front, with its bytes.
fn front_text(alloc: Global, size: usize, unit: &[u8]) -> anyhow::Result<String> {
    let text = long_text(alloc, unit)?;
    Ok(format!(in alloc; "Ok(Some({size})) {text}")?)
}

/// `fill/BYTES`.
fn fill(alloc: Global, flow: &mut Inflow, value: &str) -> anyhow::Result<String> {
    let piece = bytes(alloc, value)?;
    debug_text(alloc, flow.fill(&piece))
}

/// `take`.
fn take(alloc: Global, flow: &mut Inflow) -> anyhow::Result<String> {
    match flow.next() {
        Ok(Some(size)) => {
            let answer = front_text(alloc, size, flow.unit())?;
            flow.done();
            Ok(answer)
        }
        none => debug_text(alloc, none),
    }
}

/// `value/BYTES`.
fn replace(alloc: Global, flow: &mut Inflow, value: &[u8; 16]) -> anyhow::Result<String> {
    match flow.next() {
        Ok(Some(size)) => {
            if size < 16 {
                return Ok("too short".to_string(alloc)?);
            }
            set_value(flow.unit(), value);
            front_text(alloc, size, flow.unit())
        }
        none => debug_text(alloc, none),
    }
}

/// What a step gives: `fill/BYTES`, `held`, `next`, `take`, `value/BYTES`.
fn step_text(alloc: Global, flow: &mut Inflow, step: &str) -> anyhow::Result<String> {
    let (name, value) = halves(step);
    match name {
        "fill" => fill(alloc, flow, value),
        "held" => debug_text(alloc, flow.len()),
        "next" => debug_text(alloc, flow.next()),
        "take" => take(alloc, flow),
        "value" => replace(alloc, flow, &sixteen(value)?),
        _ => no_case(alloc),
    }
}

/// `flow STEP ..`.
fn flow(alloc: Global, words: &[&str]) -> anyhow::Result<String> {
    let mut flow = Inflow::new(alloc)?;
    answer_steps(alloc, words, 1, &mut flow, step_text)
}

/// What an operation gives.
pub(crate) fn answer(alloc: Global, operation: &str, words: &[&str]) -> anyhow::Result<String> {
    match operation {
        "stream" => stream(alloc, words),
        "whole" => whole(alloc, words),
        "flow" => flow(alloc, words),
        _ => no_case(alloc),
    }
}
