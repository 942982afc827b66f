//! Cases of `rpc_units`: the fragments of a call, cut and joined.

ghost use Rattle.std.specs.Prelude.{◌≡◌, ◌≤◌, true};
ghost use Rattle.rpc_units.specs.Joining.{HasStub, IsWholeCall};
ghost use Rattle.rpc_units.specs.Views.{body_shown};

use crate::outcomes::not_to_be_written;
use crate::streams;
use crate::unit_words::{unit, word_of};
use crate::units::may_write;
use case_words::{add_answer, answer_steps, bytes, long_text, number16, refusal_text, truth, word};
use rpc_units::{
    Body, BodyView, JoinRefused, Joiner, Unit, UnitList, UnitView, cut_call, read_unit, stub_of,
    view_unit, write_unit,
};
use std::alloc::Global;

/// Whether the unit is a whole call.
fn is_whole_call(unit: &Unit) -> bool
    ensures { result ≡ true → IsWholeCall unit.now }
{
    match &unit.body {
        Body::Request { .. } | Body::Response { .. } => unit.first && unit.last,
        _ => false,
    }
}

/// Whether a view's body is a stub.
fn has_stub(body: &BodyView<'_>) -> bool
    ensures { result ≡ true → HasStub (body_shown body.now) }
{
    match body {
        BodyView::Request { .. } | BodyView::Response { .. } => true,
        _ => false,
    }
}

// ---- joined

/// A whole call.
fn whole_text(alloc: Global, whole: &Unit) -> anyhow::Result<String> {
    let word = word_of(alloc, whole)?;
    Ok(format!(in alloc; "Some({word})")?)
}

/// What a joiner gave.
fn joined_text(alloc: Global, joined: Result<Option<Unit>, JoinRefused>) -> anyhow::Result<String> {
    match joined {
        Ok(Some(whole)) => whole_text(alloc, &whole),
        Ok(None) => Ok("None".to_string(alloc)?),
        Err(refused) => refusal_text(alloc, refused),
    }
}

/// A step's answer, and the bytes of the stub that is open behind it.
fn with_open(alloc: Global, joined: &str, open: usize) -> anyhow::Result<String> {
    Ok(format!(in alloc; "{joined} {open}")?)
}

/// The step of a joiner that a unit is.
fn joined(alloc: Global, joiner: &mut Joiner, unit: Unit) -> anyhow::Result<String> {
    let text = joined_text(alloc, joiner.add(unit))?;
    with_open(alloc, &text, joiner.len())
}

/// The step of a joiner that the unit of a word is.
fn join_word(alloc: Global, joiner: &mut Joiner, word: &str) -> anyhow::Result<String> {
    let unit = unit(alloc, word)?;
    joined(alloc, joiner, unit)
}

/// `join UNIT ..`.
fn join(alloc: Global, words: &[&str]) -> anyhow::Result<String> {
    let mut joiner = Joiner::new();
    answer_steps(alloc, words, 1, &mut joiner, join_word)
}

/// The step of a joiner that bytes are.
fn join_bytes(alloc: Global, joiner: &mut Joiner, bytes: &[u8]) -> anyhow::Result<String> {
    match read_unit(alloc, bytes) {
        Ok(unit) => joined(alloc, joiner, unit),
        Err(refused) => refusal_text(alloc, refused),
    }
}

/// The step of a joiner that the bytes of a word are.
fn join_read_word(alloc: Global, joiner: &mut Joiner, word: &str) -> anyhow::Result<String> {
    let bytes = bytes(alloc, word)?;
    join_bytes(alloc, joiner, &bytes)
}

/// `join_read BYTES ..`.
fn join_read(alloc: Global, words: &[&str]) -> anyhow::Result<String> {
    let mut joiner = Joiner::new();
    answer_steps(alloc, words, 1, &mut joiner, join_read_word)
}

/// The step of a joiner that a view is.
fn join_lent(alloc: Global, joiner: &mut Joiner, unit: &UnitView<'_>) -> anyhow::Result<String> {
    if !has_stub(&unit.body) {
        return Ok("no stub".to_string(alloc)?);
    }
    let text = joined_text(alloc, joiner.add_view(alloc, unit))?;
    with_open(alloc, &text, joiner.len())
}

/// The step of a joiner that bytes are, lent.
fn join_view_bytes(alloc: Global, joiner: &mut Joiner, bytes: &[u8]) -> anyhow::Result<String> {
    match view_unit(bytes) {
        Ok(unit) => join_lent(alloc, joiner, &unit),
        Err(refused) => refusal_text(alloc, refused),
    }
}

/// The step of a joiner that the bytes of a word are, lent.
fn join_view_word(alloc: Global, joiner: &mut Joiner, word: &str) -> anyhow::Result<String> {
    let bytes = bytes(alloc, word)?;
    join_view_bytes(alloc, joiner, &bytes)
}

/// `join_view BYTES ..`.
fn join_view(alloc: Global, words: &[&str]) -> anyhow::Result<String> {
    let mut joiner = Joiner::new();
    answer_steps(alloc, words, 1, &mut joiner, join_view_word)
}

// ---- cut

/// FIRST and LAST of a fragment, the bytes of its stub, and the unit written.
fn parts_text(alloc: Global, unit: &Unit, bytes: &[u8]) -> anyhow::Result<String> {
    let text = long_text(alloc, bytes)?;
    let (first, last) = (truth(unit.first), truth(unit.last));
    let size = stub_of(&unit.body).len();
    Ok(format!(in alloc; "{first} {last} {size} {text}")?)
}

/// A fragment, where it may be written.
fn fragment_text(alloc: Global, unit: &Unit) -> anyhow::Result<String> {
    if !may_write(unit) {
        return not_to_be_written(alloc);
    }
    let bytes = write_unit(alloc, unit)?;
    parts_text(alloc, unit, bytes.bytes())
}

/// Puts a fragment behind the others.
fn add_fragment(alloc: Global, answer: &mut String, unit: &Unit) -> anyhow::Result<()> {
    let step = fragment_text(alloc, unit)?;
    add_answer(answer, &step)
}

/// All fragments.
fn fragments_text(alloc: Global, units: &UnitList) -> anyhow::Result<String> {
    let mut answer = String::new(alloc);
    for unit in units.items() {
        add_fragment(alloc, &mut answer, unit)?;
    }
    Ok(answer)
}

/// Puts the step of a joiner that a fragment is behind the others.
fn add_joined(
    alloc: Global,
    answer: &mut String,
    joiner: &mut Joiner,
    unit: Unit,
) -> anyhow::Result<()> {
    let step = joined(alloc, joiner, unit)?;
    add_answer(answer, &step)
}

/// What a joiner gives of all fragments.
fn fragments_joined(alloc: Global, units: UnitList) -> anyhow::Result<String> {
    let mut joiner = Joiner::new();
    let mut answer = String::new(alloc);
    for unit in units.into_vec() {
        add_joined(alloc, &mut answer, &mut joiner, unit)?;
    }
    Ok(answer)
}

/// The fragments of a whole call, or what a joiner gives of them.
fn cut_text(alloc: Global, unit: &Unit, limit: u16, joins: bool) -> anyhow::Result<String>
    requires whole { IsWholeCall unit.now }
    requires least { 1432 ≤ limit }
    requires most { limit ≤ 5840 }
{
    let units = cut_call(alloc, unit, limit)?;
    if joins {
        fragments_joined(alloc, units)
    } else {
        fragments_text(alloc, &units)
    }
}

/// What comes of a unit that is cut, where it is a whole call, at a limit, where it is one of a link.
fn cut_unit(alloc: Global, unit: &Unit, limit: u16, joins: bool) -> anyhow::Result<String> {
    if !(1432..=5840).contains(&limit) {
        return Ok("no limit of a link".to_string(alloc)?);
    }
    if !is_whole_call(unit) {
        return Ok("no whole call".to_string(alloc)?);
    }
    cut_text(alloc, unit, limit, joins)
}

/// `cut LIMIT UNIT`, and `cut_and_join LIMIT UNIT`.
fn cut(alloc: Global, words: &[&str], joins: bool) -> anyhow::Result<String> {
    let limit = number16(word(words, 1))?;
    let unit = unit(alloc, word(words, 2))?;
    cut_unit(alloc, &unit, limit, joins)
}

/// What an operation gives.
pub(crate) fn answer(alloc: Global, operation: &str, words: &[&str]) -> anyhow::Result<String> {
    match operation {
        "join" => join(alloc, words),
        "join_read" => join_read(alloc, words),
        "join_view" => join_view(alloc, words),
        "cut" => cut(alloc, words, false),
        "cut_and_join" => cut(alloc, words, true),
        _ => streams::answer(alloc, operation, words),
    }
}
