//! Cases of `end_links`: the units of a link, served in order.

ghost use Rattle.std.specs.Prelude.{◌≡◌, ◌≤◌, length};

use crate::links::frames_in_hex;
use case_words::{add_answer, add_debug, bytes, word};
use end_links::{Link, ServesUnits, serve_piece};
use outside::{Chances, Draws, ListChances, StepRefused};
use rpc_units::UnitRefused;
use std::alloc::Global;
use wire_base::{Blob, Frames};

/// An end that keeps the units that it is served, and why a rest was refused.
#[derive(Drop)]
struct Heard {
    units: Frames,
    refused: Option<UnitRefused>,
}

impl ServesUnits<()> for Heard {
    ghost use Rattle.std.specs.Prelude.{Option, Some, None, Ok, ◌++◌, ◌∷◌, [], length, refl};
    ghost use Rattle.outside.specs.Machine.{Part};
    ghost use Rattle.end_links.specs.Bounds.{ServerDrawsFew};
    ghost use Rattle.end_links.specs.Serving.{Server, ServerLeavesRest};
    ghost use Rattle.end_links.proofs.BoundLaws.{nothing_drawn, none_fewer};

    ghost server = { record {
      unit = λ bytes work talk left. Ok (record {
        value = (record work { units = work.units ++ bytes ∷ [] }, Some talk);
        left = left;
      });
      refusal = λ why work talk left. Ok (record {
        value = record work { refused = Some why };
        left = left;
      });
    } };

    ghost leaves = { record {
      unit = λ bytes work talk left. record { front = []; is = refl };
      refusal = λ why work talk left. record { front = []; is = refl };
    } };

    ghost extra = { λ talk. 0 };

    ghost few = { record {
      unit = λ bytes work talk left. nothing_drawn (length left) 0;
      refusal = λ why work talk left. none_fewer (length left);
    } };

    fn serve<Q: Chances>(
        self,
        alloc: Global,
        bytes: &mut [u8],
        talk: (),
        _chances: &mut Q,
    ) -> Result<(Heard, Option<()>), StepRefused> {
        let Heard { mut units, refused } = self;
        let unit = Blob::copy(alloc, bytes)?;
        units.push(unit)?;
        Ok((Heard { units, refused }, Some(talk)))
    }

    fn refuse<Q: Chances>(
        self,
        _alloc: Global,
        why: UnitRefused,
        _talk: (),
        _chances: &mut Q,
    ) -> Result<Heard, StepRefused> {
        let Heard { units, .. } = self;
        Ok(Heard {
            units,
            refused: Some(why),
        })
    }
}

/// An end, and its link while it is open.
type Hearing = (Heard, Option<Link<()>>);

/// The bytes that wait; none where the link is closed.
fn waiting(link: &Option<Link<()>>) -> Option<usize> {
    match link {
        Some(link) => Some(link.rest_len()),
        None => None,
    }
}

/// The bytes that wait behind the units where the link stays open, and the refusal.
fn rest_text(
    alloc: Global,
    waits: Option<usize>,
    refused: Option<UnitRefused>,
) -> anyhow::Result<String> {
    match waits {
        Some(waits) => Ok(format!(in alloc; "{waits} {refused:?}")?),
        None => Ok(format!(in alloc; "closed {refused:?}")?),
    }
}

/// The units, the bytes that wait behind them where the link stays open, and the refusal.
fn heard_text(alloc: Global, heard: &Heard, waits: Option<usize>) -> anyhow::Result<String> {
    let rest = rest_text(alloc, waits, heard.refused)?;
    let mut answer = frames_in_hex(alloc, &heard.units)?;
    add_answer(&mut answer, &rest)?;
    Ok(answer)
}

/// An end on a new link.
fn silence(alloc: Global) -> anyhow::Result<Hearing> {
    let link = Link::new(alloc, ())?;
    let heard = Heard {
        units: Frames::new(alloc),
        refused: None,
    };
    Ok((heard, Some(link)))
}

/// What an end heard when a piece comes behind the others.
fn hear(alloc: Global, before: Hearing, piece: &[u8]) -> anyhow::Result<Hearing> {
    let (heard, link) = before;
    let mut chances = ListChances::new(Draws::new(alloc));
    match link {
        Some(open) => Ok(serve_piece(alloc, heard, open, piece, &mut chances)?),
        None => Ok((heard, None)),
    }
}

/// What an end heard when the piece of a word comes behind the others.
fn hear_word(alloc: Global, before: Hearing, word: &str) -> anyhow::Result<Hearing> {
    let piece = bytes(alloc, word)?;
    hear(alloc, before, &piece)
}

/// What an end hears of the pieces of words on a new link.
fn hear_words(alloc: Global, words: &[&str]) -> anyhow::Result<Hearing> {
    let mut hearing = silence(alloc)?;
    for word in words.iter().skip(1) {
        hearing = hear_word(alloc, hearing, word)?;
    }
    Ok(hearing)
}

/// `hear PIECE ..`.
pub(crate) fn hear_pieces(alloc: Global, words: &[&str]) -> anyhow::Result<String> {
    let (heard, link) = hear_words(alloc, words)?;
    heard_text(alloc, &heard, waiting(&link))
}

/// Whether two lists are of the same units.
fn are_same(one: &[Blob], other: &[Blob]) -> bool {
    if one.len() != other.len() {
        return false;
    }
    for place in 0..one.len() {
        if one[place].bytes() != other[place].bytes() {
            return false;
        }
    }
    true
}

/// What an end hears of two pieces on a new link.
fn hear_both(alloc: Global, front: &[u8], rest: &[u8]) -> anyhow::Result<Hearing> {
    let before = hear(alloc, silence(alloc)?, front)?;
    hear(alloc, before, rest)
}

/// Whether an end hears of a stream in two pieces, cut at a place, what it heard of the whole.
fn hears_same(
    alloc: Global,
    stream: &[u8],
    at: usize,
    whole: &Heard,
    waits: Option<usize>,
) -> anyhow::Result<bool>
    requires { at ≤ length stream.now }
{
    let (front, rest) = stream.split_at(at);
    let (heard, link) = hear_both(alloc, front, rest)?;
    Ok(
        waiting(&link) == waits
            && heard.refused == whole.refused
            && are_same(heard.units.items(), whole.units.items()),
    )
}

/// At how many places a stream may be cut so that an end hears the same.
fn count_same(
    alloc: Global,
    stream: &[u8],
    whole: &Heard,
    waits: Option<usize>,
) -> anyhow::Result<u32> {
    let mut same = 0u32;
    for at in 0..stream.len() {
        if hears_same(alloc, stream, at, whole, waits)? {
            same = same.saturating_add(1);
        }
    }
    Ok(same)
}

/// What an end hears of a stream, and at how many places it may be cut so that the same is heard.
fn cuts_text(alloc: Global, stream: &[u8]) -> anyhow::Result<String> {
    let (whole, link) = hear(alloc, silence(alloc)?, stream)?;
    let waits = waiting(&link);
    let same = count_same(alloc, stream, &whole, waits)?;
    let mut answer = heard_text(alloc, &whole, waits)?;
    add_debug(alloc, &mut answer, same)?;
    Ok(answer)
}

/// `cuts STREAM`.
pub(crate) fn hear_cuts(alloc: Global, words: &[&str]) -> anyhow::Result<String> {
    let stream = bytes(alloc, word(words, 1))?;
    cuts_text(alloc, &stream)
}
