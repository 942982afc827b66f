//! The events of links at a controller that can seal.

ghost use Rattle.std.specs.Prelude.{◌≡◌, ◌<◌, ◌≤◌, ◌+◌, length, IfOk, Some};
ghost use Rattle.account_table.specs.Changes.{with_changes};
ghost use Rattle.outside.specs.Drawing.{DrawsSome};
ghost use Rattle.outside.specs.Machine.{AnswersBy};
ghost use Rattle.wire_base.specs.Maps.{lookup, same_number, take_out};
ghost use Rattle.end_links.specs.Bounds.{units_at, units_in_piece};
ghost use Rattle.channel_turns.specs.Turning.{is_on, is_waiting};
ghost use Rattle.domain_controller.specs.SealStep.{at_seal_parts, by_seal_event, seal_answer_dial, seal_close_number, seal_fail_dial, seal_serve_bytes, seal_serve_on, sealing_with};
ghost use Rattle.domain_controller.specs.TrustStep.{put_open};

use crate::links::{open_link, put_open};
use crate::seal_forwarding::unseal_link;
use crate::seal_serving::serve_seal_piece;
use crate::seal_turning::{close_seal_turn, drop_seal_link, fail_seal_turn, hear_seal_turn};
use crate::sealed::Sealing;
use crate::state::Talk;
use crate::trusting::Parts;
use crate::turning::bind_turn;
use account_table::{Table, TableChanges};
use end_links::Link;
use outside::{Chances, Event, StepRefused};
use std::alloc::Global;
use wire_base::{Name, NoMemory};

/// What an event comes to: what the controller has then beside its accounts. What it changes of the accounts stands in
/// `changes`, behind what stood there.
pub(crate) fn answer_seal_event<Q: Chances>(
    alloc: Global,
    table: &Table,
    changes: &mut TableChanges,
    name: &Name,
    now: u64,
    event: &Event,
    parts: Parts,
    sealing: Sealing,
    chances: &mut Q,
) -> Result<(Parts, Sealing), StepRefused>
    ensures draws { DrawsSome (Q.drawing chances.old) (Q.drawing chances.new) }
    ensures answer { AnswersBy (at_seal_parts (with_changes changes.new table.now) result)
        (by_seal_event event.now name.now now (with_changes changes.old table.now) parts sealing
        (Q.drawing chances.old).left)
        (Q.drawing chances.new).left }
    ensures few { length (Q.drawing chances.old).left
        ≤ length (Q.drawing chances.new).left + units_at event.now }
{
    match event {
        Event::Opened(link) => {
            let (parts, sealing) = close_link(alloc, *link, parts, sealing)?;
            Ok((open_link(alloc, *link, parts)?, sealing))
        }
        Event::Bytes(link, bytes) => serve_bytes(
            alloc,
            table,
            changes,
            name,
            now,
            *link,
            bytes.bytes(),
            parts,
            sealing,
            chances,
        ),
        Event::Closed(link) => Ok(close_link(alloc, *link, parts, sealing)?),
        Event::Dialled(link) => Ok(answer_dial(alloc, *link, parts, sealing)?),
        Event::DialFailed => Ok(fail_dial(alloc, parts, sealing)?),
        Event::Stop => Ok((parts, sealing)),
    }
}

/// A link is closed: the turn is lost where it is its link.
#[tactic(auto, using(crate::proofs::SealTurnLaws::turning))]
fn close_link(
    alloc: Global,
    link: u32,
    parts: Parts,
    sealing: Sealing,
) -> Result<(Parts, Sealing), NoMemory>
    ensures { IfOk result (λ done. done ≡ seal_close_number link parts sealing) }
{
    if !parts.dialling.is_on(link) {
        return Ok(drop_seal_link(link, parts, sealing));
    }
    close_seal_turn(alloc, link, parts, sealing)
}

// ---- dials

/// The dial was answered by this link: the bind goes out. An accepted link of that number is closed before.
#[tactic(auto, using(crate::proofs::SealTurnLaws::turning))]
fn answer_dial(
    alloc: Global,
    link: u32,
    parts: Parts,
    sealing: Sealing,
) -> Result<(Parts, Sealing), NoMemory>
    ensures { IfOk result (λ done. done
        ≡ seal_answer_dial (is_waiting parts.dialling) link parts sealing) }
{
    if !parts.dialling.is_waiting() {
        return Ok((parts, sealing));
    }
    let (parts, sealing) = drop_seal_link(link, parts, sealing);
    Ok((bind_turn(alloc, link, parts)?, sealing))
}

/// The dial failed.
#[tactic(auto, using(crate::proofs::SealTurnLaws::turning))]
fn fail_dial(alloc: Global, parts: Parts, sealing: Sealing) -> Result<(Parts, Sealing), NoMemory>
    ensures { IfOk result (λ done. done
        ≡ seal_fail_dial (is_waiting parts.dialling) parts sealing) }
{
    if !parts.dialling.is_waiting() {
        return Ok((parts, sealing));
    }
    fail_seal_turn(alloc, parts, sealing)
}

// ---- bytes

/// Bytes come on a link: that of the turn, or an accepted one.
#[tactic(auto, using(crate::proofs::SealTurnLaws::hearing))]
fn serve_bytes<Q: Chances>(
    alloc: Global,
    table: &Table,
    changes: &mut TableChanges,
    name: &Name,
    now: u64,
    number: u32,
    piece: &[u8],
    parts: Parts,
    sealing: Sealing,
    chances: &mut Q,
) -> Result<(Parts, Sealing), StepRefused>
    ensures draws { DrawsSome (Q.drawing chances.old) (Q.drawing chances.new) }
    ensures answer { AnswersBy (at_seal_parts (with_changes changes.new table.now) result)
        (seal_serve_bytes (is_on number parts.dialling) number piece.now name.now now
        (with_changes changes.old table.now) parts sealing (Q.drawing chances.old).left)
        (Q.drawing chances.new).left }
    ensures few { length (Q.drawing chances.old).left
        ≤ length (Q.drawing chances.new).left + units_in_piece (length piece.now) }
{
    if !parts.dialling.is_on(number) {
        return serve_link(
            alloc, table, changes, name, now, number, piece, parts, sealing, chances,
        );
    }
    match hear_seal_turn(alloc, number, piece, parts, sealing, chances) {
        Ok(done) => Ok(done),
        Err(NoMemory) => Err(StepRefused::Memory),
    }
}

/// The units of the bytes that come on the accepted link of that number are served, if one is open, and the link is
/// kept, where it stays open.
#[tactic(auto, using(crate::proofs::SealStepLaws::serving))]
fn serve_link<Q: Chances>(
    alloc: Global,
    table: &Table,
    changes: &mut TableChanges,
    name: &Name,
    now: u64,
    number: u32,
    piece: &[u8],
    parts: Parts,
    sealing: Sealing,
    chances: &mut Q,
) -> Result<(Parts, Sealing), StepRefused>
    ensures draws { DrawsSome (Q.drawing chances.old) (Q.drawing chances.new) }
    ensures answer { AnswersBy (at_seal_parts (with_changes changes.new table.now) result)
        (seal_serve_on (lookup same_number number parts.links) number piece.now name.now now
        (take_out same_number number parts.links) (with_changes changes.old table.now) parts
        sealing (Q.drawing chances.old).left)
        (Q.drawing chances.new).left }
    ensures few { length (Q.drawing chances.old).left
        ≤ length (Q.drawing chances.new).left + units_in_piece (length piece.now) }
{
    let Parts {
        work,
        links,
        turn_of,
        dialling,
    } = parts;
    let (links, found) = links.take(number);
    let Some(link) = found else {
        let parts = Parts {
            work,
            links,
            turn_of,
            dialling,
        };
        return Ok((parts, sealing));
    };
    let ((work, sealing), open) = match serve_seal_piece(
        alloc, table, changes, name, now, number, link, piece, work, sealing, chances,
    ) {
        Ok(served) => served,
        Err(why) => return Err(why),
    };
    let parts = Parts {
        work,
        links,
        turn_of,
        dialling,
    };
    match put_seal_open(number, open, parts, sealing) {
        Ok(done) => Ok(done),
        Err(NoMemory) => Err(StepRefused::Memory),
    }
}

/// A link is put back, where it stays open; else its logons have no line, and it is sealed no more.
fn put_seal_open(
    number: u32,
    still: Option<Link<Talk>>,
    parts: Parts,
    sealing: Sealing,
) -> Result<(Parts, Sealing), NoMemory>
    requires { length parts.links < 256 }
    ensures parts { IfOk result (λ done. done.0 ≡ put_open still number parts) }
    ensures sealing { IfOk result (λ done. Some done.1
        ≡ sealing_with still number (Some sealing)) }
{
    if still.is_some() {
        return Ok((put_open(number, still, parts)?, sealing));
    }
    let sealing = unseal_link(number, sealing);
    Ok((put_open(number, still, parts)?, sealing))
}
