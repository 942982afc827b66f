//! The events of links.

ghost use Rattle.std.specs.Prelude.{◌≡◌, ◌<◌, ◌≤◌, ◌+◌, length, nat_le, IfOk, None};
ghost use Rattle.account_table.specs.Changes.{with_changes};
ghost use Rattle.outside.specs.Drawing.{DrawsSome};
ghost use Rattle.outside.specs.Machine.{AnswersBy};
ghost use Rattle.wire_base.specs.Maps.{lookup, same_number, take_out};
ghost use Rattle.end_links.specs.Bounds.{units_at, units_in_piece};
ghost use Rattle.domain_controller.specs.Hearing.{first_talk};
ghost use Rattle.domain_controller.specs.TrustStep.{answer_dial, at_parts, by_trust_event, close_number, fail_dial, open_number, put_open, serve_bytes, serve_on, without_link};
ghost use Rattle.channel_turns.specs.Turning.{is_on, is_waiting};

use crate::answering::tell_on;
use crate::forwarding::forget_link;
use crate::serving::serve_piece;
use crate::state::Talk;
use crate::trusting::Parts;
use crate::turning::{bind_turn, close_turn, fail_turn, hear_turn};
use account_table::{Table, TableChanges};
use end_links::Link;
use outside::{Action, Chances, CloseCause, Event, StepRefused};
use rpc_units::Joiner;
use std::alloc::Global;
use wire_base::{Name, NoMemory};

/// What an event comes to: what the controller has then beside its accounts. What it changes of the accounts stands in
/// `changes`, behind what stood there.
pub(crate) fn answer_event<Q: Chances>(
    alloc: Global,
    table: &Table,
    changes: &mut TableChanges,
    name: &Name,
    now: u64,
    event: &Event,
    parts: Parts,
    chances: &mut Q,
) -> Result<Parts, StepRefused>
    ensures draws { DrawsSome (Q.drawing chances.old) (Q.drawing chances.new) }
    ensures answer { AnswersBy (at_parts (with_changes changes.new table.now) result)
        (by_trust_event event.now name.now now (with_changes changes.old table.now) parts
        (Q.drawing chances.old).left)
        (Q.drawing chances.new).left }
    ensures few { length (Q.drawing chances.old).left
        ≤ length (Q.drawing chances.new).left + units_at event.now }
{
    match event {
        Event::Opened(link) => Ok(open_link(alloc, *link, close_link(alloc, *link, parts)?)?),
        Event::Bytes(link, bytes) => serve_bytes(
            alloc,
            table,
            changes,
            name,
            now,
            *link,
            bytes.bytes(),
            parts,
            chances,
        ),
        Event::Closed(link) => Ok(close_link(alloc, *link, parts)?),
        Event::Dialled(link) => Ok(answer_dial(alloc, *link, parts)?),
        Event::DialFailed => Ok(fail_dial(alloc, parts)?),
        Event::Stop => Ok(parts),
    }
}

/// An accepted link of that number is open no more, and its logons have no line. It takes no memory.
pub(crate) fn drop_link(link: u32, parts: Parts) -> Parts
    ensures { result ≡ without_link link parts }
{
    let Parts {
        work,
        links,
        turn_of,
        dialling,
    } = parts;
    let (links, _closed) = links.take(link);
    Parts {
        work: forget_link(link, work),
        links,
        turn_of,
        dialling,
    }
}

/// A link is closed: the turn is lost where it is its link.
#[tactic(auto, using(crate::proofs::TrustEventLaws::turning))]
fn close_link(alloc: Global, link: u32, parts: Parts) -> Result<Parts, NoMemory>
    ensures { IfOk result (λ after. after ≡ close_number link parts) }
{
    if !parts.dialling.is_on(link) {
        return Ok(drop_link(link, parts));
    }
    close_turn(alloc, link, parts)
}

/// A link opens, where fewer than 256 are open; else it is closed.
pub(crate) fn open_link(alloc: Global, link: u32, parts: Parts) -> Result<Parts, NoMemory>
    ensures { IfOk result (λ after. after ≡ open_number link parts) }
{
    let Parts {
        work,
        links,
        turn_of,
        dialling,
    } = parts;
    if links.is_full() {
        let work = tell_on(work, Action::Close(link, CloseCause::TooManyLinks))?;
        return Ok(Parts {
            work,
            links,
            turn_of,
            dialling,
        });
    }
    let links = links.put(link, Link::new(alloc, first_talk())?)?;
    Ok(Parts {
        work,
        links,
        turn_of,
        dialling,
    })
}

/// What is said on a link at first.
fn first_talk() -> Talk
    ensures { result ≡ first_talk }
{
    Talk {
        joiner: Joiner::new(),
        binding: None,
    }
}

// ---- dials

/// The dial was answered by this link: the bind goes out. An accepted link of that number is closed before.
#[tactic(auto, using(crate::proofs::TrustEventLaws::turning))]
fn answer_dial(alloc: Global, link: u32, parts: Parts) -> Result<Parts, NoMemory>
    ensures { IfOk result
        (λ after. after ≡ answer_dial (is_waiting parts.dialling) link parts) }
{
    if !parts.dialling.is_waiting() {
        return Ok(parts);
    }
    bind_turn(alloc, link, drop_link(link, parts))
}

/// The dial failed.
#[tactic(auto, using(crate::proofs::TrustEventLaws::turning))]
fn fail_dial(alloc: Global, parts: Parts) -> Result<Parts, NoMemory>
    ensures { IfOk result (λ after. after ≡ fail_dial (is_waiting parts.dialling) parts) }
{
    if !parts.dialling.is_waiting() {
        return Ok(parts);
    }
    fail_turn(alloc, parts)
}

// ---- bytes

/// Bytes come on a link: that of the turn, or an accepted one.
#[tactic(auto, using(crate::proofs::TrustEventLaws::hearing))]
fn serve_bytes<Q: Chances>(
    alloc: Global,
    table: &Table,
    changes: &mut TableChanges,
    name: &Name,
    now: u64,
    number: u32,
    piece: &[u8],
    parts: Parts,
    chances: &mut Q,
) -> Result<Parts, StepRefused>
    ensures draws { DrawsSome (Q.drawing chances.old) (Q.drawing chances.new) }
    ensures answer { AnswersBy (at_parts (with_changes changes.new table.now) result)
        (serve_bytes (is_on number parts.dialling) number piece.now name.now now
        (with_changes changes.old table.now) parts (Q.drawing chances.old).left)
        (Q.drawing chances.new).left }
    ensures few { length (Q.drawing chances.old).left
        ≤ length (Q.drawing chances.new).left + units_in_piece (length piece.now) }
{
    if !parts.dialling.is_on(number) {
        return serve_link(
            alloc, table, changes, name, now, number, piece, parts, chances,
        );
    }
    match hear_turn(alloc, number, piece, parts, chances) {
        Ok(parts) => Ok(parts),
        Err(NoMemory) => Err(StepRefused::Memory),
    }
}

/// The units of the bytes that come on the accepted link of that number are served, if one is open, and the link is
/// kept, where it stays open.
#[tactic(auto, using(crate::proofs::TrustStepLaws::serving))]
fn serve_link<Q: Chances>(
    alloc: Global,
    table: &Table,
    changes: &mut TableChanges,
    name: &Name,
    now: u64,
    number: u32,
    piece: &[u8],
    parts: Parts,
    chances: &mut Q,
) -> Result<Parts, StepRefused>
    ensures draws { DrawsSome (Q.drawing chances.old) (Q.drawing chances.new) }
    ensures answer { AnswersBy (at_parts (with_changes changes.new table.now) result)
        (serve_on (lookup same_number number parts.links) number piece.now name.now now
        (take_out same_number number parts.links) (with_changes changes.old table.now) parts
        (Q.drawing chances.old).left)
        (Q.drawing chances.new).left }
    ensures few { length (Q.drawing chances.old).left
        ≤ length (Q.drawing chances.new).left + units_in_piece (length piece.now) }
{
    let Parts {
        work,
        links,
        turn_of,
        dialling,
    } = parts;
    let (links, found) = links.take(number);
    let Some(link) = found else {
        return Ok(Parts {
            work,
            links,
            turn_of,
            dialling,
        });
    };
    let (work, open) = match serve_piece(
        alloc, table, changes, name, now, number, link, piece, work, chances,
    ) {
        Ok(served) => served,
        Err(why) => return Err(why),
    };
    let parts = Parts {
        work,
        links,
        turn_of,
        dialling,
    };
    match put_open(number, open, parts) {
        Ok(parts) => Ok(parts),
        Err(NoMemory) => Err(StepRefused::Memory),
    }
}

/// A link is put back, where it stays open; else its logons have no line.
pub(crate) fn put_open(
    number: u32,
    still: Option<Link<Talk>>,
    parts: Parts,
) -> Result<Parts, NoMemory>
    requires { length parts.links < 256 }
    ensures { IfOk result (λ after. after ≡ put_open still number parts) }
{
    let Parts {
        work,
        links,
        turn_of,
        dialling,
    } = parts;
    let (work, links) = match still {
        Some(link) => (work, links.put(number, link)?),
        None => (forget_link(number, work), links),
    };
    Ok(Parts {
        work,
        links,
        turn_of,
        dialling,
    })
}
