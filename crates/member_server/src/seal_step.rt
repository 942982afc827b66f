//! The step of a member whose channel seals, up to what it keeps.

ghost use Rattle.std.specs.Prelude.{◌≡◌, ◌≤◌, ◌+◌, length};
ghost use Rattle.end_links.specs.Bounds.{units_at, units_in_piece};
ghost use Rattle.outside.specs.Drawing.{DrawsSome};
ghost use Rattle.outside.specs.Machine.{AnswersBy};
ghost use Rattle.channel_turns.specs.Turning.{is_on};
ghost use Rattle.member_server.specs.SealStep.{as_before, by_sealed_event, is_sealed_on, sealed_bytes_by, sealed_part};

use crate::member::{bytes_on, on_event};
use crate::state::{Running, Work};
use crate::turns::{hear_sealed, next_sealed};
use channel_turns::Dialling;
use end_links::ShortActions;
use outside::{Chances, Event, StepRefused};
use std::alloc::Global;

/// Whether the link of the turn is sealed that is dialled so: while none is open none is.
pub(crate) fn is_sealed_on(dialling: &Dialling, is_link_sealed: bool) -> bool
    ensures { result ≡ is_sealed_on dialling.now is_link_sealed }
{
    match dialling {
        Dialling::Nothing | Dialling::Waits(_, _) => false,
        Dialling::On(_, _) => is_link_sealed,
    }
}

/// Bytes came on a link.
#[tactic(auto, using(crate::proofs::SealLaws::going))]
fn sealed_bytes<Q: Chances>(
    alloc: Global,
    link: u32,
    piece: &[u8],
    how: Dialling,
    work: Work,
    is_link_sealed: bool,
    chances: &mut Q,
) -> Result<((Work, Dialling), bool), StepRefused>
    ensures draws { DrawsSome (Q.drawing chances.old) (Q.drawing chances.new) }
    ensures answer { AnswersBy result
        (sealed_bytes_by (is_on link how) link piece.now how work is_link_sealed
        (Q.drawing chances.old).left)
        (Q.drawing chances.new).left }
    ensures few { length (Q.drawing chances.old).left
        ≤ length (Q.drawing chances.new).left + units_in_piece (length piece.now) }
{
    if how.is_on(link) {
        return hear_sealed(alloc, link, piece, how, work, is_link_sealed, chances);
    }
    match bytes_on(alloc, link, piece, how, work, chances) {
        Ok(dial_work) => Ok((dial_work, is_link_sealed)),
        Err(why) => Err(why),
    }
}

/// An event comes to what it comes to for a member that seals nothing.
#[tactic(auto, using(crate::proofs::SealLaws::going))]
fn go_as_before<Q: Chances>(
    alloc: Global,
    event: &Event,
    how: Dialling,
    work: Work,
    is_link_sealed: bool,
    chances: &mut Q,
) -> Result<((Work, Dialling), bool), StepRefused>
    ensures draws { DrawsSome (Q.drawing chances.old) (Q.drawing chances.new) }
    ensures answer { AnswersBy result
        (as_before event.now how work is_link_sealed (Q.drawing chances.old).left)
        (Q.drawing chances.new).left }
    ensures few { length (Q.drawing chances.old).left
        ≤ length (Q.drawing chances.new).left + units_at event.now }
{
    match on_event(alloc, event, how, work, chances) {
        Ok(dial_work) => Ok((dial_work, is_link_sealed)),
        Err(why) => Err(why),
    }
}

/// What the event itself comes to.
fn on_sealed_event<Q: Chances>(
    alloc: Global,
    event: &Event,
    how: Dialling,
    work: Work,
    is_link_sealed: bool,
    chances: &mut Q,
) -> Result<((Work, Dialling), bool), StepRefused>
    ensures draws { DrawsSome (Q.drawing chances.old) (Q.drawing chances.new) }
    ensures answer { AnswersBy result
        (by_sealed_event event.now how work is_link_sealed (Q.drawing chances.old).left)
        (Q.drawing chances.new).left }
    ensures few { length (Q.drawing chances.old).left
        ≤ length (Q.drawing chances.new).left + units_at event.now }
{
    match event {
        Event::Bytes(link, piece) => {
            let piece = piece.bytes();
            sealed_bytes(alloc, *link, piece, how, work, is_link_sealed, chances)
        }
        Event::Opened(_) => go_as_before(alloc, event, how, work, is_link_sealed, chances),
        Event::Closed(_) => go_as_before(alloc, event, how, work, is_link_sealed, chances),
        Event::Dialled(_) => go_as_before(alloc, event, how, work, is_link_sealed, chances),
        Event::DialFailed => go_as_before(alloc, event, how, work, is_link_sealed, chances),
        Event::Stop => go_as_before(alloc, event, how, work, is_link_sealed, chances),
    }
}

/// The event, and then the next turn.
#[tactic(auto, using(crate::proofs::SealLaws::running))]
pub(crate) fn run_sealed<Q: Chances>(
    alloc: Global,
    running: Running,
    is_link_sealed: bool,
    event: &Event,
    now: u64,
    chances: &mut Q,
) -> Result<((Work, Dialling), bool), StepRefused>
    ensures draws { DrawsSome (Q.drawing chances.old) (Q.drawing chances.new) }
    ensures answer { AnswersBy result
        (sealed_part running is_link_sealed event.now now (Q.drawing chances.old).left)
        (Q.drawing chances.new).left }
    ensures few { length (Q.drawing chances.old).left
        ≤ length (Q.drawing chances.new).left + units_at event.now + 1 }
{
    let Running {
        logons,
        links,
        dialling,
        ..
    } = running;
    let work = Work {
        logons,
        links,
        actions: ShortActions::new(alloc),
    };
    let ((work, how), sealed) = match on_sealed_event(
        alloc,
        event,
        dialling,
        work,
        is_link_sealed,
        chances,
    ) {
        Ok(work) => work,
        Err(why) => return Err(why),
    };
    next_sealed(alloc, now, work, how, sealed, chances)
}
