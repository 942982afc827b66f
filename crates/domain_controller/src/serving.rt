//! The units of a link, served in order.

ghost use Rattle.std.specs.Prelude.{◌≡◌, ◌≤◌, ◌+◌, ◌++◌, length};
ghost use Rattle.account_table.specs.Changes.{with_changes};
ghost use Rattle.outside.specs.Drawing.{DrawsSome};
ghost use Rattle.outside.specs.Machine.{AnswersBy};
ghost use Rattle.rpc_units.specs.Stream.{cut_stream};
ghost use Rattle.end_links.specs.Bounds.{units_in_piece};
ghost use Rattle.end_links.specs.Serving.{StreamsBy, served_cut};
ghost use Rattle.domain_controller.specs.Hearing.{hear};
ghost use Rattle.domain_controller.specs.Forwarding.{at_trust_desk, by_trust_heard, trust_desk, trust_server};

use crate::answering::{answer_heard, tell_on};
use crate::hearing::hear;
use crate::state::Talk;
use crate::trusting::TrustWork;
use account_table::{Table, TableChanges};
use end_links::Link;
use outside::{Action, Chances, CloseCause, StepRefused};
use rpc_units::{Came, Incoming};
use std::alloc::Global;
use wire_base::{Name, NoMemory};

/// The units of the link with the piece that comes on it, one after the other, until the link is closed: what the
/// controller has then, and the link, or None where it is closed. What the calls change of the accounts stands in
/// `changes`, behind what stood there: the table stays. Whatever the result, at most one challenge is drawn for each
/// 16 bytes of the piece and of the 5,839 that the link can hold.
pub(crate) fn serve_piece<Q: Chances>(
    alloc: Global,
    table: &Table,
    changes: &mut TableChanges,
    name: &Name,
    now: u64,
    number: u32,
    link: Link<Talk>,
    piece: &[u8],
    work: TrustWork,
    chances: &mut Q,
) -> Result<(TrustWork, Option<Link<Talk>>), StepRefused>
    ensures draws { DrawsSome (Q.drawing chances.old) (Q.drawing chances.new) }
    ensures answer { StreamsBy (at_trust_desk (with_changes changes.new table.now) result)
        (served_cut (trust_server name.now now number) (cut_stream (link.rest ++ piece.now))
        (trust_desk (with_changes changes.old table.now) work) link.talk
        (Q.drawing chances.old).left)
        (cut_stream (link.rest ++ piece.now)).rest (Q.drawing chances.new).left }
    ensures few { length (Q.drawing chances.old).left
        ≤ length (Q.drawing chances.new).left + units_in_piece (length piece.now) }
{
    // Reading the length makes it known that the link holds at most 5,839 bytes.
    let _held = link.rest_len();
    serve_units(
        alloc, table, changes, name, now, number, link, piece, work, chances,
    )
}

/// The units of the link with the piece that comes on it.
#[tactic(auto, using(end_links::proofs::ServingLaws::serving, rpc_units::proofs::ComingLaws::front_done))]
fn serve_units<Q: Chances>(
    alloc: Global,
    table: &Table,
    changes: &mut TableChanges,
    name: &Name,
    now: u64,
    number: u32,
    link: Link<Talk>,
    piece: &[u8],
    work: TrustWork,
    chances: &mut Q,
) -> Result<(TrustWork, Option<Link<Talk>>), StepRefused>
    ensures draws { DrawsSome (Q.drawing chances.old) (Q.drawing chances.new) }
    ensures answer { StreamsBy (at_trust_desk (with_changes changes.new table.now) result)
        (served_cut (trust_server name.now now number) (cut_stream (link.rest ++ piece.now))
        (trust_desk (with_changes changes.old table.now) work) link.talk
        (Q.drawing chances.old).left)
        (cut_stream (link.rest ++ piece.now)).rest (Q.drawing chances.new).left }
{
    let (flow, said) = link.parts();
    let mut coming = Incoming::new(flow, piece);
    let mut talk = said;
    let mut work = work;
    'units: loop {
        match coming.next() {
            Came::Unit(_) => {
                let (after, open) = serve_unit(
                    alloc,
                    table,
                    changes,
                    name,
                    now,
                    number,
                    coming.unit(),
                    talk,
                    work,
                    chances,
                )?;
                coming.done();
                work = after;
                match open {
                    Some(still) => talk = still,
                    None => return Ok((work, None)),
                }
            }
            Came::Waits => return Ok((work, Some(Link::again(coming.into_flow(), talk)))),
            Came::Refused(_) => {
                let work = tell_on(work, Action::Close(number, CloseCause::BadUnit))?;
                return Ok((work, None));
            }
        }
    }
}

/// Serves the bytes of a unit, which stay as they are.
fn serve_unit<Q: Chances>(
    alloc: Global,
    table: &Table,
    changes: &mut TableChanges,
    name: &Name,
    now: u64,
    link: u32,
    bytes: &mut [u8],
    talk: Talk,
    work: TrustWork,
    chances: &mut Q,
) -> Result<(TrustWork, Option<Talk>), StepRefused>
    ensures len { length bytes.new ≡ length bytes.old }
    ensures draws { DrawsSome (Q.drawing chances.old) (Q.drawing chances.new) }
    ensures answer { AnswersBy (at_trust_desk (with_changes changes.new table.now) result)
        (by_trust_heard (hear link bytes.old talk) link name.now now
        (trust_desk (with_changes changes.old table.now) work) (Q.drawing chances.old).left)
        (Q.drawing chances.new).left }
{
    match hear(alloc, link, bytes, talk) {
        Ok(heard) => answer_heard(alloc, table, changes, name, now, link, heard, work, chances),
        Err(NoMemory) => Err(StepRefused::Memory),
    }
}
