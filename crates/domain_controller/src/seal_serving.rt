//! The units of a link at a controller that can seal, served in order.

ghost use Rattle.std.specs.Prelude.{◌≡◌, ◌≤◌, ◌+◌, ◌++◌, IfOk, Some, length};
ghost use Rattle.account_table.specs.Changes.{with_changes};
ghost use Rattle.outside.specs.Drawing.{DrawsSome};
ghost use Rattle.outside.specs.Machine.{AnswersBy};
ghost use Rattle.rpc_units.specs.Stream.{cut_stream};
ghost use Rattle.end_links.specs.Bounds.{units_in_piece};
ghost use Rattle.end_links.specs.Serving.{StreamsBy, served_cut};
ghost use Rattle.domain_controller.specs.Forwarding.{trust_desk};
ghost use Rattle.domain_controller.specs.Hearing.{CanAnswer};
ghost use Rattle.domain_controller.specs.SealHearing.{seal_hear};
ghost use Rattle.domain_controller.specs.Sealing.{link_sealed, seal_of_link, with_seals};
ghost use Rattle.domain_controller.specs.SealServing.{at_seal_desk, seal_desk, seal_server, serve_sealing};

use crate::answering::tell_on;
use crate::hearing::Heard;
use crate::seal_answering::answer_seal_heard;
use crate::seal_hearing::{SealHeard, seal_hear};
use crate::sealed::{Sealing, link_sealed, seal_of_link};
use crate::state::Talk;
use crate::trusting::TrustWork;
use account_table::{Table, TableChanges};
use controller_calls::LinkSeal;
use end_links::Link;
use outside::{Action, Chances, CloseCause, StepRefused};
use rpc_units::{Came, Incoming};
use std::alloc::Global;
use wire_base::{Name, NoMemory};

/// The units of the link with the piece that comes on it, one after the other, until the link is closed: what the
/// controller has then, and the link, or None where it is closed. What the calls change of the accounts stands in
/// `changes`, behind what stood there: the table stays. Whatever the result, at most one challenge is drawn for each
/// 16 bytes of the piece and of the 5,839 that the link can hold.
pub(crate) fn serve_seal_piece<Q: Chances>(
    alloc: Global,
    table: &Table,
    changes: &mut TableChanges,
    name: &Name,
    now: u64,
    number: u32,
    link: Link<Talk>,
    piece: &[u8],
    work: TrustWork,
    sealing: Sealing,
    chances: &mut Q,
) -> Result<((TrustWork, Sealing), Option<Link<Talk>>), StepRefused>
    ensures draws { DrawsSome (Q.drawing chances.old) (Q.drawing chances.new) }
    ensures answer { StreamsBy (at_seal_desk (with_changes changes.new table.now) result)
        (served_cut (seal_server name.now now number) (cut_stream (link.rest ++ piece.now))
        (seal_desk (trust_desk (with_changes changes.old table.now) work) sealing) link.talk
        (Q.drawing chances.old).left)
        (cut_stream (link.rest ++ piece.now)).rest (Q.drawing chances.new).left }
    ensures few { length (Q.drawing chances.old).left
        ≤ length (Q.drawing chances.new).left + units_in_piece (length piece.now) }
{
    // Reading the length makes it known that the link holds at most 5,839 bytes.
    let _held = link.rest_len();
    serve_units(
        alloc, table, changes, name, now, number, link, piece, work, sealing, chances,
    )
}

/// The units of the link with the piece that comes on it.
#[tactic(auto, using(end_links::proofs::ServingLaws::serving, rpc_units::proofs::ComingLaws::front_done))]
fn serve_units<Q: Chances>(
    alloc: Global,
    table: &Table,
    changes: &mut TableChanges,
    name: &Name,
    now: u64,
    number: u32,
    link: Link<Talk>,
    piece: &[u8],
    work: TrustWork,
    sealing: Sealing,
    chances: &mut Q,
) -> Result<((TrustWork, Sealing), Option<Link<Talk>>), StepRefused>
    ensures draws { DrawsSome (Q.drawing chances.old) (Q.drawing chances.new) }
    ensures answer { StreamsBy (at_seal_desk (with_changes changes.new table.now) result)
        (served_cut (seal_server name.now now number) (cut_stream (link.rest ++ piece.now))
        (seal_desk (trust_desk (with_changes changes.old table.now) work) sealing) link.talk
        (Q.drawing chances.old).left)
        (cut_stream (link.rest ++ piece.now)).rest (Q.drawing chances.new).left }
{
    let (flow, said) = link.parts();
    let mut coming = Incoming::new(flow, piece);
    let mut talk = said;
    let mut work = work;
    let mut sealing = sealing;
    'units: loop {
        match coming.next() {
            Came::Unit(_) => {
                let (after, open) = serve_unit(
                    alloc,
                    table,
                    changes,
                    name,
                    now,
                    number,
                    coming.unit(),
                    talk,
                    work,
                    sealing,
                    chances,
                )?;
                coming.done();
                work = after.0;
                sealing = after.1;
                match open {
                    Some(still) => talk = still,
                    None => return Ok(((work, sealing), None)),
                }
            }
            Came::Waits => {
                let link = Link::again(coming.into_flow(), talk);
                return Ok(((work, sealing), Some(link)));
            }
            Came::Refused(_) => match tell_on(work, Action::Close(number, CloseCause::BadUnit)) {
                Ok(work) => return Ok(((work, sealing), None)),
                Err(NoMemory) => return Err(StepRefused::Memory),
            },
        }
    }
}

/// Serves the bytes of a unit, which stay as many.
#[tactic(auto, using(crate::proofs::SealRestLaws::unit_heard))]
fn serve_unit<Q: Chances>(
    alloc: Global,
    table: &Table,
    changes: &mut TableChanges,
    name: &Name,
    now: u64,
    number: u32,
    bytes: &mut [u8],
    talk: Talk,
    work: TrustWork,
    sealing: Sealing,
    chances: &mut Q,
) -> Result<((TrustWork, Sealing), Option<Talk>), StepRefused>
    ensures len { length bytes.new ≡ length bytes.old }
    ensures draws { DrawsSome (Q.drawing chances.old) (Q.drawing chances.new) }
    ensures answer { AnswersBy (at_seal_desk (with_changes changes.new table.now) result)
        (serve_sealing (Some sealing) number bytes.old talk name.now now
        (trust_desk (with_changes changes.old table.now) work) (Q.drawing chances.old).left)
        (Q.drawing chances.new).left }
{
    match hear_unit(alloc, number, bytes, talk, sealing) {
        Ok((heard, seal, sealing)) => answer_seal_heard(
            alloc, table, changes, name, now, number, seal, heard, work, sealing, chances,
        ),
        Err(NoMemory) => Err(StepRefused::Memory),
    }
}

/// What a unit comes to: what is heard, the seal that its link had before, and what is kept to seal then.
fn hear_unit(
    alloc: Global,
    number: u32,
    bytes: &mut [u8],
    talk: Talk,
    sealing: Sealing,
) -> Result<(Heard, Option<LinkSeal>, Sealing), NoMemory>
    ensures len { length bytes.new ≡ length bytes.old }
    ensures heard { IfOk result (λ h. h.0 ≡ (seal_hear number bytes.old talk
        (seal_of_link number sealing) sealing.seals).heard) }
    ensures seal { IfOk result (λ h. h.1 ≡ seal_of_link number sealing) }
    ensures sealing { IfOk result (λ h. h.2 ≡ link_sealed (seal_hear number bytes.old talk
        (seal_of_link number sealing) sealing.seals).bound number (with_seals
        (seal_hear number bytes.old talk (seal_of_link number sealing) sealing.seals).seals
        sealing)) }
    ensures can { IfOk result (λ h. CanAnswer h.0) }
{
    let seal = seal_of_link(alloc, number, &sealing)?;
    let Sealing {
        seals,
        links,
        asked,
    } = sealing;
    let SealHeard {
        heard,
        seals,
        bound,
    } = seal_hear(alloc, number, bytes, talk, &seal, seals)?;
    let sealing = Sealing {
        seals,
        links,
        asked,
    };
    Ok((heard, seal, link_sealed(bound, number, sealing)?))
}
