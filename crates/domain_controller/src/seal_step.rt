//! A step of a controller that can seal.

ghost use Rattle.std.specs.Prelude.{◌≡◌, ◌≤◌, ◌+◌, OnErr, None, Some, length};
ghost use Rattle.account_table.specs.Changes.{DifferInStates, with_changes};
ghost use Rattle.outside.specs.Drawing.{DrawsSome};
ghost use Rattle.outside.specs.Machine.{AnswersBy};
ghost use Rattle.end_links.specs.Bounds.{units_at};
ghost use Rattle.domain_controller.specs.SealStep.{at_seal_parts, seal_event_and_turn};

use crate::seal_links::answer_seal_event;
use crate::sealed::Sealing;
use crate::trusting::{Parts, Trusting};
use crate::turning::next_turn;
use account_table::{Table, TableChanges};
use outside::{Chances, Event, StepRefused};
use std::alloc::Global;
use wire_base::Name;

/// What an event comes to, and then the next turn; the changes of the accounts are made, unless it is refused.
#[tactic(auto, using(crate::proofs::ChangeLaws::differing, crate::proofs::SealStepLaws::committing))]
pub(crate) fn seal_and_commit<Q: Chances>(
    alloc: Global,
    table: &mut Table,
    name: &Name,
    now: u64,
    event: &Event,
    parts: Parts,
    sealing: Sealing,
    chances: &mut Q,
) -> Result<(Parts, Sealing), StepRefused>
    ensures draws { DrawsSome (Q.drawing chances.old) (Q.drawing chances.new) }
    ensures answer { AnswersBy (at_seal_parts table.new result)
        (seal_event_and_turn table.old.trusts event.now name.now now table.old parts sealing
        (Q.drawing chances.old).left)
        (Q.drawing chances.new).left }
    ensures stays { OnErr result (table.new ≡ table.old) }
    ensures states { DifferInStates table.old table.new }
    ensures few { length (Q.drawing chances.old).left
        ≤ length (Q.drawing chances.new).left + units_at event.now + 1 }
{
    let mut changes = TableChanges::new(alloc);
    match seal_event(
        alloc,
        table,
        &mut changes,
        name,
        now,
        event,
        parts,
        sealing,
        chances,
    ) {
        Ok(done) => {
            table.commit(&changes);
            Ok(done)
        }
        Err(why) => Err(why),
    }
}

/// What an event comes to, and then the next turn, for which nothing is sealed.
#[tactic(auto, using(crate::proofs::SealStepLaws::running))]
fn seal_event<Q: Chances>(
    alloc: Global,
    table: &Table,
    changes: &mut TableChanges,
    name: &Name,
    now: u64,
    event: &Event,
    parts: Parts,
    sealing: Sealing,
    chances: &mut Q,
) -> Result<(Parts, Sealing), StepRefused>
    ensures draws { DrawsSome (Q.drawing chances.old) (Q.drawing chances.new) }
    ensures answer { AnswersBy (at_seal_parts (with_changes changes.new table.now) result)
        (seal_event_and_turn table.now.trusts event.now name.now now
        (with_changes changes.old table.now) parts sealing (Q.drawing chances.old).left)
        (Q.drawing chances.new).left }
    ensures few { length (Q.drawing chances.old).left
        ≤ length (Q.drawing chances.new).left + units_at event.now + 1 }
{
    let (parts, sealing) = match answer_seal_event(
        alloc, table, changes, name, now, event, parts, sealing, chances,
    ) {
        Ok(done) => done,
        Err(why) => return Err(why),
    };
    match next_turn(alloc, now, table, parts, chances) {
        Ok(parts) => Ok((parts, sealing)),
        Err(why) => Err(why),
    }
}

/// What is kept to seal is taken out. It takes no memory.
pub(crate) fn take_sealing(trusting: &mut Trusting) -> Option<Sealing>
    ensures taken { result ≡ trusting.old.sealing }
    ensures left { trusting.new ≡ record trusting.old { sealing = None } }
{
    trusting.sealing.take()
}

/// What is kept of logons that are asked of others, with what is kept to seal beside it. It takes no memory.
pub(crate) fn put_sealing(trusting: Trusting, sealing: Sealing) -> Trusting
    ensures { result ≡ record trusting { sealing = Some sealing } }
{
    let Trusting {
        queues,
        turn_of,
        dialling,
        ..
    } = trusting;
    Trusting {
        queues,
        turn_of,
        dialling,
        sealing: Some(sealing),
    }
}
