//! What a station at work does.

ghost use Rattle.std.specs.Prelude.{◌≡◌, IfOk};
ghost use Rattle.end_links.specs.Bounds.{IsShortSend};
ghost use Rattle.interactive_station.specs.Machine.{closes, conclude, dials, ends_by, fails, tell};

use crate::outcome::StationOutcome;
use crate::state::{StationCall, StationWork};
use outside::{Action, CloseCause, DropCause};
use std::alloc::Global;
use wire_base::{Blob, NoMemory};

/// The work with one action more; a send has at most 589,824 bytes.
pub(crate) fn tell(work: StationWork, what: Action) -> Result<StationWork, NoMemory>
    requires { IsShortSend what }
    ensures { IfOk result (λ w. w ≡ tell work what) }
{
    let StationWork {
        task,
        now,
        next,
        outcome,
        mut actions,
    } = work;
    actions.push(what)?;
    Ok(StationWork {
        task,
        now,
        next,
        outcome,
        actions,
    })
}

/// The work with its outcome.
pub(crate) fn conclude(outcome: StationOutcome, work: StationWork) -> StationWork
    ensures { result ≡ conclude outcome work }
{
    StationWork {
        outcome: Some(outcome),
        ..work
    }
}

/// The link is closed for that cause, and that is the outcome.
pub(crate) fn end_by(
    cause: CloseCause,
    outcome: StationOutcome,
    link: u32,
    work: StationWork,
) -> Result<StationWork, NoMemory>
    ensures { IfOk result (λ w. w ≡ ends_by cause outcome link work) }
{
    let work = tell(work, Action::Close(link, cause))?;
    Ok(conclude(outcome, work))
}

/// The peer is to blame for the outcome, and the link is closed.
pub(crate) fn fail(cause: DropCause, link: u32, work: StationWork) -> Result<StationWork, NoMemory>
    ensures { IfOk result (λ w. w ≡ fails cause link work) }
{
    let outcome = StationOutcome::BadPeer(cause);
    end_by(CloseCause::CallDone, outcome, link, work)
}

/// The link is done.
pub(crate) fn close(link: u32, work: StationWork) -> Result<StationWork, NoMemory>
    ensures { IfOk result (λ w. w ≡ closes link work) }
{
    tell(work, Action::Close(link, CloseCause::CallDone))
}

/// The next link is dialled, for that call.
pub(crate) fn dial(
    alloc: Global,
    call: StationCall,
    work: StationWork,
) -> Result<StationWork, NoMemory>
    ensures { IfOk result (λ w. w ≡ dials call work) }
{
    let controller = Blob::copy(alloc, work.task.plan().controller.bytes())?;
    let work = tell(work, Action::Dial(controller))?;
    Ok(StationWork {
        next: Some(call),
        ..work
    })
}
