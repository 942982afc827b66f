//! Laws of runs, for the top call. Each function does nothing, and its clause is the law, of the machine of any end.

ghost use Rattle.end_loop.specs.Asking.{AsksFor};
ghost use Rattle.end_loop.specs.Doing.{DialsAndCloses};
ghost use Rattle.end_loop.specs.Faults.{RunsCountFaults};
ghost use Rattle.end_loop.specs.Keeping.{KeepsTexts};
ghost use Rattle.end_loop.specs.Sending.{SendsFront};
ghost use Rattle.end_loop.specs.Unique.{IsDetermined};

use crate::end::End;

/// What was sent on a link up to the first send on it that failed is a front of what the end's machine sends on it, in
/// order; where no send on it failed, it is all of it.
pub fn sends_what_the_machine_sends<E: End>(_end: &E)
    ensures { SendsFront E.machine }
{}

/// The peers dialled in a run and the links closed in it are those of the machine's actions, in their order.
pub fn dials_and_closes_as_the_machine_asks<E: End>(_end: &E)
    ensures { DialsAndCloses E.machine }
{}

/// The story and the moments determine the run: its end, what it drew and its actions.
pub fn story_determines_the_run<E: End>(_end: &E)
    ensures { IsDetermined E.machine }
{}

/// The events that the port gave in a run, each with the link that the end waited for, are those that its steps asked
/// for, as many as the run asked for, and none is `Stop`.
pub fn asks_for_its_events<E: End>(_end: &E)
    ensures { AsksFor E.machine }
{}

/// Over a run, to its end or to a halt, the count of link faults rose where a dial or a send failed.
pub fn counts_its_link_faults<E: End>(_end: &E)
    ensures { RunsCountFaults E.machine }
{}

/// The texts that the end asks to keep are the writes, in their order, under the file's name, and there are none where
/// no name is given. What happens at the port and what is put are the same without them.
pub fn writes_what_the_end_keeps<E: End>(_end: &E)
    ensures { KeepsTexts E.machine }
{}
