//! One step of an end, and the steps of the events that wait.

ghost use Rattle.std.specs.Prelude.{◌≡◌, ◌≤◌, ◌+◌, ℕ, List, [], ◌∷◌, true, false, length, OnOk, IfOk, IfErr, Err, IsTrue, option_copied};
ghost use Rattle.outside.specs.Causes.{Rose};
ghost use Rattle.end_loop.specs.Acts.{is_made, are_made};
ghost use Rattle.end_loop.specs.Seen.{Between};
ghost use Rattle.end_loop.specs.Writing.{files_told};
ghost use Rattle.end_loop.specs.Runs.{IsOfSteps, Made, MadePart, Ran, RanInto, run_state_at, idle_at};

use crate::act::perform;
use crate::end::End;
use crate::halt::Halt;
use outside::{Chances, Clock, Event, Files, Port, Sink, StepRefused};
use std::alloc::Global;
use std::collections::VecDeque;

/// Steps the event, and performs what the end asks for. What that makes waits behind the events that wait.
pub(crate) fn step_event<E: End, P: Port, S: Sink, F: Files, C: Clock, Q: Chances>(
    alloc: Global,
    end: &mut E,
    event: &Event,
    queue: &mut VecDeque<Event>,
    port: &mut P,
    out: &mut S,
    file: Option<&[u8]>,
    files: &mut F,
    clock: &mut C,
    chances: &mut Q,
) -> Result<(), Halt>
    requires running { E.is_stopped end.old ≡ false }
    ensures made { OnOk result (Between
        P.story P.link_faults C.moments Q.drawing S.taken
        (files_told F.contents F.reads F.writes) port.old clock.old chances.old out.old files.old
        port.new clock.new chances.new out.new files.new
        (λ before after. Made E.machine (option_copied file.entry) end.old end.new event.now
        queue.old.items queue.new.items before after)) }
    ensures part { IfErr result (λ halt. Between
        P.story P.link_faults C.moments Q.drawing S.taken
        (files_told F.contents F.reads F.writes) port.old clock.old chances.old out.old files.old
        port.new clock.new chances.new out.new files.new
        (λ before after. MadePart E.machine (option_copied file.entry)
        end.old event.now before after halt)) }
    ensures goes_on { OnOk result (E.is_stopped end.new ≡ false) }
    ensures settles { OnOk result (IsTrue (is_made event.now) →
        length queue.new.items + E.pending end.new
        ≤ length queue.old.items + E.pending end.old) }
    ensures waiting { OnOk result (are_made queue.old.items ≡ true →
        are_made queue.new.items ≡ true) }
    ensures kinds { IfErr result IsOfSteps }
    ensures cause { result ≡ Err Halt.SinkFault → Rose (S.faults out.old) (S.faults out.new) }
    ensures file_cause { result ≡ Err Halt.FileFault →
        Rose (F.faults files.old) (F.faults files.new) }
    ensures sink { S.faults out.old ≤ S.faults out.new }
    ensures files { F.faults files.old ≤ F.faults files.new }
    ensures port { P.faults port.new ≡ P.faults port.old }
    ensures links { P.link_faults port.old ≤ P.link_faults port.new }
{
    let now = clock.now();
    let actions = match end.step(alloc, event, now, chances) {
        Ok(actions) => actions,
        Err(StepRefused::Spent) => return Err(Halt::Spent),
        Err(StepRefused::Memory) => return Err(Halt::NoMemory),
        Err(StepRefused::Stopped) => unreachable!(),
    };
    perform(alloc, end, actions.items(), queue, port, out, file, files)
}

/// Steps all the events that wait, and those that these steps make.
pub(crate) fn drain<E: End, P: Port, S: Sink, F: Files, C: Clock, Q: Chances>(
    alloc: Global,
    end: &mut E,
    queue: &mut VecDeque<Event>,
    port: &mut P,
    out: &mut S,
    file: Option<&[u8]>,
    files: &mut F,
    clock: &mut C,
    chances: &mut Q,
) -> Result<(), Halt>
    requires running { E.is_stopped end.old ≡ false }
    requires made { are_made queue.old.items ≡ true }
    ensures ran { OnOk result (Between
        P.story P.link_faults C.moments Q.drawing S.taken
        (files_told F.contents F.reads F.writes) port.old clock.old chances.old out.old files.old
        port.new clock.new chances.new out.new files.new
        (λ before after. Ran E.machine (option_copied file.entry)
        (run_state_at end.old queue.old.items before) (idle_at end.new after) 0 before after)) }
    ensures part { IfErr result (λ halt. Between
        P.story P.link_faults C.moments Q.drawing S.taken
        (files_told F.contents F.reads F.writes) port.old clock.old chances.old out.old files.old
        port.new clock.new chances.new out.new files.new
        (λ before after. RanInto E.machine (option_copied file.entry)
        (run_state_at end.old queue.old.items before) 0 before after halt)) }
    ensures idle { OnOk result (queue.new.items ≡ []) }
    ensures goes_on { OnOk result (E.is_stopped end.new ≡ false) }
    ensures kinds { IfErr result IsOfSteps }
    ensures cause { result ≡ Err Halt.SinkFault → Rose (S.faults out.old) (S.faults out.new) }
    ensures file_cause { result ≡ Err Halt.FileFault →
        Rose (F.faults files.old) (F.faults files.new) }
    ensures sink { S.faults out.old ≤ S.faults out.new }
    ensures files { F.faults files.old ≤ F.faults files.new }
    ensures port { P.faults port.new ≡ P.faults port.old }
    ensures links { P.link_faults port.old ≤ P.link_faults port.new }
{
    while let Some(event) = queue.pop_front() {
        step_event(
            alloc, end, &event, queue, port, out, file, files, clock, chances,
        )?;
    }
    Ok(())
}
