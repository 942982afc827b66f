//! The loop.

ghost use Rattle.std.specs.Prelude.{◌≡◌, ◌≤◌, [], ◌∷◌, true, false, OnOk, OnErr, IfOk, IfErr, Err, option_copied};
ghost use Rattle.outside.specs.Telling.{Appends};
ghost use Rattle.outside.specs.declared.event.Happening.{Happening};
ghost use Rattle.outside.specs.Causes.{Rose};
ghost use Rattle.end_loop.specs.Acts.{are_made};
ghost use Rattle.end_loop.specs.Seen.{Between};
ghost use Rattle.end_loop.specs.Writing.{files_told};
ghost use Rattle.end_loop.specs.Runs.{Ran, RanInto, RanOut, Halts, Turns, SinceAsked, IsOfAsk, IsOfSteps, is_stop, run_state_at, idle_at};

use crate::end::End;
use crate::halt::Halt;
use crate::step::{drain, step_event};
use outside::{Chances, Clock, Event, Files, Port, PortRefused, Sink};
use std::alloc::Global;
use std::collections::VecDeque;

/// Serves the end (this project's own choice): steps the events that wait, and then each event that the port gives,
/// with all that its steps make, before the next is asked for. It ends where the end has its outcome, at `Stop`, and
/// after `most` answers of the port, and then no event waits.
///
/// `PortFault` where the port failed to give an event, `SinkFault` where the sink failed, `Spent` where a step draws
/// more challenges than are left, `NoMemory` where no memory was found. What was done until then is done.
pub fn serve<E: End, P: Port, S: Sink, F: Files, C: Clock, Q: Chances>(
    alloc: Global,
    end: &mut E,
    queue: &mut VecDeque<Event>,
    most: u32,
    port: &mut P,
    out: &mut S,
    file: Option<&[u8]>,
    files: &mut F,
    clock: &mut C,
    chances: &mut Q,
) -> Result<(), Halt>
    requires running { E.is_stopped end.old ≡ false }
    requires made { are_made queue.old.items ≡ true }
    ensures ends { OnOk result (Between
        P.story P.link_faults C.moments Q.drawing S.taken
        (files_told F.contents F.reads F.writes) port.old clock.old chances.old out.old files.old
        port.new clock.new chances.new out.new files.new
        (λ before after. RanOut E.machine (option_copied file.entry)
        (run_state_at end.old queue.old.items before) end.new most before after)) }
    ensures halts { IfErr result (λ halt. Between
        P.story P.link_faults C.moments Q.drawing S.taken
        (files_told F.contents F.reads F.writes) port.old clock.old chances.old out.old files.old
        port.new clock.new chances.new out.new files.new
        (λ before after. Halts E.machine (option_copied file.entry)
        (run_state_at end.old queue.old.items before) most before after halt)) }
    ensures idle { OnOk result (queue.new.items ≡ []) }
    ensures goes_on { OnOk result (E.is_stopped end.new ≡ false) }
    ensures sink_cause { result ≡ Err Halt.SinkFault → Rose (S.faults out.old) (S.faults out.new) }
    ensures file_cause { result ≡ Err Halt.FileFault →
        Rose (F.faults files.old) (F.faults files.new) }
    ensures port_cause { result ≡ Err Halt.PortFault →
        Rose (P.faults port.old) (P.faults port.new) }
    ensures sink { S.faults out.old ≤ S.faults out.new }
    ensures files { F.faults files.old ≤ F.faults files.new }
    ensures port { P.faults port.old ≤ P.faults port.new }
    ensures links { P.link_faults port.old ≤ P.link_faults port.new }
{
    match drain(alloc, end, queue, port, out, file, files, clock, chances) {
        Ok(()) => {}
        Err(halt) => return Err(halt),
    }
    let mut asked = 0;
    while asked < most {
        if end.is_over() {
            return Ok(());
        }
        let stop = match turn(alloc, end, queue, port, out, file, files, clock, chances) {
            Ok(stop) => stop,
            Err(halt) => return Err(halt),
        };
        if stop {
            return Ok(());
        }
        asked += 1;
    }
    Ok(())
}

/// Asks for one event, and steps it with all that its steps make. True where it is `Stop`.
fn turn<E: End, P: Port, S: Sink, F: Files, C: Clock, Q: Chances>(
    alloc: Global,
    end: &mut E,
    queue: &mut VecDeque<Event>,
    port: &mut P,
    out: &mut S,
    file: Option<&[u8]>,
    files: &mut F,
    clock: &mut C,
    chances: &mut Q,
) -> Result<bool, Halt>
    requires running { E.is_stopped end.old ≡ false }
    requires goes_on { E.machine.is_over end.old ≡ false }
    requires idle { queue.old.items ≡ [] }
    ensures turns { IfOk result (λ stop. Between
        P.story P.link_faults C.moments Q.drawing S.taken
        (files_told F.contents F.reads F.writes) port.old clock.old chances.old out.old files.old
        port.new clock.new chances.new out.new files.new
        (λ before after. Turns E.machine (option_copied file.entry)
        end.old end.new before after stop)) }
    ensures halts { IfErr result (λ halt. Between
        P.story P.link_faults C.moments Q.drawing S.taken
        (files_told F.contents F.reads F.writes) port.old clock.old chances.old out.old files.old
        port.new clock.new chances.new out.new files.new
        (λ before after. Halts E.machine (option_copied file.entry) (idle_at end.old before)
        1 before after halt)) }
    ensures stopped { OnOk result (E.is_stopped end.new ≡ false) }
    ensures idle { OnOk result (queue.new.items ≡ []) }
    ensures sink_cause { result ≡ Err Halt.SinkFault → Rose (S.faults out.old) (S.faults out.new) }
    ensures file_cause { result ≡ Err Halt.FileFault →
        Rose (F.faults files.old) (F.faults files.new) }
    ensures port_cause { result ≡ Err Halt.PortFault →
        Rose (P.faults port.old) (P.faults port.new) }
    ensures sink { S.faults out.old ≤ S.faults out.new }
    ensures files { F.faults files.old ≤ F.faults files.new }
    ensures port { P.faults port.old ≤ P.faults port.new }
    ensures links { P.link_faults port.old ≤ P.link_faults port.new }
{
    let event = match ask(end, port) {
        Ok(event) => event,
        Err(halt) => return Err(halt),
    };
    if is_stop(&event) {
        return Ok(true);
    }
    answer(
        alloc, end, &event, queue, port, out, file, files, clock, chances,
    )
}

/// Asks for the next event.
fn ask<E: End, P: Port>(end: &E, port: &mut P) -> Result<Event, Halt>
    ensures given { IfOk result (λ event. Appends (P.story port.old) (P.story port.new)
        (Happening.Given event (E.machine.want end.now) ∷ [])) }
    ensures quiet { OnErr result (Appends (P.story port.old) (P.story port.new) []) }
    ensures kinds { IfErr result IsOfAsk }
    ensures cause { result ≡ Err Halt.PortFault → Rose (P.faults port.old) (P.faults port.new) }
    ensures port { P.faults port.old ≤ P.faults port.new }
    ensures links { P.link_faults port.new ≡ P.link_faults port.old }
{
    match port.next(end.wants()) {
        Ok(event) => Ok(event),
        Err(PortRefused::Failed) => Err(Halt::PortFault),
        Err(PortRefused::Memory) => Err(Halt::NoMemory),
    }
}

/// Whether the event is `Stop`.
fn is_stop(event: &Event) -> bool
    ensures { result ≡ is_stop event.now }
{
    matches!(event, Event::Stop)
}

/// Steps the event that was given, and all that its steps make. False, since it wasn't `Stop`.
fn answer<E: End, P: Port, S: Sink, F: Files, C: Clock, Q: Chances>(
    alloc: Global,
    end: &mut E,
    event: &Event,
    queue: &mut VecDeque<Event>,
    port: &mut P,
    out: &mut S,
    file: Option<&[u8]>,
    files: &mut F,
    clock: &mut C,
    chances: &mut Q,
) -> Result<bool, Halt>
    requires running { E.is_stopped end.old ≡ false }
    requires goes_on { E.machine.is_over end.old ≡ false }
    requires other { is_stop event.now ≡ false }
    requires idle { queue.old.items ≡ [] }
    ensures ran { OnOk result (Between
        P.story P.link_faults C.moments Q.drawing S.taken
        (files_told F.contents F.reads F.writes) port.old clock.old chances.old out.old files.old
        port.new clock.new chances.new out.new files.new
        (λ before after. SinceAsked E.machine end.old event.now before
        (λ asked. Ran E.machine (option_copied file.entry) (idle_at end.old asked)
        (idle_at end.new after) 1 asked after))) }
    ensures part { IfErr result (λ halt. Between
        P.story P.link_faults C.moments Q.drawing S.taken
        (files_told F.contents F.reads F.writes) port.old clock.old chances.old out.old files.old
        port.new clock.new chances.new out.new files.new
        (λ before after. SinceAsked E.machine end.old event.now before
        (λ asked. RanInto E.machine (option_copied file.entry) (idle_at end.old asked)
        1 asked after halt))) }
    ensures stop { IfOk result (λ stop. stop ≡ false) }
    ensures kinds { IfErr result IsOfSteps }
    ensures stopped { OnOk result (E.is_stopped end.new ≡ false) }
    ensures idle { OnOk result (queue.new.items ≡ []) }
    ensures sink_cause { result ≡ Err Halt.SinkFault → Rose (S.faults out.old) (S.faults out.new) }
    ensures file_cause { result ≡ Err Halt.FileFault →
        Rose (F.faults files.old) (F.faults files.new) }
    ensures sink { S.faults out.old ≤ S.faults out.new }
    ensures files { F.faults files.old ≤ F.faults files.new }
    ensures port { P.faults port.new ≡ P.faults port.old }
    ensures links { P.link_faults port.old ≤ P.link_faults port.new }
{
    match step_event(
        alloc, end, event, queue, port, out, file, files, clock, chances,
    ) {
        Ok(()) => {}
        Err(halt) => return Err(halt),
    }
    match drain(alloc, end, queue, port, out, file, files, clock, chances) {
        Ok(()) => Ok(false),
        Err(halt) => Err(halt),
    }
}
