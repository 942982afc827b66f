//! A command that begins with actions of its own.

ghost use Rattle.std.specs.Prelude.{◌≡◌, ◌≤◌, false, OnOk, IfErr, Err, option_copied};
ghost use Rattle.outside.specs.Causes.{Rose};
ghost use Rattle.end_loop.specs.Seen.{Between};
ghost use Rattle.end_loop.specs.Writing.{files_told};
ghost use Rattle.end_loop.specs.Begun.{Begun, BegunUntil};

use crate::act::perform;
use crate::end::End;
use crate::halt::Halt;
use crate::serving::serve;
use outside::{Actions, Chances, Clock, Files, Port, Sink};
use std::alloc::Global;
use std::collections::VecDeque;

/// Performs the first actions, and then serves the end (this project's own choice). Refuses as `serve` does.
pub fn begin_with<E: End, P: Port, S: Sink, F: Files, C: Clock, Q: Chances>(
    alloc: Global,
    end: &mut E,
    first: &Actions,
    most: u32,
    port: &mut P,
    out: &mut S,
    file: Option<&[u8]>,
    files: &mut F,
    clock: &mut C,
    chances: &mut Q,
) -> Result<(), Halt>
    requires running { E.is_stopped end.old ≡ false }
    ensures ends { OnOk result (Between
        P.story P.link_faults C.moments Q.drawing S.taken
        (files_told F.contents F.reads F.writes) port.old clock.old chances.old out.old files.old
        port.new clock.new chances.new out.new files.new
        (λ before after. Begun E.machine (option_copied file.entry) first.now
        end.old end.new most before after)) }
    ensures halts { IfErr result (λ halt. Between
        P.story P.link_faults C.moments Q.drawing S.taken
        (files_told F.contents F.reads F.writes) port.old clock.old chances.old out.old files.old
        port.new clock.new chances.new out.new files.new
        (λ before after. BegunUntil E.machine (option_copied file.entry) first.now
        end.old most before after halt)) }
    ensures sink_cause { result ≡ Err Halt.SinkFault → Rose (S.faults out.old) (S.faults out.new) }
    ensures file_cause { result ≡ Err Halt.FileFault →
        Rose (F.faults files.old) (F.faults files.new) }
    ensures port_cause { result ≡ Err Halt.PortFault →
        Rose (P.faults port.old) (P.faults port.new) }
    ensures sink { S.faults out.old ≤ S.faults out.new }
    ensures files { F.faults files.old ≤ F.faults files.new }
    ensures port { P.faults port.old ≤ P.faults port.new }
    ensures links { P.link_faults port.old ≤ P.link_faults port.new }
{
    let mut queue = VecDeque::new(alloc);
    match perform(
        alloc,
        end,
        first.items(),
        &mut queue,
        port,
        out,
        file,
        files,
    ) {
        Ok(()) => {}
        Err(halt) => return Err(halt),
    }
    serve(
        alloc, end, &mut queue, most, port, out, file, files, clock, chances,
    )
}
