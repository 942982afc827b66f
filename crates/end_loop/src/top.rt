//! What a command that serves does around the loop.

ghost use Rattle.std.specs.Prelude.{◌≡◌, ◌≤◌, [], false, true, OnOk, IfErr, Err, option_copied};
ghost use Rattle.outside.specs.Causes.{Rose};
ghost use Rattle.end_loop.specs.Seen.{Between};
ghost use Rattle.end_loop.specs.Writing.{files_told};
ghost use Rattle.end_loop.specs.Serving.{Served, ServedUntil};

use crate::begun::begin_with;
use crate::end::End;
use crate::halt::Halt;
use outside::{Actions, Chances, Clock, Files, Port, Sink};
use std::alloc::Global;

/// Starts the challenges, listens at the address, performs the first actions and serves the end (this project's own
/// choice). Refuses as `serve` does, and with `PortFault` also where the port failed to listen; then the challenges
/// stand as started, no moment was taken, nothing was put and no file was written.
pub fn serve_at<E: End, P: Port, S: Sink, F: Files, C: Clock, Q: Chances>(
    alloc: Global,
    end: &mut E,
    first: &Actions,
    address: &[u8],
    seed: [u8; 32],
    boot: u32,
    most: u32,
    port: &mut P,
    out: &mut S,
    file: Option<&[u8]>,
    files: &mut F,
    clock: &mut C,
    chances: &mut Q,
) -> Result<(), Halt>
    requires running { E.is_stopped end.old ≡ false }
    ensures ends { OnOk result (Between
        P.story P.link_faults C.moments Q.drawing S.taken
        (files_told F.contents F.reads F.writes) port.old clock.old chances.old out.old files.old
        port.new clock.new chances.new out.new files.new
        (λ before after. Served E.machine (option_copied file.entry) first.now end.old end.new
        address.now seed boot most before after)) }
    ensures halts { IfErr result (λ halt. Between
        P.story P.link_faults C.moments Q.drawing S.taken
        (files_told F.contents F.reads F.writes) port.old clock.old chances.old out.old files.old
        port.new clock.new chances.new out.new files.new
        (λ before after. ServedUntil E.machine (option_copied file.entry) first.now end.old
        address.now seed boot most before after halt)) }
    ensures sink_cause { result ≡ Err Halt.SinkFault → Rose (S.faults out.old) (S.faults out.new) }
    ensures file_cause { result ≡ Err Halt.FileFault →
        Rose (F.faults files.old) (F.faults files.new) }
    ensures port_cause { result ≡ Err Halt.PortFault →
        Rose (P.faults port.old) (P.faults port.new) }
    ensures sink { S.faults out.old ≤ S.faults out.new }
    ensures files { F.faults files.old ≤ F.faults files.new }
    ensures port { P.faults port.old ≤ P.faults port.new }
    ensures links { P.link_faults port.old ≤ P.link_faults port.new }
{
    chances.start(seed, boot);
    match port.listen(address) {
        Ok(()) => {}
        Err(_) => return Err(Halt::PortFault),
    }
    begin_with(
        alloc, end, first, most, port, out, file, files, clock, chances,
    )
}
