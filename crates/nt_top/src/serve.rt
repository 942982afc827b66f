//! An end that is served.

ghost use Rattle.std.specs.Prelude.{◌≡◌, ◌≤◌, Err, IfOk, false, option_copied};
ghost use Rattle.outside.specs.Causes.{Rose};
ghost use Rattle.end_loop.specs.Seen.{Between};
ghost use Rattle.end_loop.specs.Writing.{files_told};
ghost use Rattle.nt_top.specs.Serve.{ServesTo, service_exit};
ghost use Rattle.end_loop.specs.declared.halt.Halt.{Halt};
ghost use Rattle.nt_top.specs.declared.exit.Exit.{Exit};

use crate::exit::Exit;
use end_loop::{End, Halt, serve_at};
use outside::{Actions, Chances, Clock, Files, Port, Sink};
use std::alloc::Global;
use wire_base::{Name, NoMemory};

/// Starts the challenges, listens at the address, performs the first actions and serves the end, for as many events at
/// most. What the end keeps is written into the file of that name, where there is a name.
pub(crate) fn serve_end<E: End, P: Port, S: Sink, F: Files, C: Clock, Q: Chances>(
    alloc: Global,
    end: &mut E,
    first: &Actions,
    address: &[u8],
    seed: [u8; 32],
    boot: u32,
    most: u32,
    port: &mut P,
    out: &mut S,
    file: Option<&[u8]>,
    files: &mut F,
    clock: &mut C,
    chances: &mut Q,
) -> Exit
    requires running { E.is_stopped end.old ≡ false }
    ensures serves { Between
        P.story P.link_faults C.moments Q.drawing S.taken
        (files_told F.contents F.reads F.writes) port.old clock.old chances.old out.old files.old
        port.new clock.new chances.new out.new files.new
        (λ before after. ServesTo E.machine (option_copied file.entry) first.now end.old
        address.now seed boot most before after result) }
    ensures file_cause { result ≡ Exit.FileFault → Rose (F.faults files.old) (F.faults files.new) }
    ensures files { F.faults files.old ≤ F.faults files.new }
    ensures port_cause { result ≡ Exit.PortFault → Rose (P.faults port.old) (P.faults port.new) }
    ensures sink_cause { result ≡ Exit.SinkFault → Rose (S.faults out.old) (S.faults out.new) }
    ensures port { P.faults port.old ≤ P.faults port.new }
    ensures links { P.link_faults port.old ≤ P.link_faults port.new }
    ensures sink { S.faults out.old ≤ S.faults out.new }
{
    let served = serve_at(
        alloc, end, first, address, seed, boot, most, port, out, file, files, clock, chances,
    );
    exit_of_service(served)
}

/// The exit of a service.
fn exit_of_service(served: Result<(), Halt>) -> Exit
    ensures exit { result ≡ service_exit served }
    ensures file { result ≡ Exit.FileFault → served ≡ Err Halt.FileFault }
    ensures port { result ≡ Exit.PortFault → served ≡ Err Halt.PortFault }
    ensures sink { result ≡ Exit.SinkFault → served ≡ Err Halt.SinkFault }
{
    match served {
        Ok(()) => Exit::Done,
        Err(halt) => Exit::from(halt),
    }
}

/// The name of an option whose form is that of a name, so that only memory can be missing.
pub(crate) fn name_of(alloc: Global, text: &str) -> Result<Name, NoMemory>
    ensures { IfOk result (λ name. name ≡ text.now) }
{
    match Name::read(alloc, text.as_bytes()) {
        Ok(name) => Ok(name),
        Err(_) => Err(NoMemory),
    }
}
