//! The services: the commands that use the port.

ghost use Rattle.std.specs.Prelude.{◌≡◌, ◌≤◌};
ghost use Rattle.outside.specs.Causes.{Rose};
ghost use Rattle.end_loop.specs.Seen.{Between};
ghost use Rattle.end_loop.specs.Writing.{files_told};
ghost use Rattle.nt_words.specs.Files.{shelf_of};
ghost use Rattle.nt_words.specs.declared.files.FilesRefused.{FilesRefused};
ghost use Rattle.nt_top.specs.Refusals.{files_exit};
ghost use Rattle.nt_top.specs.Service.{ServiceBy, ServiceReads};
ghost use Rattle.nt_top.specs.Writes.{WritesInto, file_of_service};
ghost use Rattle.nt_top.specs.declared.exit.Exit.{Exit};

use crate::controller_serving::serve_controller;
use crate::exit::Exit;
use crate::logon::logon;
use crate::member_serving::serve_member;
use crate::station::station;
use nt_words::{FilesRefused, Service, Setup, set_up};
use outside::{Chances, Clock, Files, Port, Sink};
use std::alloc::Global;

/// Reads the files of the service, in the order of its options, and serves its end. Files that are refused are the
/// exit, and then nothing else is done.
pub(crate) fn read_and_serve<P: Port, F: Files, S: Sink, C: Clock, Q: Chances>(
    alloc: Global,
    service: Service,
    port: &mut P,
    files: &mut F,
    out: &mut S,
    clock: &mut C,
    chances: &mut Q,
) -> Exit
    ensures reads { let shelf = shelf_of F.faults F.contents F.reads F.writes in Between
        P.story P.link_faults C.moments Q.drawing S.taken
        (files_told F.contents F.reads F.writes) port.old clock.old chances.old out.old files.old
        port.new clock.new chances.new out.new files.new
        (λ before after. ServiceReads service.entry
        (shelf files.old) (shelf files.new) before after result) }
    ensures file_cause { result ≡ Exit.FileFault → Rose (F.faults files.old) (F.faults files.new) }
    ensures port_cause { result ≡ Exit.PortFault → Rose (P.faults port.old) (P.faults port.new) }
    ensures sink_cause { result ≡ Exit.SinkFault → Rose (S.faults out.old) (S.faults out.new) }
    ensures files { F.faults files.old ≤ F.faults files.new }
    ensures writes { WritesInto (file_of_service service.entry)
        (F.writes files.old) (F.writes files.new) }
    ensures port { P.faults port.old ≤ P.faults port.new }
    ensures links { P.link_faults port.old ≤ P.link_faults port.new }
    ensures sink { S.faults out.old ≤ S.faults out.new }
{
    match set_up(alloc, files, service) {
        Ok(setup) => serve_by(alloc, setup, port, out, files, clock, chances),
        Err(refused) => exit_of_files(refused),
    }
}

/// The exit of files that are refused.
fn exit_of_files(refused: FilesRefused) -> Exit
    ensures exit { result ≡ files_exit refused }
    ensures fault { result ≡ Exit.FileFault → refused ≡ FilesRefused.FileFault }
    ensures no_port { ¬ (result ≡ Exit.PortFault) }
    ensures no_sink { ¬ (result ≡ Exit.SinkFault) }
{
    Exit::from(refused)
}

/// Serves the end of the service, or logs on, at a member server or at a workstation.
fn serve_by<P: Port, S: Sink, F: Files, C: Clock, Q: Chances>(
    alloc: Global,
    setup: Setup,
    port: &mut P,
    out: &mut S,
    files: &mut F,
    clock: &mut C,
    chances: &mut Q,
) -> Exit
    ensures serves { Between
        P.story P.link_faults C.moments Q.drawing S.taken
        (files_told F.contents F.reads F.writes) port.old clock.old chances.old out.old files.old
        port.new clock.new chances.new out.new files.new
        (λ before after. ServiceBy setup.entry before after result) }
    ensures file_cause { result ≡ Exit.FileFault → Rose (F.faults files.old) (F.faults files.new) }
    ensures files { F.faults files.old ≤ F.faults files.new }
    ensures port_cause { result ≡ Exit.PortFault → Rose (P.faults port.old) (P.faults port.new) }
    ensures sink_cause { result ≡ Exit.SinkFault → Rose (S.faults out.old) (S.faults out.new) }
    ensures port { P.faults port.old ≤ P.faults port.new }
    ensures links { P.link_faults port.old ≤ P.link_faults port.new }
    ensures sink { S.faults out.old ≤ S.faults out.new }
{
    match setup {
        Setup::Controller(words, setup) => {
            serve_controller(alloc, &words, setup, port, out, files, clock, chances)
        }
        Setup::Member(words, setup) => {
            serve_member(alloc, &words, setup, port, out, files, clock, chances)
        }
        Setup::Logon(words, setup) => {
            logon(alloc, &words, &setup, port, out, files, clock, chances)
        }
        Setup::Station(words, setup) => {
            station(alloc, &words, &setup, port, out, files, clock, chances)
        }
    }
}
