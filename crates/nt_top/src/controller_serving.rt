//! The end of `nt_controller serve`.

ghost use Rattle.std.specs.Prelude.{◌≡◌, ◌≤◌, [], IfOk, option_copied, option_map};
ghost use Rattle.outside.specs.Causes.{Rose};
ghost use Rattle.end_loop.specs.Seen.{Between};
ghost use Rattle.end_loop.specs.Writing.{files_told};
ghost use Rattle.domain_controller.specs.SealStep.{first_seal_state, seal_machine};
ghost use Rattle.nt_top.specs.Serve.{MayServe};
ghost use Rattle.nt_top.specs.declared.exit.Exit.{Exit};

use crate::exit::Exit;
use crate::serve::{name_of, serve_end};
use account_table::Table;
use domain_controller::Controller;
use nt_words::{ControllerSetup, ControllerWords};
use outside::{Actions, Chances, Clock, Files, Port, Sink};
use std::alloc::Global;
use wire_base::NoMemory;

/// Starts the challenges, listens, and serves the controller of the words' name over the table. It dials the
/// controllers of the domains that the table trusts, at the addresses that the table has. It grants secure RPC to who
/// offers it, and that channel is sealed. Changed secrets are written into the file that the words name for them, where
/// they name one.
///
/// `PortFault`, `FileFault`, `SinkFault` and `Spent` are those of the service; `Done` where the port gave `Stop` or as
/// many events as the words say. `NoMemory` may come at any time.
pub(crate) fn serve_controller<P: Port, S: Sink, F: Files, C: Clock, Q: Chances>(
    alloc: Global,
    words: &ControllerWords,
    setup: ControllerSetup,
    port: &mut P,
    out: &mut S,
    files: &mut F,
    clock: &mut C,
    chances: &mut Q,
) -> Exit
    ensures serves { Between
        P.story P.link_faults C.moments Q.drawing S.taken
        (files_told F.contents F.reads F.writes) port.old clock.old chances.old out.old files.old
        port.new clock.new chances.new out.new files.new
        (λ before after. MayServe seal_machine words.now.secrets []
        (first_seal_state setup.table words.now.name) words.now.listen setup.seed words.now.boot
        words.now.events before after result) }
    ensures file_cause { result ≡ Exit.FileFault → Rose (F.faults files.old) (F.faults files.new) }
    ensures files { F.faults files.old ≤ F.faults files.new }
    ensures port_cause { result ≡ Exit.PortFault → Rose (P.faults port.old) (P.faults port.new) }
    ensures sink_cause { result ≡ Exit.SinkFault → Rose (S.faults out.old) (S.faults out.new) }
    ensures port { P.faults port.old ≤ P.faults port.new }
    ensures links { P.link_faults port.old ≤ P.link_faults port.new }
    ensures sink { S.faults out.old ≤ S.faults out.new }
{
    let (table, seed) = setup.into_parts();
    let mut controller = match controller_of(alloc, table, words.name()) {
        Ok(controller) => controller,
        Err(_) => return Exit::NoMemory,
    };
    let first = Actions::new(alloc);
    serve_end(
        alloc,
        &mut controller,
        &first,
        words.listen().as_bytes(),
        seed,
        words.boot(),
        words.events(),
        port,
        out,
        bytes_of(words.secrets()),
        files,
        clock,
        chances,
    )
}

/// The bytes of a file's name, where there is one.
fn bytes_of(name: Option<&str>) -> Option<&[u8]>
    ensures { option_copied result ≡ option_map (λ s. s.now) name.entry }
{
    match name {
        Some(name) => Some(name.as_bytes()),
        None => None,
    }
}

/// The controller of that name over the table, which asks for the logons of trusted domains' users, and can seal.
fn controller_of(alloc: Global, table: Table, name: &str) -> Result<Controller, NoMemory>
    ensures { IfOk result (λ controller. controller ≡ first_seal_state table name.now) }
{
    match name_of(alloc, name) {
        Ok(name) => Controller::with_sealing(alloc, table, name),
        Err(NoMemory) => Err(NoMemory),
    }
}
