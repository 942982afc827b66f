//! The command `logon`.

ghost use Rattle.std.specs.Prelude.{◌≡◌, ◌≤◌, ◌==◌, ◌++◌, IfOk, OnOk, Some, option_copied};
ghost use Rattle.outside.specs.Causes.{Rose};
ghost use Rattle.end_loop.specs.Seen.{Between};
ghost use Rattle.end_loop.specs.Writing.{files_told};
ghost use Rattle.logon_client.specs.Plans.{CanLogOn};
ghost use Rattle.nt_top.specs.Serve.{halt_exit};
ghost use Rattle.nt_top.specs.Logon.{ClientEnds, LogonEnds, Says, echo_line, in_lines, plan_of};

use crate::exit::Exit;
use end_loop::{Halt, begin_with, put_all};
use logon_client::{Client, ClientOutcome, ClientPlan, NoAnswerCause};
use nt_words::{LogonWords, SecretSetup};
use outside::{Chances, Clock, Failed, Files, Port, Sink};
use std::alloc::{AllocError, Global};
use wire_base::{Blob, NoMemory, Units, put_printable};

/// Logs a user on at a member server, as the words say (this project's own choice): starts the challenges, dials the
/// server, and runs a client to its outcome.
///
/// `Done` where the outcome is In, and then its lines were put; `Refused`, `NoAnswer` and `BadPeer` where it is that;
/// `NoAnswer(LinkClosed)` also where the port gave no more, or as many events as a logon takes, before there was an
/// outcome. At these three nothing is put.
pub(crate) fn logon<P: Port, S: Sink, F: Files, C: Clock, Q: Chances>(
    alloc: Global,
    words: &LogonWords,
    setup: &SecretSetup,
    port: &mut P,
    out: &mut S,
    files: &mut F,
    clock: &mut C,
    chances: &mut Q,
) -> Exit
    ensures ends { Between
        P.story P.link_faults C.moments Q.drawing S.taken
        (files_told F.contents F.reads F.writes) port.old clock.old chances.old out.old files.old
        port.new clock.new chances.new out.new files.new
        (λ before after. LogonEnds (plan_of words.now setup.now) setup.now.seed words.now.boot
        before after result) }
    ensures file_cause { result ≡ Exit.FileFault → Rose (F.faults files.old) (F.faults files.new) }
    ensures files { F.faults files.old ≤ F.faults files.new }
    ensures sink_cause { result ≡ Exit.SinkFault → Rose (S.faults out.old) (S.faults out.new) }
    ensures port_cause { result ≡ Exit.PortFault → Rose (P.faults port.old) (P.faults port.new) }
    ensures sink { S.faults out.old ≤ S.faults out.new }
    ensures port { P.faults port.old ≤ P.faults port.new }
    ensures links { P.link_faults port.old ≤ P.link_faults port.new }
{
    chances.start(setup.seed(), words.boot());
    match plan_of(alloc, words, setup) {
        Ok(plan) => run_client(alloc, plan, port, out, files, clock, chances),
        Err(NoMemory) => Exit::NoMemory,
    }
}

/// The plan of the words and the files.
fn plan_of(alloc: Global, words: &LogonWords, setup: &SecretSetup) -> Result<ClientPlan, NoMemory>
    ensures value { IfOk result (λ plan. plan ≡ plan_of words.now setup.now) }
    ensures can { IfOk result CanLogOn }
{
    Ok(ClientPlan {
        server: Blob::copy(alloc, words.server().as_bytes())?,
        domain: units_of(alloc, words.domain())?,
        user: units_of(alloc, words.user())?,
        workstation: units_of(alloc, words.workstation())?,
        hash: setup.secret(),
        level: words.level(),
        auth: words.auth(),
        echo: words.echo(),
    })
}

/// The units of a name: each byte is its unit.
pub(crate) fn units_of(alloc: Global, text: &str) -> Result<Units, NoMemory>
    ensures { IfOk result (λ units. units ≡ text.now) }
{
    Ok(Units::from_vec(
        text.as_bytes()
            .iter()
            .map(|byte| u16::from(*byte))
            .collect(alloc)?,
    ))
}

/// Runs a client of this plan to its outcome, and says it. The challenges were started.
fn run_client<P: Port, S: Sink, F: Files, C: Clock, Q: Chances>(
    alloc: Global,
    plan: ClientPlan,
    port: &mut P,
    out: &mut S,
    files: &mut F,
    clock: &mut C,
    chances: &mut Q,
) -> Exit
    requires can { CanLogOn plan }
    ensures ends { Between
        P.story P.link_faults C.moments Q.drawing S.taken
        (files_told F.contents F.reads F.writes) port.old clock.old chances.old out.old files.old
        port.new clock.new chances.new out.new files.new
        (λ opened after. ClientEnds plan opened after result) }
    ensures file_cause { result ≡ Exit.FileFault → Rose (F.faults files.old) (F.faults files.new) }
    ensures files { F.faults files.old ≤ F.faults files.new }
    ensures sink_cause { result ≡ Exit.SinkFault → Rose (S.faults out.old) (S.faults out.new) }
    ensures port_cause { result ≡ Exit.PortFault → Rose (P.faults port.old) (P.faults port.new) }
    ensures sink { S.faults out.old ≤ S.faults out.new }
    ensures port { P.faults port.old ≤ P.faults port.new }
    ensures links { P.link_faults port.old ≤ P.link_faults port.new }
{
    let mut client = Client::new(plan);
    let first = match client.begin(alloc) {
        Ok(first) => first,
        Err(NoMemory) => return Exit::NoMemory,
    };
    match begin_with(
        alloc,
        &mut client,
        &first,
        4294967295,
        port,
        out,
        None,
        files,
        clock,
        chances,
    ) {
        Ok(()) => say(alloc, client.outcome(), out),
        Err(halt) => exit_of_halt(halt),
    }
}

/// The exit of a run that halted.
pub(crate) fn exit_of_halt(halt: Halt) -> Exit
    ensures value { result ≡ halt_exit halt }
    ensures file { result ≡ Exit.FileFault → halt ≡ Halt.FileFault }
    ensures sink { result ≡ Exit.SinkFault → halt ≡ Halt.SinkFault }
    ensures port { result ≡ Exit.PortFault → halt ≡ Halt.PortFault }
{
    Exit::from(halt)
}

/// Says an outcome, or that there is none: puts its lines, and gives its exit.
fn say<S: Sink>(alloc: Global, outcome: Option<&ClientOutcome>, out: &mut S) -> Exit
    ensures says { Says (option_copied outcome.entry) (S.taken out.old) (S.taken out.new) result }
    ensures no_file { ¬ (result ≡ Exit.FileFault) }
    ensures no_port { ¬ (result ≡ Exit.PortFault) }
    ensures sink_cause { result ≡ Exit.SinkFault → Rose (S.faults out.old) (S.faults out.new) }
    ensures sink { S.faults out.old ≤ S.faults out.new }
{
    match outcome {
        Some(outcome) => say_outcome(alloc, outcome, out),
        None => Exit::NoAnswer(NoAnswerCause::LinkClosed),
    }
}

/// Puts the lines of an outcome, and gives its exit.
fn say_outcome<S: Sink>(alloc: Global, outcome: &ClientOutcome, out: &mut S) -> Exit
    ensures says { Says (Some outcome.now) (S.taken out.old) (S.taken out.new) result }
    ensures no_file { ¬ (result ≡ Exit.FileFault) }
    ensures no_port { ¬ (result ≡ Exit.PortFault) }
    ensures sink_cause { result ≡ Exit.SinkFault → Rose (S.faults out.old) (S.faults out.new) }
    ensures sink { S.faults out.old ≤ S.faults out.new }
{
    match outcome {
        ClientOutcome::In { name, key, echoed } => say_in(alloc, name, *key, *echoed, out),
        ClientOutcome::Refused(cause) => Exit::Refused(*cause),
        ClientOutcome::NoAnswer(cause) => Exit::NoAnswer(*cause),
        ClientOutcome::BadPeer(fault) => Exit::BadPeer(*fault),
    }
}

/// Puts the lines of a client that is logged on. The key isn't said.
fn say_in<S: Sink>(alloc: Global, name: &Units, _key: [u8; 16], echoed: u32, out: &mut S) -> Exit
    ensures says { Says (Some (ClientOutcome.In name.now _key echoed))
        (S.taken out.old) (S.taken out.new) result }
    ensures no_file { ¬ (result ≡ Exit.FileFault) }
    ensures no_port { ¬ (result ≡ Exit.PortFault) }
    ensures sink_cause { result ≡ Exit.SinkFault → Rose (S.faults out.old) (S.faults out.new) }
    ensures sink { S.faults out.old ≤ S.faults out.new }
{
    let lines = match in_lines(alloc, name, echoed) {
        Ok(lines) => lines,
        Err(NoMemory) => return Exit::NoMemory,
    };
    match put_all(out, lines.bytes()) {
        Ok(()) => Exit::Done,
        Err(Failed) => Exit::SinkFault,
    }
}

/// The lines of a client that is logged on: its name, and how many bytes came back where any did.
#[tactic(auto, unfolding(crate::specs::Logon::in_lines))]
fn in_lines(alloc: Global, name: &Units, echoed: u32) -> Result<Blob, NoMemory>
    ensures { IfOk result (λ lines. lines ≡ in_lines name.now echoed) }
{
    let mut line = Vec::new(alloc);
    line.extend_from_slice(b"in ")?;
    put_printable(&mut line, name.units())?;
    line.push(b'\n')?;
    put_echo(&mut line, echoed)?;
    Ok(Blob::from_vec(line))
}

/// Adds how many bytes came back, where any did.
fn put_echo(line: &mut Vec<u8>, echoed: u32) -> Result<(), AllocError>
    ensures { OnOk result (line.new.items ≡ line.old.items ++ echo_line (echoed == 0) echoed) }
{
    if echoed == 0 {
        return Ok(());
    }
    let text = format!(in *line.allocator(); "echo {echoed}\n")?;
    line.extend_from_slice(text.as_bytes())
}
