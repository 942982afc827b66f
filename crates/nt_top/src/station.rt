//! The command `station`.

ghost use Rattle.std.specs.Prelude.{◌≡◌, ◌≤◌, Some, IfOk, option_copied};
ghost use Rattle.outside.specs.Causes.{Rose};
ghost use Rattle.end_loop.specs.Seen.{Between};
ghost use Rattle.end_loop.specs.Writing.{files_told};
ghost use Rattle.interactive_station.specs.Plans.{CanStation};
ghost use Rattle.nt_top.specs.Station.{SaysOff, StationEnds, StationRuns, no_answer_of, station_plan};

use crate::exit::Exit;
use crate::logon::{exit_of_halt, units_of};
use crate::serve::name_of;
use end_loop::{begin_with, put_all};
use interactive_station::{NoStation, Station, StationOutcome, StationPlan};
use logon_client::{NoAnswerCause, PeerFault, RefusedCause};
use nt_words::{StationSetup, StationWords};
use outside::{Chances, Clock, Failed, Files, Port, Sink};
use std::alloc::Global;
use wire_base::{Blob, NoMemory, Units};

/// Logs a user on at a workstation and off again, as the words say (this project's own choice): starts the challenges,
/// dials the controller, and runs a station to its outcome.
///
/// The line `in` is put where the controller grants the logon, and `off` where the outcome is Off, which is `Done`.
/// `Refused`, `NoAnswer` and `BadPeer` come where the outcome is that; `NoAnswer(LinkClosed)` also where the port gave
/// no more, or as many events as a logon takes, before there was an outcome.
pub(crate) fn station<P: Port, S: Sink, F: Files, C: Clock, Q: Chances>(
    alloc: Global,
    words: &StationWords,
    setup: &StationSetup,
    port: &mut P,
    out: &mut S,
    files: &mut F,
    clock: &mut C,
    chances: &mut Q,
) -> Exit
    ensures ends { Between
        P.story P.link_faults C.moments Q.drawing S.taken
        (files_told F.contents F.reads F.writes) port.old clock.old chances.old out.old files.old
        port.new clock.new chances.new out.new files.new
        (λ before after. StationEnds (station_plan words.now setup.now) setup.now.seed
        words.now.boot before after result) }
    ensures file_cause { result ≡ Exit.FileFault → Rose (F.faults files.old) (F.faults files.new) }
    ensures files { F.faults files.old ≤ F.faults files.new }
    ensures sink_cause { result ≡ Exit.SinkFault → Rose (S.faults out.old) (S.faults out.new) }
    ensures port_cause { result ≡ Exit.PortFault → Rose (P.faults port.old) (P.faults port.new) }
    ensures sink { S.faults out.old ≤ S.faults out.new }
    ensures port { P.faults port.old ≤ P.faults port.new }
    ensures links { P.link_faults port.old ≤ P.link_faults port.new }
{
    chances.start(setup.seed(), words.boot());
    match plan_of(alloc, words, setup) {
        Ok(plan) => run_station(alloc, plan, port, out, files, clock, chances),
        Err(NoMemory) => Exit::NoMemory,
    }
}

/// The plan of the words and the files.
fn plan_of(
    alloc: Global,
    words: &StationWords,
    setup: &StationSetup,
) -> Result<StationPlan, NoMemory>
    ensures value { IfOk result (λ plan. plan ≡ station_plan words.now setup.now) }
    ensures can { IfOk result CanStation }
{
    Ok(StationPlan {
        controller: Blob::copy(alloc, words.controller().as_bytes())?,
        computer: name_of(alloc, words.computer())?,
        secret: setup.secret(),
        domain: units_of(alloc, words.domain())?,
        user: units_of(alloc, words.user())?,
        hash: setup.hash(),
    })
}

/// Runs a station of this plan to its outcome, and says it. The challenges were started.
fn run_station<P: Port, S: Sink, F: Files, C: Clock, Q: Chances>(
    alloc: Global,
    plan: StationPlan,
    port: &mut P,
    out: &mut S,
    files: &mut F,
    clock: &mut C,
    chances: &mut Q,
) -> Exit
    requires can { CanStation plan }
    ensures ends { Between
        P.story P.link_faults C.moments Q.drawing S.taken
        (files_told F.contents F.reads F.writes) port.old clock.old chances.old out.old files.old
        port.new clock.new chances.new out.new files.new
        (λ opened after. StationRuns plan opened after result) }
    ensures file_cause { result ≡ Exit.FileFault → Rose (F.faults files.old) (F.faults files.new) }
    ensures files { F.faults files.old ≤ F.faults files.new }
    ensures sink_cause { result ≡ Exit.SinkFault → Rose (S.faults out.old) (S.faults out.new) }
    ensures port_cause { result ≡ Exit.PortFault → Rose (P.faults port.old) (P.faults port.new) }
    ensures sink { S.faults out.old ≤ S.faults out.new }
    ensures port { P.faults port.old ≤ P.faults port.new }
    ensures links { P.link_faults port.old ≤ P.link_faults port.new }
{
    let mut station = match Station::new(alloc, plan) {
        Ok(station) => station,
        Err(NoMemory) => return Exit::NoMemory,
    };
    let first = match station.begin(alloc) {
        Ok(first) => first,
        Err(NoMemory) => return Exit::NoMemory,
    };
    match begin_with(
        alloc,
        &mut station,
        &first,
        4294967295,
        port,
        out,
        None,
        files,
        clock,
        chances,
    ) {
        Ok(()) => say(station.outcome(), out),
        Err(halt) => exit_of_halt(halt),
    }
}

/// Says an outcome, or that there is none: puts its line, where it has one, and gives its exit. It takes no memory.
fn say<S: Sink>(outcome: Option<&StationOutcome>, out: &mut S) -> Exit
    ensures says { SaysOff (option_copied outcome.entry)
        (S.taken out.old) (S.taken out.new) result }
    ensures no_file { ¬ (result ≡ Exit.FileFault) }
    ensures no_port { ¬ (result ≡ Exit.PortFault) }
    ensures sink_cause { result ≡ Exit.SinkFault → Rose (S.faults out.old) (S.faults out.new) }
    ensures sink { S.faults out.old ≤ S.faults out.new }
{
    match outcome {
        Some(outcome) => say_outcome(outcome, out),
        None => Exit::NoAnswer(NoAnswerCause::LinkClosed),
    }
}

/// Puts the line of an outcome, where it has one, and gives its exit.
fn say_outcome<S: Sink>(outcome: &StationOutcome, out: &mut S) -> Exit
    ensures says { SaysOff (Some outcome.now) (S.taken out.old) (S.taken out.new) result }
    ensures no_file { ¬ (result ≡ Exit.FileFault) }
    ensures no_port { ¬ (result ≡ Exit.PortFault) }
    ensures sink_cause { result ≡ Exit.SinkFault → Rose (S.faults out.old) (S.faults out.new) }
    ensures sink { S.faults out.old ≤ S.faults out.new }
{
    match outcome {
        StationOutcome::Off { domain, user } => say_off(domain, user, out),
        StationOutcome::Refused(status) => Exit::Refused(RefusedCause::Status(*status)),
        StationOutcome::NoAnswer(cause) => Exit::NoAnswer(no_answer_of(*cause)),
        StationOutcome::BadPeer(cause) => Exit::BadPeer(PeerFault::Station(*cause)),
    }
}

/// Puts the line of a user who is logged off. The names were put before.
fn say_off<S: Sink>(_domain: &Units, _user: &Units, out: &mut S) -> Exit
    ensures says { SaysOff (Some (StationOutcome.Off _domain.now _user.now))
        (S.taken out.old) (S.taken out.new) result }
    ensures no_file { ¬ (result ≡ Exit.FileFault) }
    ensures no_port { ¬ (result ≡ Exit.PortFault) }
    ensures sink_cause { result ≡ Exit.SinkFault → Rose (S.faults out.old) (S.faults out.new) }
    ensures sink { S.faults out.old ≤ S.faults out.new }
{
    match put_all(out, b"off\n") {
        Ok(()) => Exit::Done,
        Err(Failed) => Exit::SinkFault,
    }
}

/// Why a station has no answer, as an exit says it.
fn no_answer_of(cause: NoStation) -> NoAnswerCause
    ensures { result ≡ no_answer_of cause }
{
    match cause {
        NoStation::DialFailed => NoAnswerCause::DialFailed,
        NoStation::LinkClosed => NoAnswerCause::LinkClosed,
    }
}
