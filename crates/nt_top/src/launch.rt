//! What a program does around the top call.

ghost use Rattle.std.specs.Prelude.{◌≡◌, ◌≤◌, IfErr, map};
ghost use Rattle.std.specs.String.{string_bytes};
ghost use Rattle.nt_top.specs.Causes.{Comes};
ghost use Rattle.nt_top.specs.Exits.{status_of};
ghost use Rattle.nt_top.specs.Runs.{Reports, RunsAsked, SaysExit, Starts, asked_in, count_of, meanings_of, outside_of, untold};

use crate::exit::Exit;
use crate::texts::{exit_text, report};
use crate::top::run;
use nt_words::Role;
use outside::{Chances, Clock, Files, OutSink, Port, Sink};
use std::alloc::Global;
use std::env;
use std::io::ErrorKind;
use std::rt::Env;

/// Runs the command of this process's arguments, as this program. Output goes to standard output, and the line of the
/// exit, where it isn't empty and memory for it is found, to `errors`, which is standard error. Gives the exit status.
///
/// The port, the files, the clock and the maker of challenges are the caller's.
pub fn start<R, E, P, F, C, Q>(
    rt: &R,
    errors: &E,
    role: Role,
    port: &mut P,
    files: &mut F,
    clock: &mut C,
    chances: &mut Q,
) -> u8
where
    R: Env + Print + AllocGlobal,
    E: Print,
    P: Port,
    F: Files,
    C: Clock,
    Q: Chances,
    ensures { Starts
        (meanings_of P.story P.faults P.link_faults F.faults F.contents F.reads F.writes
        untold count_of C.moments Q.drawing) role
        (λ out. outside_of port.old files.old out clock.old chances.old)
        (λ out. outside_of port.new files.new out clock.new chances.new) result }
{
    run_and_report(
        rt.alloc(),
        role,
        arguments(rt),
        port,
        files,
        &mut OutSink::new(rt),
        &mut OutSink::new(errors),
        clock,
        chances,
    )
}

/// The arguments after the program's name. One that isn't UTF-8 makes a faulty command line.
fn arguments<R: Env + AllocGlobal>(rt: &R) -> Result<Vec<String>, Exit>
    ensures { IfErr result (λ exit. Comes (Exit.BadWords 0) exit) }
{
    match env::args(rt) {
        Ok(words) => Ok(words.skip(1).collect(rt.alloc())?),
        Err(error) if error.kind() == ErrorKind::OutOfMemory => Err(Exit::NoMemory),
        Err(_) => Err(Exit::BadWords(0)),
    }
}

/// Runs the command of the words, as this program, and reports its exit: puts its line into the sink of errors, where
/// it isn't empty and memory for it is found, and gives its status. Where there are no words their exit is reported,
/// and nothing is done.
pub fn run_and_report<P: Port, F: Files, S: Sink, E: Sink, C: Clock, Q: Chances>(
    alloc: Global,
    role: Role,
    words: Result<Vec<String>, Exit>,
    port: &mut P,
    files: &mut F,
    out: &mut S,
    errors: &mut E,
    clock: &mut C,
    chances: &mut Q,
) -> u8
    ensures reports { Reports
        (meanings_of P.story P.faults P.link_faults F.faults F.contents F.reads F.writes
        S.taken S.faults C.moments Q.drawing)
        role (asked_in words (λ asked. map string_bytes asked.items))
        (outside_of port.old files.old out.old clock.old chances.old)
        (outside_of port.new files.new out.new clock.new chances.new)
        E.taken E.faults errors.old errors.new result }
    ensures faults { E.faults errors.old ≤ E.faults errors.new }
{
    let exit = run_asked(alloc, role, words, port, files, out, clock, chances);
    say_exit(alloc, &exit, errors)
}

/// Runs the command of the words, where there are any.
fn run_asked<P: Port, F: Files, S: Sink, C: Clock, Q: Chances>(
    alloc: Global,
    role: Role,
    words: Result<Vec<String>, Exit>,
    port: &mut P,
    files: &mut F,
    out: &mut S,
    clock: &mut C,
    chances: &mut Q,
) -> Exit
    ensures { RunsAsked
        (meanings_of P.story P.faults P.link_faults F.faults F.contents F.reads F.writes
        S.taken S.faults C.moments Q.drawing)
        role (asked_in words (λ asked. map string_bytes asked.items))
        (outside_of port.old files.old out.old clock.old chances.old)
        (outside_of port.new files.new out.new clock.new chances.new) result }
{
    match words {
        Ok(words) => run(alloc, role, &words, port, files, out, clock, chances),
        Err(exit) => exit,
    }
}

/// Puts the text of an exit, where memory for it is found, and gives the status.
fn say_exit<E: Sink>(alloc: Global, exit: &Exit, errors: &mut E) -> u8
    ensures status { result ≡ status_of exit.now }
    ensures said { SaysExit exit.now E.taken E.faults errors.old errors.new }
    ensures faults { E.faults errors.old ≤ E.faults errors.new }
{
    match exit_text(alloc, exit) {
        Ok(text) => report(exit, text.bytes(), errors),
        // Without memory for the text the status alone tells how the command ended.
        Err(_) => exit.status(),
    }
}
