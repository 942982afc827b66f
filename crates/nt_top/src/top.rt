//! The top call of every program.

ghost use Rattle.std.specs.Prelude.{◌≡◌, ◌≢◌, ◌≤◌, Err, IfSome, OnOk, map};
ghost use Rattle.std.specs.String.{string_bytes};
ghost use Rattle.wire_base.specs.Memory.{UpToMemory};
ghost use Rattle.nt_top.specs.Answers.{IsProvedOf, command_answer, command_exit_at_once};
ghost use Rattle.nt_top.specs.Ends.{Ends, change_of};
ghost use Rattle.nt_top.specs.Refusals.{words_exit};
ghost use Rattle.nt_top.specs.Runs.{Runs, meanings_of, outside_of};
ghost use Rattle.nt_top.specs.declared.exit.Exit.{Exit};

use crate::answer::Answer;
use crate::check::check;
use crate::drill::drill;
use crate::exit::Exit;
use crate::service::read_and_serve;
use crate::show::show;
use end_loop::put_all;
use nt_words::{Command, Job, Role, WordsRefused, job_of};
use outside::{Chances, Clock, Failed, Files, Port, Sink};
use std::alloc::Global;

/// Runs the command that the words name, as this program, over the outside. The words are those after the program's
/// name.
///
/// A domain controller and a member server have `serve`: the files are read and judged, the challenges are started, the
/// port listens, and the end is served, until the port gives `Stop` or as many events as the words say. A logon client
/// has `logon`: its files are read and judged, the challenges are started, the server is dialled, and a client runs to
/// its outcome, which is the exit. It has `station` besides, run in the same way, for a workstation that logs a user on
/// at a domain controller and off again. A member server has `check HASH CHALLENGE MESSAGE`, a logon client `show
/// MESSAGE`, all in hex. A logon client has `drill --number N --moves M` besides, which puts what the run of a world by
/// M moves of N counted. Every other command line is `BadWords(0)`. `BadInput(n)` is the first word, or the first
/// option's file, that isn't of its form, `BadTable` a table that isn't. `Refused(Response)` is a response that isn't
/// that of the hash; a logon's or a station's `Refused`, `NoAnswer` and `BadPeer` are its outcome. `FileFault`,
/// `PortFault` and `SinkFault` come only where a count of that kind rose in this call, `Spent` where the end draws more
/// challenges than are left, `NoMemory` where no memory was found; `check`, `show` and `drill` have put nothing then,
/// and use neither port, files, clock nor challenges. `Runs` says what is done, and when each exit comes, a fact each.
pub fn run<P: Port, F: Files, S: Sink, C: Clock, Q: Chances>(
    alloc: Global,
    role: Role,
    words: &[String],
    port: &mut P,
    files: &mut F,
    out: &mut S,
    clock: &mut C,
    chances: &mut Q,
) -> Exit
    ensures { Runs (meanings_of P.story P.faults P.link_faults F.faults F.contents F.reads F.writes
        S.taken S.faults C.moments Q.drawing) role (map string_bytes words.now)
        (outside_of port.old files.old out.old clock.old chances.old)
        (outside_of port.new files.new out.new clock.new chances.new) result }
{
    match job_of(alloc, role, words) {
        Ok(Job::Service(service)) => {
            read_and_serve(alloc, service, port, files, out, clock, chances)
        }
        Ok(Job::Command(command)) => perform(alloc, command, out),
        Err(refused) => exit_of_words(refused),
    }
}

/// The exit of words that are refused.
fn exit_of_words(refused: WordsRefused) -> Exit
    ensures { result ≡ words_exit refused }
{
    Exit::from(refused)
}

/// Puts what the command comes to.
fn perform<S: Sink>(alloc: Global, command: Command, out: &mut S) -> Exit
    ensures ends { Ends (command_answer command.entry)
        (change_of S.taken S.faults out.old out.new) result }
    ensures at_once { IfSome (command_exit_at_once command.entry) (λ exit. result ≡ exit) }
    ensures untouched { (exit : Exit) → command_answer command.entry ≡ Err exit →
        out.new ≡ out.old }
    ensures memory { result ≡ Exit.NoMemory → out.new ≡ out.old }
    ensures proved { result ≢ Exit.NoMemory → IsProvedOf command.entry }
    ensures faults { S.faults out.old ≤ S.faults out.new }
{
    let answer = match answer_for(alloc, command) {
        Ok(answer) => answer,
        Err(exit) => return exit,
    };
    if let Err(Failed) = put_all(out, answer.lines.bytes()) {
        return Exit::SinkFault;
    }
    match answer.refused {
        None => Exit::Done,
        Some(cause) => Exit::Refused(cause),
    }
}

/// What a command comes to: an answer, or an exit at which nothing is put.
fn answer_for(alloc: Global, command: Command) -> Result<Answer, Exit>
    ensures answer { UpToMemory Exit.NoMemory result (command_answer command.entry) }
    ensures at_once { IfSome (command_exit_at_once command.entry) (λ exit. result ≡ Err exit) }
    ensures proved { OnOk result (IsProvedOf command.entry) }
{
    match command {
        Command::Check(words) => check(alloc, words.hash(), words.challenge(), words.message()),
        Command::Show(words) => show(alloc, words.message()),
        Command::Drill(words) => drill(alloc, words.number(), words.moves()),
    }
}
