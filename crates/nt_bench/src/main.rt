//! What each operation of the library gives on fixed input, or how long it takes on this machine.
#![tactic(auto)]

mod accounts;
mod bench;
mod calls;
mod digests;
mod drill;
mod keys;
mod logon;
mod measure;
mod members;
mod operation;
mod packets;
mod plain;
mod sealing;
mod stream;

use bench::Bench;
use measure::tenths_of_nanoseconds;
use operation::{OPERATIONS, Operation};
use std::io::ErrorKind;
use std::process::ExitCode;
use std::rt::{Clock, Env};

/// What the words of the command line ask for.
enum Job<'a> {
    /// The result of each operation.
    Results,
    /// The time of each operation, under the name of a library.
    Measure(&'a str),
}

fn main(rt: HostRuntime) -> ExitCode {
    match run(&rt) {
        Ok(status) => ExitCode::from(status),
        Err(error) => {
            let _ = eprintln!(&rt; "nt_bench: {error}");
            ExitCode::from(1)
        }
    }
}

/// Does what the process's arguments ask for, and gives the exit status: 2 at words of another form.
fn run<R: Env + Clock + Print + AllocGlobal>(rt: &R) -> anyhow::Result<u8> {
    let Some(words) = arguments(rt)? else {
        return Ok(2);
    };
    match read_words(&words) {
        Some(Job::Results) => print_results(rt, &OPERATIONS)?,
        Some(Job::Measure(library)) => print_times(rt, library, &OPERATIONS)?,
        None => return Ok(2),
    }
    Ok(0)
}

/// The words after the program's name. None where one isn't UTF-8.
fn arguments<R: Env + AllocGlobal>(rt: &R) -> anyhow::Result<Option<Vec<String>>> {
    match std::env::args(rt) {
        Ok(words) => Ok(Some(words.skip(1).collect(rt.alloc())?)),
        Err(error) if error.kind() == ErrorKind::OutOfMemory => Err(error.into()),
        Err(_) => Ok(None),
    }
}

/// No words, or `measure` and the name of a library.
fn read_words(words: &[String]) -> Option<Job<'_>> {
    match words {
        [] => Some(Job::Results),
        [command, library] if command.as_str() == "measure" => Some(Job::Measure(library.as_str())),
        _ => None,
    }
}

/// A line for each operation.
fn print_results<R: Print + AllocGlobal>(rt: &R, operations: &[Operation]) -> anyhow::Result<()> {
    let mut bench = Bench::new(rt.alloc())?;
    for operation in operations {
        print_result(rt, &mut bench, *operation)?;
    }
    Ok(())
}

/// The line of an operation: its name and its result in hex.
fn print_result<R: Print + AllocGlobal>(
    rt: &R,
    bench: &mut Bench,
    operation: Operation,
) -> anyhow::Result<()> {
    let result = bench.perform(rt.alloc(), operation, 1)?;
    let digits = hex::encode(rt.alloc(), result.as_slice())?;
    println!(rt; "{} {digits}", operation.name())?;
    Ok(())
}

/// A line for each operation, under the name of a library.
fn print_times<R: Clock + Print + AllocGlobal>(
    rt: &R,
    library: &str,
    operations: &[Operation],
) -> anyhow::Result<()> {
    let mut bench = Bench::new(rt.alloc())?;
    for operation in operations {
        let tenths = tenths_of_nanoseconds(rt, &mut bench, *operation)?;
        print_time(rt, library, operation.name(), tenths)?;
    }
    Ok(())
}

/// The line of an operation: the library's name, its own, and the nanoseconds that one turn takes.
fn print_time<R: Print>(rt: &R, library: &str, name: &str, tenths: u128) -> anyhow::Result<()> {
    println!(rt; "{library} {name} {}.{}", tenths / 10, tenths % 10)?;
    Ok(())
}
