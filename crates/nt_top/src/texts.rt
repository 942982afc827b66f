//! What is said of an exit on standard error, and by the status of the process.

ghost use Rattle.std.specs.Prelude.{◌≡◌, ◌≤◌, ◌++◌, IfOk, codes};
ghost use Rattle.std.specs.Fmt.{decimal};
ghost use Rattle.nt_top.specs.Ends.{IsSaid, change_of};
ghost use Rattle.nt_top.specs.Exits.{line_of, said_of, status_of};

use crate::exit::Exit;
use end_loop::put_all;
use outside::{Failed, Sink};
use std::alloc::Global;
use wire_base::{Blob, NoMemory};

/// The line that is printed on standard error for an exit, without its newline: empty for `Done` (this project's own
/// choice).
pub fn exit_line(alloc: Global, exit: &Exit) -> Result<Blob, NoMemory>
    ensures { IfOk result (λ value. value ≡ line_of exit.now) }
{
    match exit {
        Exit::Done => Blob::copy(alloc, b""),
        Exit::Refused(_) => Blob::copy(alloc, b"refused"),
        Exit::BadWords(number) => numbered(alloc, "bad words: ", *number),
        Exit::FileFault => Blob::copy(alloc, b"file not read"),
        Exit::BadTable(_) => Blob::copy(alloc, b"bad table"),
        Exit::BadInput(number) => numbered(alloc, "bad input: ", *number),
        Exit::PortFault => Blob::copy(alloc, b"port failed"),
        Exit::SinkFault => Blob::copy(alloc, b"output failed"),
        Exit::NoMemory => Blob::copy(alloc, b"no memory"),
        Exit::NoAnswer(_) => Blob::copy(alloc, b"no answer"),
        Exit::BadPeer(_) => Blob::copy(alloc, b"bad peer"),
        Exit::Spent => Blob::copy(alloc, b"challenges spent"),
    }
}

/// The text, and then the number in decimal.
fn numbered(alloc: Global, text: &str, number: u32) -> Result<Blob, NoMemory>
    ensures { IfOk result (λ line. line ≡ text.now ++ decimal number) }
{
    let line = format!(in alloc; "{text}{number}")?;
    Blob::copy(alloc, line.as_bytes())
}

/// What is put on standard error for an exit: its line and a newline, or nothing where the line is empty.
pub fn exit_text(alloc: Global, exit: &Exit) -> Result<Blob, NoMemory>
    ensures { IfOk result (λ text. text ≡ said_of exit.now) }
{
    let line = exit_line(alloc, exit)?;
    if line.bytes().is_empty() {
        return Ok(line);
    }
    with_newline(line)
}

/// The line with a newline behind it.
fn with_newline(line: Blob) -> Result<Blob, NoMemory>
    ensures { IfOk result (λ text. text ≡ line ++ codes "\n") }
{
    let mut bytes = line.into_vec();
    bytes.push(b'\n')?;
    Ok(Blob::from_vec(bytes))
}

/// Reports how a command ended: puts the text of its exit into the sink of errors, and gives the status. Where the sink
/// fails a front of the text is put, and the status alone tells how the command ended. It takes no memory.
pub fn report<S: Sink>(exit: &Exit, text: &[u8], errors: &mut S) -> u8
    requires { text.now ≡ said_of exit.now }
    ensures status { result ≡ status_of exit.now }
    ensures said { IsSaid (said_of exit.now)
        (change_of S.taken S.faults errors.old errors.new) }
    ensures faults { S.faults errors.old ≤ S.faults errors.new }
{
    match put_all(errors, text) {
        Ok(()) => exit.status(),
        Err(Failed) => exit.status(),
    }
}
