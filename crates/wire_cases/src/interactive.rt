//! Cases of `interactive_logon`: the stubs of an interactive logon and of its logoff.

ghost use Rattle.std.specs.Prelude.{◌≡◌, true};
ghost use Rattle.interactive_logon.specs.Writing.{CanWriteInfo, CanWriteInteractive};

use crate::outcomes::not_to_be_written;
use crate::stubs::{fits, fits_option};
use case_words::{bytes, debug_text, long_text, no_case, number16, word};
use interactive_logon::{InteractiveCall, InteractiveInfo, read_interactive, write_interactive};
use std::alloc::Global;

/// Whether an interactive logon may be written.
fn fits_info(info: &InteractiveInfo) -> bool
    ensures { result ≡ true → CanWriteInfo info.now }
{
    fits(&info.domain) && fits(&info.user) && fits(&info.workstation)
}

/// Whether the parameters may be written as those of the call of that number.
fn fits_call(opnum: u16, call: &InteractiveCall) -> bool
    ensures { result ≡ true → CanWriteInteractive opnum call.now }
{
    (opnum == 2 || (opnum == 3 && call.validation == 0))
        && fits_option(&call.server)
        && fits_option(&call.computer)
        && fits_info(&call.info)
}

/// The stub of the call.
fn call_text(alloc: Global, opnum: u16, call: &InteractiveCall) -> anyhow::Result<String> {
    if !fits_call(opnum, call) {
        return not_to_be_written(alloc);
    }
    let stub = write_interactive(alloc, opnum, call)?;
    long_text(alloc, stub.bytes())
}

/// The stub of a call that was read, as that of the call of another number.
fn call_again(alloc: Global, opnum: u16, stub: &[u8], other: u16) -> anyhow::Result<String> {
    let read = read_interactive(alloc, opnum, stub)?;
    call_text(alloc, other, &read)
}

/// What an operation gives: `call OPNUM STUB`, `call_again OPNUM STUB OTHER`.
pub(crate) fn answer(alloc: Global, operation: &str, words: &[&str]) -> anyhow::Result<String> {
    let opnum = number16(word(words, 1))?;
    let stub = bytes(alloc, word(words, 2))?;
    match operation {
        "call" => debug_text(alloc, read_interactive(alloc, opnum, &stub)),
        "call_again" => call_again(alloc, opnum, &stub, number16(word(words, 3))?),
        _ => no_case(alloc),
    }
}
