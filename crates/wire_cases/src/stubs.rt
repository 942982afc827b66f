//! Cases of `logon_stubs`: the stubs of Netlogon's requests and replies.

ghost use Rattle.std.specs.Prelude.{◌≡◌, true};
ghost use Rattle.ndr_codec.specs.Parts.{FitsText, IfThere};
ghost use Rattle.logon_stubs.specs.Writing.{CanWriteInfo, CanWriteCall};

use crate::outcomes::not_to_be_written;
use case_words::{bytes, debug_text, long_text, no_case, number16, word};
use logon_stubs::{Call, read_call, read_reply, write_call, write_reply};
use std::alloc::Global;
use wire_base::Units;

/// Whether a text may be written.
pub(crate) fn fits(units: &Units) -> bool
    ensures { result ≡ true → FitsText units.now }
{
    units.units().len() <= 32767
}

/// Whether a text that may be absent may be written.
pub(crate) fn fits_option(units: &Option<Units>) -> bool
    ensures { result ≡ true → IfThere FitsText units.now }
{
    match units {
        Some(units) => fits(units),
        None => true,
    }
}

/// Whether the names of a request may be written, of one whose information may.
fn fits_call(call: &Call) -> bool
    requires { CanWriteInfo call.now }
    ensures { result ≡ true → CanWriteCall call.now }
{
    match call {
        Call::Logon(it) => fits_option(&it.server) && fits_option(&it.computer),
        Call::Logoff(it) => fits_option(&it.server) && fits_option(&it.computer),
        Call::Challenge(it) => fits_option(&it.primary) && fits(&it.computer),
        Call::Authenticate(it) => {
            fits_option(&it.primary) && fits(&it.account) && fits(&it.computer)
        }
    }
}

/// The stub of a request that was read, of one that may be written.
fn call_text(alloc: Global, call: &Call) -> anyhow::Result<String>
    requires { CanWriteCall call.now }
{
    let stub = write_call(alloc, call)?;
    long_text(alloc, stub.bytes())
}

/// The stub of a request that was read. That of a stub of at most 65,536 bytes may be written; of a longer one it is
/// tested.
fn call_again(alloc: Global, opnum: u16, stub: &[u8]) -> anyhow::Result<String> {
    let read = read_call(alloc, opnum, stub)?;
    if stub.len() <= 65536 || fits_call(&read) {
        return call_text(alloc, &read);
    }
    not_to_be_written(alloc)
}

/// The stub of a reply that was read.
fn reply_again(alloc: Global, opnum: u16, stub: &[u8]) -> anyhow::Result<String> {
    let read = read_reply(alloc, opnum, stub)?;
    let written = write_reply(alloc, &read)?;
    long_text(alloc, written.bytes())
}

/// What an operation on the stub of a call or reply gives.
fn answer_to_stub(
    alloc: Global,
    operation: &str,
    opnum: u16,
    stub: &[u8],
) -> anyhow::Result<String> {
    match operation {
        "call" => debug_text(alloc, read_call(alloc, opnum, stub)),
        "reply" => debug_text(alloc, read_reply(alloc, opnum, stub)),
        "call_again" => call_again(alloc, opnum, stub),
        "reply_again" => reply_again(alloc, opnum, stub),
        _ => no_case(alloc),
    }
}

/// What an operation gives: `call OPNUM STUB`, `reply OPNUM STUB`, `call_again OPNUM STUB`, `reply_again OPNUM STUB`.
pub(crate) fn answer(alloc: Global, operation: &str, words: &[&str]) -> anyhow::Result<String> {
    let opnum = number16(word(words, 1))?;
    let stub = bytes(alloc, word(words, 2))?;
    answer_to_stub(alloc, operation, opnum, &stub)
}
