//! Cases of `secret_change`: the stubs of NetrServerPasswordSet.

ghost use Rattle.std.specs.Prelude.{◌≡◌, true};
ghost use Rattle.secret_change.specs.Calls.{CanWriteSet};

use crate::outcomes::not_to_be_written;
use crate::stubs::{fits, fits_option};
use case_words::{bytes, debug_text, long_text, no_case, word};
use secret_change::{SetCall, read_set, read_set_reply, write_set, write_set_reply};
use std::alloc::Global;

/// Whether the parameters of the request may be written.
fn fits_set(call: &SetCall) -> bool
    ensures { result ≡ true → CanWriteSet call.now }
{
    fits_option(&call.primary) && fits(&call.account) && fits(&call.computer)
}

/// The stub of a request that was read.
fn call_again(alloc: Global, stub: &[u8]) -> anyhow::Result<String> {
    let call = read_set(alloc, stub)?;
    if !fits_set(&call) {
        return not_to_be_written(alloc);
    }
    let written = write_set(alloc, &call)?;
    long_text(alloc, written.bytes())
}

/// The stub of a reply that was read.
fn reply_again(alloc: Global, stub: &[u8]) -> anyhow::Result<String> {
    let reply = read_set_reply(stub)?;
    let written = write_set_reply(alloc, &reply)?;
    long_text(alloc, written.bytes())
}

/// What an operation gives: `call STUB` and `reply STUB`, what is read; `call_again STUB` and `reply_again STUB`, the
/// stub written of what is read.
pub(crate) fn answer(alloc: Global, operation: &str, words: &[&str]) -> anyhow::Result<String> {
    let stub = bytes(alloc, word(words, 1))?;
    match operation {
        "call" => debug_text(alloc, read_set(alloc, &stub)),
        "reply" => debug_text(alloc, read_set_reply(&stub)),
        "call_again" => call_again(alloc, &stub),
        "reply_again" => reply_again(alloc, &stub),
        _ => no_case(alloc),
    }
}
