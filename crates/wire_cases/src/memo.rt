//! Cases of `memo_stubs`: the stubs of the memo interface.

ghost use Rattle.std.specs.Prelude.{◌≡◌, true};
ghost use Rattle.memo_stubs.specs.Memo.{FitsEcho};

use crate::outcomes::not_to_be_written;
use crate::stubs::fits;
use case_words::{bytes, debug_text, long_text, no_case, word};
use memo_stubs::{
    read_echo_reply, read_echo_request, read_who_reply, write_echo_reply, write_echo_request,
    write_who_reply,
};
use std::alloc::Global;
use wire_base::{Blob, Units};

/// Whether bytes are few enough for Echo.
fn fits_echo(bytes: &Blob) -> bool
    ensures { result ≡ true → FitsEcho bytes.now }
{
    bytes.bytes().len() <= 4096
}

/// The stub of a reply of WhoAmI.
fn who_text(alloc: Global, name: &Units) -> anyhow::Result<String> {
    if !fits(name) {
        return not_to_be_written(alloc);
    }
    let stub = write_who_reply(alloc, name)?;
    long_text(alloc, stub.bytes())
}

/// The stub of a request of Echo.
fn echo_request_text(alloc: Global, bytes: &Blob) -> anyhow::Result<String> {
    if !fits_echo(bytes) {
        return not_to_be_written(alloc);
    }
    let stub = write_echo_request(alloc, bytes)?;
    long_text(alloc, stub.bytes())
}

/// The stub of a reply of Echo.
fn echo_reply_text(alloc: Global, bytes: &Blob) -> anyhow::Result<String> {
    if !fits_echo(bytes) {
        return not_to_be_written(alloc);
    }
    let stub = write_echo_reply(alloc, bytes)?;
    long_text(alloc, stub.bytes())
}

/// The stub of a reply of WhoAmI, of the name's units little-endian.
fn who_of(alloc: Global, units: &[u8]) -> anyhow::Result<String> {
    let name = Units::read(alloc, units)?;
    who_text(alloc, &name)
}

/// The stub of a request of Echo, of its bytes.
fn echo_request_of(alloc: Global, bytes: &[u8]) -> anyhow::Result<String> {
    let bytes = Blob::copy(alloc, bytes)?;
    echo_request_text(alloc, &bytes)
}

/// The stub of a reply of Echo, of its bytes.
fn echo_reply_of(alloc: Global, bytes: &[u8]) -> anyhow::Result<String> {
    let bytes = Blob::copy(alloc, bytes)?;
    echo_reply_text(alloc, &bytes)
}

/// The stub of a reply of WhoAmI that was read.
fn who_again(alloc: Global, stub: &[u8]) -> anyhow::Result<String> {
    let name = read_who_reply(alloc, stub)?;
    who_text(alloc, &name)
}

/// The stub of a request of Echo that was read.
fn echo_request_again(alloc: Global, stub: &[u8]) -> anyhow::Result<String> {
    let read = read_echo_request(alloc, stub)?;
    echo_request_text(alloc, &read)
}

/// The stub of a reply of Echo that was read.
fn echo_reply_again(alloc: Global, stub: &[u8]) -> anyhow::Result<String> {
    let read = read_echo_reply(alloc, stub)?;
    echo_reply_text(alloc, &read)
}

/// What an operation on bytes gives: those of a stub, or for `.._of` those that are written in it.
fn answer_to_bytes(alloc: Global, operation: &str, bytes: &[u8]) -> anyhow::Result<String> {
    match operation {
        "who" => debug_text(alloc, read_who_reply(alloc, bytes)),
        "who_of" => who_of(alloc, bytes),
        "who_again" => who_again(alloc, bytes),
        "echo_request" => debug_text(alloc, read_echo_request(alloc, bytes)),
        "echo_request_of" => echo_request_of(alloc, bytes),
        "echo_request_again" => echo_request_again(alloc, bytes),
        "echo_reply" => debug_text(alloc, read_echo_reply(alloc, bytes)),
        "echo_reply_of" => echo_reply_of(alloc, bytes),
        "echo_reply_again" => echo_reply_again(alloc, bytes),
        _ => no_case(alloc),
    }
}

/// What an operation gives: `who STUB`, `who_of UNITS`, `echo_request_of BYTES` and so on.
pub(crate) fn answer(alloc: Global, operation: &str, words: &[&str]) -> anyhow::Result<String> {
    let bytes = bytes(alloc, word(words, 1))?;
    answer_to_bytes(alloc, operation, &bytes)
}
