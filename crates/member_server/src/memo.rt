//! The operations of the memo interface, which a member serves those who are logged on.

ghost use Rattle.std.specs.Prelude.{◌≡◌, ◌==◌, ◌≤◌, length, nat_le, IfOk};
ghost use Rattle.memo_stubs.specs.Memo.{FitsEcho, echo_request_of, written_who_reply, written_echo_reply};
ghost use Rattle.member_server.specs.declared.memo.Answer.TheVariants as answer;
ghost use Rattle.member_server.specs.Memo.{IsShortAnswer, who_answer, echo_answer, memo_answer, call_answer, stub_limit};
ghost use Rattle.ndr_codec.specs.Parts.{FitsText};

use memo_stubs::{MemoRefused, read_echo_request, write_echo_reply, write_who_reply};
use rpc_units::{BAD_STUB_DATA, OPERATION_OUT_OF_RANGE, PROTOCOL_ERROR};
use std::alloc::Global;
use wire_base::{Blob, NoMemory, Units};

/// What a whole call is answered with: the stub of its reply, or the status of a fault.
#[derive(Debug, Drop)]
pub enum Answer {
    Stub(Blob),
    Fault(u32),
}

/// The answer to a call of that operation, on a context that was accepted or not, for the user of this name.
pub(crate) fn call_answer(
    alloc: Global,
    accepted: bool,
    opnum: u16,
    name: &Units,
    stub: &[u8],
) -> Result<Answer, NoMemory>
    ensures value { IfOk result (λ given. given ≡ call_answer accepted opnum name.now stub.now) }
    ensures short { IfOk result IsShortAnswer }
{
    if !accepted {
        return Ok(Answer::Fault(PROTOCOL_ERROR));
    }
    match opnum {
        0 => who_answer(alloc, name),
        1 => echo_answer(alloc, stub),
        _ => Ok(Answer::Fault(OPERATION_OUT_OF_RANGE)),
    }
}

/// The answer to WhoAmI: the name, where it fits a string.
fn who_answer(alloc: Global, name: &Units) -> Result<Answer, NoMemory>
    ensures value { IfOk result
        (λ given. given ≡ who_answer (nat_le (length name.now) 32767) name.now) }
    ensures short { IfOk result IsShortAnswer }
{
    if name.units().len() > 32767 {
        return Ok(Answer::Fault(BAD_STUB_DATA));
    }
    let stub = write_who_reply(alloc, name)?;
    read_who(name.units(), stub.bytes());
    Ok(Answer::Stub(stub))
}

/// The stub of a reply of WhoAmI has at most 2 * 32,767 + 24 bytes. It reads the name's units, so that this is known.
#[tactic(auto, using(crate::proofs::MemoLaws::who_stub_short))]
fn read_who(name: &[u16], stub: &[u8])
    requires fits { FitsText name.now }
    requires exact { stub.now ≡ written_who_reply name.now }
    ensures { length stub.now ≤ stub_limit }
{}

/// The answer to Echo: the bytes of the request.
fn echo_answer(alloc: Global, stub: &[u8]) -> Result<Answer, NoMemory>
    ensures value { IfOk result (λ given. given ≡ echo_answer (echo_request_of stub.now)) }
    ensures short { IfOk result IsShortAnswer }
{
    match read_echo_request(alloc, stub) {
        Ok(bytes) => echo(alloc, &bytes),
        Err(MemoRefused::Memory) => Err(NoMemory),
        Err(MemoRefused::BadStub(_)) => Ok(Answer::Fault(BAD_STUB_DATA)),
    }
}

/// The answer to Echo of these bytes.
fn echo(alloc: Global, bytes: &Blob) -> Result<Answer, NoMemory>
    requires { FitsEcho bytes.now }
    ensures value { IfOk result (λ given. given ≡ answer.Stub (written_echo_reply bytes.now)) }
    ensures short { IfOk result IsShortAnswer }
{
    let stub = write_echo_reply(alloc, bytes)?;
    read_echo(bytes.bytes(), stub.bytes());
    Ok(Answer::Stub(stub))
}

/// The stub of a reply of Echo has at most 65,558 bytes. It reads the bytes, so that this is known.
#[tactic(auto, using(crate::proofs::MemoLaws::echo_stub_short))]
fn read_echo(bytes: &[u8], stub: &[u8])
    requires fits { FitsEcho bytes.now }
    requires exact { stub.now ≡ written_echo_reply bytes.now }
    ensures { length stub.now ≤ stub_limit }
{}
