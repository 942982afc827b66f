//! Actions, and replies to calls among them.

ghost use Rattle.std.specs.Prelude.{◌≡◌, ◌≤◌, IfOk, Ok, length};
ghost use Rattle.logon_stubs.specs.Calls.{opnum_of_reply, reply_of};
ghost use Rattle.logon_stubs.specs.Ranges.{IsShortReply};
ghost use Rattle.logon_stubs.specs.Writing.{CanWriteReply, written_reply};
ghost use Rattle.rpc_units.specs.Calls.{bytes_of_call};
ghost use Rattle.rpc_units.specs.Writing.{written};
ghost use Rattle.end_links.specs.Bounds.{IsShortSend, send_limit};
ghost use Rattle.end_links.specs.Sending.{fault_of, response_of};
ghost use Rattle.controller_calls.specs.Desk.{IsLine, tell, send_reply, send_stub};
ghost use Rattle.controller_calls.specs.Limits.{stub_limit};

use crate::line::Line;
use crate::state::Work;
use end_links::{call_bytes, fault, response, short_unit_bytes};
use logon_stubs::{Reply, write_reply};
use outside::Action;
use std::alloc::Global;
use wire_base::{Blob, NoMemory};

/// One action more, behind those so far.
pub fn tell(work: Work, what: Action) -> Result<Work, NoMemory>
    requires { IsShortSend what }
    ensures { IfOk result (λ w. w ≡ tell work what) }
{
    let mut work = work;
    work.actions.push(what)?;
    Ok(work)
}

/// The bytes of a fault of that status, which answers the call in its context (C706 12.6.4.7). They are at most 5,840.
pub fn fault_bytes(alloc: Global, call: u32, context: u16, status: u32) -> Result<Blob, NoMemory>
    ensures value { IfOk result (λ bytes. bytes ≡ written (fault_of call context status)) }
    ensures most { IfOk result (λ bytes. length bytes ≤ 5840) }
{
    short_unit_bytes(alloc, &fault(call, context, status))
}

/// The call is answered by the reply, all of its frames in one send of at most 131,123 bytes.
pub(crate) fn send_reply(
    alloc: Global,
    work: Work,
    line: Line,
    answer: &Reply,
) -> Result<Work, NoMemory>
    requires writable { CanWriteReply answer.now }
    requires short { IsShortReply answer.now }
    requires line { IsLine line }
    ensures { IfOk result (λ w. w ≡ send_reply work line answer.now) }
{
    let stub = reply_stub(alloc, answer)?;
    send_stub(alloc, work, line, stub)
}

/// A reply goes out on the line, in fragments of the line's limit and in one send of at most 589,824 bytes.
pub(crate) fn send_long_stub(
    alloc: Global,
    work: Work,
    line: Line,
    stub: Blob,
) -> Result<Work, NoMemory>
    requires few { length stub ≤ stub_limit }
    requires line { IsLine line }
    ensures { IfOk result (λ w. w ≡ send_stub work line stub) }
{
    let bytes = long_bytes(alloc, line, stub)?;
    tell(work, Action::Send(line.link, bytes))
}

/// The frames of a reply with that stub.
fn long_bytes(alloc: Global, line: Line, stub: Blob) -> Result<Blob, NoMemory>
    requires few { length stub ≤ stub_limit }
    requires line { IsLine line }
    ensures exact { IfOk result (λ bytes. bytes
        ≡ bytes_of_call (response_of line.call line.context stub) line.limit) }
    ensures most { IfOk result (λ bytes. length bytes ≤ send_limit) }
{
    let unit = response(line.call, line.context, stub);
    call_bytes(alloc, &unit, line.limit)
}

/// The stub of a reply of any length.
pub(crate) fn long_stub(alloc: Global, answer: &Reply) -> Result<Blob, NoMemory>
    requires { CanWriteReply answer.now }
    ensures exact { IfOk result (λ stub. stub ≡ written_reply answer.now) }
    ensures most { IfOk result (λ stub. length stub ≤ stub_limit) }
{
    let stub = write_reply(alloc, answer)?;
    read_long_stub(answer, stub.bytes());
    Ok(stub)
}

/// The stub of a reply has no more bytes than one with eight texts of 32,767 units, 256 groups and 256 identifiers. It
/// reads them, so that this is known.
#[tactic(auto, using(crate::proofs::LongReplyLaws::stub_long))]
fn read_long_stub(answer: &Reply, stub: &[u8])
    requires writable { CanWriteReply answer.now }
    requires again { reply_of (opnum_of_reply answer.now) stub.now ≡ Ok answer.now }
    requires exact { stub.now ≡ written_reply answer.now }
    ensures { length stub.now ≤ stub_limit }
{}

/// The call is answered by the reply with that stub, all of its frames in one send of at most 131,123 bytes.
pub(crate) fn send_stub(alloc: Global, work: Work, line: Line, stub: Blob) -> Result<Work, NoMemory>
    requires short { length stub ≤ 65536 }
    requires line { IsLine line }
    ensures { IfOk result (λ w. w ≡ send_stub work line stub) }
{
    let unit = response(line.call, line.context, stub);
    let bytes = call_bytes(alloc, &unit, line.limit)?;
    tell(work, Action::Send(line.link, bytes))
}

/// The stub of a reply, which is short.
pub(crate) fn reply_stub(alloc: Global, answer: &Reply) -> Result<Blob, NoMemory>
    requires writable { CanWriteReply answer.now }
    requires short { IsShortReply answer.now }
    ensures exact { IfOk result (λ stub. stub ≡ written_reply answer.now) }
    ensures most { IfOk result (λ stub. length stub ≤ 65536) }
{
    let stub = write_reply(alloc, answer)?;
    read_stub(answer, stub.bytes());
    Ok(stub)
}

/// The stub of a reply has at most 65,536 bytes. It reads them, so that this is known.
#[tactic(auto, using(crate::proofs::StubLaws::stub_short))]
fn read_stub(answer: &Reply, stub: &[u8])
    requires writable { CanWriteReply answer.now }
    requires short { IsShortReply answer.now }
    requires again { reply_of (opnum_of_reply answer.now) stub.now ≡ Ok answer.now }
    requires exact { stub.now ≡ written_reply answer.now }
    ensures { length stub.now ≤ 65536 }
{}
