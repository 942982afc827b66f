//! Stubs to what they say.

ghost use Rattle.std.specs.Prelude.{ℕ, List, ◌≡◌, IfOk, Ok, Err, MatchResult};
ghost use Rattle.wire_base.specs.Memory.{UpToMemory};
ghost use Rattle.ndr_codec.specs.Layout.{start_of, long};
ghost use Rattle.ndr_codec.specs.Stub.{ReadsBy, Begins, reading_by, item};
ghost use Rattle.memo_stubs.specs.Memo.{FitsEcho, memo_refused, status_zero, who_reply, echo_request, echo_reply, who_of, echo_request_of, echo_reply_of};

use crate::refused::MemoRefused;
use ndr_codec::Reader;
use std::alloc::Global;
use wire_base::{Blob, Units};

/// The most bytes of an Echo (this project's own choice).
pub(crate) const ECHO_LIMIT: u32 = 4096;

/// A number, and the place where it begins.
fn long_at(reader: &mut Reader<'_>) -> Result<(usize, u32), MemoRefused>
    ensures { MatchResult result
        (λ found. (found.0 ≡ start_of 4 reader.old.place)
        × (reading_by memo_refused (item long) reader.old ≡ Ok (found.1, reader.new)))
        (λ refused. reading_by memo_refused (item long) reader.old ≡ Err refused) }
{
    let value = reader.long()?;
    Ok((reader.place() - 4, value))
}

/// A status of 0, behind a value.
#[tactic(auto, unfolding(crate::specs::Memo::status_zero))]
fn read_status_zero(reader: &mut Reader<'_>) -> Result<(), MemoRefused>
    ensures { ReadsBy MemoRefused.Memory memo_refused status_zero result reader.old reader.new }
{
    let (start, status) = long_at(reader)?;
    if status != 0 {
        return Err(MemoRefused::BadStub(start));
    }
    Ok(())
}

/// At most 4,096 bytes, behind their count.
#[tactic(auto, unfolding(crate::specs::Memo::echo_request))]
fn read_echo(alloc: Global, reader: &mut Reader<'_>) -> Result<Blob, MemoRefused>
    ensures { ReadsBy MemoRefused.Memory memo_refused echo_request result reader.old reader.new }
{
    let (start, count) = long_at(reader)?;
    if count > ECHO_LIMIT {
        return Err(MemoRefused::BadStub(start));
    }
    let bytes = reader.take(count as usize)?;
    Ok(Blob::copy(alloc, bytes)?)
}

/// The name of a reply of WhoAmI.
#[tactic(auto, unfolding(crate::specs::Memo::who_of, crate::specs::Memo::who_reply))]
fn who_in(alloc: Global, stub: &[u8]) -> Result<Units, MemoRefused>
    ensures { UpToMemory MemoRefused.Memory result (who_of stub.now) }
{
    let mut reader = Reader::new(stub);
    let name = reader.text(alloc)?;
    read_status_zero(&mut reader)?;
    Ok(name)
}

/// The bytes of a request of Echo.
#[tactic(auto, unfolding(crate::specs::Memo::echo_request_of))]
fn echo_request_in(alloc: Global, stub: &[u8]) -> Result<Blob, MemoRefused>
    ensures { UpToMemory MemoRefused.Memory result (echo_request_of stub.now) }
{
    let mut reader = Reader::new(stub);
    read_echo(alloc, &mut reader)
}

/// The bytes of a reply of Echo.
#[tactic(auto, unfolding(crate::specs::Memo::echo_reply_of, crate::specs::Memo::echo_reply))]
fn echo_reply_in(alloc: Global, stub: &[u8]) -> Result<Blob, MemoRefused>
    ensures { UpToMemory MemoRefused.Memory result (echo_reply_of stub.now) }
{
    let mut reader = Reader::new(stub);
    let bytes = read_echo(alloc, &mut reader)?;
    read_status_zero(&mut reader)?;
    Ok(bytes)
}

/// The name in the stub of a reply of WhoAmI, as units: the domain, a backslash and the name of who is logged on. What
/// follows the status is passed over. `BadStub` at the first item that isn't of its layout: the `string`, or a status
/// other than 0.
pub fn read_who_reply(alloc: Global, stub: &[u8]) -> Result<Units, MemoRefused>
    // What stands there or the first refusal.
    ensures exact { UpToMemory MemoRefused.Memory result (who_of stub.now) }
    // What is read lies in front of the stub by its layout.
    ensures found { IfOk result (λ name. Begins who_reply name stub.now) }
    // What lies there by the layout is read, unless memory runs out.
    ensures only { (name : List ℕ) → Begins who_reply name stub.now →
        UpToMemory MemoRefused.Memory result (Ok name) }
{
    who_in(alloc, stub)
}

/// The bytes in the stub of a request of Echo. What follows them is passed over. `BadStub` at the count where it is
/// above 4,096, else at the first item that the stub ends before.
pub fn read_echo_request(alloc: Global, stub: &[u8]) -> Result<Blob, MemoRefused>
    // What stands there or the first refusal.
    ensures exact { UpToMemory MemoRefused.Memory result (echo_request_of stub.now) }
    // What is read lies in front of the stub by its layout.
    ensures found { IfOk result (λ bytes. Begins echo_request bytes stub.now) }
    // What is read can be written again.
    ensures fits { IfOk result FitsEcho }
    // What lies there by the layout is read, unless memory runs out.
    ensures only { (bytes : List ℕ) → Begins echo_request bytes stub.now →
        UpToMemory MemoRefused.Memory result (Ok bytes) }
{
    echo_request_in(alloc, stub)
}

/// The bytes in the stub of a reply of Echo. What follows the status is passed over. `BadStub` at the count where it is
/// above 4,096, at a status other than 0, else at the first item that the stub ends before.
pub fn read_echo_reply(alloc: Global, stub: &[u8]) -> Result<Blob, MemoRefused>
    // What stands there or the first refusal.
    ensures exact { UpToMemory MemoRefused.Memory result (echo_reply_of stub.now) }
    // What is read lies in front of the stub by its layout.
    ensures found { IfOk result (λ bytes. Begins echo_reply bytes stub.now) }
    // What is read can be written again.
    ensures fits { IfOk result FitsEcho }
    // What lies there by the layout is read, unless memory runs out.
    ensures only { (bytes : List ℕ) → Begins echo_reply bytes stub.now →
        UpToMemory MemoRefused.Memory result (Ok bytes) }
{
    echo_reply_in(alloc, stub)
}
