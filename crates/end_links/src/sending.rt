//! What an end sends.

ghost use Rattle.std.specs.Prelude.{◌≡◌, ◌≤◌, ◌<◌, ◌+◌, ◌*◌, ◌^◌, ◌++◌, IfOk, OnOk, length, None, map};
ghost use Rattle.std.specs.List.{flat_map, AllByRecursion};
ghost use Rattle.rpc_units.specs.Calls.{bytes_of_call};
ghost use Rattle.rpc_units.specs.Joining.{cut_of, stub_of, stub_size, IsWholeCall};
ghost use Rattle.rpc_units.specs.Writing.{written, IsWritable, IsShortBody};
ghost use Rattle.end_links.specs.Sending.{frames_of, joined_frames, request_of, response_of, fault_of};

use rpc_units::{Body, Unit, UnitWriteRefused, cut_call, stub_of, write_unit};
use std::alloc::Global;
use wire_base::{Blob, Frames, NoMemory};

/// The bytes of a call or reply without a trailer, cut into fragments of at most `limit` bytes: what is one send (C706
/// 12.6.2). They are at most nine eighths of the bytes of the stub, and 51 more.
pub fn call_bytes(alloc: Global, unit: &Unit, limit: u16) -> Result<Blob, NoMemory>
    requires whole { IsWholeCall unit.now }
    requires plain { unit.now.trailer ≡ None }
    requires least { 1432 ≤ limit }
    requires most { limit ≤ 5840 }
    ensures value { IfOk result (λ bytes. bytes ≡ bytes_of_call unit.now limit) }
    ensures short { IfOk result
        (λ bytes. 8 * length bytes ≤ 9 * length (stub_of unit.now.body) + 408) }
{
    cut_bytes(alloc, unit, limit)
}

/// The bytes of a call or reply without a trailer as frames, one for each fragment of at most `limit` bytes (C706
/// 12.6.2).
pub fn call_frames(alloc: Global, unit: &Unit, limit: u16) -> Result<Frames, NoMemory>
    requires whole { IsWholeCall unit.now }
    requires plain { unit.now.trailer ≡ None }
    requires least { 1432 ≤ limit }
    requires most { limit ≤ 5840 }
    ensures value { IfOk result (λ frames. frames ≡ frames_of unit.now limit) }
    ensures short { IfOk result (λ frames.
        8 * length (joined_frames frames) ≤ 9 * length (stub_of unit.now.body) + 408) }
{
    cut_frames(alloc, unit, limit)
}

/// The bytes of a call. A function of its own, so that the number of its bytes is said of all of them at once.
fn cut_bytes(alloc: Global, unit: &Unit, limit: u16) -> Result<Blob, NoMemory>
    requires whole { IsWholeCall unit.now }
    requires plain { unit.now.trailer ≡ None }
    requires least { 1432 ≤ limit }
    requires most { limit ≤ 5840 }
    ensures { IfOk result (λ bytes. bytes ≡ bytes_of_call unit.now limit) }
{
    if stub_of(&unit.body).len() <= usize::from((limit - 48) / 8 * 8) {
        return one_bytes(alloc, unit, limit);
    }
    let units = cut_call(alloc, unit, limit)?;
    let mut bytes = Vec::new(alloc);
    for unit in units.items() {
        push_unit(alloc, &mut bytes, unit)?;
    }
    Ok(Blob::from_vec(bytes))
}

/// The bytes of a call that one unit carries, without a copy of its stub in between.
#[tactic(auto, using(crate::proofs::BoundLaws::one_writable))]
fn one_bytes(alloc: Global, unit: &Unit, limit: u16) -> Result<Blob, NoMemory>
    requires whole { IsWholeCall unit.now }
    requires plain { unit.now.trailer ≡ None }
    requires least { 1432 ≤ limit }
    requires most { limit ≤ 5840 }
    requires one { length (stub_of unit.now.body) ≤ stub_size limit }
    ensures { IfOk result (λ bytes. bytes ≡ bytes_of_call unit.now limit) }
{
    unit_bytes(alloc, unit)
}

/// The frames of a call without a trailer, cut into fragments of at most `limit` bytes, each for itself.
#[tactic(auto, unfolding(crate::specs::Sending::frames_of))]
fn cut_frames(alloc: Global, unit: &Unit, limit: u16) -> Result<Frames, NoMemory>
    requires whole { IsWholeCall unit.now }
    requires plain { unit.now.trailer ≡ None }
    requires least { 1432 ≤ limit }
    requires most { limit ≤ 5840 }
    ensures { IfOk result (λ frames. frames ≡ frames_of unit.now limit) }
{
    let units = cut_call(alloc, unit, limit)?;
    let mut frames = Frames::new(alloc);
    for unit in units.items() {
        frames.push(unit_bytes(alloc, unit)?)?;
    }
    Ok(frames)
}

/// The bytes of all frames, one after the other.
pub fn join_frames(alloc: Global, frames: &Frames) -> Result<Blob, NoMemory>
    ensures { IfOk result (λ bytes. bytes ≡ joined_frames frames.now) }
{
    let mut bytes = Vec::new(alloc);
    for frame in frames.items() {
        bytes.extend_from_slice(frame.bytes())?;
    }
    Ok(Blob::from_vec(bytes))
}

/// The bytes of a unit that isn't too long, as a bind that `bind` gives.
pub fn unit_bytes(alloc: Global, unit: &Unit) -> Result<Blob, NoMemory>
    requires writable { IsWritable unit.now }
    requires short { length (written unit.now) ≤ 5840 }
    ensures value { IfOk result (λ bytes. bytes ≡ written unit.now) }
    ensures most { IfOk result (λ bytes. length bytes ≤ 5840) }
{
    match write_unit(alloc, unit) {
        Ok(bytes) => Ok(bytes),
        Err(UnitWriteRefused::Memory) => Err(NoMemory),
        Err(UnitWriteRefused::TooLong) => unreachable!(),
    }
}

/// The bytes of a unit without a trailer that is never too long: a fault, a bind_nak, an auth3, or a bind_ack of at
/// most 242 results.
#[tactic(auto, using(rpc_units::proofs::ShortLaws::written_short))]
pub fn short_unit_bytes(alloc: Global, unit: &Unit) -> Result<Blob, NoMemory>
    requires writable { IsWritable unit.now }
    requires plain { unit.now.trailer ≡ None }
    requires short { IsShortBody unit.now.body }
    ensures value { IfOk result (λ bytes. bytes ≡ written unit.now) }
    ensures most { IfOk result (λ bytes. length bytes ≤ 5840) }
{
    unit_bytes(alloc, unit)
}

/// A whole request without a trailer (C706 12.6.4.9). Its hint is the length of its stub.
pub fn request(call: u32, context: u16, opnum: u16, stub: Blob) -> Unit
    requires { length stub < 2 ^ 32 }
    ensures value { result ≡ request_of call context opnum stub }
    ensures whole { IsWholeCall result }
    ensures plain { result.trailer ≡ None }
{
    Unit {
        first: true,
        last: true,
        call,
        body: Body::Request {
            hint: stub.bytes().len() as u32,
            context,
            opnum,
            stub,
        },
        trailer: None,
    }
}

/// A whole reply without a trailer (C706 12.6.4.10). Its hint is the length of its stub.
pub fn response(call: u32, context: u16, stub: Blob) -> Unit
    requires { length stub < 2 ^ 32 }
    ensures value { result ≡ response_of call context stub }
    ensures whole { IsWholeCall result }
    ensures plain { result.trailer ≡ None }
{
    let hint = stub.bytes().len() as u32;
    Unit {
        first: true,
        last: true,
        call,
        body: Body::Response {
            hint,
            context,
            stub,
        },
        trailer: None,
    }
}

/// A fault of that status (C706 12.6.4.7).
pub fn fault(call: u32, context: u16, status: u32) -> Unit
    ensures { result ≡ fault_of call context status }
{
    Unit {
        first: true,
        last: true,
        call,
        body: Body::Fault {
            hint: 0,
            context,
            status,
        },
        trailer: None,
    }
}

/// Appends the bytes of a unit.
fn push_unit(alloc: Global, bytes: &mut Vec<u8>, unit: &Unit) -> Result<(), NoMemory>
    requires writable { IsWritable unit.now }
    requires short { length (written unit.now) ≤ 5840 }
    ensures { OnOk result (bytes.new.items ≡ bytes.old.items ++ written unit.now) }
{
    let more = unit_bytes(alloc, unit)?;
    bytes.extend_from_slice(more.bytes())?;
    Ok(())
}
