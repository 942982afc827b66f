//! A call cut into fragments.

ghost use Rattle.std.specs.Prelude.{◌≡◌, ◌<◌, ◌≤◌, ◌+◌, ◌^◌, ◌++◌, List, [], ◌∷◌, length, IfOk};
ghost use Rattle.std.specs.List.{AllByRecursion};
ghost use Rattle.rpc_units.specs.declared.unit.Unit.{Unit as RpcUnit};
ghost use Rattle.rpc_units.specs.Joining.{stub_of, with_stub, stub_size, fragment, HasStub, IsWholeCall, IsJoined, cut_of};
ghost use Rattle.rpc_units.specs.Writing.{value_len, written, HasValue, IsWritable, HasNumbers, HasContextNumber, IsInRange};

use crate::joiner::stub_of;
use crate::unit::{Body, Trailer, Unit, UnitList};
use std::alloc::Global;
use wire_base::{Blob, NoMemory};

/// The call as units of `(limit - 48) / 8 * 8` stub bytes each and the rest in the last, at least one. Each has the
/// call's hint, number, context, opnum and trailer, can be written, and is written with at most `limit - 16` bytes and
/// those of the authentication value. Joined they are the call, and no fewer fragments of at most that many stub bytes
/// are.
pub fn cut_call(alloc: Global, unit: &Unit, limit: u16) -> Result<UnitList, NoMemory>
    requires whole { IsWholeCall unit.now }
    requires least { 1432 ≤ limit }
    requires most { limit ≤ 5840 }
    ensures cut { IfOk result (λ units. units ≡ cut_of unit.now limit) }
    ensures joined { IfOk result (λ units. IsJoined units unit.now) }
    ensures fewest { IfOk result (λ units. (others : List RpcUnit) → IsJoined others unit.now →
        AllByRecursion (λ u. length (stub_of u.body) ≤ stub_size limit) others →
        length units ≤ length others) }
    ensures short { IfOk result (λ units.
        AllByRecursion (λ u. length (written u) + 16 ≤ limit + value_len unit.now.trailer) units) }
    ensures writable { HasValue unit.now.trailer →
        IfOk result (λ units. AllByRecursion IsWritable units) }
    ensures range { IfOk result (λ units. AllByRecursion IsInRange units) }
{
    read_numbers(unit);
    pieces(alloc, unit, limit)
}

/// The numbers of a call are in the range of their types. It reads each of them, so that this is known.
fn read_numbers(unit: &Unit)
    requires { HasStub unit.now.body }
    ensures { IsInRange unit.now }
{
    let _call = unit.call;
    read_body_numbers(&unit.body);
    read_trailer_number(&unit.trailer);
}

/// The numbers of a body with a stub are in the range of their types. It reads each of them, so that this is known.
fn read_body_numbers(body: &Body)
    requires { HasStub body.now }
    ensures { HasNumbers body.now }
{
    match body {
        Body::Request {
            hint,
            context,
            opnum,
            ..
        } => {
            let _numbers = (*hint, *context, *opnum);
        }
        Body::Response { hint, context, .. } => {
            let _numbers = (*hint, *context);
        }
        Body::Bind { .. }
        | Body::BindAck { .. }
        | Body::BindNak(_)
        | Body::Auth3
        | Body::Fault { .. } => unreachable!(),
    }
}

/// The number of a trailer's context is in the range of its type. It reads it, so that this is known.
fn read_trailer_number(trailer: &Option<Trailer>)
    ensures { HasContextNumber trailer.now }
{
    match trailer {
        Some(trailer) => read_context(trailer),
        None => {}
    }
}

/// The number of a security context is in the range of its type. It reads it, so that this is known.
fn read_context(trailer: &Trailer)
    ensures { trailer.now.context < 2 ^ 32 }
{
    let _context = trailer.context;
}

/// The fragments.
#[tactic(auto, using(crate::proofs::CuttingLaws::steps), unfolding(crate::specs::Joining::cut_of))]
fn pieces(alloc: Global, unit: &Unit, limit: u16) -> Result<UnitList, NoMemory>
    requires stub { HasStub unit.now.body }
    requires least { 1432 ≤ limit }
    ensures { IfOk result (λ units. units ≡ cut_of unit.now limit) }
{
    let size = usize::from((limit - 48) / 8 * 8);
    let mut units = UnitList::new(alloc);
    let mut rest = stub_of(&unit.body);
    let mut first = true;
    while rest.len() > size {
        let more = with_piece(alloc, units, unit, first, false, &rest[..size])?;
        units = more;
        first = false;
        rest = &rest[size..];
    }
    with_piece(alloc, units, unit, first, true, rest)
}

/// The units, and behind them the fragment of a call with this stub.
fn with_piece(
    alloc: Global,
    units: UnitList,
    unit: &Unit,
    first: bool,
    last: bool,
    stub: &[u8],
) -> Result<UnitList, NoMemory>
    requires { HasStub unit.now.body }
    ensures { IfOk result (λ all. all ≡ units ++ fragment unit.now first last stub.now ∷ []) }
{
    let mut all = units;
    all.push(piece(alloc, unit, first, last, stub)?)?;
    Ok(all)
}

/// The fragment of a call with this stub.
fn piece(alloc: Global, unit: &Unit, first: bool, last: bool, stub: &[u8]) -> Result<Unit, NoMemory>
    requires { HasStub unit.now.body }
    ensures { IfOk result (λ u. u ≡ fragment unit.now first last stub.now) }
{
    Ok(Unit {
        first,
        last,
        call: unit.call,
        body: body_with(alloc, &unit.body, stub)?,
        trailer: trailer_copy(alloc, &unit.trailer)?,
    })
}

/// A copy of the body with this stub.
fn body_with(alloc: Global, body: &Body, bytes: &[u8]) -> Result<Body, NoMemory>
    requires { HasStub body.now }
    ensures { IfOk result (λ b. b ≡ with_stub body.now bytes.now) }
{
    match body {
        Body::Request {
            hint,
            context,
            opnum,
            ..
        } => Ok(Body::Request {
            hint: *hint,
            context: *context,
            opnum: *opnum,
            stub: Blob::copy(alloc, bytes)?,
        }),
        Body::Response { hint, context, .. } => Ok(Body::Response {
            hint: *hint,
            context: *context,
            stub: Blob::copy(alloc, bytes)?,
        }),
        Body::Bind { .. }
        | Body::BindAck { .. }
        | Body::BindNak(_)
        | Body::Auth3
        | Body::Fault { .. } => unreachable!(),
    }
}

/// A copy of the trailer.
fn trailer_copy(alloc: Global, trailer: &Option<Trailer>) -> Result<Option<Trailer>, NoMemory>
    ensures { IfOk result (λ t. t ≡ trailer.now) }
{
    match trailer {
        Some(trailer) => Ok(Some(Trailer {
            kind: trailer.kind,
            level: trailer.level,
            context: trailer.context,
            value: Blob::copy(alloc, trailer.value.bytes())?,
        })),
        None => Ok(None),
    }
}
