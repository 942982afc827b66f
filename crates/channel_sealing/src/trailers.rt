//! The trailers of a secure channel that seals.

ghost use Rattle.std.specs.Prelude.{◌≡◌, ◌≤◌, ◌<◌, ◌+◌, IfOk, Some, length};
ghost use Rattle.rpc_units.specs.Writing.{written, IsWritable};
ghost use Rattle.channel_sealing.specs.Trailers.{bind_value_of, least_sealed_limit, sealed_ack_of, sealed_bind_of, sealed_limit, sealed_link_limit, trailer_of, with_ack};

use end_links::{bind, bind_ack, fragment_limit};
use rpc_units::{Body, Contexts, PRIVACY_LEVEL, Syntax, Trailer, Unit};
use std::alloc::Global;
use wire_base::{Blob, Name, NoMemory};

/// Netlogon as a security provider (RPC_C_AUTHN_NETLOGON, MS-RPCE 2.2.1.1.7).
pub const NETLOGON_PROVIDER: u8 = 68;

/// The context number of the trailers that the side writes that binds (this project's own choice).
pub const OWN_CONTEXT: u32 = 1;

/// The trailer of that context with that value, at the level at which stubs are sealed. The side that binds writes
/// `OWN_CONTEXT`, the side that answers the context of the bind's trailer.
pub fn trailer(context: u32, value: Blob) -> Trailer
    ensures { result ≡ trailer_of context value }
{
    Trailer {
        kind: NETLOGON_PROVIDER,
        level: PRIVACY_LEVEL,
        context,
        value,
    }
}

/// What the bind of a channel that seals tells: the domain and the computer (MS-NRPC 2.2.1.3.1). It has at most 138
/// bytes.
pub fn bind_value(alloc: Global, domain: &Name, computer: &Name) -> Result<Blob, NoMemory>
    ensures value { IfOk result (λ value. value ≡ bind_value_of domain.now computer.now) }
    ensures some { IfOk result (λ value. 0 < length value) }
    ensures short { IfOk result (λ value. length value ≤ 138) }
{
    let mut value = Vec::new(alloc);
    value.extend_from_slice(&[0, 0, 0, 0])?;
    value.extend_from_slice(&[3, 0, 0, 0])?;
    value.extend_from_slice(domain.bytes())?;
    value.push(0)?;
    value.extend_from_slice(computer.bytes())?;
    value.push(0)?;
    Ok(Blob::from_vec(value))
}

/// The bind of the side that dials, to the interface, with that authentication value (C706 12.6.4.3). It can be
/// written, and is never too long.
#[tactic(auto, using(crate::proofs::BindLaws::sealed_bind_short, crate::proofs::BindLaws::sealed_bind_writable))]
pub fn sealed_bind(
    alloc: Global,
    interface: &Syntax,
    call: u32,
    value: &Blob,
) -> Result<Unit, NoMemory>
    requires some { 0 < length value.now }
    requires few { length value.now ≤ 138 }
    ensures value { IfOk result (λ u. u ≡ sealed_bind_of interface.now call value.now) }
    ensures writable { IfOk result (λ u. IsWritable u) }
    ensures short { IfOk result (λ u. length (written u) ≤ 5840) }
{
    read_uuid(interface);
    bind_unit(alloc, interface, call, value)
}

/// The answer to a bind of a channel that seals, with a trailer of that context number (C706 12.6.4.4, MS-NRPC
/// 2.2.1.3.1). It can be written, and with at most 241 contexts, as many as a bind with a trailer has room for, it is
/// never too long.
#[tactic(auto, using(crate::proofs::BindLaws::sealed_ack_short, crate::proofs::BindLaws::sealed_ack_writable))]
pub fn sealed_ack(
    alloc: Global,
    served: &Syntax,
    call: u32,
    receive: u16,
    contexts: &Contexts,
    context: u32,
) -> Result<Unit, NoMemory>
    requires { length contexts.now ≤ 241 }
    ensures value { IfOk result (λ u. u
        ≡ sealed_ack_of served.now call receive contexts.now context) }
    ensures writable { IfOk result (λ u. IsWritable u) }
    ensures short { IfOk result (λ u. length (written u) ≤ 5840) }
{
    ack_unit(alloc, served, call, receive, contexts, context)
}

/// The answer.
fn ack_unit(
    alloc: Global,
    served: &Syntax,
    call: u32,
    receive: u16,
    contexts: &Contexts,
    context: u32,
) -> Result<Unit, NoMemory>
    requires { length contexts.now ≤ 241 }
    ensures { IfOk result (λ u. u
        ≡ sealed_ack_of served.now call receive contexts.now context) }
{
    let value = Blob::copy(alloc, &[1, 0, 0, 0, 0, 0, 0, 0, 0, 0, 0, 0])?;
    let plain = bind_ack(alloc, served, call, receive, contexts)?;
    Ok(with_ack(plain, sealed_link_limit(receive), trailer(context, value)))
}

/// An answer with that limit and trailer.
fn with_ack(unit: Unit, limit: u16, trailer: Trailer) -> Unit
    ensures { result ≡ with_ack unit limit trailer }
{
    let Unit {
        first,
        last,
        call,
        body,
        ..
    } = unit;
    let body = match body {
        Body::BindAck {
            receive,
            group,
            results,
            ..
        } => Body::BindAck {
            send: limit,
            receive,
            group,
            results,
        },
        body => body,
    };
    Unit {
        first,
        last,
        call,
        body,
        trailer: Some(trailer),
    }
}

/// The UUID has 16 bytes. It reads them, so that this is known.
fn read_uuid(interface: &Syntax)
    ensures { length interface.now.uuid ≡ 16 }
{
    let _uuid = interface.uuid;
}

/// The bind.
fn bind_unit(alloc: Global, interface: &Syntax, call: u32, value: &Blob) -> Result<Unit, NoMemory>
    ensures { IfOk result (λ u. u ≡ sealed_bind_of interface.now call value.now) }
{
    let value = Blob::copy(alloc, value.bytes())?;
    Ok(Unit {
        trailer: Some(trailer(OWN_CONTEXT, value)),
        ..bind(alloc, interface, call)?
    })
}

/// The limit of a sealed link, for a peer that receives `receive` bytes: at least 1,448 (this project's own choice).
pub fn sealed_link_limit(receive: u16) -> u16
    ensures value { result ≡ sealed_link_limit receive }
    ensures least { least_sealed_limit ≤ result }
    ensures most { result ≤ 5840 }
{
    fragment_limit(receive).max(1448)
}

/// The limit by which a call is cut that is sealed, for a peer that receives `receive` bytes: that of the link less 16
/// (this project's own choice).
pub fn sealed_limit(receive: u16) -> u16
    ensures value { result ≡ sealed_limit receive }
    ensures least { 1432 ≤ result }
    ensures most { result + 16 ≤ 5840 }
{
    sealed_link_limit(receive) - 16
}
