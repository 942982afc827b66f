//! The binding of a link.

ghost use Rattle.std.specs.Prelude.{◌≡◌, ◌≤◌, IfOk, length, map};
ghost use Rattle.rpc_units.specs.Writing.{written, IsShortBody, IsWritable};
ghost use Rattle.rpc_units.specs.Numbers.{context_limit};
ghost use Rattle.end_links.specs.Agreed.{accepts, has_number};
ghost use Rattle.end_links.specs.Binding.{same_syntax, offers_ndr, answer_to, accepted_ids, limit_of, binding_of, ack_of, nak_of, bind_of};

use rpc_units::{Body, Contexts, NDR, Results, Syntax, Syntaxes, UNIT_LIMIT, Unit};
use std::alloc::Global;
use std::marker::Model;
use wire_base::{List, NoMemory};

/// What a bind agreed on: the ids of the accepted contexts, and the most bytes of a fragment, 1,432 to 5,840 (C706
/// 12.6.3.1; the limits are this project's own choice).
#[derive(Debug, Drop)]
pub struct Binding {
    contexts: List<u16>,
    limit: u16,
}

impl Model for Binding {
    ghost use Rattle.std.specs.Prelude.{◌≤◌};
    ghost use Rattle.end_links.specs.Agreed.{Agreed};

    ghost Value = { Agreed };

    ghost view = { λ b. record { contexts = b.contexts; limit = b.limit } };

    ghost invariant = { λ b. (1432 ≤ b.limit) × (b.limit ≤ 5840) };
}

impl Binding {
    /// What a bind agrees on with the interface that is served: its contexts whose abstract syntax that is, with NDR
    /// among their transfer syntaxes, and the limit by the size that the peer receives.
    pub fn new(
        alloc: Global,
        served: &Syntax,
        receive: u16,
        contexts: &Contexts,
    ) -> Result<Binding, NoMemory>
        ensures { IfOk result (λ b. b ≡ binding_of served.now receive contexts.now) }
    {
        Ok(Binding {
            contexts: accepted(alloc, served, contexts.items())?,
            limit: fragment_limit(receive),
        })
    }

    /// The most bytes of a fragment.
    pub fn limit(&self) -> u16
        ensures value { result ≡ self.now.limit }
        ensures least { 1432 ≤ result }
        ensures most { result ≤ 5840 }
    {
        self.limit
    }

    /// Whether the context was accepted.
    pub fn accepts(&self, context: u16) -> bool
        ensures { result ≡ accepts self.now context }
    {
        has_number(self.contexts.items(), context)
    }
}

/// The most bytes of a fragment for a peer that receives so many: 5,840 or as many as the peer receives, and at least
/// 1,432. The side that bound takes the peer's size from the bind_ack (C706 12.6.4.4; the limits are this project's own
/// choice).
pub fn fragment_limit(receive: u16) -> u16
    ensures value { result ≡ limit_of receive }
    ensures least { 1432 ≤ result }
    ensures most { result ≤ 5840 }
{
    receive.min(UNIT_LIMIT).max(1432)
}

/// The answer to a bind that the interface is served on (C706 12.6.4.4). It can be written, and is never too long.
pub fn bind_ack(
    alloc: Global,
    served: &Syntax,
    call: u32,
    receive: u16,
    contexts: &Contexts,
) -> Result<Unit, NoMemory>
    requires { length contexts.now ≤ context_limit }
    ensures value { IfOk result (λ u. u ≡ ack_of served.now call receive contexts.now) }
    ensures writable { IfOk result (λ u. IsWritable u) }
    ensures short { IfOk result (λ u. IsShortBody u.body) }
{
    ack(alloc, served, call, receive, contexts)
}

/// The answer to a bind.
fn ack(
    alloc: Global,
    served: &Syntax,
    call: u32,
    receive: u16,
    contexts: &Contexts,
) -> Result<Unit, NoMemory>
    ensures { IfOk result (λ u. u ≡ ack_of served.now call receive contexts.now) }
{
    let results = answers(alloc, served, contexts.items())?;
    Ok(Unit {
        first: true,
        last: true,
        call,
        body: Body::BindAck {
            send: fragment_limit(receive),
            receive: UNIT_LIMIT,
            group: 1,
            results,
        },
        trailer: None,
    })
}

/// The refusal of a bind (C706 12.6.4.5).
pub fn bind_nak(call: u32) -> Unit
    ensures { result ≡ nak_of call }
{
    Unit {
        first: true,
        last: true,
        call,
        body: Body::BindNak(0),
        trailer: None,
    }
}

/// The bind of the side that dials, to the interface (C706 12.6.4.3). It can be written, and is never too long.
pub fn bind(alloc: Global, interface: &Syntax, call: u32) -> Result<Unit, NoMemory>
    ensures value { IfOk result (λ u. u ≡ bind_of interface.now call) }
    ensures writable { IfOk result (λ u. IsWritable u) }
    ensures short { IfOk result (λ u. length (written u) ≤ 5840) }
{
    read_uuid(interface);
    bind_unit(alloc, interface, call)
}

/// The UUID has 16 bytes. It reads them, so that this is known.
fn read_uuid(interface: &Syntax)
    ensures { length interface.now.uuid ≡ 16 }
{
    let _uuid = interface.uuid;
}

/// The bind.
fn bind_unit(alloc: Global, interface: &Syntax, call: u32) -> Result<Unit, NoMemory>
    ensures { IfOk result (λ u. u ≡ bind_of interface.now call) }
{
    let mut syntaxes = Syntaxes::new(alloc);
    syntaxes.push(NDR)?;
    let mut contexts = Contexts::new(alloc);
    contexts.push((0, *interface, syntaxes))?;
    Ok(Unit {
        first: true,
        last: true,
        call,
        body: Body::Bind {
            send: UNIT_LIMIT,
            receive: UNIT_LIMIT,
            group: 0,
            contexts,
        },
        trailer: None,
    })
}

/// The ids of the accepted contexts.
fn accepted(
    alloc: Global,
    served: &Syntax,
    contexts: &[(u16, Syntax, Syntaxes)],
) -> Result<List<u16>, NoMemory>
    ensures { IfOk result (λ ids. ids ≡ accepted_ids served.now contexts.now) }
{
    let mut ids = List::new(alloc);
    for context in contexts {
        if is_same_syntax(&context.1, served) && offers_ndr(&context.2) {
            ids.push(context.0)?;
        }
    }
    Ok(ids)
}

/// The answers to contexts, in their order.
fn answers(
    alloc: Global,
    served: &Syntax,
    contexts: &[(u16, Syntax, Syntaxes)],
) -> Result<Results, NoMemory>
    ensures { IfOk result (λ r. r ≡ map (answer_to served.now) contexts.now) }
{
    let mut results = Results::new(alloc);
    for context in contexts {
        results.push(answer(served, context))?;
    }
    Ok(results)
}

/// The answer to a context: result, reason, transfer syntax.
fn answer(served: &Syntax, context: &(u16, Syntax, Syntaxes)) -> (u16, u16, Syntax)
    ensures { result ≡ answer_to served.now context.now }
{
    let none = Syntax {
        uuid: [0; 16],
        version: 0,
    };
    if !is_same_syntax(&context.1, served) {
        return (2, 1, none);
    }
    if !offers_ndr(&context.2) {
        return (2, 2, none);
    }
    (0, 0, NDR)
}

/// Whether the number is among the ids.
fn has_number(ids: &[u16], number: u16) -> bool
    ensures { result ≡ has_number ids.now number }
{
    for id in ids {
        if *id == number {
            return true;
        }
    }
    false
}

/// Whether two syntaxes have the same UUID and version.
fn is_same_syntax(one: &Syntax, other: &Syntax) -> bool
    ensures { result ≡ same_syntax one.now other.now }
{
    one.uuid == other.uuid && one.version == other.version
}

/// Whether NDR is among the syntaxes.
fn offers_ndr(syntaxes: &Syntaxes) -> bool
    ensures { result ≡ offers_ndr syntaxes.now }
{
    for syntax in syntaxes.items() {
        if is_same_syntax(syntax, &NDR) {
            return true;
        }
    }
    false
}
