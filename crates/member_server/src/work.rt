//! What a member at work on an accepted link does.

ghost use Rattle.std.specs.Prelude.{◌≡◌, ◌≤◌, None, length, IfOk};
ghost use Rattle.end_links.specs.Bounds.{IsShortSend, send_limit};
ghost use Rattle.outside.specs.declared.action.Action.TheVariants as action;
ghost use Rattle.rpc_units.specs.Writing.{written, IsShortBody, IsWritable};
ghost use Rattle.member_server.specs.Work.{tell, send, send_unit, shut};

use crate::state::{AtLink, Talk};
use end_links::short_unit_bytes;
use outside::{Action, CloseCause};
use rpc_units::{Joiner, Unit};
use std::alloc::Global;
use wire_base::{Blob, NoMemory};

/// One action more.
pub(crate) fn tell(at: AtLink, what: Action) -> Result<AtLink, NoMemory>
    requires { IsShortSend what }
    ensures { IfOk result (λ told. told ≡ tell at what) }
{
    let mut at = at;
    at.actions.push(what)?;
    Ok(at)
}

/// Sends these bytes on the link.
pub(crate) fn send(at: AtLink, bytes: Blob) -> Result<AtLink, NoMemory>
    requires { length bytes ≤ send_limit }
    ensures { IfOk result (λ told. told ≡ send at bytes) }
{
    let link = at.link;
    tell(at, Action::Send(link, bytes))
}

/// Sends this unit without a trailer, which is never too long, on the link.
pub(crate) fn send_unit(alloc: Global, at: AtLink, unit: &Unit) -> Result<AtLink, NoMemory>
    requires writable { IsWritable unit.now }
    requires plain { unit.now.trailer ≡ None }
    requires short { IsShortBody unit.now.body }
    ensures { IfOk result (λ told. told ≡ send_unit at unit.now) }
{
    let bytes = short_unit_bytes(alloc, unit)?;
    send(at, bytes)
}

/// The link is closed.
pub(crate) fn shut(at: AtLink, cause: CloseCause) -> Result<(AtLink, Option<Talk>), NoMemory>
    ensures { IfOk result (λ served. served ≡ shut cause at) }
{
    let link = at.link;
    Ok((tell(at, Action::Close(link, cause))?, None))
}

/// The link is closed, and the fragments of an open call are let go: here alone, which keeps the callers' proofs short.
pub(crate) fn shut_call(
    joiner: Joiner,
    at: AtLink,
    cause: CloseCause,
) -> Result<(AtLink, Option<Talk>), NoMemory>
    ensures { IfOk result (λ served. served ≡ shut cause at) }
{
    drop(joiner);
    shut(at, cause)
}

/// No memory was found, and the fragments of an open call are let go: here alone, which keeps the callers' proofs
/// short.
pub(crate) fn let_go(joiner: Joiner) -> NoMemory {
    drop(joiner);
    NoMemory
}
