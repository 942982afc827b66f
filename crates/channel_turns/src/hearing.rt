//! A unit on a link that an end dialled.

ghost use Rattle.std.specs.Prelude.{◌≡◌, IfOk};
ghost use Rattle.rpc_units.specs.Joining.{answer_of, open_after};
ghost use Rattle.rpc_units.specs.Reading.{unit_of};
ghost use Rattle.channel_turns.specs.declared.hearing.Heard.TheVariants as heard;
ghost use Rattle.channel_turns.specs.Hearing.{heard_by, heard_of};

use outside::CloseCause;
use rpc_units::{JoinRefused, Joiner, Unit, UnitRefused, read_unit};
use std::alloc::Global;
use wire_base::NoMemory;

/// What a unit on a link comes to, before anybody judges it.
#[derive(Drop)]
pub enum Heard {
    /// The unit is a fragment, and more are to come.
    Waits(Joiner),
    /// The unit makes this whole unit, and leaves this joiner.
    Whole(Unit, Joiner),
    /// The unit is refused, and closes the link for this cause.
    Broken(CloseCause),
}

/// A unit on a link, by its bytes: it is read, and joined to the fragments that came. What can't be read breaks the
/// link with `BadUnit`, what has no place there with `OutOfPlace`, a call that is too long with `TooMuchHeld`.
/// `NoMemory` where no memory was found.
pub fn hear(alloc: Global, bytes: &[u8], joiner: Joiner) -> Result<Heard, NoMemory>
    ensures { IfOk result (λ heard. heard ≡ heard_of (unit_of bytes.now) joiner) }
{
    match read_unit(alloc, bytes) {
        Ok(unit) => join(unit, joiner),
        Err(UnitRefused::Memory) => Err(let_go(joiner)),
        Err(_) => Ok(break_off(joiner, CloseCause::BadUnit)),
    }
}

/// A unit is joined to the fragments that came.
fn join(unit: Unit, joiner: Joiner) -> Result<Heard, NoMemory>
    ensures { IfOk result
        (λ heard. heard ≡ heard_by (answer_of joiner unit) (open_after joiner unit)) }
{
    let mut joiner = joiner;
    match joiner.add(unit) {
        Ok(None) => Ok(Heard::Waits(joiner)),
        Ok(Some(whole)) => Ok(Heard::Whole(whole, joiner)),
        Err(JoinRefused::OutOfPlace) => Ok(break_off(joiner, CloseCause::OutOfPlace)),
        Err(JoinRefused::CallTooLong) => Ok(break_off(joiner, CloseCause::TooMuchHeld)),
        Err(JoinRefused::Memory) => Err(let_go(joiner)),
    }
}

/// The link is broken, and the fragments of an open call are let go: here alone, which keeps the callers' proofs short.
fn break_off(joiner: Joiner, cause: CloseCause) -> Heard
    ensures { result ≡ heard.Broken cause }
{
    drop(joiner);
    Heard::Broken(cause)
}

/// No memory was found, and the fragments of an open call are let go: here alone, which keeps the callers' proofs
/// short.
pub(crate) fn let_go(joiner: Joiner) -> NoMemory {
    drop(joiner);
    NoMemory
}
