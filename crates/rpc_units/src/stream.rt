//! A whole stream.

ghost use Rattle.std.specs.Prelude.{◌≡◌, ◌++◌, ℕ, List, Some, false, IfOk};
ghost use Rattle.rpc_units.specs.Stream.{cut_stream, stream_of, IsStream, IsRead, Takes};

use crate::coming::Came;
use crate::incoming::Incoming;
use crate::inflow::Inflow;
use crate::refused::UnitRefused;
use std::alloc::Global;
use wire_base::{Blob, Frames, NoMemory};

/// The units of a stream that comes in these pieces, as their bytes, and the refusal of the rest behind them; None
/// where the rest is less than a unit. All this is the same however the stream is cut, and the refusal is never want of
/// memory.
pub fn read_stream(
    alloc: Global,
    pieces: &[Blob],
) -> Result<(Frames, Option<UnitRefused>), NoMemory>
    ensures units { IfOk result (λ read. read.0 ≡ (cut_stream (stream_of pieces.now)).units) }
    ensures refused { IfOk result (λ read. read.1 ≡ (cut_stream (stream_of pieces.now)).refused) }
    ensures stream { IfOk result (λ read.
        (rest : List ℕ) × IsStream (stream_of pieces.now) read.0 rest) }
    ensures memory { IfOk result (λ read. read.1 ≡ Some UnitRefused.Memory → ⊥) }
{
    take_pieces(alloc, pieces)
}

/// The units, and the refusal behind them.
fn take_pieces(alloc: Global, pieces: &[Blob]) -> Result<(Frames, Option<UnitRefused>), NoMemory>
    ensures { IfOk result (λ read. IsRead read.0 read.1 (cut_stream (stream_of pieces.now))) }
{
    let mut flow = Inflow::new(alloc)?;
    let mut units = Frames::new(alloc);
    for piece in pieces {
        let (still, more, refused) = take_units(alloc, flow, piece.bytes(), units)?;
        match refused {
            Some(why) => return Ok((more, Some(why))),
            None => {
                flow = still;
                units = more;
            }
        }
    }
    Ok((units, None))
}

/// The stream after the piece, the units that it brought behind others, and the refusal that ended it.
#[tactic(auto, using(crate::proofs::ComingLaws::front_done))]
fn take_units(
    alloc: Global,
    flow: Inflow,
    piece: &[u8],
    others: Frames,
) -> Result<(Inflow, Frames, Option<UnitRefused>), NoMemory>
    requires { flow.broken ≡ false }
    ensures { IfOk result (λ taken.
        Takes taken.0 taken.1 taken.2 others (cut_stream (flow.held ++ piece.now))) }
{
    let mut units = others;
    let mut coming = Incoming::new(flow, piece);
    'units: loop {
        match coming.next() {
            Came::Unit(_) => {
                let unit = Blob::copy(alloc, coming.unit())?;
                units.push(unit)?;
                coming.done();
            }
            Came::Waits => return Ok((coming.into_flow(), units, None)),
            Came::Refused(refused) => return Ok((coming.into_flow(), units, Some(refused))),
        }
    }
}
