//! The units of a link, served in order.

ghost use Rattle.std.specs.Prelude.{◌≡◌, ◌≤◌, ◌+◌, ◌++◌, List, ℕ, Option, Result, length};
ghost use Rattle.outside.specs.Drawing.{DrawsSome};
ghost use Rattle.outside.specs.Machine.{AnswersBy};
ghost use Rattle.rpc_units.specs.Stream.{cut_stream};
ghost use Rattle.end_links.specs.Bounds.{ServerDrawsFew, units_in_piece};
ghost use Rattle.end_links.specs.Serving.{Server, ServerLeavesRest, StreamsBy, served_cut};

use crate::link::Link;
use outside::{Chances, StepRefused};
use rpc_units::{Came, Incoming, UnitRefused};
use std::alloc::Global;

/// An end at work, on a link on which `T` is said (this project's own choice). It draws at most one challenge for a
/// unit, and `extra` more on a link, by what is said on it.
pub trait ServesUnits<T>: Sized {
    ghost server: { Server Self T };

    ghost extra: { T → ℕ };

    /// Serves the bytes of a unit, which it may open in their place: the end afterwards, and what is said then, or None
    /// where the link is closed.
    fn serve<Q: Chances>(
        self,
        alloc: Global,
        bytes: &mut [u8],
        talk: T,
        chances: &mut Q,
    ) -> Result<(Self, Option<T>), StepRefused>
        ensures len { length bytes.new ≡ length bytes.old }
        ensures draws { DrawsSome (Q.drawing chances.old) (Q.drawing chances.new) }
        ensures answer { AnswersBy result
            (server.unit bytes.old self talk (Q.drawing chances.old).left)
            (Q.drawing chances.new).left };

    /// Closes the link, where the rest of its stream is refused.
    fn refuse<Q: Chances>(
        self,
        alloc: Global,
        why: UnitRefused,
        talk: T,
        chances: &mut Q,
    ) -> Result<Self, StepRefused>
        ensures draws { DrawsSome (Q.drawing chances.old) (Q.drawing chances.new) }
        ensures answer { AnswersBy result
            (server.refusal why self talk (Q.drawing chances.old).left)
            (Q.drawing chances.new).left };

    ghost leaves: { ServerLeavesRest server };

    ghost few: { ServerDrawsFew server extra };
}

/// The units of the link with the piece that comes on it, one after the other, until the link is closed: the end
/// afterwards, and the link, or None where it is closed. Whatever the result, at most one challenge is drawn for each
/// 16 bytes of the piece and of the 5,839 that the link can hold, and those more that were still allowed.
pub fn serve_piece<W: ServesUnits<T>, T, Q: Chances>(
    alloc: Global,
    work: W,
    link: Link<T>,
    piece: &[u8],
    chances: &mut Q,
) -> Result<(W, Option<Link<T>>), StepRefused>
    ensures draws { DrawsSome (Q.drawing chances.old) (Q.drawing chances.new) }
    ensures answer { StreamsBy result
        (served_cut W.server (cut_stream (link.rest ++ piece.now)) work link.talk
        (Q.drawing chances.old).left)
        (cut_stream (link.rest ++ piece.now)).rest (Q.drawing chances.new).left }
    ensures few { length (Q.drawing chances.old).left ≤ length (Q.drawing chances.new).left
        + units_in_piece (length piece.now) + W.extra link.talk }
{
    // Reading the length makes it known that the link holds at most 5,839 bytes.
    let _held = link.rest_len();
    serve_units(alloc, work, link, piece, chances)
}

/// The units of the link with the piece that comes on it.
#[tactic(auto, using(crate::proofs::ServingLaws::serving, rpc_units::proofs::ComingLaws::front_done))]
fn serve_units<W: ServesUnits<T>, T, Q: Chances>(
    alloc: Global,
    work: W,
    link: Link<T>,
    piece: &[u8],
    chances: &mut Q,
) -> Result<(W, Option<Link<T>>), StepRefused>
    ensures draws { DrawsSome (Q.drawing chances.old) (Q.drawing chances.new) }
    ensures answer { StreamsBy result
        (served_cut W.server (cut_stream (link.rest ++ piece.now)) work link.talk
        (Q.drawing chances.old).left)
        (cut_stream (link.rest ++ piece.now)).rest (Q.drawing chances.new).left }
{
    let (flow, said) = link.parts();
    let mut coming = Incoming::new(flow, piece);
    let mut talk = said;
    let mut work = work;
    'units: loop {
        match coming.next() {
            Came::Unit(_) => {
                let (after, open) = work.serve(alloc, coming.unit(), talk, chances)?;
                coming.done();
                work = after;
                match open {
                    Some(still) => talk = still,
                    None => return Ok((work, None)),
                }
            }
            Came::Waits => return Ok((work, Some(Link::again(coming.into_flow(), talk)))),
            Came::Refused(why) => return Ok((work.refuse(alloc, why, talk, chances)?, None)),
        }
    }
}
