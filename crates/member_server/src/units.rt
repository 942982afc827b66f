//! The units of an accepted link.

ghost use Rattle.std.specs.Prelude.{◌≡◌, length, option_map, IfOk};
ghost use Rattle.rpc_units.specs.Reading.{unit_of};
ghost use Rattle.member_server.specs.Units.{unit_challenged, bound_unit, is_fresh, serve_held};

use crate::binds::fresh_unit;
use crate::messages::take_auth3;
use crate::requests::{unit_asked, unit_in, unit_out};
use crate::state::{AtLink, Bound, Phase, Talk};
use crate::work::{shut_call, tell};
use end_links::ServesUnits;
use outside::{Action, Chances, CloseCause, StepRefused};
use rpc_units::{BodyView, Joiner, UnitRefused, view_unit};
use std::alloc::Global;
use wire_base::{Blob, List, NoMemory};

/// A unit on a link that was sent its CHALLENGE: an auth3 is taken.
fn unit_challenged(
    alloc: Global,
    bytes: &[u8],
    bound: Bound,
    challenge: [u8; 8],
    flags: u32,
    joiner: Joiner,
    at: AtLink,
) -> Result<(AtLink, Option<Talk>), NoMemory>
    ensures { IfOk result (λ served. served
        ≡ unit_challenged (unit_of bytes.now) bound challenge flags joiner at) }
{
    let Ok(unit) = view_unit(bytes) else {
        return shut_call(joiner, at, CloseCause::BadUnit);
    };
    match unit.body {
        BodyView::Auth3 => take_auth3(alloc, &unit.trailer, bound, challenge, flags, joiner, at),
        _ => shut_call(joiner, at, CloseCause::OutOfPlace),
    }
}

/// A unit on a link on which something is bound. It draws no challenge.
pub(crate) fn bound_unit(
    alloc: Global,
    bytes: &mut [u8],
    talk: Talk,
    at: AtLink,
) -> Result<(AtLink, Option<Talk>), NoMemory>
    ensures len { length bytes.new ≡ length bytes.old }
    ensures served { IfOk result
        (λ served. served ≡ bound_unit talk.phase bytes.old talk.joiner at) }
{
    let Talk { joiner, phase } = talk;
    match phase {
        Phase::Fresh => shut_call(joiner, at, CloseCause::OutOfPlace),
        Phase::Challenged {
            bound,
            challenge,
            flags,
        } => unit_challenged(alloc, bytes, bound, challenge, flags, joiner, at),
        Phase::Asked { bound, place, held } => {
            unit_asked(alloc, bytes, bound, place, held, joiner, at)
        }
        Phase::In(on) => unit_in(alloc, bytes, on, joiner, at),
        Phase::Out { bound, status } => unit_out(alloc, bytes, bound, status, joiner, at),
    }
}

/// A unit that was held. It is opened in its place, so nothing is copied.
fn serve_one(
    alloc: Global,
    unit: Blob,
    talk: Talk,
    at: AtLink,
) -> Result<(AtLink, Option<Talk>), NoMemory>
    ensures { IfOk result (λ served. served ≡ bound_unit talk.phase unit talk.joiner at) }
{
    let mut bytes = unit.into_vec();
    bound_unit(alloc, bytes.as_mut_slice(), talk, at)
}

/// Units that were held, one after the other, until the link is closed.
pub(crate) fn serve_held(
    alloc: Global,
    held: List<Blob>,
    at: AtLink,
    talk: Talk,
) -> Result<(AtLink, Option<Talk>), NoMemory>
    ensures { IfOk result (λ served. served ≡ serve_held held at talk) }
{
    let mut at = at;
    let mut talk = talk;
    for unit in held.into_vec() {
        let (after, open) = match serve_one(alloc, unit, talk, at) {
            Ok(served) => served,
            Err(NoMemory) => return Err(NoMemory),
        };
        at = after;
        match open {
            Some(still) => talk = still,
            None => return Ok((at, None)),
        }
    }
    Ok((at, Some(talk)))
}

/// Whether nothing is bound yet.
fn is_fresh(phase: &Phase) -> bool
    ensures { result ≡ is_fresh phase.now }
{
    match phase {
        Phase::Fresh => true,
        Phase::Challenged { .. } | Phase::Asked { .. } | Phase::In(_) | Phase::Out { .. } => false,
    }
}

impl ServesUnits<Talk> for AtLink {
    ghost use Rattle.member_server.specs.Rests.{link_few, link_leaves};
    ghost use Rattle.member_server.specs.Units.{link_server};

    ghost server = { link_server };

    ghost extra = { λ talk. 0 };

    #[tactic(auto, using(crate::proofs::TurnLaws::drawing))]
    fn serve<Q: Chances>(
        self,
        alloc: Global,
        bytes: &mut [u8],
        talk: Talk,
        chances: &mut Q,
    ) -> Result<(AtLink, Option<Talk>), StepRefused> {
        if is_fresh(&talk.phase) {
            let Talk { joiner, phase } = talk;
            drop(phase);
            return fresh_unit(alloc, bytes, joiner, self, chances);
        }
        match bound_unit(alloc, bytes, talk, self) {
            Ok(served) => Ok(served),
            Err(NoMemory) => Err(StepRefused::Memory),
        }
    }

    #[tactic(auto, using(crate::proofs::TurnLaws::drawing))]
    fn refuse<Q: Chances>(
        self,
        _alloc: Global,
        _why: UnitRefused,
        talk: Talk,
        _chances: &mut Q,
    ) -> Result<AtLink, StepRefused> {
        drop(talk);
        let link = self.link;
        match tell(self, Action::Close(link, CloseCause::BadUnit)) {
            Ok(at) => Ok(at),
            Err(NoMemory) => Err(StepRefused::Memory),
        }
    }

    ghost leaves = { link_leaves };

    ghost few = { link_few };
}
