//! The turn that is out at a controller that can seal, and its link.

ghost use Rattle.std.specs.Prelude.{◌≡◌, ◌≤◌, length, IfOk};
ghost use Rattle.channel_turns.specs.Turning.{link_closes, link_hears, no_dial};
ghost use Rattle.domain_controller.specs.Forwarding.{after_ended};
ghost use Rattle.domain_controller.specs.Sealing.{unseal_link};
ghost use Rattle.domain_controller.specs.SealStep.{answer_turned, seal_on_turn};
ghost use Rattle.domain_controller.specs.TrustStep.{with_work, without_link};
ghost use Rattle.domain_controller.specs.TurnApart.{put_back};

use crate::links::drop_link;
use crate::seal_forwarding::{after_ended_sealing, unseal_link};
use crate::sealed::Sealing;
use crate::trusting::Parts;
use crate::turning::{Beside, apart, has_requester, put_back};
use channel_turns::{TurnEnded, Turning, link_closes, link_hears, no_dial};
use outside::Chances;
use std::alloc::Global;
use wire_base::NoMemory;

/// An accepted link of that number is open no more, nor sealed, and its logons have no line. It takes no memory.
pub(crate) fn drop_seal_link(number: u32, parts: Parts, sealing: Sealing) -> (Parts, Sealing)
    ensures { result ≡ (without_link number parts, unseal_link number sealing) }
{
    (drop_link(number, parts), unseal_link(number, sealing))
}

/// Where a turn of that trust ended, what follows is done, and its logon is answered on its sealed link.
fn end_parts(
    alloc: Global,
    ended: Option<TurnEnded>,
    trust: usize,
    parts: Parts,
    sealing: Sealing,
) -> Result<(Parts, Sealing), NoMemory>
    ensures { IfOk result (λ done. done ≡ answer_turned ended trust
        (with_work parts (after_ended ended trust parts.work)) sealing) }
{
    let Parts {
        work,
        links,
        turn_of,
        dialling,
    } = parts;
    let ((work, sealing), closed) = after_ended_sealing(alloc, ended, trust, work, sealing)?;
    let parts = Parts {
        work,
        links,
        turn_of,
        dialling,
    };
    match closed {
        Some(number) => Ok(drop_seal_link(number, parts, sealing)),
        None => Ok((parts, sealing)),
    }
}

/// The channel is at its place again, and what follows of its turn is done, where it ended.
fn put_back_sealing(
    alloc: Global,
    trust: usize,
    turning: Turning,
    ended: Option<TurnEnded>,
    beside: Beside,
    sealing: Sealing,
) -> Result<(Parts, Sealing), NoMemory>
    requires { trust ≤ length beside.requesters }
    ensures { IfOk result (λ done. done
        ≡ answer_turned ended trust (put_back trust (turning, ended) beside) sealing) }
{
    let parts = put_back(alloc, trust, turning, None, beside)?;
    end_parts(alloc, ended, trust, parts, sealing)
}

/// The link of the turn is closed.
#[tactic(auto, using(crate::proofs::SealTurnLaws::unturned))]
pub(crate) fn close_seal_turn(
    alloc: Global,
    link: u32,
    parts: Parts,
    sealing: Sealing,
) -> Result<(Parts, Sealing), NoMemory>
    ensures { IfOk result (λ done. done
        ≡ seal_on_turn (λ turning. link_closes link turning) parts sealing) }
{
    let trust = parts.turn_of;
    if !has_requester(&parts, trust) {
        return Ok((parts, sealing));
    }
    let (turning, beside) = apart(parts, trust);
    let (turning, ended) = link_closes(link, turning);
    put_back_sealing(alloc, trust, turning, ended, beside, sealing)
}

/// The dial failed.
#[tactic(auto, using(crate::proofs::SealTurnLaws::unturned))]
pub(crate) fn fail_seal_turn(
    alloc: Global,
    parts: Parts,
    sealing: Sealing,
) -> Result<(Parts, Sealing), NoMemory>
    ensures { IfOk result (λ done. done
        ≡ seal_on_turn (λ turning. no_dial turning) parts sealing) }
{
    let trust = parts.turn_of;
    if !has_requester(&parts, trust) {
        return Ok((parts, sealing));
    }
    let (turning, beside) = apart(parts, trust);
    let (turning, ended) = no_dial(turning);
    put_back_sealing(alloc, trust, turning, ended, beside, sealing)
}

/// Bytes came on the link of the turn. No challenge is drawn.
#[tactic(auto, using(crate::proofs::SealTurnLaws::unturned))]
pub(crate) fn hear_seal_turn<Q: Chances>(
    alloc: Global,
    link: u32,
    piece: &[u8],
    parts: Parts,
    sealing: Sealing,
    chances: &mut Q,
) -> Result<(Parts, Sealing), NoMemory>
    ensures value { IfOk result (λ done. done
        ≡ seal_on_turn (λ turning. link_hears link piece.now turning) parts sealing) }
    ensures undrawn { Q.drawing chances.new ≡ Q.drawing chances.old }
{
    let trust = parts.turn_of;
    if !has_requester(&parts, trust) {
        return Ok((parts, sealing));
    }
    let (turning, beside) = apart(parts, trust);
    match link_hears(alloc, link, piece, turning, chances) {
        Ok((turning, ended)) => put_back_sealing(alloc, trust, turning, ended, beside, sealing),
        Err(NoMemory) => Err(NoMemory),
    }
}
