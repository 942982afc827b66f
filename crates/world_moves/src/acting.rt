//! What an end's actions do in a world.

ghost use Rattle.std.specs.Prelude.{◌≡◌, ◌≢◌, ◌≤◌, ◌+◌, ◌*◌, ◌++◌, ◌∷◌, [], Err, length, filter, IfOk, OnOk, IsSome, slice_get};
ghost use Rattle.wire_base.specs.Maps.{lookup, same_number};
ghost use Rattle.outside.specs.declared.action.Action.TheVariants as action;
ghost use Rattle.end_links.specs.Bounds.{AreShortSends, IsShortSend, send_limit};
ghost use Rattle.world_moves.specs.Acting.{hear, unit_on, keep_at, put_secrets, perform_quietly, perform_all_quietly, hear_closed, closed_at, close, perform, perform_all, hear_and_act, piece_comes, pieces_come, forget, shut_link, is_of_other};
ghost use Rattle.world_moves.specs.Bag.{AreShortPieces, piece_limit};
ghost use Rattle.world_moves.specs.Bounds.{DrawsWithin, draws_at, piece_draws};
ghost use Rattle.world_moves.specs.Links.{hearer_of};
ghost use Rattle.world_moves.specs.Outcomes.{KeepsOutcomes};

use crate::bag::{Bag, BagUnit};
use crate::links::{EndId, OpenLink, OpenLinks, Route, forget_end, same_end};
use crate::plan::MemberPlans;
use crate::state::{State, WaitingDial};
use outside::{Action, Actions, Event, StepRefused};
use secret_change::Secrets;
use std::alloc::Global;
use std::mem;
use wire_base::{Blob, Frames, List, NoMemory, find_number, take_number};

impl State {
    /// The end hears the event: its actions, which aren't done yet.
    #[tactic(auto, using(crate::proofs::OutcomeLaws::stays_same, crate::proofs::OutcomeLaws::stays_on))]
    pub(crate) fn hear(
        &mut self,
        alloc: Global,
        end: EndId,
        event: &Event,
    ) -> Result<Actions, StepRefused>
        ensures answer { IfOk result (λ actions. hear end event.now self.old
            ≡ record { state = self.new; actions = actions }) }
        ensures short { IfOk result (λ actions. AreShortSends actions) }
        ensures spent { result ≡ Err StepRefused.Spent → self.new.chances.left ≡ [] }
        ensures few { DrawsWithin (draws_at event.now) self.old self.new }
        ensures runs { result ≢ Err StepRefused.Stopped }
        ensures outcomes { KeepsOutcomes self.old self.new }
    {
        match self
            .ends
            .step(alloc, end, event, self.moment, &mut self.chances)
        {
            Ok(actions) => {
                self.counts = self.counts.add(end, actions.items());
                Ok(actions)
            }
            Err(why) => Err(why),
        }
    }

    /// A unit goes into the bag behind the others.
    fn bag_unit(&mut self, alloc: Global, unit: BagUnit) -> Result<(), NoMemory>
        requires { length unit.bytes ≤ send_limit }
        ensures state { OnOk result (self.new
            ≡ record self.old { bag = self.old.bag ++ unit ∷ [] }) }
        ensures few { DrawsWithin 0 self.old self.new }
        ensures ends { self.new.ends ≡ self.old.ends }
    {
        let bag = mem::replace(&mut self.bag, Bag::new(alloc));
        self.bag = bag.add(unit)?;
        Ok(())
    }

    /// An end sends on a link: a unit goes into the bag, unless the link is a stranger's.
    fn send_on(&mut self, alloc: Global, end: EndId, link: u32, bytes: Blob) -> Result<(), NoMemory>
        requires { length bytes ≤ send_limit }
        ensures state { OnOk result (self.new
            ≡ perform_quietly end (action.Send link bytes) self.old) }
        ensures few { DrawsWithin 0 self.old self.new }
        ensures ends { self.new.ends ≡ self.old.ends }
    {
        match self.links.get(link) {
            Some(route) => {
                if route.kind().is_own() {
                    self.bag_unit(alloc, unit_on(route, end, link, bytes))
                } else {
                    Ok(())
                }
            }
            None => Ok(()),
        }
    }

    /// An end keeps a text.
    fn keep(&mut self, alloc: Global, end: EndId, text: &[u8])
        ensures state { self.new
            ≡ record self.old { member_plans = keep_at end text.now self.old.member_plans } }
        ensures few { DrawsWithin 0 self.old self.new }
        ensures ends { self.new.ends ≡ self.old.ends }
    {
        let plans = mem::replace(&mut self.member_plans, MemberPlans::new(alloc));
        self.member_plans = keep_at(plans, end, text);
    }

    /// An action is done, but for a close.
    fn perform_quietly(&mut self, alloc: Global, end: EndId, action: Action) -> Result<(), NoMemory>
        requires { IsShortSend action }
        ensures state { OnOk result (self.new ≡ perform_quietly end action self.old) }
        ensures few { DrawsWithin 0 self.old self.new }
        ensures ends { self.new.ends ≡ self.old.ends }
    {
        match action {
            Action::Send(link, bytes) => self.send_on(alloc, end, link, bytes),
            Action::Dial(peer) => self.dials.push(WaitingDial { end, peer }),
            Action::Keep(text) => {
                self.keep(alloc, end, text.bytes());
                Ok(())
            }
            Action::Close(_, _) | Action::Told(_, _) | Action::Judged(_) => Ok(()),
        }
    }

    /// Actions are done in their order, but for closes.
    fn perform_all_quietly(
        &mut self,
        alloc: Global,
        end: EndId,
        actions: Actions,
    ) -> Result<(), NoMemory>
        requires { AreShortSends actions }
        ensures state { OnOk result (self.new ≡ perform_all_quietly end actions self.old) }
        ensures few { DrawsWithin 0 self.old self.new }
        ensures ends { self.new.ends ≡ self.old.ends }
    {
        for action in actions.into_vec() {
            match self.perform_quietly(alloc, end, action) {
                Ok(()) => {}
                Err(why) => return Err(why),
            }
        }
        Ok(())
    }

    /// The end hears that the link was closed.
    #[tactic(auto, using(crate::proofs::OutcomeLaws::stays_same, crate::proofs::OutcomeLaws::stays_on))]
    fn hear_closed(&mut self, alloc: Global, link: u32, end: EndId) -> Result<(), StepRefused>
        ensures state { OnOk result (self.new ≡ (hear_closed link end self.old).state) }
        ensures spent { result ≡ Err StepRefused.Spent → self.new.chances.left ≡ [] }
        ensures few { DrawsWithin 3 self.old self.new }
        ensures runs { result ≢ Err StepRefused.Stopped }
        ensures outcomes { KeepsOutcomes self.old self.new }
    {
        let actions = self.hear(alloc, end, &Event::Closed(link))?;
        Ok(self.perform_all_quietly(alloc, end, actions)?)
    }

    /// The end, if there is one, hears that the link was closed.
    #[tactic(auto, using(crate::proofs::OutcomeLaws::stays_same, crate::proofs::OutcomeLaws::stays_on))]
    pub(crate) fn closed_at(
        &mut self,
        alloc: Global,
        end: Option<EndId>,
        link: u32,
    ) -> Result<(), StepRefused>
        ensures state { OnOk result (self.new ≡ (closed_at end link self.old).state) }
        ensures spent { result ≡ Err StepRefused.Spent → self.new.chances.left ≡ [] }
        ensures few { DrawsWithin 3 self.old self.new }
        ensures runs { result ≢ Err StepRefused.Stopped }
        ensures outcomes { KeepsOutcomes self.old self.new }
    {
        match end {
            Some(end) => self.hear_closed(alloc, link, end),
            None => Ok(()),
        }
    }

    /// The link of that number, if it is open at a side.
    pub(crate) fn open_link(&self, link: u32) -> Option<OpenLink>
        ensures { result ≡ lookup same_number link self.now.open_links }
    {
        find_number(self.open_links.items(), link).copied()
    }

    /// The link is open no more.
    pub(crate) fn shut_link(&mut self, alloc: Global, link: u32)
        ensures state { self.new ≡ shut_link link self.old }
        ensures fewer { length self.new.open_links ≤ length self.old.open_links }
        ensures one { IsSome (lookup same_number link self.old.open_links) →
            length self.new.open_links + 1 ≤ length self.old.open_links }
        ensures ends { self.new.ends ≡ self.old.ends }
    {
        let open = mem::replace(&mut self.open_links, OpenLinks::new(alloc));
        let (rest, _closed) = take_number(open, link);
        self.open_links = rest;
    }

    /// An end closes a link: the end at the other side hears of it.
    #[tactic(auto, using(crate::proofs::OutcomeLaws::stays_same, crate::proofs::OutcomeLaws::stays_on))]
    fn close(&mut self, alloc: Global, end: EndId, link: u32) -> Result<(), StepRefused>
        ensures state { OnOk result (self.new ≡ (close end link self.old).state) }
        ensures spent { result ≡ Err StepRefused.Spent → self.new.chances.left ≡ [] }
        ensures few { DrawsWithin 0 self.old self.new }
        ensures runs { result ≢ Err StepRefused.Stopped }
        ensures outcomes { KeepsOutcomes self.old self.new }
    {
        match self.open_link(link) {
            Some(there) => {
                self.shut_link(alloc, link);
                self.closed_at(alloc, there.other_hearer(end), link)
            }
            None => Ok(()),
        }
    }

    /// An action is done.
    #[tactic(auto, using(crate::proofs::OutcomeLaws::stays_same, crate::proofs::OutcomeLaws::stays_on))]
    fn perform(&mut self, alloc: Global, end: EndId, action: Action) -> Result<(), StepRefused>
        requires { IsShortSend action }
        ensures state { OnOk result (self.new ≡ (perform end action self.old).state) }
        ensures spent { result ≡ Err StepRefused.Spent → self.new.chances.left ≡ [] }
        ensures few { DrawsWithin 0 self.old self.new }
        ensures runs { result ≢ Err StepRefused.Stopped }
        ensures outcomes { KeepsOutcomes self.old self.new }
    {
        match action {
            Action::Close(link, _) => self.close(alloc, end, link),
            action => Ok(self.perform_quietly(alloc, end, action)?),
        }
    }

    /// Actions are done in their order.
    #[tactic(auto, using(crate::proofs::OutcomeLaws::stays_same, crate::proofs::OutcomeLaws::stays_on))]
    pub(crate) fn perform_all(
        &mut self,
        alloc: Global,
        end: EndId,
        actions: Actions,
    ) -> Result<(), StepRefused>
        requires { AreShortSends actions }
        ensures state { OnOk result (self.new ≡ (perform_all end actions self.old).state) }
        ensures spent { result ≡ Err StepRefused.Spent → self.new.chances.left ≡ [] }
        ensures few { DrawsWithin 0 self.old self.new }
        ensures runs { result ≢ Err StepRefused.Stopped }
        ensures outcomes { KeepsOutcomes self.old self.new }
    {
        for action in actions.into_vec() {
            match self.perform(alloc, end, action) {
                Ok(()) => {}
                Err(why) => return Err(why),
            }
        }
        Ok(())
    }

    /// The end hears the event, and does what it then does.
    #[tactic(auto, using(crate::proofs::OutcomeLaws::stays_same, crate::proofs::OutcomeLaws::stays_on))]
    pub(crate) fn hear_and_act(
        &mut self,
        alloc: Global,
        end: EndId,
        event: &Event,
    ) -> Result<(), StepRefused>
        ensures state { OnOk result (self.new ≡ (hear_and_act end event.now self.old).state) }
        ensures spent { result ≡ Err StepRefused.Spent → self.new.chances.left ≡ [] }
        ensures few { DrawsWithin (draws_at event.now) self.old self.new }
        ensures runs { result ≢ Err StepRefused.Stopped }
        ensures outcomes { KeepsOutcomes self.old self.new }
    {
        let actions = self.hear(alloc, end, event)?;
        self.perform_all(alloc, end, actions)
    }

    /// A piece comes on the link: a side that isn't open hears nothing.
    #[tactic(auto, using(crate::proofs::OutcomeLaws::stays_same, crate::proofs::OutcomeLaws::stays_on))]
    pub(crate) fn piece_comes(
        &mut self,
        alloc: Global,
        back: bool,
        link: u32,
        piece: Blob,
    ) -> Result<(), StepRefused>
        requires { length piece ≤ piece_limit }
        ensures state { OnOk result (self.new ≡ (piece_comes back link piece self.old).state) }
        ensures spent { result ≡ Err StepRefused.Spent → self.new.chances.left ≡ [] }
        ensures few { DrawsWithin piece_draws self.old self.new }
        ensures runs { result ≢ Err StepRefused.Stopped }
        ensures outcomes { KeepsOutcomes self.old self.new }
    {
        match self.hearer(back, link) {
            Some(end) => self.hear_and_act(alloc, end, &Event::Bytes(link, piece)),
            None => Ok(()),
        }
    }

    /// The end that hears what goes on the link in that direction.
    fn hearer(&self, back: bool, link: u32) -> Option<EndId>
        ensures { result ≡ hearer_of back (lookup same_number link self.now.open_links) }
    {
        match self.open_link(link) {
            Some(there) => there.hearer(back),
            None => None,
        }
    }

    /// Pieces come on the link, in their order.
    #[tactic(auto, using(crate::proofs::OutcomeLaws::stays_same, crate::proofs::OutcomeLaws::stays_on))]
    pub(crate) fn pieces_come(
        &mut self,
        alloc: Global,
        back: bool,
        link: u32,
        pieces: Frames,
    ) -> Result<(), StepRefused>
        requires { AreShortPieces pieces }
        ensures state { OnOk result (self.new ≡ (pieces_come back link pieces self.old).state) }
        ensures spent { result ≡ Err StepRefused.Spent → self.new.chances.left ≡ [] }
        ensures few { DrawsWithin (piece_draws * length pieces) self.old self.new }
        ensures runs { result ≢ Err StepRefused.Stopped }
        ensures outcomes { KeepsOutcomes self.old self.new }
    {
        for piece in pieces.into_vec() {
            match self.piece_comes(alloc, back, link, piece) {
                Ok(()) => {}
                Err(why) => return Err(why),
            }
        }
        Ok(())
    }

    /// The end is forgotten: its links are open at its side no more, and its dials wait no more.
    pub(crate) fn forget(&mut self, alloc: Global, end: EndId) -> Result<(), NoMemory>
        ensures state { OnOk result (self.new ≡ forget end self.old) }
        ensures few { DrawsWithin 0 self.old self.new }
        ensures ends { self.new.ends ≡ self.old.ends }
    {
        self.open_links = forget_end(alloc, end, &self.open_links)?;
        let dials = mem::replace(&mut self.dials, List::new(alloc));
        self.dials = dials_of_others(end, dials);
        Ok(())
    }
}

/// A unit that an end sends on a link.
fn unit_on(route: Route, end: EndId, link: u32, bytes: Blob) -> BagUnit
    ensures { result ≡ unit_on route end link bytes }
{
    BagUnit {
        bytes,
        link,
        kind: route.kind(),
        back: route.is_accepted_by(end),
        is_settled: false,
    }
}

/// The dials of other ends.
fn dials_of_others(end: EndId, dials: List<WaitingDial>) -> List<WaitingDial>
    ensures { result ≡ filter (is_of_other end) dials }
{
    let mut dials = dials.into_vec();
    dials.retain(|waiting| !same_end(waiting.end, end));
    List::from_vec(dials)
}

/// The plans of members where an end keeps a text: that of a member has the secrets of the text. It takes no memory.
fn keep_at(plans: MemberPlans, end: EndId, text: &[u8]) -> MemberPlans
    ensures { result ≡ keep_at end text.now plans }
{
    match end {
        EndId::Member(at) => match Secrets::read(text) {
            Ok(secrets) => put_secrets(plans, at, secrets),
            Err(_) => plans,
        },
        EndId::Controller(_) | EndId::Client(_) | EndId::Station(_) => plans,
    }
}

/// The plans, of which the one at the place has these secrets.
#[tactic(auto, using(crate::proofs::KeptLaws::secrets_put, crate::proofs::KeptLaws::none_put))]
fn put_secrets(plans: MemberPlans, at: usize, secrets: Secrets) -> MemberPlans
    ensures { result ≡ put_secrets (slice_get plans at) secrets at plans }
{
    let mut plans = plans.into_vec();
    if at < plans.len() {
        plans[at].secrets = secrets;
    }
    List::from_vec(plans)
}
