//! The moves of a world.

ghost use Rattle.std.specs.Prelude.{◌≡◌, ◌≢◌, [], Err, ◌<◌, ◌≤◌, ◌+◌, ◌*◌, ◌^◌, length, IfOk, OnOk, OnErr, slice_get};
ghost use Rattle.end_links.specs.Bounds.{AreShortSends};
ghost use Rattle.world_moves.specs.Bounds.{DrawsWithin, draw_limit, piece_draws, unit_draws};
ghost use Rattle.world_moves.specs.Moving.{act, start, start_station, open_link, stranger, end_of_peer, between_if, route_to, answered_link, answer, connect_by, without_first, connect, fail_dial, come, onward, lose, deliver, hand, shut, renewed, restart, change, changed, moment_after, tick};
ghost use Rattle.world_moves.specs.Outcomes.{KeepsOutcomes};
ghost use Rattle.world_moves.specs.World.{IsMove};

use crate::bag::pieces;
use crate::choosing::chosen_place;
use crate::links::{EndId, OpenLink, OpenLinks, Route, WorldLinks};
use crate::moves::Move;
use crate::state::{State, WaitingDial};
use member_server::Member;
use outside::{Actions, Event, StepRefused};
use std::alloc::Global;
use std::mem;
use wire_base::{Blob, List, NoMemory, put_number};

/// The last moment to which time passes: 2^63.
const LAST_MOMENT: u64 = 1 << 63;

impl State {
    /// The client or station that the number chooses is made anew from its plan, and begins.
    #[tactic(auto, using(crate::proofs::StartLaws::none_past, crate::proofs::OutcomeLaws::stays_same, crate::proofs::OutcomeLaws::stays_on))]
    fn start(&mut self, alloc: Global, number: u32) -> Result<(), StepRefused>
        ensures state { OnOk result (self.new ≡ (start number self.old).state) }
        ensures spent { result ≡ Err StepRefused.Spent → self.new.chances.left ≡ [] }
        ensures few { DrawsWithin 0 self.old self.new }
        ensures runs { result ≢ Err StepRefused.Stopped }
        ensures outcomes { OnErr result (KeepsOutcomes self.old self.new) }
    {
        let Some(at) = chosen_place(number, self.ends.starters()) else {
            return Ok(());
        };
        let Some(task) = self.client_plans.get(at) else {
            let clients = self.client_plans.len();
            return self.start_station(alloc, at - clients);
        };
        let mut client = task.client(alloc)?;
        let actions = client.begin(alloc)?;
        self.forget(alloc, EndId::Client(at))?;
        self.counts = self.counts.add(EndId::Client(at), actions.items());
        self.perform_all(alloc, EndId::Client(at), actions)?;
        self.ends.put_client(at, client);
        Ok(())
    }

    /// The station is made anew from its plan, and begins.
    #[tactic(auto, using(crate::proofs::OutcomeLaws::stays_same, crate::proofs::OutcomeLaws::stays_on))]
    fn start_station(&mut self, alloc: Global, at: usize) -> Result<(), StepRefused>
        ensures state { OnOk result (self.new ≡ (start_station at self.old).state) }
        ensures spent { result ≡ Err StepRefused.Spent → self.new.chances.left ≡ [] }
        ensures few { DrawsWithin 0 self.old self.new }
        ensures runs { result ≢ Err StepRefused.Stopped }
        ensures outcomes { OnErr result (KeepsOutcomes self.old self.new) }
    {
        let Some(task) = self.station_plans.get(at) else {
            return Ok(());
        };
        let mut station = task.station(alloc)?;
        let actions = station.begin(alloc)?;
        self.forget(alloc, EndId::Station(at))?;
        self.counts = self.counts.add(EndId::Station(at), actions.items());
        self.perform_all(alloc, EndId::Station(at), actions)?;
        self.ends.put_station(at, station);
        Ok(())
    }

    /// A link opens: the end that accepts it hears of it.
    #[tactic(auto, using(crate::proofs::OutcomeLaws::stays_same, crate::proofs::OutcomeLaws::stays_on))]
    fn open(&mut self, alloc: Global, route: Route) -> Result<(), StepRefused>
        requires { length self.old.links < 2 ^ 32 }
        ensures state { OnOk result (self.new ≡ (open_link route self.old).state) }
        ensures spent { result ≡ Err StepRefused.Spent → self.new.chances.left ≡ [] }
        ensures few { DrawsWithin 6 self.old self.new }
        ensures runs { result ≢ Err StepRefused.Stopped }
        ensures outcomes { KeepsOutcomes self.old self.new }
    {
        let number = self.links.len() as u32;
        let links = mem::replace(&mut self.links, WorldLinks::new(alloc));
        self.links = links.add(route)?;
        let there = OpenLink {
            route,
            dialler: false,
            acceptor: true,
        };
        self.open_links.push((number, there))?;
        self.hear_and_act(alloc, route.acceptor(), &Event::Opened(number))
    }

    /// A stranger opens a link.
    #[tactic(auto, using(crate::proofs::OutcomeLaws::stays_same, crate::proofs::OutcomeLaws::stays_on))]
    fn stranger(&mut self, alloc: Global, number: u32) -> Result<(), StepRefused>
        requires { length self.old.links < 2 ^ 32 }
        ensures state { OnOk result (self.new ≡ (stranger number self.old).state) }
        ensures spent { result ≡ Err StepRefused.Spent → self.new.chances.left ≡ [] }
        ensures few { DrawsWithin 6 self.old self.new }
        ensures runs { result ≢ Err StepRefused.Stopped }
        ensures outcomes { KeepsOutcomes self.old self.new }
    {
        let Some(number) = chosen_place(number, self.ends.acceptors()) else {
            return Ok(());
        };
        match self.ends.end_at(number) {
            Some(end) => self.open(alloc, Route::Stranger(end)),
            None => Ok(()),
        }
    }

    /// The end of an address.
    fn end_of_peer(&self, peer: &[u8]) -> Option<EndId>
        ensures { result ≡ end_of_peer peer.now self.now.ends }
    {
        match peer {
            [number] => self.ends.end_at(usize::from(*number)),
            _ => None,
        }
    }

    /// The link is open at the side of the end that dialled too.
    fn put_answered(&mut self, alloc: Global, link: u32, there: OpenLink) -> Result<(), NoMemory>
        ensures state { OnOk result (self.new ≡ answered_link link there self.old) }
        ensures few { DrawsWithin 3 self.old self.new }
        ensures ends { self.new.ends ≡ self.old.ends }
    {
        let answered = OpenLink {
            route: there.route,
            dialler: true,
            acceptor: there.acceptor,
        };
        let open = mem::replace(&mut self.open_links, OpenLinks::new(alloc));
        self.open_links = put_number(open, link, answered)?;
        Ok(())
    }

    /// The end that dialled the link hears that it is answered.
    #[tactic(auto, using(crate::proofs::OutcomeLaws::stays_same, crate::proofs::OutcomeLaws::stays_on))]
    fn answer(&mut self, alloc: Global, end: EndId, link: u32) -> Result<(), StepRefused>
        ensures state { OnOk result (self.new ≡ (answer end link self.old).state) }
        ensures spent { result ≡ Err StepRefused.Spent → self.new.chances.left ≡ [] }
        ensures few { DrawsWithin 6 self.old self.new }
        ensures runs { result ≢ Err StepRefused.Stopped }
        ensures outcomes { KeepsOutcomes self.old self.new }
    {
        match self.open_link(link) {
            Some(there) => {
                self.put_answered(alloc, link, there)?;
                self.hear_and_act(alloc, end, &Event::Dialled(link))
            }
            None => {
                self.hear_and_act(alloc, end, &Event::Dialled(link))?;
                self.closed_at(alloc, Some(end), link)
            }
        }
    }

    /// A dial is connected, where it has a route.
    #[tactic(auto, using(crate::proofs::OutcomeLaws::stays_same, crate::proofs::OutcomeLaws::stays_on))]
    fn connect_by(
        &mut self,
        alloc: Global,
        route: Option<Route>,
        end: EndId,
    ) -> Result<(), StepRefused>
        requires { length self.old.links < 2 ^ 32 }
        ensures state { OnOk result (self.new ≡ (connect_by route end self.old).state) }
        ensures spent { result ≡ Err StepRefused.Spent → self.new.chances.left ≡ [] }
        ensures few { DrawsWithin 12 self.old self.new }
        ensures runs { result ≢ Err StepRefused.Stopped }
        ensures outcomes { KeepsOutcomes self.old self.new }
    {
        let Some(route) = route else {
            return self.hear_and_act(alloc, end, &Event::DialFailed);
        };
        let link = self.links.len() as u32;
        self.open(alloc, route)?;
        self.answer(alloc, end, link)
    }

    /// The oldest dial that waits, which waits no more.
    fn next_dial(&mut self, alloc: Global) -> Option<WaitingDial>
        ensures first { result ≡ slice_get self.old.dials 0 }
        ensures rest { self.new ≡ without_first self.old }
        ensures ends { self.new.ends ≡ self.old.ends }
    {
        let mut dials = mem::replace(&mut self.dials, List::new(alloc)).into_vec();
        if dials.is_empty() {
            return None;
        }
        let first = dials.remove(0);
        self.dials = List::from_vec(dials);
        Some(first)
    }

    /// The oldest dial that waits is connected, or fails.
    #[tactic(auto, using(crate::proofs::OutcomeLaws::stays_same, crate::proofs::OutcomeLaws::stays_on))]
    fn connect(&mut self, alloc: Global) -> Result<(), StepRefused>
        requires { length self.old.links < 2 ^ 32 }
        ensures state { OnOk result (self.new ≡ (connect self.old).state) }
        ensures spent { result ≡ Err StepRefused.Spent → self.new.chances.left ≡ [] }
        ensures few { DrawsWithin 12 self.old self.new }
        ensures runs { result ≢ Err StepRefused.Stopped }
        ensures outcomes { KeepsOutcomes self.old self.new }
    {
        match self.next_dial(alloc) {
            Some(first) => {
                let route = route_to(first.end, self.end_of_peer(first.peer.bytes()));
                self.connect_by(alloc, route, first.end)
            }
            None => Ok(()),
        }
    }

    /// The oldest dial that waits fails.
    #[tactic(auto, using(crate::proofs::OutcomeLaws::stays_same, crate::proofs::OutcomeLaws::stays_on))]
    fn fail_dial(&mut self, alloc: Global) -> Result<(), StepRefused>
        ensures state { OnOk result (self.new ≡ (fail_dial self.old).state) }
        ensures spent { result ≡ Err StepRefused.Spent → self.new.chances.left ≡ [] }
        ensures few { DrawsWithin 3 self.old self.new }
        ensures runs { result ≢ Err StepRefused.Stopped }
        ensures outcomes { KeepsOutcomes self.old self.new }
    {
        match self.next_dial(alloc) {
            Some(first) => self.hear_and_act(alloc, first.end, &Event::DialFailed),
            None => Ok(()),
        }
    }

    /// A unit comes on the link in its direction.
    #[tactic(auto, using(crate::proofs::OutcomeLaws::stays_same, crate::proofs::OutcomeLaws::stays_on))]
    fn come(&mut self, alloc: Global, number: usize, link: u32) -> Result<(), StepRefused>
        ensures state { OnOk result (self.new ≡ (come number link self.old).state) }
        ensures spent { result ≡ Err StepRefused.Spent → self.new.chances.left ≡ [] }
        ensures few { DrawsWithin unit_draws self.old self.new }
        ensures runs { result ≢ Err StepRefused.Stopped }
        ensures outcomes { KeepsOutcomes self.old self.new }
    {
        let Some(unit) = self.bag.get(number) else {
            return Ok(());
        };
        let back = unit.back;
        let pieces = pieces(alloc, unit.bytes.bytes())?;
        self.pieces_come(alloc, back, link, pieces)
    }

    /// The oldest unit that was neither delivered nor lost is delivered on its own link.
    #[tactic(auto, using(crate::proofs::OutcomeLaws::stays_same, crate::proofs::OutcomeLaws::stays_on))]
    fn onward(&mut self, alloc: Global) -> Result<(), StepRefused>
        ensures state { OnOk result (self.new ≡ (onward self.old).state) }
        ensures spent { result ≡ Err StepRefused.Spent → self.new.chances.left ≡ [] }
        ensures few { DrawsWithin unit_draws self.old self.new }
        ensures runs { result ≢ Err StepRefused.Stopped }
        ensures outcomes { KeepsOutcomes self.old self.new }
    {
        let Some(number) = self.bag.seek_waiting() else {
            return Ok(());
        };
        let link = match self.bag.get(number) {
            Some(unit) => unit.link,
            None => return Ok(()),
        };
        self.bag.settle(number);
        self.come(alloc, number, link)
    }

    /// The oldest unit that was neither delivered nor lost is lost.
    fn lose(&mut self)
        ensures { self.new ≡ lose self.old }
    {
        if let Some(number) = self.bag.seek_waiting() {
            self.bag.settle(number);
        }
    }

    /// A unit is delivered on a link of its kind.
    #[tactic(auto, using(crate::proofs::OutcomeLaws::stays_same, crate::proofs::OutcomeLaws::stays_on))]
    fn deliver(&mut self, alloc: Global, unit: u32, link: u32) -> Result<(), StepRefused>
        ensures state { OnOk result (self.new ≡ (deliver unit link self.old).state) }
        ensures spent { result ≡ Err StepRefused.Spent → self.new.chances.left ≡ [] }
        ensures few { DrawsWithin unit_draws self.old self.new }
        ensures runs { result ≢ Err StepRefused.Stopped }
        ensures outcomes { KeepsOutcomes self.old self.new }
    {
        let Some(number) = chosen_place(unit, self.bag.len()) else {
            return Ok(());
        };
        let kind = match self.bag.get(number) {
            Some(unit) => unit.kind,
            None => return Ok(()),
        };
        let Some(link) = self.links.chosen_of(kind, link) else {
            return Ok(());
        };
        self.bag.settle(number);
        self.come(alloc, number, link)
    }

    /// Bytes come on a client's or a stranger's link.
    #[tactic(auto, using(crate::proofs::OutcomeLaws::stays_same, crate::proofs::OutcomeLaws::stays_on))]
    fn hand(
        &mut self,
        alloc: Global,
        link: u32,
        back: bool,
        bytes: &[u8],
    ) -> Result<(), StepRefused>
        requires { length bytes.now ≤ 65536 }
        ensures state { OnOk result (self.new ≡ (hand link back bytes.now self.old).state) }
        ensures spent { result ≡ Err StepRefused.Spent → self.new.chances.left ≡ [] }
        ensures few { DrawsWithin piece_draws self.old self.new }
        ensures runs { result ≢ Err StepRefused.Stopped }
        ensures outcomes { KeepsOutcomes self.old self.new }
    {
        match self.links.chosen_handed(link) {
            Some(link) => {
                let piece = Blob::copy(alloc, bytes)?;
                self.piece_comes(alloc, back, link, piece)
            }
            None => Ok(()),
        }
    }

    /// A link is shut: each side that is open hears of it.
    #[tactic(auto, using(crate::proofs::OutcomeLaws::stays_same, crate::proofs::OutcomeLaws::stays_on))]
    fn shut(&mut self, alloc: Global, number: u32) -> Result<(), StepRefused>
        ensures state { OnOk result (self.new ≡ (shut number self.old).state) }
        ensures spent { result ≡ Err StepRefused.Spent → self.new.chances.left ≡ [] }
        ensures few { DrawsWithin 6 self.old self.new }
        ensures runs { result ≢ Err StepRefused.Stopped }
        ensures outcomes { KeepsOutcomes self.old self.new }
    {
        let Some(at) = chosen_place(number, self.open_links.len()) else {
            return Ok(());
        };
        let Some(entry) = self.open_links.get(at) else {
            return Ok(());
        };
        let (link, there) = *entry;
        self.shut_link(alloc, link);
        self.closed_at(alloc, there.hearer(false), link)?;
        self.closed_at(alloc, there.hearer(true), link)
    }

    /// The end is made anew.
    #[tactic(auto, using(crate::proofs::OutcomeLaws::stays_same, crate::proofs::OutcomeLaws::stays_on))]
    fn renew(&mut self, alloc: Global, end: EndId) -> Result<(), NoMemory>
        ensures state { OnOk result (self.new ≡ renewed end self.old) }
        ensures few { DrawsWithin 0 self.old self.new }
        ensures outcomes { OnErr result (KeepsOutcomes self.old self.new) }
    {
        match end {
            EndId::Controller(at) => self
                .ends
                .renew_controller(alloc, self.hands_on, self.seals, at),
            EndId::Member(at) => match self.member_plans.get(at) {
                Some(plan) => {
                    let member = Member::with_sealing(alloc, plan.copy(alloc)?)?;
                    self.ends.put_member(at, member);
                    Ok(())
                }
                None => Ok(()),
            },
            EndId::Client(at) => match self.client_plans.get(at) {
                Some(task) => {
                    let client = task.client(alloc)?;
                    self.ends.put_client(at, client);
                    Ok(())
                }
                None => Ok(()),
            },
            EndId::Station(at) => match self.station_plans.get(at) {
                Some(task) => {
                    let station = task.station(alloc)?;
                    self.ends.put_station(at, station);
                    Ok(())
                }
                None => Ok(()),
            },
        }
    }

    /// An end is made anew, and forgets its links.
    #[tactic(auto, using(crate::proofs::OutcomeLaws::stays_same, crate::proofs::OutcomeLaws::stays_on))]
    fn restart(&mut self, alloc: Global, number: u32) -> Result<(), NoMemory>
        ensures state { OnOk result (self.new ≡ restart number self.old) }
        ensures few { DrawsWithin 0 self.old self.new }
        ensures outcomes { OnErr result (KeepsOutcomes self.old self.new) }
    {
        let Some(number) = chosen_place(number, self.ends.count()) else {
            return Ok(());
        };
        match self.ends.end_at(number) {
            Some(end) => {
                self.forget(alloc, end)?;
                self.renew(alloc, end)
            }
            None => Ok(()),
        }
    }

    /// The member of that number is told to change to the secret: its actions, which aren't done yet.
    fn begin_change(
        &mut self,
        alloc: Global,
        at: usize,
        secret: [u8; 16],
    ) -> Result<Actions, NoMemory>
        ensures answer { IfOk result (λ actions. changed at secret self.old
            ≡ record { state = self.new; actions = actions }) }
        ensures short { IfOk result (λ actions. AreShortSends actions) }
        ensures few { DrawsWithin 0 self.old self.new }
        ensures outcomes { KeepsOutcomes self.old self.new }
    {
        self.ends.change(alloc, at, secret)
    }

    /// A member is told to change to a secret, and keeps its text.
    #[tactic(auto, using(crate::proofs::OutcomeLaws::stays_same, crate::proofs::OutcomeLaws::stays_on))]
    fn change(&mut self, alloc: Global, number: u32, secret: [u8; 16]) -> Result<(), StepRefused>
        ensures state { OnOk result (self.new ≡ (change number secret self.old).state) }
        ensures spent { result ≡ Err StepRefused.Spent → self.new.chances.left ≡ [] }
        ensures few { DrawsWithin 0 self.old self.new }
        ensures runs { result ≢ Err StepRefused.Stopped }
        ensures outcomes { OnErr result (KeepsOutcomes self.old self.new) }
    {
        let Some(at) = chosen_place(number, self.ends.member_count()) else {
            return Ok(());
        };
        let actions = self.begin_change(alloc, at, secret)?;
        self.perform_all(alloc, EndId::Member(at), actions)
    }

    /// Time passes.
    fn tick(&mut self, more: u64)
        ensures { self.new ≡ tick more self.old }
    {
        self.moment = moment_after(more, self.moment);
    }

    /// A move.
    #[tactic(auto, using(crate::proofs::OutcomeLaws::stays_same, crate::proofs::OutcomeLaws::stays_on))]
    pub(crate) fn act(&mut self, alloc: Global, what: &Move) -> Result<(), StepRefused>
        requires links { length self.old.links < 2 ^ 32 }
        requires given { IsMove what.now }
        ensures state { OnOk result (self.new ≡ (act self.old what.now).state) }
        ensures spent { result ≡ Err StepRefused.Spent → self.new.chances.left ≡ [] }
        ensures few { DrawsWithin draw_limit self.old self.new }
        ensures runs { result ≢ Err StepRefused.Stopped }
        ensures outcomes { OnErr result (KeepsOutcomes self.old self.new) }
    {
        match what {
            Move::Start(number) => self.start(alloc, *number),
            Move::Stranger(number) => self.stranger(alloc, *number),
            Move::Connect => self.connect(alloc),
            Move::FailDial => self.fail_dial(alloc),
            Move::Onward => self.onward(alloc),
            Move::Lose => {
                self.lose();
                Ok(())
            }
            Move::Deliver { unit, link } => self.deliver(alloc, *unit, *link),
            Move::Hand { link, back, bytes } => self.hand(alloc, *link, *back, bytes.bytes()),
            Move::Shut(number) => self.shut(alloc, *number),
            Move::Restart(number) => Ok(self.restart(alloc, *number)?),
            Move::Change { member, secret } => self.change(alloc, *member, *secret),
            Move::Tick(more) => {
                self.tick(*more);
                Ok(())
            }
        }
    }
}

/// The route of a dial, where it dials an end that takes its links.
fn route_to(end: EndId, to: Option<EndId>) -> Option<Route>
    ensures { result ≡ route_to end to }
{
    match (end, to) {
        (EndId::Client(client), Some(EndId::Member(member))) => Some(Route::ToMember {
            client,
            member,
        }),
        (EndId::Member(member), Some(EndId::Controller(controller))) => {
            Some(Route::ToController { member, controller })
        }
        (EndId::Controller(from), Some(EndId::Controller(to))) => between_if(from == to, from, to),
        (EndId::Station(station), Some(EndId::Controller(controller))) => {
            Some(Route::FromStation {
                station,
                controller,
            })
        }
        _ => None,
    }
}

/// The route of a controller that dials another one: a dial to itself fails.
fn between_if(is_itself: bool, from: usize, to: usize) -> Option<Route>
    ensures { result ≡ between_if is_itself from to }
{
    if is_itself {
        None
    } else {
        Some(Route::Between { from, to })
    }
}

/// The moment `more` units of time after `now`.
fn moment_after(more: u64, now: u64) -> u64
    ensures { result ≡ moment_after more now }
{
    if now > LAST_MOMENT {
        return now;
    }
    now.saturating_add(more).min(LAST_MOMENT)
}
