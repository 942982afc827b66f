//! The ends of a world.

ghost use Rattle.std.specs.Prelude.{◌≡◌, ◌≢◌, ◌<◌, ◌≤◌, ◌+◌, [], false, Err, Some, None, IsSome, length, map, IfOk, OnOk, slice_get, slice_set, option_copied};
ghost use Rattle.domain_controller.specs.State.{State as ControllerState};
ghost use Rattle.member_server.specs.Machine.{is_stopped as member_is_stopped};
ghost use Rattle.end_links.specs.Bounds.{AreShortSends};
ghost use Rattle.world_moves.specs.Bounds.{draws_at};
ghost use Rattle.world_moves.specs.Ends.{HasChanged, end_at, acceptors_in, count_of, starters_in, end_change, end_done, end_step, controller_step, member_step, client_step, station_step, fresh_controller, renew_controller, with_member, with_client, with_station};
ghost use Rattle.world_moves.specs.Outcomes.{OutcomesFall, OutcomesStay, has_its_outcome, is_told};
ghost use Rattle.world_moves.specs.Running.{AreRunning};

use crate::links::EndId;
use crate::maker::Maker;
use account_table::Table;
use domain_controller::Controller;
use interactive_station::Station;
use logon_client::{AuthKind, Client, ClientPlan};
use member_server::{ChangeRefused, Member};
use outside::{Actions, Event, StepRefused};
use rpc_units::CONNECT_LEVEL;
use std::alloc::Global;
use std::marker::Model;
use std::mem;
use wire_base::{Blob, Name, NoMemory, Units};

/// The controllers, members, clients and stations of a world, seen as the lists of their states.
#[derive(Drop)]
pub struct Ends {
    controllers: Vec<Controller>,
    members: Vec<Member>,
    clients: Vec<Client>,
    stations: Vec<Station>,
    // whether one of them gave a step up
    gave_up: bool,
}

impl Model for Ends {
    ghost use Rattle.world_moves.specs.Ends.{EndStates};
    ghost use Rattle.world_moves.specs.Running.{CanStep};

    ghost Value = { EndStates };

    ghost view = { λ e. record {
      controllers = e.controllers.items;
      members = e.members.items;
      clients = e.clients.items;
      stations = e.stations.items;
    } };

    ghost invariant = { λ e. CanStep e.gave_up e.controllers.items e.members.items e.clients.items
        e.stations.items };
}

impl Ends {
    /// The ends of a world, none of which has stopped. It takes no memory.
    pub(crate) fn new(
        controllers: Vec<Controller>,
        members: Vec<Member>,
        clients: Vec<Client>,
        stations: Vec<Station>,
    ) -> Ends
        requires { AreRunning controllers.items members.items clients.items stations.items }
        ensures { result ≡ record {
          controllers = controllers.items;
          members = members.items;
          clients = clients.items;
          stations = stations.items;
        } }
    {
        Ends {
            controllers,
            members,
            clients,
            stations,
            gave_up: false,
        }
    }

    /// How many ends take links.
    pub(crate) fn acceptors(&self) -> usize
        ensures { result ≡ acceptors_in self.now }
    {
        self.controllers.len() + self.members.len()
    }

    /// How many ends there are.
    pub(crate) fn count(&self) -> usize
        ensures { result ≡ count_of self.now }
    {
        self.controllers.len() + self.members.len() + self.clients.len() + self.stations.len()
    }

    /// How many clients and stations there are.
    pub(crate) fn starters(&self) -> usize
        ensures { result ≡ starters_in self.now }
    {
        self.clients.len() + self.stations.len()
    }

    /// How many members there are.
    pub(crate) fn member_count(&self) -> usize
        ensures { result ≡ length self.now.members }
    {
        self.members.len()
    }

    /// The client of that number.
    pub(crate) fn client(&self, at: usize) -> Option<&Client>
        ensures { option_copied result ≡ slice_get self.now.clients at }
    {
        self.clients.get(at)
    }

    /// The station of that number.
    pub(crate) fn station(&self, at: usize) -> Option<&Station>
        ensures { option_copied result ≡ slice_get self.now.stations at }
    {
        self.stations.get(at)
    }

    /// The end of that number.
    pub(crate) fn end_at(&self, number: usize) -> Option<EndId>
        ensures { result ≡ end_at number self.now }
    {
        let controllers = self.controllers.len();
        let acceptors = controllers + self.members.len();
        let others = acceptors + self.clients.len();
        if number < controllers {
            Some(EndId::Controller(number))
        } else if number < acceptors {
            Some(EndId::Member(number - controllers))
        } else if number < others {
            Some(EndId::Client(number - acceptors))
        } else if number < others + self.stations.len() {
            Some(EndId::Station(number - others))
        } else {
            None
        }
    }

    /// The step of an end for the event at this moment: its actions. An end whose step isn't taken has stopped, and no
    /// end takes another. A client keeps the outcome that it has.
    #[tactic(auto, using(crate::proofs::OutcomeLaws::stays_same))]
    pub(crate) fn step(
        &mut self,
        alloc: Global,
        end: EndId,
        event: &Event,
        now: u64,
        chances: &mut Maker,
    ) -> Result<Actions, StepRefused>
        ensures answer { IfOk result (λ actions. end_step end event.now now self.old chances.old
            ≡ end_done end self.new chances.new actions) }
        ensures spent { result ≡ Err StepRefused.Spent → chances.new.left ≡ [] }
        ensures few { length chances.old.left ≤ length chances.new.left + draws_at event.now }
        ensures short { IfOk result (λ actions. AreShortSends actions) }
        ensures runs { result ≢ Err StepRefused.Stopped }
        ensures outcomes { OutcomesStay self.old.clients self.new.clients }
    {
        if self.gave_up {
            return Err(StepRefused::Memory);
        }
        match end {
            EndId::Controller(at) => self.step_controller(alloc, at, event, now, chances),
            EndId::Member(at) => self.step_member(alloc, at, event, now, chances),
            EndId::Client(at) => self.step_client(alloc, at, event, now, chances),
            EndId::Station(at) => self.step_station(alloc, at, event, now, chances),
        }
    }

    /// The step of a controller.
    #[tactic(auto, using(crate::proofs::EndLaws::controller_took, crate::proofs::EndLaws::spent_all, crate::proofs::OutcomeLaws::stays_same))]
    fn step_controller(
        &mut self,
        alloc: Global,
        at: usize,
        event: &Event,
        now: u64,
        chances: &mut Maker,
    ) -> Result<Actions, StepRefused>
        requires { AreRunning self.old.controllers self.old.members self.old.clients
            self.old.stations }
        ensures answer { IfOk result (λ actions.
            controller_step (slice_get self.old.controllers at) at event.now now self.old
            chances.old ≡ end_done (EndId.Controller at) self.new chances.new actions) }
        ensures spent { result ≡ Err StepRefused.Spent → chances.new.left ≡ [] }
        ensures few { length chances.old.left ≤ length chances.new.left + draws_at event.now }
        ensures short { IfOk result (λ actions. AreShortSends actions) }
        ensures runs { result ≢ Err StepRefused.Stopped }
        ensures outcomes { OutcomesStay self.old.clients self.new.clients }
    {
        if at >= self.controllers.len() {
            return Ok(Actions::new(alloc));
        }
        match self.controllers[at].step(alloc, event, now, chances) {
            Ok(actions) => Ok(actions),
            Err(why) => {
                self.gave_up = true;
                Err(why)
            }
        }
    }

    /// The step of a member.
    #[tactic(auto, using(crate::proofs::EndLaws::member_took, crate::proofs::EndLaws::spent_all, crate::proofs::OutcomeLaws::stays_same))]
    fn step_member(
        &mut self,
        alloc: Global,
        at: usize,
        event: &Event,
        now: u64,
        chances: &mut Maker,
    ) -> Result<Actions, StepRefused>
        requires { AreRunning self.old.controllers self.old.members self.old.clients
            self.old.stations }
        ensures answer { IfOk result (λ actions.
            member_step (slice_get self.old.members at) at event.now now self.old
            chances.old ≡ end_done (EndId.Member at) self.new chances.new actions) }
        ensures spent { result ≡ Err StepRefused.Spent → chances.new.left ≡ [] }
        ensures few { length chances.old.left ≤ length chances.new.left + draws_at event.now }
        ensures short { IfOk result (λ actions. AreShortSends actions) }
        ensures runs { result ≢ Err StepRefused.Stopped }
        ensures outcomes { OutcomesStay self.old.clients self.new.clients }
    {
        if at >= self.members.len() {
            return Ok(Actions::new(alloc));
        }
        match self.members[at].step(alloc, event, now, chances) {
            Ok(actions) => Ok(actions),
            Err(why) => {
                self.gave_up = true;
                Err(why)
            }
        }
    }

    /// The member of that number is told to change to the secret: its actions. It stays as it is where it changes to
    /// another one already. Want of memory stops it, and no end takes a step.
    #[tactic(auto, using(crate::proofs::ChangeLaws::member_changes, crate::proofs::OutcomeLaws::stays_same))]
    pub(crate) fn change(
        &mut self,
        alloc: Global,
        at: usize,
        secret: [u8; 16],
    ) -> Result<Actions, NoMemory>
        ensures answer { IfOk result (λ actions. end_change at secret self.old
            ≡ record { ends = self.new; actions = actions }) }
        ensures short { IfOk result (λ actions. AreShortSends actions) }
        ensures outcomes { OutcomesStay self.old.clients self.new.clients }
    {
        if self.gave_up {
            return Err(NoMemory);
        }
        if at >= self.members.len() {
            return Ok(Actions::new(alloc));
        }
        match change_member(alloc, &mut self.members[at], secret) {
            Ok(actions) => Ok(actions),
            Err(why) => {
                self.gave_up = true;
                Err(why)
            }
        }
    }

    /// The step of a client.
    #[tactic(auto, using(crate::proofs::EndLaws::client_took, crate::proofs::EndLaws::spent_all, crate::proofs::OutcomeLaws::stays_set, crate::proofs::OutcomeLaws::stays_same))]
    fn step_client(
        &mut self,
        alloc: Global,
        at: usize,
        event: &Event,
        now: u64,
        chances: &mut Maker,
    ) -> Result<Actions, StepRefused>
        requires { AreRunning self.old.controllers self.old.members self.old.clients
            self.old.stations }
        ensures answer { IfOk result (λ actions.
            client_step (slice_get self.old.clients at) at event.now now self.old
            chances.old ≡ end_done (EndId.Client at) self.new chances.new actions) }
        ensures spent { result ≡ Err StepRefused.Spent → chances.new.left ≡ [] }
        ensures few { length chances.old.left ≤ length chances.new.left + draws_at event.now }
        ensures short { IfOk result (λ actions. AreShortSends actions) }
        ensures runs { result ≢ Err StepRefused.Stopped }
        ensures outcomes { OutcomesStay self.old.clients self.new.clients }
    {
        if at >= self.clients.len() {
            return Ok(Actions::new(alloc));
        }
        match self.clients[at].step(alloc, event, now, chances) {
            Ok(actions) => Ok(actions),
            Err(why) => {
                self.gave_up = true;
                Err(why)
            }
        }
    }

    /// The step of a station.
    #[tactic(auto, using(crate::proofs::EndLaws::station_took, crate::proofs::EndLaws::spent_all, crate::proofs::OutcomeLaws::stays_same))]
    fn step_station(
        &mut self,
        alloc: Global,
        at: usize,
        event: &Event,
        now: u64,
        chances: &mut Maker,
    ) -> Result<Actions, StepRefused>
        requires { AreRunning self.old.controllers self.old.members self.old.clients
            self.old.stations }
        ensures answer { IfOk result (λ actions.
            station_step (slice_get self.old.stations at) at event.now now self.old
            chances.old ≡ end_done (EndId.Station at) self.new chances.new actions) }
        ensures spent { result ≡ Err StepRefused.Spent → chances.new.left ≡ [] }
        ensures few { length chances.old.left ≤ length chances.new.left + draws_at event.now }
        ensures short { IfOk result (λ actions. AreShortSends actions) }
        ensures runs { result ≢ Err StepRefused.Stopped }
        ensures outcomes { OutcomesStay self.old.clients self.new.clients }
    {
        if at >= self.stations.len() {
            return Ok(Actions::new(alloc));
        }
        match self.stations[at].step(alloc, event, now, chances) {
            Ok(actions) => Ok(actions),
            Err(why) => {
                self.gave_up = true;
                Err(why)
            }
        }
    }

    /// The controller is made anew with its accounts as they stand, and its name, such that it can seal, hands logons
    /// on or asks nobody. Want of memory drops the controllers.
    #[tactic(auto, using(crate::proofs::EndLaws::renewed_is, crate::proofs::EndLaws::none_run, crate::proofs::EndLaws::renewed_run))]
    pub(crate) fn renew_controller(
        &mut self,
        alloc: Global,
        hands_on: bool,
        seals: bool,
        at: usize,
    ) -> Result<(), NoMemory>
        ensures ends { OnOk result (self.new
            ≡ renew_controller hands_on seals (slice_get self.old.controllers at) at self.old) }
        ensures clients { self.new.clients ≡ self.old.clients }
    {
        if at >= self.controllers.len() {
            return Ok(());
        }
        let controllers = mem::replace(&mut self.controllers, Vec::new(alloc));
        self.controllers = renew_at(alloc, hands_on, seals, controllers, at)?;
        Ok(())
    }

    /// Whether each client has its outcome.
    pub(crate) fn have_outcomes(&self, alloc: Global) -> Result<Vec<bool>, NoMemory>
        ensures { IfOk result (λ had. had.items ≡ map has_its_outcome self.now.clients) }
    {
        let mut had = Vec::new(alloc);
        for client in self.clients.iter() {
            had.push(client.outcome().is_some())?;
        }
        Ok(had)
    }

    /// Clients that had no outcome have none, stations are let go, and no end takes a step any more. It takes no
    /// memory.
    pub(crate) fn give_up(&mut self, alloc: Global, had: &[bool])
        ensures clients { OutcomesFall had.now self.old.clients self.new.clients }
        ensures stations { self.new.stations ≡ [] }
    {
        let clients = mem::replace(&mut self.clients, Vec::new(alloc));
        self.gave_up = true;
        self.stations = Vec::new(alloc);
        self.clients = without_new(alloc, clients, had);
    }

    /// Puts a member in the place of the one of that number, if there is one.
    pub(crate) fn put_member(&mut self, at: usize, member: Member)
        requires { member_is_stopped member ≡ false }
        ensures { self.new ≡ with_member at member self.old }
    {
        if at < self.members.len() {
            drop(mem::replace(&mut self.members[at], member));
        } else {
            drop(member);
        }
    }

    /// Puts a client in the place of the one of that number, if there is one.
    pub(crate) fn put_client(&mut self, at: usize, client: Client)
        requires { IsSome client.running }
        ensures { self.new ≡ with_client at client self.old }
    {
        if at < self.clients.len() {
            self.clients[at] = client;
        }
    }

    /// This station is in the place of the one of that number, if there is one.
    pub(crate) fn put_station(&mut self, at: usize, station: Station)
        requires { IsSome station.running }
        ensures { self.new ≡ with_station at station self.old }
    {
        if at < self.stations.len() {
            self.stations[at] = station;
        }
    }
}

/// A member is told to change to the secret: its actions, of which there are none where it changes to another one
/// already. It runs on, but for want of memory.
#[tactic(auto, using(crate::proofs::ChangeLaws::changes_so, crate::proofs::ChangeLaws::change_runs, crate::proofs::ChangeLaws::change_short))]
fn change_member(alloc: Global, member: &mut Member, secret: [u8; 16]) -> Result<Actions, NoMemory>
    requires { member_is_stopped member.old ≡ false }
    ensures answer { IfOk result (λ actions. HasChanged actions member.old secret member.new) }
    ensures runs { OnOk result (member_is_stopped member.new ≡ false) }
    ensures short { IfOk result (λ actions. AreShortSends actions) }
{
    match member.change(alloc, secret) {
        Ok(actions) => Ok(actions),
        Err(ChangeRefused::Memory) => Err(NoMemory),
        Err(ChangeRefused::Stopped | ChangeRefused::Busy { .. }) => Ok(Actions::new(alloc)),
    }
}

/// The controllers, of which the one at the place is made anew. Want of memory drops them.
fn renew_at(
    alloc: Global,
    hands_on: bool,
    seals: bool,
    controllers: Vec<Controller>,
    at: usize,
) -> Result<Vec<Controller>, NoMemory>
    requires { at < length controllers.items }
    ensures { IfOk result (λ after. (old : ControllerState) →
        slice_get controllers.items at ≡ Some old →
        after.items ≡ slice_set controllers.items at
        (fresh_controller hands_on seals old.table old.name)) }
{
    let mut controllers = controllers;
    let (table, name) = controllers.remove(at).into_parts();
    controllers.insert(at, fresh_controller(alloc, hands_on, seals, table, name)?)?;
    Ok(controllers)
}

/// A controller of that name over these accounts, which can seal or can't. One that can hands logons on to the
/// controllers of trusted domains; one that can't does so or asks nobody.
pub(crate) fn fresh_controller(
    alloc: Global,
    hands_on: bool,
    seals: bool,
    table: Table,
    name: Name,
) -> Result<Controller, NoMemory>
    ensures { IfOk result
        (λ controller. controller ≡ fresh_controller hands_on seals table name) }
{
    if seals {
        Controller::with_sealing(alloc, table, name)
    } else if hands_on {
        Controller::with_trusts(alloc, table, name)
    } else {
        Controller::new(alloc, table, name)
    }
}

/// The clients, of which those that had no outcome are let go: a client without a name stands in the place of each.
#[tactic(auto, using(crate::proofs::OutcomeLaws::fall_first, crate::proofs::OutcomeLaws::fall_kept, crate::proofs::OutcomeLaws::fall_let_go, crate::proofs::OutcomeLaws::fall_all))]
fn without_new(alloc: Global, clients: Vec<Client>, had: &[bool]) -> Vec<Client>
    ensures outcomes { OutcomesFall had.now clients.items result.items }
    ensures size { length result.items ≡ length clients.items }
{
    let mut clients = clients;
    for at in 0..clients.len() {
        if is_set(had, at) {
            continue;
        }
        clients[at] = nobody(alloc);
    }
    clients
}

/// Whether that is told of the place.
fn is_set(told: &[bool], at: usize) -> bool
    ensures { result ≡ is_told (slice_get told.now at) }
{
    match told.get(at) {
        Some(set) => *set,
        None => false,
    }
}

/// A client without a name, which hasn't begun. It takes no memory.
fn nobody(alloc: Global) -> Client
    ensures { result.outcome ≡ None }
{
    Client::new(ClientPlan {
        server: Blob::from_vec(Vec::new(alloc)),
        domain: Units::from_vec(Vec::new(alloc)),
        user: Units::from_vec(Vec::new(alloc)),
        workstation: Units::from_vec(Vec::new(alloc)),
        hash: [0; 16],
        level: CONNECT_LEVEL,
        auth: AuthKind::V2,
        echo: 0,
    })
}
