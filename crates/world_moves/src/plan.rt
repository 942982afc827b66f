//! What a world is made from.

ghost use Rattle.std.specs.Prelude.{◌≡◌, IfOk};
ghost use Rattle.interactive_station.specs.Machine.{fresh_station};
ghost use Rattle.interactive_station.specs.Plans.{CanStation};
ghost use Rattle.logon_client.specs.Machine.{fresh_client};
ghost use Rattle.logon_client.specs.Plans.{CanLogOn};
ghost use Rattle.world_moves.specs.Forms.{HasForms};

use crate::forms::{
    clients_have_forms, is_hyper, is_seed, members_have_forms, stations_have_forms,
    tables_have_forms,
};
use account_table::{Table, names_have_forms};
use interactive_station::{Station, StationPlan};
use logon_client::{Client, ClientPlan};
use member_server::MemberPlan;
use std::alloc::Global;
use std::marker::Model;
use wire_base::{List, Names, NoMemory};

/// Account tables, in order.
pub type Tables = List<Table>;

/// Plans of members, in order.
pub type MemberPlans = List<MemberPlan>;

/// Plans of clients, in order.
pub type ClientPlans = List<ClientPlan>;

/// Plans of stations, in order.
pub type StationPlans = List<StationPlan>;

/// The ends of a world, its first moment in units of 100 ns since 1601-01-01, and the seed of the maker of challenges
/// from which all ends draw (this project's own choice). There are as many tables as controllers. Ends are numbered
/// from 0: controllers, members, clients, stations; an address is the number of an end as one byte.
///
/// Where `hands_on` is set, each controller hands logons on to the controllers of the domains that its table trusts,
/// whose addresses are such numbers too. Where it isn't, none does, and trusted domains of a table are passed over.
///
/// Where `seals` is set, each controller can seal, and hands logons on too, whatever `hands_on` says. The channel of a
/// member seals where its own plan says so.
#[derive(Drop)]
pub struct Plan {
    pub tables: Tables,
    pub controllers: Names,
    pub members: MemberPlans,
    pub clients: ClientPlans,
    pub stations: StationPlans,
    pub hands_on: bool,
    pub seals: bool,
    pub now: u64,
    pub seed: [u8; 32],
}

impl Plan {
    /// The plan has the forms that its types give it (a part of `IsSchedule`). It is called so that this is known. It
    /// takes no memory, and walks the accounts of all tables and the other plans.
    pub fn has_forms(&self)
        ensures { HasForms self.entry.now }
    {
        tables_have_forms(self.tables.items());
        names_have_forms(self.controllers.items());
        members_have_forms(self.members.items());
        clients_have_forms(self.clients.items());
        stations_have_forms(self.stations.items());
        is_hyper(self.now);
        is_seed(self.seed);
    }
}

/// A plan that a client can follow, seen as the plan.
#[derive(Drop)]
pub struct ClientTask {
    plan: ClientPlan,
}

impl Model for ClientTask {
    ghost use Rattle.logon_client.specs.declared.plan.ClientPlan.{ClientPlan as AnyPlan};
    ghost use Rattle.logon_client.specs.Plans.{CanLogOn};

    ghost Value = { AnyPlan };

    ghost view = { λ t. t.plan };

    ghost invariant = { λ t. CanLogOn t.plan };
}

impl ClientTask {
    /// The task of a plan. It takes no memory.
    pub(crate) fn new(plan: ClientPlan) -> ClientTask
        requires { CanLogOn plan }
        ensures { result ≡ plan }
    {
        ClientTask { plan }
    }

    /// A client of the plan, which hasn't begun.
    pub(crate) fn client(&self, alloc: Global) -> Result<Client, NoMemory>
        ensures { IfOk result (λ client. client ≡ fresh_client self.now) }
    {
        Ok(Client::new(self.plan.copy(alloc)?))
    }
}

/// Plans that clients can follow.
pub(crate) type ClientTasks = List<ClientTask>;

/// A plan that a station can follow, seen as the plan.
#[derive(Drop)]
pub struct StationTask {
    plan: StationPlan,
}

impl Model for StationTask {
    ghost use Rattle.interactive_station.specs.declared.plan.StationPlan.{StationPlan as AnyPlan};
    ghost use Rattle.interactive_station.specs.Plans.{CanStation};

    ghost Value = { AnyPlan };

    ghost view = { λ t. t.plan };

    ghost invariant = { λ t. CanStation t.plan };
}

impl StationTask {
    /// The task of a plan. It takes no memory.
    pub(crate) fn new(plan: StationPlan) -> StationTask
        requires { CanStation plan }
        ensures { result ≡ plan }
    {
        StationTask { plan }
    }

    /// A station of the plan, which hasn't begun.
    pub(crate) fn station(&self, alloc: Global) -> Result<Station, NoMemory>
        ensures { IfOk result (λ station. station ≡ fresh_station self.now) }
    {
        Ok(Station::new(alloc, self.plan.copy(alloc)?)?)
    }
}

/// Plans that stations can follow.
pub(crate) type StationTasks = List<StationTask>;
