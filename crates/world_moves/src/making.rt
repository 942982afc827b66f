//! A world as it is made from its plan.

ghost use Rattle.std.specs.Prelude.{◌≡◌, ◌+◌, ◌<◌, ◌^◌, true, map, length, All, IfOk};
ghost use Rattle.interactive_station.specs.Machine.{fresh_station};
ghost use Rattle.interactive_station.specs.Plans.{CanStation};
ghost use Rattle.logon_client.specs.Machine.{fresh_client};
ghost use Rattle.logon_client.specs.Plans.{CanLogOn};
ghost use Rattle.member_server.specs.SealStep.{sealing_member};
ghost use Rattle.world_moves.specs.World.{IsPlan, first_world, first_controllers};

use crate::bag::Bag;
use crate::counting::Counts;
use crate::ends::{Ends, fresh_controller};
use crate::links::{OpenLinks, WorldLinks};
use crate::maker::Maker;
use crate::plan::{
    ClientPlans, ClientTask, ClientTasks, MemberPlans, Plan, StationPlans, StationTask,
    StationTasks, Tables,
};
use crate::state::State;
use domain_controller::Controller;
use interactive_station::Station;
use logon_client::Client;
use member_server::Member;
use std::alloc::Global;
use wire_base::{List, Names, NoMemory};

/// The state of a world in which no move was made.
pub(crate) fn first_state(alloc: Global, plan: Plan) -> Result<State, NoMemory>
    requires { IsPlan plan }
    ensures { IfOk result (λ state. state ≡ (first_world plan).state) }
{
    let Plan {
        tables,
        controllers,
        members,
        clients,
        stations,
        hands_on,
        seals,
        now,
        seed,
    } = plan;
    let client_plans = tasks_of(alloc, clients)?;
    let station_plans = station_tasks_of(alloc, stations)?;
    let ends = first_ends(
        alloc,
        hands_on,
        seals,
        tables,
        controllers,
        &members,
        &client_plans,
        &station_plans,
    )?;
    Ok(State {
        ends,
        member_plans: members,
        client_plans,
        station_plans,
        hands_on,
        seals,
        links: WorldLinks::new(alloc),
        open_links: OpenLinks::new(alloc),
        bag: Bag::new(alloc),
        dials: List::new(alloc),
        moment: now,
        chances: Maker::new(seed),
        counts: Counts::new(),
    })
}

/// The ends, by their plans. There is no memory for so many that they can't be numbered.
#[tactic(auto, using(crate::proofs::RunningLaws::fresh_running))]
fn first_ends(
    alloc: Global,
    hands_on: bool,
    seals: bool,
    tables: Tables,
    names: Names,
    members: &MemberPlans,
    clients: &ClientTasks,
    stations: &StationTasks,
) -> Result<Ends, NoMemory>
    ensures { IfOk result (λ ends. ends ≡ record {
      controllers = first_controllers hands_on seals tables names;
      members = map sealing_member members.now;
      clients = map fresh_client clients.now;
      stations = map fresh_station stations.now;
    }) }
{
    let controllers = first_controllers(alloc, hands_on, seals, tables, names)?;
    let members = first_members(alloc, members)?;
    let clients = first_clients(alloc, clients)?;
    let stations = first_stations(alloc, stations)?;
    if !can_be_numbered(
        controllers.len(),
        members.len(),
        clients.len(),
        stations.len(),
    ) {
        return Err(NoMemory);
    }
    Ok(Ends::new(controllers, members, clients, stations))
}

/// Whether as many ends can be numbered as controllers, members, clients and stations are.
fn can_be_numbered(controllers: usize, members: usize, clients: usize, stations: usize) -> bool
    ensures { result ≡ true → controllers + members + clients + stations < 2 ^ 64 }
{
    let Some(acceptors) = controllers.checked_add(members) else {
        return false;
    };
    match acceptors.checked_add(clients) {
        Some(others) => others.checked_add(stations).is_some(),
        None => false,
    }
}

/// The controllers: each takes its table and its name.
fn first_controllers(
    alloc: Global,
    hands_on: bool,
    seals: bool,
    tables: Tables,
    names: Names,
) -> Result<Vec<Controller>, NoMemory>
    ensures { IfOk result (λ controllers.
        controllers.items ≡ first_controllers hands_on seals tables names) }
{
    let mut controllers = Vec::new(alloc);
    let mut names = names.into_vec().into_iter();
    for table in tables.into_vec() {
        match names.next() {
            Some(name) => controllers.push(fresh_controller(alloc, hands_on, seals, table, name)?)?,
            None => return Ok(controllers),
        }
    }
    Ok(controllers)
}

/// The members, by their plans.
fn first_members(alloc: Global, plans: &MemberPlans) -> Result<Vec<Member>, NoMemory>
    ensures { IfOk result (λ members. members.items ≡ map sealing_member plans.now) }
{
    let mut members = Vec::new(alloc);
    for plan in plans.items() {
        members.push(Member::with_sealing(alloc, plan.copy(alloc)?)?)?;
    }
    Ok(members)
}

/// The plans, each as one that a client can follow.
fn tasks_of(alloc: Global, plans: ClientPlans) -> Result<ClientTasks, NoMemory>
    requires { All CanLogOn plans }
    ensures { IfOk result (λ tasks. tasks ≡ plans) }
{
    let mut tasks = ClientTasks::new(alloc);
    for plan in plans.into_vec() {
        tasks.push(ClientTask::new(plan))?;
    }
    Ok(tasks)
}

/// The clients, by their plans.
fn first_clients(alloc: Global, tasks: &ClientTasks) -> Result<Vec<Client>, NoMemory>
    ensures { IfOk result (λ clients. clients.items ≡ map fresh_client tasks.now) }
{
    let mut clients = Vec::new(alloc);
    for task in tasks.items() {
        clients.push(task.client(alloc)?)?;
    }
    Ok(clients)
}

/// The plans, each as one that a station can follow.
fn station_tasks_of(alloc: Global, plans: StationPlans) -> Result<StationTasks, NoMemory>
    requires { All CanStation plans }
    ensures { IfOk result (λ tasks. tasks ≡ plans) }
{
    let mut tasks = StationTasks::new(alloc);
    for plan in plans.into_vec() {
        tasks.push(StationTask::new(plan))?;
    }
    Ok(tasks)
}

/// The stations, by their plans.
fn first_stations(alloc: Global, tasks: &StationTasks) -> Result<Vec<Station>, NoMemory>
    ensures { IfOk result (λ stations. stations.items ≡ map fresh_station tasks.now) }
{
    let mut stations = Vec::new(alloc);
    for task in tasks.items() {
        stations.push(task.station(alloc)?)?;
    }
    Ok(stations)
}
