//! Cases of `domain_world`: a world of a plan and its moves, a run a line, and the moves that a number makes.

ghost use Rattle.std.specs.Prelude.{◌≡◌, ◌≤◌, true, length, All};
ghost use Rattle.interactive_station.specs.Plans.{CanStation};
ghost use Rattle.logon_client.specs.Plans.{CanLogOn};
ghost use Rattle.domain_world.specs.World.{IsMove, IsPlan};

use crate::controllers::table;
use crate::members::{self, name};
use crate::{clients, stations};
use case_words::{add_debug, blob, debug_text, no_case, number, number64, sixteen, word};
use domain_world::{
    ClientPlans, MemberPlans, Move, Moves, Plan, Report, StationPlans, Tables, World, drive,
    moves_from,
};
use std::alloc::Global;
use wire_base::Names;

/// The parts of a word, between slashes.
fn parts<'a>(alloc: Global, word: &'a str) -> anyhow::Result<Vec<&'a str>> {
    Ok(word.split('/').collect(alloc)?)
}

/// Puts the controller of the parts `controller DOCUMENT NAME`.
fn put_controller(alloc: Global, plan: &mut Plan, parts: &[&str]) -> anyhow::Result<()> {
    let table = table(alloc, word(parts, 1))?;
    plan.tables.push(table)?;
    let name = name(alloc, word(parts, 2))?;
    plan.controllers.push(name)?;
    Ok(())
}

/// Puts the member of the parts `member COMPUTER DOMAIN SECRET CONTROLLER`, whose channel seals where `sealed` follows.
fn put_member(alloc: Global, plan: &mut Plan, parts: &[&str]) -> anyhow::Result<()> {
    let mut member = members::plan(alloc, parts)?;
    member.sealed = word(parts, 5) == "sealed";
    plan.members.push(member)?;
    Ok(())
}

/// Puts the client of the parts `client SERVER DOMAIN USER WORKSTATION HASH LEVEL KIND ECHO`.
fn put_client(alloc: Global, plan: &mut Plan, parts: &[&str]) -> anyhow::Result<()> {
    let client = clients::plan(alloc, parts)?;
    plan.clients.push(client)?;
    Ok(())
}

/// Puts the station of the parts `station CONTROLLER COMPUTER SECRET DOMAIN USER HASH`.
fn put_station(alloc: Global, plan: &mut Plan, parts: &[&str]) -> anyhow::Result<()> {
    let station = stations::plan(alloc, parts)?;
    plan.stations.push(station)?;
    Ok(())
}

/// Puts what these parts say of a plan, where they do: an end, the moment as `now MOMENT`, `trusting`, that its
/// controllers hand logons on, or `sealing`, that they can seal.
fn put_parts(alloc: Global, plan: &mut Plan, parts: &[&str]) -> anyhow::Result<()> {
    match word(parts, 0) {
        "controller" => put_controller(alloc, plan, parts),
        "member" => put_member(alloc, plan, parts),
        "client" => put_client(alloc, plan, parts),
        "station" => put_station(alloc, plan, parts),
        "now" => {
            plan.now = number64(word(parts, 1))?;
            Ok(())
        }
        "trusting" => {
            plan.hands_on = true;
            Ok(())
        }
        "sealing" => {
            plan.seals = true;
            Ok(())
        }
        _ => Ok(()),
    }
}

/// Puts what a word says of a plan.
fn put_word(alloc: Global, plan: &mut Plan, word: &str) -> anyhow::Result<()> {
    let parts = parts(alloc, word)?;
    put_parts(alloc, plan, &parts)
}

/// A plan without ends, at the moment 0, of which the seed is 32 zeros. Its controllers hand nothing on and seal
/// nothing.
fn empty_plan(alloc: Global) -> Plan {
    Plan {
        tables: Tables::new(alloc),
        controllers: Names::new(alloc),
        members: MemberPlans::new(alloc),
        clients: ClientPlans::new(alloc),
        stations: StationPlans::new(alloc),
        hands_on: false,
        seals: false,
        now: 0,
        seed: [0; 32],
    }
}

/// The plan of a line.
fn read_plan(alloc: Global, words: &[&str]) -> anyhow::Result<Plan> {
    let mut plan = empty_plan(alloc);
    for each in words {
        put_word(alloc, &mut plan, each)?;
    }
    Ok(plan)
}

/// The first number of a move, 0 where there is none.
fn first(parts: &[&str]) -> u32 {
    number(word(parts, 1)).unwrap_or(0)
}

/// The second number of a move.
fn second(parts: &[&str]) -> u32 {
    number(word(parts, 2)).unwrap_or(0)
}

/// The move of a name and its numbers. None where it is no move, or one with other parts.
fn move_of(name: &str, one: u32, other: u32) -> Option<Move> {
    match name {
        "start" => Some(Move::Start(one)),
        "stranger" => Some(Move::Stranger(one)),
        "connect" => Some(Move::Connect),
        "fail" => Some(Move::FailDial),
        "onward" => Some(Move::Onward),
        "lose" => Some(Move::Lose),
        "deliver" => Some(Move::Deliver {
            unit: one,
            link: other,
        }),
        "shut" => Some(Move::Shut(one)),
        "restart" => Some(Move::Restart(one)),
        _ => None,
    }
}

/// The move of the parts `hand LINK WAY BYTES`.
fn hand(alloc: Global, parts: &[&str]) -> anyhow::Result<Option<Move>> {
    let bytes = blob(alloc, word(parts, 3))?;
    Ok(Some(Move::Hand {
        link: first(parts),
        back: word(parts, 2) == "back",
        bytes,
    }))
}

/// The move of the parts `change NUMBER SECRET`.
fn change(parts: &[&str]) -> anyhow::Result<Option<Move>> {
    Ok(Some(Move::Change {
        member: first(parts),
        secret: sixteen(word(parts, 2))?,
    }))
}

/// The move of a word: `start/NUMBER`, `stranger/NUMBER`, `connect`, `fail`, `onward`, `lose`, `deliver/UNIT/LINK`,
/// `hand/LINK/WAY/BYTES` (the way `back` or another), `shut/NUMBER`, `restart/NUMBER`, `change/NUMBER/SECRET`,
/// `tick/NUMBER`. None where it is no move.
fn read_move(alloc: Global, parts: &[&str]) -> anyhow::Result<Option<Move>> {
    match word(parts, 0) {
        "hand" => hand(alloc, parts),
        "change" => change(parts),
        "tick" => Ok(Some(Move::Tick(number64(word(parts, 1))?))),
        name => Ok(move_of(name, first(parts), second(parts))),
    }
}

/// Puts the move of a word, where it is one.
fn put_move(alloc: Global, moves: &mut Moves, word: &str) -> anyhow::Result<()> {
    let parts = parts(alloc, word)?;
    match read_move(alloc, &parts)? {
        Some(what) => Ok(moves.push(what)?),
        None => Ok(()),
    }
}

/// The moves of a line.
fn read_moves(alloc: Global, words: &[&str]) -> anyhow::Result<Moves> {
    let mut moves = Moves::new(alloc);
    for each in words {
        put_move(alloc, &mut moves, each)?;
    }
    Ok(moves)
}

/// Whether a world can make the move.
fn is_move(what: &Move) -> bool
    ensures { result ≡ true → IsMove what.now }
{
    match what {
        Move::Hand { bytes, .. } => bytes.bytes().len() <= 65536,
        _ => true,
    }
}

/// Whether a world can make the moves.
fn are_moves(moves: &Moves) -> bool
    ensures { result ≡ true → All IsMove moves.now }
{
    moves.items().iter().all(|what| is_move(what))
}

/// Whether clients can follow their plans.
fn can_log_on(plans: &ClientPlans) -> bool
    ensures { result ≡ true → All CanLogOn plans.now }
{
    plans.items().iter().all(|plan| clients::can_log_on(plan))
}

/// Whether each station can follow its plan.
fn can_station(plans: &StationPlans) -> bool
    ensures { result ≡ true → All CanStation plans.now }
{
    plans.items().iter().all(|plan| stations::can_station(plan))
}

/// What an answer tells of a world besides its report.
#[derive(Clone, Copy)]
enum Tells {
    /// The outcomes of the clients at the first four places.
    Clients,
    /// The outcomes of the clients at the first four places, and what the members at the first two places keep.
    Kept,
    /// The outcomes of the stations at the first four places.
    Stations,
}

/// The report, and the outcomes of the clients at the first four places.
fn text_of_world(alloc: Global, world: &World, report: &Report) -> anyhow::Result<String> {
    let mut answers = debug_text(alloc, report)?;
    for client in 0..4u32 {
        add_debug(alloc, &mut answers, world.outcome(client))?;
    }
    Ok(answers)
}

/// The report, the outcomes of the first four clients, and the secrets that the members at the first two places keep.
fn text_with_kept(alloc: Global, world: &World, report: &Report) -> anyhow::Result<String> {
    let mut answers = text_of_world(alloc, world, report)?;
    for member in 0..2u32 {
        add_debug(alloc, &mut answers, world.kept(member))?;
    }
    Ok(answers)
}

/// The report, and the outcomes of the stations at the first four places.
fn text_of_stations(alloc: Global, world: &World, report: &Report) -> anyhow::Result<String> {
    let mut answers = debug_text(alloc, report)?;
    for station in 0..4u32 {
        add_debug(alloc, &mut answers, world.station(station))?;
    }
    Ok(answers)
}

/// The report of a world of the plan, driven by the moves, and what is told besides.
fn play(alloc: Global, plan: Plan, moves: &Moves, tells: Tells) -> anyhow::Result<String>
    requires plan { IsPlan plan }
    requires moves { All IsMove moves.now }
    requires few { length moves.now ≤ 100000 }
{
    let mut world = World::new(alloc, plan)?;
    let report = drive(alloc, &mut world, moves)?;
    match tells {
        Tells::Clients => text_of_world(alloc, &world, &report),
        Tells::Kept => text_with_kept(alloc, &world, &report),
        Tells::Stations => text_of_stations(alloc, &world, &report),
    }
}

/// The report and the outcomes, where the plan and the moves are ones that a world can have.
fn play_if(alloc: Global, plan: Plan, moves: &Moves, tells: Tells) -> anyhow::Result<String> {
    if moves.len() > 100000 || !are_moves(moves) {
        return no_case(alloc);
    }
    if !can_log_on(&plan.clients) || !can_station(&plan.stations) {
        return no_case(alloc);
    }
    if plan.tables.len() != plan.controllers.len() {
        return no_case(alloc);
    }
    play(alloc, plan, moves, tells)
}

/// `world.run WORD ..`: the plan's words and the moves: the report, and the outcomes of the clients at the first four
/// places.
fn run(alloc: Global, words: &[&str]) -> anyhow::Result<String> {
    let moves = read_moves(alloc, words)?;
    let plan = read_plan(alloc, words)?;
    play_if(alloc, plan, &moves, Tells::Clients)
}

/// `world.stations WORD ..`: what `world.run` gives, with the outcomes of the stations at the first four places in
/// place of the clients'.
fn with_stations(alloc: Global, words: &[&str]) -> anyhow::Result<String> {
    let moves = read_moves(alloc, words)?;
    let plan = read_plan(alloc, words)?;
    play_if(alloc, plan, &moves, Tells::Stations)
}

/// `world.kept WORD ..`: what `world.run` gives, and the secrets that the members at the first two places keep.
fn kept(alloc: Global, words: &[&str]) -> anyhow::Result<String> {
    let moves = read_moves(alloc, words)?;
    let plan = read_plan(alloc, words)?;
    play_if(alloc, plan, &moves, Tells::Kept)
}

/// `world.drill NUMBER COUNT WORD ..`: what `world.run` gives, of so many moves that the number makes.
fn drill(alloc: Global, words: &[&str]) -> anyhow::Result<String> {
    let from = number64(word(words, 1))?;
    let count = number(word(words, 2))?;
    let moves = moves_from(alloc, from, count)?;
    let plan = read_plan(alloc, words)?;
    play_if(alloc, plan, &moves, Tells::Clients)
}

/// `world.moves NUMBER COUNT`: so many moves that the number makes.
fn made(alloc: Global, words: &[&str]) -> anyhow::Result<String> {
    let from = number64(word(words, 1))?;
    let count = number(word(words, 2))?;
    let moves = moves_from(alloc, from, count)?;
    debug_text(alloc, &moves)
}

/// What an operation gives.
pub(crate) fn answer(alloc: Global, operation: &str, words: &[&str]) -> anyhow::Result<String> {
    match operation {
        "run" => run(alloc, words),
        "kept" => kept(alloc, words),
        "stations" => with_stations(alloc, words),
        "drill" => drill(alloc, words),
        "moves" => made(alloc, words),
        _ => no_case(alloc),
    }
}
