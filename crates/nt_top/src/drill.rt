//! The command `drill`.

ghost use Rattle.std.specs.Prelude.{◌≡◌, ◌≤◌, ◌++◌, true, IfOk, OnOk};
ghost use Rattle.wire_base.specs.Memory.{UpToMemory};
ghost use Rattle.wire_base.specs.Names.{is_name};
ghost use Rattle.domain_world.specs.World.{move_limit};
ghost use Rattle.nt_top.specs.Drill.{IsProvedDrill, count_line, drill_answer, drill_client, drill_clients, drill_member, drill_members, drill_plan, drill_table, drill_text, report_text};

use crate::answer::Answer;
use crate::exit::Exit;
use account_table::{Table, TableRefused};
use domain_world::{
    ClientPlans, MemberPlans, Plan, Report, StationPlans, Tables, drive_from, moves_from,
};
use logon_client::{AuthKind, ClientPlan};
use member_server::MemberPlan;
use secret_change::Secrets;
use std::alloc::{AllocError, Global};
use wire_base::{Blob, Name, NameRefused, Names, NoMemory, Units};

/// The document of the accounts of a drill (this project's own choice).
const DOCUMENT: &str = "domain = 'CORP'
sid = 'S-1-5-21-1-2-3'
[[user]]
name = 'ann'
rid = 1001
hash = '11111111111111111111111111111111'
[[user]]
name = 'bob'
rid = 1002
hash = '22222222222222222222222222222222'
[[user]]
name = 'eve'
rid = 1003
hash = '33333333333333333333333333333333'
[[machine]]
name = 'FILE1$'
kind = 'workstation'
hash = '41414141414141414141414141414141'
[[machine]]
name = 'FILE2$'
kind = 'workstation'
hash = '42424242424242424242424242424242'
";

/// What `drill` comes to for a number and a count of moves: the six lines of what the run counted.
pub(crate) fn drill(alloc: Global, number: u32, moves: u32) -> Result<Answer, Exit>
    requires { moves ≤ move_limit }
    ensures answer { UpToMemory Exit.NoMemory result (drill_answer number moves) }
    ensures proved { OnOk result (IsProvedDrill number moves) }
{
    let lines = drill_lines(alloc, number, moves)?;
    Ok(Answer {
        refused: None,
        lines,
    })
}

/// The six lines of a drill: what was counted in the run of as many moves of the number as `moves`, in a world of the
/// drill's plan (docs/FORMATS.md; this project's own choice). At most 100,000 moves are made. It fails only for want of
/// memory.
#[tactic(auto, using(crate::proofs::DrillLaws::driving), unfolding(crate::specs::Drill::drill_text))]
pub fn drill_lines(alloc: Global, number: u32, moves: u32) -> Result<Blob, NoMemory>
    requires { moves ≤ move_limit }
    ensures lines { IfOk result (λ lines. lines ≡ drill_text number moves) }
    // All that is proved of runs holds of the run that was counted.
    ensures proved { OnOk result (IsProvedDrill number moves) }
{
    let moves = moves_from(alloc, u64::from(number), moves)?;
    let world = drive_from(alloc, drill_plan(alloc)?, &moves)?;
    report_lines(alloc, &world.report())
}

/// Six lines, each with a count.
#[tactic(auto, unfolding(crate::specs::Drill::report_text))]
fn report_lines(alloc: Global, report: &Report) -> Result<Blob, NoMemory>
    ensures { IfOk result (λ lines. lines ≡ report_text report.now) }
{
    let mut lines = Vec::new(alloc);
    put_count(&mut lines, "moves", report.moves)?;
    put_count(&mut lines, "accepted", report.accepted)?;
    put_count(&mut lines, "refused", report.refused)?;
    put_count(&mut lines, "no controller", report.no_controller)?;
    put_count(&mut lines, "passed", report.passed)?;
    put_count(&mut lines, "barred", report.barred)?;
    Ok(Blob::from_vec(lines))
}

/// Adds the line of a count.
fn put_count(lines: &mut Vec<u8>, name: &str, count: u32) -> Result<(), AllocError>
    ensures { OnOk result (lines.new.items ≡ lines.old.items ++ count_line name.now count) }
{
    let line = format!(in *lines.allocator(); "{name} {count}\n")?;
    lines.extend_from_slice(line.as_bytes())
}

/// The plan of a drill.
fn drill_plan(alloc: Global) -> Result<Plan, NoMemory>
    ensures { IfOk result (λ plan. plan ≡ drill_plan) }
{
    let mut tables = Tables::new(alloc);
    tables.push(drill_table(alloc)?)?;
    let mut controllers = Names::new(alloc);
    controllers.push(name(alloc, b"PDC")?)?;
    Ok(Plan {
        tables,
        controllers,
        members: drill_members(alloc)?,
        clients: drill_clients(alloc)?,
        stations: StationPlans::new(alloc),
        hands_on: false,
        seals: false,
        now: 125911584000000000,
        seed: [0; 32],
    })
}

/// The accounts of a drill.
fn drill_table(alloc: Global) -> Result<Table, NoMemory>
    ensures { IfOk result (λ table. table ≡ drill_table) }
{
    match Table::read(alloc, DOCUMENT.as_bytes()) {
        Ok(table) => Ok(table),
        Err(refused) => Err(no_memory_for_table(refused)),
    }
}

/// The document is a table, so that reading it fails for want of memory alone.
fn no_memory_for_table(refused: TableRefused) -> NoMemory
    requires { refused ≡ TableRefused.Memory }
{
    match refused {
        TableRefused::Memory => NoMemory,
        _ => unreachable!(),
    }
}

/// The members of a drill.
fn drill_members(alloc: Global) -> Result<MemberPlans, NoMemory>
    ensures { IfOk result (λ plans. plans ≡ drill_members) }
{
    let mut plans = MemberPlans::new(alloc);
    plans.push(drill_member(alloc, b"FILE1", 0x41)?)?;
    plans.push(drill_member(alloc, b"FILE2", 0x42)?)?;
    Ok(plans)
}

/// A member of a drill: its computer, and each byte of its secret.
fn drill_member(alloc: Global, computer: &[u8], byte: u8) -> Result<MemberPlan, NoMemory>
    requires { is_name computer.now ≡ true }
    ensures { IfOk result (λ plan. plan ≡ drill_member computer.now byte) }
{
    Ok(MemberPlan {
        computer: name(alloc, computer)?,
        domain: name(alloc, b"CORP")?,
        secrets: Secrets::alone([byte; 16]),
        controller: Blob::copy(alloc, &[0])?,
        sealed: false,
    })
}

/// The clients of a drill.
fn drill_clients(alloc: Global) -> Result<ClientPlans, NoMemory>
    ensures { IfOk result (λ plans. plans ≡ drill_clients) }
{
    let mut plans = ClientPlans::new(alloc);
    plans.push(drill_client(alloc, 1, b"ann", 0x11, 6, AuthKind::V2)?)?;
    plans.push(drill_client(alloc, 1, b"bob", 0x22, 5, AuthKind::V1Ess)?)?;
    plans.push(drill_client(alloc, 2, b"eve", 0x34, 2, AuthKind::V1)?)?;
    Ok(plans)
}

/// A client of a drill: the number of its server, its user, each byte of its hash, its level and its kind of response.
fn drill_client(
    alloc: Global,
    server: u8,
    user: &[u8],
    byte: u8,
    level: u8,
    auth: AuthKind,
) -> Result<ClientPlan, NoMemory>
    requires { is_name user.now ≡ true }
    ensures { IfOk result (λ plan. plan ≡ drill_client server user.now byte level auth) }
{
    Ok(ClientPlan {
        server: Blob::copy(alloc, &[server])?,
        domain: text(alloc, b"CORP")?,
        user: text(alloc, user)?,
        workstation: text(alloc, b"WS")?,
        hash: [byte; 16],
        level,
        auth,
        echo: 16,
    })
}

/// A name as 16-bit units.
fn text(alloc: Global, bytes: &[u8]) -> Result<Units, NoMemory>
    requires { is_name bytes.now ≡ true }
    ensures { IfOk result (λ units. units ≡ bytes.now) }
{
    name(alloc, bytes)?.units(alloc)
}

/// A name of these bytes.
#[tactic(auto, using(crate::proofs::DrillLaws::naming))]
fn name(alloc: Global, bytes: &[u8]) -> Result<Name, NoMemory>
    requires { is_name bytes.now ≡ true }
    ensures { IfOk result (λ name. name ≡ bytes.now) }
{
    match Name::read(alloc, bytes) {
        Ok(name) => Ok(name),
        Err(refused) => Err(no_memory_for_name(refused)),
    }
}

/// Bytes that are a name are refused for want of memory alone.
fn no_memory_for_name(refused: NameRefused) -> NoMemory
    requires { refused ≡ NameRefused.Memory }
{
    match refused {
        NameRefused::Memory => NoMemory,
        _ => unreachable!(),
    }
}
