//! What the types of a plan's parts give of themselves, which is known by calls that do nothing.

ghost use Rattle.std.specs.Prelude.{◌<◌, ◌^◌, All};
ghost use Rattle.world_moves.specs.Forms.{AreUnits, IsBlock, IsClientPlan, IsMemberPlan, IsNextHash, IsStationPlan, IsTable};

use account_table::{Table, are_bytes, is_hash};
use interactive_station::StationPlan;
use logon_client::ClientPlan;
use member_server::MemberPlan;

/// Each table has the form that its type gives it.
pub(crate) fn tables_have_forms(tables: &[Table])
    ensures { All IsTable tables.now }
{
    for table in tables {
        table.has_form();
    }
}

/// Each plan of a member has the form that its type gives it.
pub(crate) fn members_have_forms(plans: &[MemberPlan])
    ensures { All IsMemberPlan plans.now }
{
    for plan in plans {
        member_has_form(plan);
    }
}

/// The plan has that form.
fn member_has_form(plan: &MemberPlan)
    ensures { IsMemberPlan plan.now }
{
    let _computer = plan.computer.bytes();
    let _domain = plan.domain.bytes();
    is_hash(plan.secrets.tried());
    next_has_form(plan.secrets.next());
    are_bytes(plan.controller.bytes());
}

/// A next secret has 16 bytes, where one is kept.
fn next_has_form(next: Option<[u8; 16]>)
    ensures { IsNextHash next }
{
    if let Some(secret) = next {
        is_hash(secret);
    }
}

/// Each plan of a client has the form that its type gives it.
pub(crate) fn clients_have_forms(plans: &[ClientPlan])
    ensures { All IsClientPlan plans.now }
{
    for plan in plans {
        client_has_form(plan);
    }
}

/// The plan has that form.
fn client_has_form(plan: &ClientPlan)
    ensures { IsClientPlan plan.now }
{
    are_bytes(plan.server.bytes());
    are_units(plan.domain.units());
    are_units(plan.user.units());
    are_units(plan.workstation.units());
    is_hash(plan.hash);
}

/// Each plan of a station has the form that its type gives it.
pub(crate) fn stations_have_forms(plans: &[StationPlan])
    ensures { All IsStationPlan plans.now }
{
    for plan in plans {
        station_has_form(plan);
    }
}

/// The plan has that form.
fn station_has_form(plan: &StationPlan)
    ensures { IsStationPlan plan.now }
{
    are_bytes(plan.controller.bytes());
    let _computer = plan.computer.bytes();
    is_hash(plan.secret);
    are_units(plan.domain.units());
    are_units(plan.user.units());
    is_hash(plan.hash);
}

/// A seed has 32 bytes.
pub(crate) fn is_seed(seed: [u8; 32])
    ensures { IsBlock 32 seed }
{
    are_bytes(seed.as_slice());
}

/// A number of 32 bits is below 2^32.
pub(crate) fn is_long(number: u32)
    ensures { number < 2 ^ 32 }
{}

/// A number of 64 bits is below 2^64.
pub(crate) fn is_hyper(number: u64)
    ensures { number < 2 ^ 64 }
{}

/// Units of 16 bits are units.
fn are_units(units: &[u16])
    ensures { AreUnits units.now }
{}
