//! What a logon asks, and what it is answered, written to a stub.

ghost use Rattle.std.specs.Prelude.{◌≡◌, ◌^◌, ◌<◌, ◌≤◌, length, OnOk};
ghost use Rattle.std.specs.List.{AllByRecursion};
ghost use Rattle.wire_base.specs.Units.{AreUnits};
ghost use Rattle.logon_stubs.specs.Ranges.{InRangeNetworkInfo, InRangeNumbers, InRangeGroup, InRangeSid, InRangeExtra, InRangeSamInfo};
ghost use Rattle.logon_stubs.specs.Writing.{CanWriteNetworkInfo, CanWriteSamInfo, times_of, texts_of, put_network_info, put_times, put_text_heads, put_sam_numbers, put_entries_head, put_texts, put_groups, put_group_array, put_extra_head, put_extra_entries, put_extra_sids, put_extra_array, put_sam_info};

use crate::info::{ExtraSids, NetworkInfo, SamInfo};
use crate::reading_info::RESERVED;
use crate::writing_parts::{write_eight, write_sixteen};
use ndr_codec::{
    Writer, write_bytes, write_bytes_head, write_halves, write_reserved, write_units,
    write_units_head,
};
use wire_base::{Groups, NoMemory, Sid};

/// A network logon.
#[tactic(auto, unfolding(crate::specs::Writing::put_network_info))]
pub(crate) fn write_network_info(writer: &mut Writer, info: &NetworkInfo) -> Result<(), NoMemory>
    requires fits { CanWriteNetworkInfo info.now }
    ensures exact { OnOk result (writer.new ≡ put_network_info info.now writer.old) }
    ensures range { OnOk result (InRangeNetworkInfo info.now) }
{
    write_units_head(writer, &info.domain)?;
    writer.long(info.control)?;
    write_halves(writer, info.logon_id)?;
    write_units_head(writer, &info.user)?;
    write_units_head(writer, &info.workstation)?;
    write_eight(writer, info.challenge)?;
    write_bytes_head(writer, &info.nt)?;
    write_bytes_head(writer, &info.lm)?;
    write_units(writer, &info.domain)?;
    write_units(writer, &info.user)?;
    write_units(writer, &info.workstation)?;
    write_bytes(writer, &info.nt)?;
    write_bytes(writer, &info.lm)
}

/// The times of a user's information.
#[tactic(auto, unfolding(crate::specs::Writing::put_times))]
fn write_times(writer: &mut Writer, info: &SamInfo) -> Result<(), NoMemory>
    ensures exact { OnOk result (writer.new ≡ put_times info.now writer.old) }
    ensures range { OnOk result (AllByRecursion (λ n. n < 2 ^ 64) (times_of info.now)) }
{
    write_halves(writer, info.logon_time)?;
    write_halves(writer, info.logoff_time)?;
    write_halves(writer, info.kickoff_time)?;
    write_halves(writer, info.password_set)?;
    write_halves(writer, info.password_can_change)?;
    write_halves(writer, info.password_must_change)
}

/// The heads of the texts of a user's information.
#[tactic(auto, unfolding(crate::specs::Writing::put_text_heads))]
fn write_text_heads(writer: &mut Writer, info: &SamInfo) -> Result<(), NoMemory>
    requires fits { CanWriteSamInfo info.now }
    ensures { OnOk result (writer.new ≡ put_text_heads info.now writer.old) }
{
    write_units_head(writer, &info.effective_name)?;
    write_units_head(writer, &info.full_name)?;
    write_units_head(writer, &info.script)?;
    write_units_head(writer, &info.profile)?;
    write_units_head(writer, &info.home)?;
    write_units_head(writer, &info.home_drive)
}

/// How many entries an array has, and the pointer to them.
#[tactic(auto, unfolding(crate::specs::Writing::put_entries_head))]
fn write_entries_head(writer: &mut Writer, count: usize) -> Result<(), NoMemory>
    requires fits { count ≤ 256 }
    ensures { OnOk result (writer.new ≡ put_entries_head count writer.old) }
{
    writer.long(count as u32)?;
    writer.pointer(count != 0)
}

/// The counts and the relative identifiers behind the texts' heads.
#[tactic(auto, unfolding(crate::specs::Writing::put_sam_numbers))]
fn write_sam_numbers(writer: &mut Writer, info: &SamInfo) -> Result<(), NoMemory>
    ensures exact { OnOk result (writer.new ≡ put_sam_numbers info.now writer.old) }
    ensures range { OnOk result (InRangeNumbers info.now) }
{
    writer.short(info.logon_count)?;
    writer.short(info.bad_count)?;
    writer.long(info.user_id)?;
    writer.long(info.group_id)
}

/// The targets of the texts.
#[tactic(auto, unfolding(crate::specs::Writing::put_texts))]
fn write_texts(writer: &mut Writer, info: &SamInfo) -> Result<(), NoMemory>
    requires { CanWriteSamInfo info.now }
    ensures exact { OnOk result (writer.new ≡ put_texts info.now writer.old) }
    ensures range { OnOk result (AllByRecursion AreUnits (texts_of info.now)) }
{
    write_units(writer, &info.effective_name)?;
    write_units(writer, &info.full_name)?;
    write_units(writer, &info.script)?;
    write_units(writer, &info.profile)?;
    write_units(writer, &info.home)?;
    write_units(writer, &info.home_drive)
}

/// The relative identifier and the attributes of each group.
#[tactic(auto, using(crate::proofs::ListLaws::putting))]
fn write_groups(writer: &mut Writer, list: &[(u32, u32)]) -> Result<(), NoMemory>
    ensures exact { OnOk result (writer.new ≡ put_groups list.now writer.old) }
    ensures range { OnOk result (AllByRecursion InRangeGroup list.now) }
{
    for (identifier, attributes) in list {
        writer.long(*identifier)?;
        writer.long(*attributes)?;
    }
    Ok(())
}

/// The array of groups, with their count in front; nothing where there are none.
fn write_group_array(writer: &mut Writer, list: &Groups) -> Result<(), NoMemory>
    requires { length list.now ≤ 256 }
    ensures exact { OnOk result (writer.new ≡ put_group_array list.now writer.old) }
    ensures range { OnOk result (AllByRecursion InRangeGroup list.now) }
{
    if list.is_empty() {
        return Ok(());
    }
    writer.long(list.len() as u32)?;
    write_groups(writer, list.items())
}

/// How many extra identifiers there are, and the pointer to them, where the structure has a place for them.
fn write_extra_head(writer: &mut Writer, with_extra: bool, list: &ExtraSids) -> Result<(), NoMemory>
    requires fits { length list.now ≤ 256 }
    ensures { OnOk result
        (writer.new ≡ put_extra_head with_extra (length list.now) writer.old) }
{
    if !with_extra {
        return Ok(());
    }
    write_entries_head(writer, list.len())
}

/// The pointer to each extra identifier, and its attributes.
#[tactic(auto, using(crate::proofs::ListLaws::putting_extra))]
fn write_extra_entries(writer: &mut Writer, list: &[(Sid, u32)]) -> Result<(), NoMemory>
    ensures exact { OnOk result (writer.new ≡ put_extra_entries list.now writer.old) }
    ensures range { OnOk result (AllByRecursion (λ extra. extra.1 < 2 ^ 32) list.now) }
{
    for (_, attributes) in list {
        writer.pointer(true)?;
        writer.long(*attributes)?;
    }
    Ok(())
}

/// Each extra identifier.
#[tactic(auto, using(crate::proofs::ListLaws::putting_extra))]
fn write_extra_sids(writer: &mut Writer, list: &[(Sid, u32)]) -> Result<(), NoMemory>
    ensures exact { OnOk result (writer.new ≡ put_extra_sids list.now writer.old) }
    ensures range { OnOk result (AllByRecursion (λ extra. InRangeSid extra.0) list.now) }
{
    for (identifier, _) in list {
        writer.sid(identifier)?;
    }
    Ok(())
}

/// The array of extra identifiers, with their count in front; nothing where there are none.
#[tactic(auto, using(crate::proofs::ListLaws::both_ranges))]
fn write_extra_array(writer: &mut Writer, list: &ExtraSids) -> Result<(), NoMemory>
    requires { length list.now ≤ 256 }
    ensures exact { OnOk result (writer.new ≡ put_extra_array list.now writer.old) }
    ensures range { OnOk result (AllByRecursion InRangeExtra list.now) }
{
    if list.is_empty() {
        return Ok(());
    }
    writer.long(list.len() as u32)?;
    write_extra_entries(writer, list.items())?;
    write_extra_sids(writer, list.items())
}

/// A user's information, with extra identifiers or without.
#[tactic(auto, unfolding(crate::specs::Writing::put_sam_info))]
pub(crate) fn write_sam_info(
    writer: &mut Writer,
    info: &SamInfo,
    with_extra: bool,
) -> Result<(), NoMemory>
    requires fits { CanWriteSamInfo info.now }
    ensures exact { OnOk result (writer.new ≡ put_sam_info with_extra info.now writer.old) }
    ensures range { OnOk result (InRangeSamInfo info.now) }
{
    write_times(writer, info)?;
    write_text_heads(writer, info)?;
    write_sam_numbers(writer, info)?;
    write_entries_head(writer, info.groups.len())?;
    writer.long(info.user_flags)?;
    write_sixteen(writer, info.key)?;
    write_units_head(writer, &info.server)?;
    write_units_head(writer, &info.domain)?;
    writer.pointer(true)?;
    write_reserved(writer, RESERVED)?;
    write_extra_head(writer, with_extra, &info.extra)?;
    write_texts(writer, info)?;
    write_group_array(writer, &info.groups)?;
    write_units(writer, &info.server)?;
    write_units(writer, &info.domain)?;
    writer.sid(&info.sid)?;
    write_extra_array(writer, &info.extra)
}
