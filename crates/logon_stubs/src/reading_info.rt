//! What a logon asks, and what it is answered, read from a stub.

ghost use Rattle.std.specs.Prelude.{◌≡◌, ◌≤◌};
ghost use Rattle.logon_stubs.specs.Layout.{Reads};
ghost use Rattle.logon_stubs.specs.Structures.{ReadsSix, network_info, list_of, sam_times, sam_heads, sam_texts, sam_numbers, entries_head, array_count, groups, group, group_array, groups_target, extra_head, extra_entry, extra_entries, extra_sid, extra_sids, extra_array, extra_target, sam_info};

use crate::info::{ExtraSids, NetworkInfo, SamInfo};
use crate::reading_parts::{long_at, pointer_at, read_eight, read_sixteen};
use crate::refused::StubRefused;
use ndr_codec::{
    Head, Reader, read_bytes, read_halves, read_head, read_reserved, read_some_pointer, read_units,
};
use std::alloc::Global;
use wire_base::{Groups, Numbers, Sid, Units};

/// The most groups of a user in a reply, and the most extra identifiers.
const ENTRY_LIMIT: u32 = 256;

/// Six of the same.
type Six<T> = (T, T, T, T, T, T);

/// The reserved numbers at the end of a user's information.
pub(crate) const RESERVED: u32 = 10;

/// A network logon.
#[tactic(auto, unfolding(crate::specs::Structures::network_info))]
pub(crate) fn read_network_info(
    alloc: Global,
    reader: &mut Reader<'_>,
) -> Result<NetworkInfo, StubRefused>
    ensures { Reads network_info result reader.old reader.new }
{
    let domain = read_head(reader, 2)?;
    let control = reader.long()?;
    let logon_id = read_halves(reader)?;
    let user = read_head(reader, 2)?;
    let workstation = read_head(reader, 2)?;
    let challenge = read_eight(reader)?;
    let nt = read_head(reader, 1)?;
    let lm = read_head(reader, 1)?;
    Ok(NetworkInfo {
        domain: read_units(alloc, reader, domain)?,
        control,
        logon_id,
        user: read_units(alloc, reader, user)?,
        workstation: read_units(alloc, reader, workstation)?,
        challenge,
        nt: read_bytes(alloc, reader, nt)?,
        lm: read_bytes(alloc, reader, lm)?,
    })
}

/// The times of a user's information, in their order.
#[tactic(auto, unfolding(crate::specs::Structures::sam_times))]
fn read_times(reader: &mut Reader<'_>) -> Result<Six<u64>, StubRefused>
    ensures { ReadsSix sam_times result reader.old reader.new }
{
    Ok((
        read_halves(reader)?,
        read_halves(reader)?,
        read_halves(reader)?,
        read_halves(reader)?,
        read_halves(reader)?,
        read_halves(reader)?,
    ))
}

/// The heads of the texts of a user's information, in their order.
#[tactic(auto, unfolding(crate::specs::Structures::sam_heads))]
fn read_text_heads(reader: &mut Reader<'_>) -> Result<Six<Head>, StubRefused>
    ensures { ReadsSix sam_heads result reader.old reader.new }
{
    Ok((
        read_head(reader, 2)?,
        read_head(reader, 2)?,
        read_head(reader, 2)?,
        read_head(reader, 2)?,
        read_head(reader, 2)?,
        read_head(reader, 2)?,
    ))
}

/// The texts with those heads.
#[tactic(auto, unfolding(crate::specs::Structures::sam_texts))]
fn read_texts(
    alloc: Global,
    reader: &mut Reader<'_>,
    heads: Six<Head>,
) -> Result<Six<Units>, StubRefused>
    ensures { ReadsSix (sam_texts (list_of heads)) result reader.old reader.new }
{
    Ok((
        read_units(alloc, reader, heads.0)?,
        read_units(alloc, reader, heads.1)?,
        read_units(alloc, reader, heads.2)?,
        read_units(alloc, reader, heads.3)?,
        read_units(alloc, reader, heads.4)?,
        read_units(alloc, reader, heads.5)?,
    ))
}

/// The counts and the relative identifiers behind the texts' heads.
#[tactic(auto, unfolding(crate::specs::Structures::sam_numbers))]
fn read_sam_numbers(reader: &mut Reader<'_>) -> Result<(u16, u16, u32, u32), StubRefused>
    ensures { Reads sam_numbers result reader.old reader.new }
{
    Ok((
        reader.short()?,
        reader.short()?,
        reader.long()?,
        reader.long()?,
    ))
}

/// How many entries an array has, and whether it is there.
#[tactic(auto, unfolding(crate::specs::Structures::entries_head, crate::specs::Structures::entries_pointer))]
fn read_entries_head(reader: &mut Reader<'_>) -> Result<(u32, bool), StubRefused>
    ensures { Reads entries_head result reader.old reader.new }
{
    let (start, count) = long_at(reader)?;
    if count > ENTRY_LIMIT {
        return Err(StubRefused::BadStub(start));
    }
    let (start, there) = pointer_at(reader)?;
    if !(there || count == 0) {
        return Err(StubRefused::BadStub(start));
    }
    Ok((count, there))
}

/// The count in front of an array, which is that of its head.
#[tactic(auto, unfolding(crate::specs::Structures::array_count))]
fn read_array_count(reader: &mut Reader<'_>, count: u32) -> Result<(), StubRefused>
    ensures { Reads (array_count count) result reader.old reader.new }
{
    let (start, actual) = long_at(reader)?;
    if actual != count {
        return Err(StubRefused::BadStub(start));
    }
    Ok(())
}

/// A group.
#[tactic(auto, unfolding(crate::specs::Structures::group))]
fn read_group(reader: &mut Reader<'_>) -> Result<(u32, u32), StubRefused>
    ensures { Reads group result reader.old reader.new }
{
    Ok((reader.long()?, reader.long()?))
}

/// Groups, as many as `count`.
#[tactic(auto, using(ndr_codec::proofs::TimesLaws::stepping))]
fn read_groups(alloc: Global, reader: &mut Reader<'_>, count: u32) -> Result<Groups, StubRefused>
    ensures { Reads (groups count) result reader.old reader.new }
{
    let mut groups = Groups::new(alloc);
    for _ in 0..count {
        groups.push(read_group(reader)?)?;
    }
    Ok(groups)
}

/// The array of groups, with their count in front.
#[tactic(auto, unfolding(crate::specs::Structures::groups_target, crate::specs::Structures::group_array))]
fn read_group_array(
    alloc: Global,
    reader: &mut Reader<'_>,
    front: (u32, bool),
) -> Result<Groups, StubRefused>
    ensures { Reads (groups_target front) result reader.old reader.new }
{
    if !front.1 {
        return Ok(Groups::new(alloc));
    }
    read_array_count(reader, front.0)?;
    read_groups(alloc, reader, front.0)
}

/// How many extra identifiers a user has, and whether their array is there; none where the structure has no place for
/// them.
fn read_extra_head(reader: &mut Reader<'_>, with_extra: bool) -> Result<(u32, bool), StubRefused>
    ensures { Reads (extra_head with_extra) result reader.old reader.new }
{
    if !with_extra {
        return Ok((0, false));
    }
    read_entries_head(reader)
}

/// The attributes of an extra identifier, behind the pointer to it.
#[tactic(auto, unfolding(crate::specs::Structures::extra_entry))]
fn read_extra_entry(reader: &mut Reader<'_>) -> Result<u32, StubRefused>
    ensures { Reads extra_entry result reader.old reader.new }
{
    read_some_pointer(reader)?;
    Ok(reader.long()?)
}

/// The attributes of that many.
#[tactic(auto, using(ndr_codec::proofs::TimesLaws::stepping))]
fn read_extra_entries(
    alloc: Global,
    reader: &mut Reader<'_>,
    count: u32,
) -> Result<Numbers, StubRefused>
    ensures { Reads (extra_entries count) result reader.old reader.new }
{
    let mut attributes = Numbers::new(alloc);
    for _ in 0..count {
        attributes.push(read_extra_entry(reader)?)?;
    }
    Ok(attributes)
}

/// An extra identifier, with its attributes.
#[tactic(auto, unfolding(crate::specs::Structures::extra_sid))]
fn read_extra_sid(
    alloc: Global,
    reader: &mut Reader<'_>,
    attributes: u32,
) -> Result<(Sid, u32), StubRefused>
    ensures { Reads (extra_sid attributes) result reader.old reader.new }
{
    Ok((reader.sid(alloc)?, attributes))
}

/// The extra identifiers with those attributes.
#[tactic(auto, using(crate::proofs::ListLaws::reading_each))]
fn read_extra_sids(
    alloc: Global,
    reader: &mut Reader<'_>,
    attributes: &[u32],
) -> Result<ExtraSids, StubRefused>
    ensures { Reads (extra_sids attributes.now) result reader.old reader.new }
{
    let mut extra = ExtraSids::new(alloc);
    for number in attributes {
        extra.push(read_extra_sid(alloc, reader, *number)?)?;
    }
    Ok(extra)
}

/// The array of extra identifiers, with their count in front.
#[tactic(auto, unfolding(crate::specs::Structures::extra_target, crate::specs::Structures::extra_array))]
fn read_extra_array(
    alloc: Global,
    reader: &mut Reader<'_>,
    front: (u32, bool),
) -> Result<ExtraSids, StubRefused>
    ensures { Reads (extra_target front) result reader.old reader.new }
{
    if !front.1 {
        return Ok(ExtraSids::new(alloc));
    }
    read_array_count(reader, front.0)?;
    let attributes = read_extra_entries(alloc, reader, front.0)?;
    read_extra_sids(alloc, reader, attributes.items())
}

/// A user's information, with extra identifiers or without.
#[tactic(auto, unfolding(crate::specs::Structures::sam_info))]
pub(crate) fn read_sam_info(
    alloc: Global,
    reader: &mut Reader<'_>,
    with_extra: bool,
) -> Result<SamInfo, StubRefused>
    ensures { Reads (sam_info with_extra) result reader.old reader.new }
{
    let times = read_times(reader)?;
    let heads = read_text_heads(reader)?;
    let numbers = read_sam_numbers(reader)?;
    let groups = read_entries_head(reader)?;
    let user_flags = reader.long()?;
    let key = read_sixteen(reader)?;
    let server_head = read_head(reader, 2)?;
    let domain_head = read_head(reader, 2)?;
    read_some_pointer(reader)?;
    read_reserved(reader, RESERVED)?;
    let extra = read_extra_head(reader, with_extra)?;
    let texts = read_texts(alloc, reader, heads)?;
    Ok(SamInfo {
        logon_time: times.0,
        logoff_time: times.1,
        kickoff_time: times.2,
        password_set: times.3,
        password_can_change: times.4,
        password_must_change: times.5,
        effective_name: texts.0,
        full_name: texts.1,
        script: texts.2,
        profile: texts.3,
        home: texts.4,
        home_drive: texts.5,
        logon_count: numbers.0,
        bad_count: numbers.1,
        user_id: numbers.2,
        group_id: numbers.3,
        groups: read_group_array(alloc, reader, groups)?,
        user_flags,
        key,
        server: read_units(alloc, reader, server_head)?,
        domain: read_units(alloc, reader, domain_head)?,
        sid: reader.sid(alloc)?,
        extra: read_extra_array(alloc, reader, extra)?,
    })
}
