//! What is granted to a user.

ghost use Rattle.std.specs.Prelude.{◌≡◌, [], IfOk};
ghost use Rattle.account_table.specs.Changes.{with_count};
ghost use Rattle.account_table.specs.Ranges.{InRangeAccount};
ghost use Rattle.logon_stubs.specs.Ranges.{HasShortTexts, InRangeSamInfo, IsBlock};
ghost use Rattle.logon_stubs.specs.Writing.{CanWriteSamInfo};
ghost use Rattle.sam_logon.specs.Granting.{at_level, extra_of, groups_of, or_never, sam_info_of, user_flags_of, without_extra, without_extra_flag};
ghost use Rattle.wire_base.specs.Numbers.{AreBytes};

use account_table::{Account, Table};
use logon_stubs::{ExtraSids, SamInfo};
use std::alloc::{AllocError, Global};
use wire_base::{Groups, Name, NoMemory, Sid, Units};

/// A time that never comes, in units of 100 ns since 1601 (MS-NRPC 2.2.1.4.11).
const NEVER: u64 = 0x7FFF_FFFF_FFFF_FFFF;

/// A group that can't be disabled, is enabled by default and is enabled: SE_GROUP_MANDATORY,
/// SE_GROUP_ENABLED_BY_DEFAULT and SE_GROUP_ENABLED (MS-SAMR 2.2.1.10). Identifiers beside the groups have the same.
const GROUP_ATTRIBUTES: u32 = 0x1 | 0x2 | 0x4;

/// LOGON_EXTRA_SIDS: there are identifiers beside the groups (UserFlags, MS-NRPC 2.2.1.4.11).
const EXTRA_SIDS_FLAG: u32 = 0x20;

/// What is granted to the account's user at that moment, under that session base key, where the account's count of bad
/// passwords is that. A stub can carry it.
pub(crate) fn sam_info(
    alloc: Global,
    table: &Table,
    controller: &Name,
    account: &Account,
    count: u16,
    key: [u8; 16],
    now: u64,
) -> Result<SamInfo, NoMemory>
    requires { InRangeAccount account.now }
    ensures value { IfOk result (λ info.
        info ≡ sam_info_of table.now controller.now (with_count count account.now) key now) }
    ensures writable { IfOk result CanWriteSamInfo }
    ensures short { IfOk result HasShortTexts }
    ensures range { IfOk result InRangeSamInfo }
{
    // Reading them makes it known that the domain, its SID and the controller's name have their forms, and the key 16
    // bytes.
    let _domain = table.domain();
    let _sid = table.sid();
    let _controller = controller.bytes();
    is_key(&key);
    fill_in(alloc, table, controller, account, count, key, now)
}

/// What is told of a user, field by field.
#[tactic(auto, unfolding(crate::specs::Granting::sam_info_of))]
fn fill_in(
    alloc: Global,
    table: &Table,
    controller: &Name,
    account: &Account,
    count: u16,
    key: [u8; 16],
    now: u64,
) -> Result<SamInfo, NoMemory>
    ensures { IfOk result (λ info.
        info ≡ sam_info_of table.now controller.now (with_count count account.now) key now) }
{
    Ok(SamInfo {
        logon_time: now,
        logoff_time: NEVER,
        kickoff_time: NEVER,
        password_set: account.password_set,
        password_can_change: account.password_set,
        password_must_change: or_never(account.password_expires),
        effective_name: account.name.units(alloc)?,
        full_name: account.full_name.units(alloc)?,
        script: no_text(alloc),
        profile: no_text(alloc),
        home: no_text(alloc),
        home_drive: no_text(alloc),
        logon_count: 0,
        bad_count: count,
        user_id: account.rid,
        group_id: account.group,
        groups: Groups::from_vec(granted_groups(alloc, account.groups.items())?),
        user_flags: user_flags(account.extra_sids.items()),
        key,
        server: controller.units(alloc)?,
        domain: table.domain().units(alloc)?,
        sid: table.sid().copy(alloc)?,
        extra: granted_sids(alloc, account.extra_sids.items())?,
    })
}

/// What a reply at a validation level carries of what is granted: at level 3 all of it, at another one neither the
/// identifiers beside the groups nor their flag (this project's own choice). It takes no memory.
#[tactic(auto, unfolding(crate::specs::Granting::at_level))]
pub fn at_level(alloc: Global, info: SamInfo, level: u16) -> SamInfo
    ensures { result ≡ at_level level info }
{
    if level == 3 {
        return info;
    }
    without_extra(alloc, info)
}

/// Without the identifiers beside the groups, and without their flag.
fn without_extra(alloc: Global, info: SamInfo) -> SamInfo
    ensures { result ≡ without_extra info }
{
    let user_flags = without_extra_flag(info.user_flags);
    SamInfo {
        user_flags,
        extra: ExtraSids::new(alloc),
        ..info
    }
}

/// The flags without that of identifiers beside the groups.
fn without_extra_flag(flags: u32) -> u32
    ensures { result ≡ without_extra_flag flags }
{
    flags - EXTRA_SIDS_FLAG * (flags / EXTRA_SIDS_FLAG % 2)
}

/// A key is 16 bytes. It is called so that this is known.
fn is_key(key: &[u8; 16])
    ensures { IsBlock 16 key.now }
{
    are_bytes(key);
}

/// Each item is a byte. It is called so that this is known.
fn are_bytes(bytes: &[u8])
    ensures { AreBytes bytes.now }
{}

/// The moment, or never where it isn't set.
fn or_never(moment: u64) -> u64
    ensures { result ≡ or_never moment }
{
    match moment {
        0 => NEVER,
        _ => moment,
    }
}

/// The empty text.
fn no_text(alloc: Global) -> Units
    ensures { result ≡ [] }
{
    Units::from_vec(Vec::new(alloc))
}

/// The flag of identifiers beside the groups, where there are any.
fn user_flags(sids: &[Sid]) -> u32
    ensures { result ≡ user_flags_of sids.now }
{
    if sids.is_empty() { 0 } else { EXTRA_SIDS_FLAG }
}

/// Each identifier beside the groups, with its attributes.
fn granted_sids(alloc: Global, sids: &[Sid]) -> Result<ExtraSids, NoMemory>
    ensures { IfOk result (λ granted. granted ≡ extra_of sids.now) }
{
    let mut granted = ExtraSids::new(alloc);
    for sid in sids {
        granted.push((sid.copy(alloc)?, GROUP_ATTRIBUTES))?;
    }
    Ok(granted)
}

/// Each group with its attributes.
fn granted_groups(alloc: Global, groups: &[u32]) -> Result<Vec<(u32, u32)>, AllocError>
    ensures { IfOk result (λ granted. granted.items ≡ groups_of groups.now) }
{
    groups
        .iter()
        .map(|group| (*group, GROUP_ATTRIBUTES))
        .collect(alloc)
}
