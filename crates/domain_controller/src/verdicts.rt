//! Verdicts that are needed twice.

ghost use Rattle.std.specs.Prelude.{◌≡◌, IfOk};

use logon_stubs::{ExtraSids, SamInfo, Verdict};
use std::alloc::Global;
use wire_base::{List, NoMemory};

/// The verdict again.
pub(crate) fn copy_verdict(alloc: Global, verdict: &Verdict) -> Result<Verdict, NoMemory>
    ensures { IfOk result (λ copy. copy ≡ verdict.now) }
{
    match verdict {
        Verdict::Granted(info) => Ok(Verdict::Granted(copy_info(alloc, info)?)),
        Verdict::Status(status) => Ok(Verdict::Status(*status)),
    }
}

/// What is granted, again.
fn copy_info(alloc: Global, info: &SamInfo) -> Result<SamInfo, NoMemory>
    ensures { IfOk result (λ copy. copy ≡ info.now) }
{
    Ok(SamInfo {
        logon_time: info.logon_time,
        logoff_time: info.logoff_time,
        kickoff_time: info.kickoff_time,
        password_set: info.password_set,
        password_can_change: info.password_can_change,
        password_must_change: info.password_must_change,
        effective_name: info.effective_name.duplicate(alloc)?,
        full_name: info.full_name.duplicate(alloc)?,
        script: info.script.duplicate(alloc)?,
        profile: info.profile.duplicate(alloc)?,
        home: info.home.duplicate(alloc)?,
        home_drive: info.home_drive.duplicate(alloc)?,
        logon_count: info.logon_count,
        bad_count: info.bad_count,
        user_id: info.user_id,
        group_id: info.group_id,
        groups: List::copy(alloc, info.groups.items())?,
        user_flags: info.user_flags,
        key: info.key,
        server: info.server.duplicate(alloc)?,
        domain: info.domain.duplicate(alloc)?,
        sid: info.sid.copy(alloc)?,
        extra: copy_extra(alloc, &info.extra)?,
    })
}

/// The identifiers beside the groups, again.
fn copy_extra(alloc: Global, extra: &ExtraSids) -> Result<ExtraSids, NoMemory>
    ensures { IfOk result (λ copy. copy ≡ extra.now) }
{
    let mut copy = ExtraSids::new(alloc);
    for entry in extra.items() {
        copy.push((entry.0.copy(alloc)?, entry.1))?;
    }
    Ok(copy)
}
