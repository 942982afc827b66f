//! How a controller judges a logon, from the network or interactive.

ghost use Rattle.std.specs.Prelude.{◌≡◌, ◌<◌, ◌↔◌, IfOk, IfSome, IsTrue, OnOk, OnErr, None, Some, length, slice_get};
ghost use Rattle.account_table.specs.Changes.{DifferInCounts, with_change_if, with_changes};
ghost use Rattle.account_table.specs.LookUps.{place_in, route_in};
ghost use Rattle.logon_stubs.specs.Ranges.{HasShortTexts, InRangeSamInfo};
ghost use Rattle.logon_stubs.specs.Writing.{CanWriteSamInfo};
ghost use Rattle.sam_logon.specs.MayLogOn.{HashIsStored, MayLogOn, MayLogOnAt, ResponseVerifies};
ghost use Rattle.sam_logon.specs.Rules.{change_of, count_after};
ghost use Rattle.sam_logon.specs.Verdict.{IfGranted, interactive_judgement_of, interactive_table_after, interactive_verdict_of, is_granted, judgement_of, table_after, table_routed, table_shown, verdict_of, verdict_routed, verdict_shown};

use crate::granting::sam_info;
use crate::rules::{Refusal, judge_account};
use crate::showing::{HashShown, Shows};
use account_table::{Change, Route, Table, TableChange, TableChanges};
use logon_stubs::{NetworkInfo, STATUS_NO_SUCH_DOMAIN, STATUS_NO_SUCH_USER, Verdict};
use std::alloc::Global;
use wire_base::{Name, NoMemory};

/// A verdict, and what it changes of the table.
#[derive(Debug, Drop)]
pub struct Weighed {
    pub verdict: Verdict,
    /// The count of bad passwords of the account, where it becomes another one.
    pub change: Option<TableChange>,
}

/// The controller's verdict on a network logon at a moment, in units of 100 ns since 1601 (MS-NRPC 3.5.4.5.3; the rules
/// and their order are this project's own choice). The first that holds decides:
///
/// 1. The domain's accounts aren't in this table: `STATUS_NO_SUCH_DOMAIN`.
/// 2. No account has the user's name: `STATUS_NO_SUCH_USER`.
/// 3. The account is a trusted domain's, a workstation's or a backup controller's:
/// `STATUS_NOLOGON_INTERDOMAIN_TRUST_ACCOUNT`,    `STATUS_NOLOGON_WORKSTATION_TRUST_ACCOUNT`,
/// `STATUS_NOLOGON_SERVER_TRUST_ACCOUNT`.
/// 4. It is locked, or the table locks accounts out and this one has as many bad passwords as that:
/// `STATUS_ACCOUNT_LOCKED_OUT`.
/// 5. The table refuses NT responses of 24 bytes, and this is one: `STATUS_WRONG_PASSWORD`.
/// 6. The NT response doesn't verify under its hash, and the user, the domain and the challenge of the logon:
/// `STATUS_WRONG_PASSWORD`, and    the account's count of bad passwords rises by one, to at most 65,535.
/// 7. It is disabled: `STATUS_ACCOUNT_DISABLED`.
/// 8. It has expired: `STATUS_ACCOUNT_EXPIRED`.
/// 9. It lists workstations, and none has the name of the logon's: `STATUS_INVALID_WORKSTATION`.
/// 10. Its password has to be changed: `STATUS_PASSWORD_MUST_CHANGE`.
/// 11. Its password has expired: `STATUS_PASSWORD_EXPIRED`.
/// 12. Granted, with the plain session base key and the count of bad passwords as it stood; the account's count becomes
/// 0.
///
/// All else of the table stays.
#[tactic(auto, using(crate::proofs::VerdictLaws::granted), unfolding(crate::specs::Verdict::judgement_of))]
pub fn judge_logon(
    alloc: Global,
    table: &mut Table,
    controller: &Name,
    info: &NetworkInfo,
    now: u64,
) -> Result<Verdict, NoMemory>
    // The verdict is that of the rules in their order, and so is the table afterwards,
    ensures exact { IfOk result (λ verdict.
        verdict ≡ (judgement_of table.old controller.now info.now now).verdict) }
    ensures table { OnOk result (
        table.new ≡ (judgement_of table.old controller.now info.now now).table) }
    // which differs in counts of bad passwords alone; without memory it is as it was.
    ensures counts { DifferInCounts table.old
        (judgement_of table.old controller.now info.now now).table }
    ensures unchanged { OnErr result (table.new ≡ table.old) }
    // Granted exactly where the account may log on now from there, and the response verifies.
    ensures granted { IfOk result (λ verdict. IsTrue (is_granted verdict)
        ↔ (MayLogOn table.old info.now now × ResponseVerifies table.old info.now)) }
    // A stub can carry what is granted: at most 256 groups and identifiers beside them, texts of at most 64 units, and
    // numbers of their width.
    ensures writable { IfOk result (λ verdict. IfGranted verdict CanWriteSamInfo) }
    ensures short { IfOk result (λ verdict. IfGranted verdict HasShortTexts) }
    ensures range { IfOk result (λ verdict. IfGranted verdict InRangeSamInfo) }
{
    let changes = TableChanges::new(alloc);
    let weighed = match weigh_response(alloc, table, &changes, controller, info, now) {
        Ok(weighed) => weighed,
        Err(no_memory) => return Err(no_memory),
    };
    make_if(table, weighed.change);
    Ok(weighed.verdict)
}

/// The verdict of `judge_logon`, in the table as the changes leave it, and the change that this one makes of it. It
/// changes nothing.
#[tactic(auto, using(crate::proofs::VerdictLaws::granted), unfolding(crate::specs::Verdict::judgement_of))]
pub fn weigh_logon(
    alloc: Global,
    table: &Table,
    changes: &TableChanges,
    controller: &Name,
    info: &NetworkInfo,
    now: u64,
) -> Result<Weighed, NoMemory>
    // The verdict is that of the rules in their order, and the table with the change is the table afterwards,
    ensures exact { IfOk result (λ weighed. weighed.verdict
        ≡ (judgement_of (with_changes changes.now table.now) controller.now info.now now).verdict) }
    ensures table { IfOk result (λ weighed.
        with_change_if weighed.change (with_changes changes.now table.now)
        ≡ (judgement_of (with_changes changes.now table.now) controller.now info.now now).table) }
    // which differs in counts of bad passwords alone.
    ensures counts { DifferInCounts (with_changes changes.now table.now)
        (judgement_of (with_changes changes.now table.now) controller.now info.now now).table }
    // Granted exactly where the account may log on now from there, and the response verifies.
    ensures granted { IfOk result (λ weighed. IsTrue (is_granted weighed.verdict)
        ↔ (MayLogOn (with_changes changes.now table.now) info.now now
        × ResponseVerifies (with_changes changes.now table.now) info.now)) }
    // A stub can carry what is granted, as that of `judge_logon`.
    ensures writable { IfOk result (λ weighed. IfGranted weighed.verdict CanWriteSamInfo) }
    ensures short { IfOk result (λ weighed. IfGranted weighed.verdict HasShortTexts) }
    ensures range { IfOk result (λ weighed. IfGranted weighed.verdict InRangeSamInfo) }
{
    weigh_response(alloc, table, changes, controller, info, now)
}

/// The controller's verdict on an interactive logon at level 1, at a moment (MS-NRPC 3.5.4.5.3; the rules and their
/// order are this project's own choice): the rules of `judge_logon` in their order, where 6 reads that the NT hash
/// isn't the account's, and 5 never holds. What is granted has the MD4 of the hash as its session base key. Such a
/// logon isn't passed on, so of another domain it is `STATUS_NO_SUCH_DOMAIN`.
///
/// All else of the table stays.
#[tactic(auto, using(crate::proofs::VerdictLaws::granted), unfolding(crate::specs::Verdict::interactive_judgement_of))]
pub fn judge_interactive(
    alloc: Global,
    table: &mut Table,
    controller: &Name,
    domain: &[u16],
    user: &[u16],
    workstation: &[u16],
    nt: &[u8; 16],
    now: u64,
) -> Result<Verdict, NoMemory>
    // The verdict is that of the rules in their order, and so is the table afterwards,
    ensures exact { IfOk result (λ verdict. verdict ≡ (interactive_judgement_of
        table.old controller.now domain.now user.now workstation.now nt.now now).verdict) }
    ensures table { OnOk result (table.new ≡ (interactive_judgement_of
        table.old controller.now domain.now user.now workstation.now nt.now now).table) }
    // which differs in counts of bad passwords alone; without memory it is as it was.
    ensures counts { DifferInCounts table.old (interactive_judgement_of
        table.old controller.now domain.now user.now workstation.now nt.now now).table }
    ensures unchanged { OnErr result (table.new ≡ table.old) }
    // Granted exactly where the account may log on now from there, and the hash is the one stored.
    ensures granted { IfOk result (λ verdict. IsTrue (is_granted verdict)
        ↔ (MayLogOnAt table.old domain.now user.now workstation.now now
        × HashIsStored table.old user.now nt.now)) }
    // A stub can carry what is granted: at most 256 groups and identifiers beside them, texts of at most 64 units, and
    // numbers of their width.
    ensures writable { IfOk result (λ verdict. IfGranted verdict CanWriteSamInfo) }
    ensures short { IfOk result (λ verdict. IfGranted verdict HasShortTexts) }
    ensures range { IfOk result (λ verdict. IfGranted verdict InRangeSamInfo) }
{
    let changes = TableChanges::new(alloc);
    let weighed = match weigh_hash(
        alloc,
        table,
        &changes,
        controller,
        domain,
        user,
        workstation,
        *nt,
        now,
    ) {
        Ok(weighed) => weighed,
        Err(no_memory) => return Err(no_memory),
    };
    make_if(table, weighed.change);
    Ok(weighed.verdict)
}

/// The verdict of `judge_interactive`, in the table as the changes leave it, and the change that this one makes of it.
/// It changes nothing.
#[tactic(auto, using(crate::proofs::VerdictLaws::granted), unfolding(crate::specs::Verdict::interactive_judgement_of))]
pub fn weigh_interactive(
    alloc: Global,
    table: &Table,
    changes: &TableChanges,
    controller: &Name,
    domain: &[u16],
    user: &[u16],
    workstation: &[u16],
    nt: &[u8; 16],
    now: u64,
) -> Result<Weighed, NoMemory>
    // The verdict is that of the rules in their order, and the table with the change is the table afterwards,
    ensures exact { IfOk result (λ weighed. weighed.verdict ≡ (interactive_judgement_of
        (with_changes changes.now table.now) controller.now domain.now user.now workstation.now
        nt.now now).verdict) }
    ensures table { IfOk result (λ weighed.
        with_change_if weighed.change (with_changes changes.now table.now)
        ≡ (interactive_judgement_of (with_changes changes.now table.now) controller.now domain.now
        user.now workstation.now nt.now now).table) }
    // which differs in counts of bad passwords alone.
    ensures counts { DifferInCounts (with_changes changes.now table.now)
        (interactive_judgement_of (with_changes changes.now table.now) controller.now domain.now
        user.now workstation.now nt.now now).table }
    // Granted exactly where the account may log on now from there, and the hash is the one stored.
    ensures granted { IfOk result (λ weighed. IsTrue (is_granted weighed.verdict)
        ↔ (MayLogOnAt (with_changes changes.now table.now) domain.now user.now workstation.now now
        × HashIsStored (with_changes changes.now table.now) user.now nt.now)) }
    // A stub can carry what is granted, as that of `judge_interactive`.
    ensures writable { IfOk result (λ weighed. IfGranted weighed.verdict CanWriteSamInfo) }
    ensures short { IfOk result (λ weighed. IfGranted weighed.verdict HasShortTexts) }
    ensures range { IfOk result (λ weighed. IfGranted weighed.verdict InRangeSamInfo) }
{
    weigh_hash(
        alloc,
        table,
        changes,
        controller,
        domain,
        user,
        workstation,
        *nt,
        now,
    )
}

/// Makes a change, where there is one.
fn make_if(table: &mut Table, change: Option<TableChange>)
    ensures { table.new ≡ with_change_if change table.old }
{
    if let Some(change) = change {
        table.make(change);
    }
}

/// The verdict on a network logon by the rules in their order, and the change.
#[tactic(auto, unfolding(crate::specs::Verdict::verdict_of, crate::specs::Verdict::table_after))]
fn weigh_response(
    alloc: Global,
    table: &Table,
    changes: &TableChanges,
    controller: &Name,
    info: &NetworkInfo,
    now: u64,
) -> Result<Weighed, NoMemory>
    ensures exact { IfOk result (λ weighed. weighed.verdict
        ≡ verdict_of (with_changes changes.now table.now) controller.now info.now now) }
    ensures table { IfOk result (λ weighed.
        with_change_if weighed.change (with_changes changes.now table.now)
        ≡ table_after (with_changes changes.now table.now) info.now now) }
    ensures writable { IfOk result (λ weighed. IfGranted weighed.verdict CanWriteSamInfo) }
    ensures short { IfOk result (λ weighed. IfGranted weighed.verdict HasShortTexts) }
    ensures range { IfOk result (λ weighed. IfGranted weighed.verdict InRangeSamInfo) }
{
    weigh(
        alloc,
        table,
        changes,
        controller,
        info.domain.units(),
        info.user.units(),
        info.workstation.units(),
        info,
        now,
    )
}

/// The verdict on an interactive logon by its hash, and the change that it makes of the table.
#[tactic(auto, unfolding(crate::specs::Verdict::interactive_verdict_of, crate::specs::Verdict::interactive_table_after))]
fn weigh_hash(
    alloc: Global,
    table: &Table,
    changes: &TableChanges,
    controller: &Name,
    domain: &[u16],
    user: &[u16],
    workstation: &[u16],
    nt: [u8; 16],
    now: u64,
) -> Result<Weighed, NoMemory>
    ensures exact { IfOk result (λ weighed. weighed.verdict ≡ interactive_verdict_of
        (with_changes changes.now table.now) controller.now domain.now user.now workstation.now
        nt now) }
    ensures table { IfOk result (λ weighed.
        with_change_if weighed.change (with_changes changes.now table.now)
        ≡ interactive_table_after (with_changes changes.now table.now) domain.now user.now
        workstation.now nt now) }
    ensures writable { IfOk result (λ weighed. IfGranted weighed.verdict CanWriteSamInfo) }
    ensures short { IfOk result (λ weighed. IfGranted weighed.verdict HasShortTexts) }
    ensures range { IfOk result (λ weighed. IfGranted weighed.verdict InRangeSamInfo) }
{
    let shown = HashShown { nt };
    weigh(
        alloc,
        table,
        changes,
        controller,
        domain,
        user,
        workstation,
        &shown,
        now,
    )
}

/// The verdict by the rules in their order, of what is shown of the account's password, and the change.
fn weigh<S: Shows>(
    alloc: Global,
    table: &Table,
    changes: &TableChanges,
    controller: &Name,
    domain: &[u16],
    user: &[u16],
    workstation: &[u16],
    shown: &S,
    now: u64,
) -> Result<Weighed, NoMemory>
    ensures exact { IfOk result (λ weighed. weighed.verdict ≡ verdict_routed
        (route_in (with_changes changes.now table.now) domain.now) (S.shown shown.now)
        (with_changes changes.now table.now) controller.now user.now workstation.now now) }
    ensures table { IfOk result (λ weighed.
        with_change_if weighed.change (with_changes changes.now table.now) ≡ table_routed
        (route_in (with_changes changes.now table.now) domain.now) (S.shown shown.now)
        (with_changes changes.now table.now) user.now workstation.now now) }
    ensures writable { IfOk result (λ weighed. IfGranted weighed.verdict CanWriteSamInfo) }
    ensures short { IfOk result (λ weighed. IfGranted weighed.verdict HasShortTexts) }
    ensures range { IfOk result (λ weighed. IfGranted weighed.verdict InRangeSamInfo) }
{
    if !matches!(route_with(table, changes, domain), Route::Own) {
        return Ok(plain(STATUS_NO_SUCH_DOMAIN));
    }
    let Some(place) = find_with(table, changes, user) else {
        return Ok(plain(STATUS_NO_SUCH_USER));
    };
    weigh_at(
        alloc,
        table,
        changes,
        place,
        controller,
        workstation,
        shown,
        now,
    )
}

/// A refusal that changes nothing.
fn plain(status: u32) -> Weighed
    ensures verdict { result.verdict ≡ Verdict.Status status }
    ensures change { result.change ≡ None }
{
    Weighed {
        verdict: Verdict::Status(status),
        change: None,
    }
}

/// The route of a domain, by the table that the changes give, whose trusts they leave.
fn route_with(table: &Table, changes: &TableChanges, domain: &[u16]) -> Route
    ensures { result ≡ route_in (with_changes changes.now table.now) domain.now }
{
    // only the clause speaks of them
    let _changes = changes.items();
    table.route(domain)
}

/// The place of the account of that name, in the table that the changes give, whose names they leave.
fn find_with(table: &Table, changes: &TableChanges, user: &[u16]) -> Option<u32>
    ensures value { result ≡ place_in (with_changes changes.now table.now).accounts user.now }
    ensures within { IfSome result (λ place. place < length table.now.accounts) }
{
    // only the clause speaks of them
    let _changes = changes.items();
    table.find(user)
}

/// The verdict on the account at a place, and the change.
fn weigh_at<S: Shows>(
    alloc: Global,
    table: &Table,
    changes: &TableChanges,
    place: u32,
    controller: &Name,
    workstation: &[u16],
    shown: &S,
    now: u64,
) -> Result<Weighed, NoMemory>
    requires { place < length table.now.accounts }
    ensures exact { IfOk result (λ weighed. weighed.verdict
        ≡ verdict_shown (slice_get (with_changes changes.now table.now).accounts place)
        (S.shown shown.now) (with_changes changes.now table.now) controller.now workstation.now
        now) }
    ensures table { IfOk result (λ weighed.
        with_change_if weighed.change (with_changes changes.now table.now)
        ≡ table_shown (Some place) (S.shown shown.now) (with_changes changes.now table.now)
        workstation.now now) }
    ensures writable { IfOk result (λ weighed. IfGranted weighed.verdict CanWriteSamInfo) }
    ensures short { IfOk result (λ weighed. IfGranted weighed.verdict HasShortTexts) }
    ensures range { IfOk result (λ weighed. IfGranted weighed.verdict InRangeSamInfo) }
{
    let Some(account) = table.account(place) else {
        unreachable!();
    };
    let Some(state) = table.state_with(changes, place) else {
        unreachable!();
    };
    let count = state.bad_count;
    match judge_account(table.policy(), account, state, shown, workstation, now) {
        Ok(key) => {
            let granted = sam_info(alloc, table, controller, account, count, key, now)?;
            Ok(Weighed {
                verdict: Verdict::Granted(granted),
                change: change_of(place, count, 0),
            })
        }
        Err(refused) => Ok(Weighed {
            verdict: Verdict::Status(refused.status),
            change: change_of(place, count, count_after(refused, count)),
        }),
    }
}

/// What sets the count of bad passwords of the account at a place, where it becomes another one.
fn change_of(place: u32, count: u16, after: u16) -> Option<TableChange>
    ensures { result ≡ change_of place count after }
{
    if count == after {
        None
    } else {
        Some(TableChange {
            place,
            change: Change::Count(after),
        })
    }
}

/// The count of bad passwords after a refusal.
fn count_after(refused: Refusal, count: u16) -> u16
    ensures { result ≡ count_after (Some refused) count }
{
    if refused.counts && count < u16::MAX {
        count + 1
    } else {
        count
    }
}
