//! The rules by which an account's logon is judged, in their order.

ghost use Rattle.std.specs.Prelude.{◌≡◌};
ghost use Rattle.account_table.specs.Changes.{with_count, with_state};
ghost use Rattle.sam_logon.specs.Rules.{allows, answer_by, counting_refusal, first_refusal, has_come, has_reached, is_locked_out, is_refused_response, kind_rules, lists, plain_refusal, rules_for};

use crate::showing::Shows;
use account_table::{Account, AccountState, Kind, Policy};
use logon_stubs::{
    STATUS_ACCOUNT_DISABLED, STATUS_ACCOUNT_EXPIRED, STATUS_ACCOUNT_LOCKED_OUT,
    STATUS_INVALID_WORKSTATION, STATUS_NOLOGON_INTERDOMAIN_TRUST_ACCOUNT,
    STATUS_NOLOGON_SERVER_TRUST_ACCOUNT, STATUS_NOLOGON_WORKSTATION_TRUST_ACCOUNT,
    STATUS_PASSWORD_EXPIRED, STATUS_PASSWORD_MUST_CHANGE, STATUS_WRONG_PASSWORD,
};
use wire_base::Name;

/// How a rule refuses a logon.
#[derive(Clone, Copy, Debug, PartialEq, Eq)]
pub(crate) struct Refusal {
    /// The NTSTATUS.
    pub(crate) status: u32,
    /// Whether the refusal counts as a bad password.
    pub(crate) counts: bool,
}

/// A refusal that leaves the count of bad passwords.
fn plain_refusal(status: u32) -> Refusal
    ensures { result ≡ plain_refusal status }
{
    Refusal {
        status,
        counts: false,
    }
}

/// A refusal that counts as a bad password.
fn counting_refusal(status: u32) -> Refusal
    ensures { result ≡ counting_refusal status }
{
    Refusal {
        status,
        counts: true,
    }
}

/// The session base key of a logon at that computer that no rule refuses, or how the first rule refuses it, where what
/// changes of the account is that.
pub(crate) fn judge_account<S: Shows>(
    policy: Policy,
    account: &Account,
    state: AccountState,
    shown: &S,
    workstation: &[u16],
    now: u64,
) -> Result<[u8; 16], Refusal>
    ensures { result ≡ answer_by
        (first_refusal (rules_for policy (with_state state account.now) (S.shown shown.now)
        workstation.now now))
        ((S.shown shown.now).key state.hash) }
{
    judge_kind(account.kind)?;
    if is_locked_out(policy, account, state.bad_count) {
        return Err(plain_refusal(STATUS_ACCOUNT_LOCKED_OUT));
    }
    if is_refused_response(policy, shown.is_short()) {
        return Err(plain_refusal(STATUS_WRONG_PASSWORD));
    }
    let Some(key) = shown.key(&state.hash) else {
        return Err(counting_refusal(STATUS_WRONG_PASSWORD));
    };
    if account.disabled {
        return Err(plain_refusal(STATUS_ACCOUNT_DISABLED));
    }
    if has_come(account.expires, now) {
        return Err(plain_refusal(STATUS_ACCOUNT_EXPIRED));
    }
    if !allows(account.workstations.items(), workstation) {
        return Err(plain_refusal(STATUS_INVALID_WORKSTATION));
    }
    if account.must_change {
        return Err(plain_refusal(STATUS_PASSWORD_MUST_CHANGE));
    }
    if has_come(account.password_expires, now) {
        return Err(plain_refusal(STATUS_PASSWORD_EXPIRED));
    }
    Ok(key)
}

/// A user's account logs on; a computer's or a trusted domain's is refused.
fn judge_kind(kind: Kind) -> Result<(), Refusal>
    ensures { result ≡ answer_by (first_refusal (kind_rules kind)) tt }
{
    match kind {
        Kind::User => Ok(()),
        Kind::Trust => Err(plain_refusal(STATUS_NOLOGON_INTERDOMAIN_TRUST_ACCOUNT)),
        Kind::Workstation => Err(plain_refusal(STATUS_NOLOGON_WORKSTATION_TRUST_ACCOUNT)),
        Kind::Backup => Err(plain_refusal(STATUS_NOLOGON_SERVER_TRUST_ACCOUNT)),
    }
}

/// Whether the account is locked, or locked out by its bad passwords.
fn is_locked_out(policy: Policy, account: &Account, count: u16) -> bool
    ensures { result ≡ is_locked_out policy (with_count count account.now) }
{
    account.locked || has_reached(policy.lockout, count)
}

/// Whether a limit is set, and the count has reached it.
fn has_reached(limit: u16, count: u16) -> bool
    ensures { result ≡ has_reached limit count }
{
    limit != 0 && count >= limit
}

/// Whether what is shown is an NT response of 24 bytes, where those are refused.
fn is_refused_response(policy: Policy, short: bool) -> bool
    ensures { result ≡ is_refused_response policy short }
{
    policy.ntlmv2_only && short
}

/// Whether the moment is set and has come.
fn has_come(moment: u64, now: u64) -> bool
    ensures { result ≡ has_come moment now }
{
    moment != 0 && now >= moment
}

/// Whether a logon from the computer is allowed: from any, where no workstation is listed.
fn allows(workstations: &[Name], computer: &[u16]) -> bool
    ensures { result ≡ allows workstations.now computer.now }
{
    workstations.is_empty() || lists(workstations, computer)
}

/// Whether the computer is among the workstations.
fn lists(workstations: &[Name], computer: &[u16]) -> bool
    ensures { result ≡ lists workstations.now computer.now }
{
    workstations.iter().any(|name| name.same_units(computer))
}
