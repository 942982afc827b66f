//! The NTSTATUS values that replies to Netlogon's calls carry (MS-ERREF 2.3.1).

ghost use Rattle.std.specs.Prelude.{◌≡◌, ◌∷◌, []};
ghost use Rattle.logon_stubs.specs.Interface.{netlogon_syntax};
ghost use Rattle.logon_stubs.specs.Status.{statuses};

use crate::interface::NETLOGON;

/// The caller may not make the call, or its credential or authenticator is wrong.
pub const STATUS_ACCESS_DENIED: u32 = 0xC000_0022;
/// The level that is asked for isn't served.
pub const STATUS_INVALID_INFO_CLASS: u32 = 0xC000_0003;
/// No controller can judge the logon.
pub const STATUS_NO_LOGON_SERVERS: u32 = 0xC000_005E;
/// No session has that computer, user and logon.
pub const STATUS_NO_SUCH_LOGON_SESSION: u32 = 0xC000_005F;
/// No account has the user's name.
pub const STATUS_NO_SUCH_USER: u32 = 0xC000_0064;
/// The response isn't that of the account's password.
pub const STATUS_WRONG_PASSWORD: u32 = 0xC000_006A;
/// The account doesn't log on from that computer.
pub const STATUS_INVALID_WORKSTATION: u32 = 0xC000_0070;
/// The password has expired.
pub const STATUS_PASSWORD_EXPIRED: u32 = 0xC000_0071;
/// The account is disabled.
pub const STATUS_ACCOUNT_DISABLED: u32 = 0xC000_0072;
/// As many sessions stand as are kept.
pub const STATUS_INSUFFICIENT_RESOURCES: u32 = 0xC000_009A;
/// The domain isn't known.
pub const STATUS_NO_SUCH_DOMAIN: u32 = 0xC000_00DF;
/// The domain has no account for the computer or the trusting domain.
pub const STATUS_NO_TRUST_SAM_ACCOUNT: u32 = 0xC000_018B;
/// The account has expired.
pub const STATUS_ACCOUNT_EXPIRED: u32 = 0xC000_0193;
/// The account is that of a trusted domain.
pub const STATUS_NOLOGON_INTERDOMAIN_TRUST_ACCOUNT: u32 = 0xC000_0198;
/// The account is that of a member of the domain.
pub const STATUS_NOLOGON_WORKSTATION_TRUST_ACCOUNT: u32 = 0xC000_0199;
/// The account is that of a backup domain controller.
pub const STATUS_NOLOGON_SERVER_TRUST_ACCOUNT: u32 = 0xC000_019A;
/// The password has to be changed before the next logon.
pub const STATUS_PASSWORD_MUST_CHANGE: u32 = 0xC000_0224;
/// The account is locked.
pub const STATUS_ACCOUNT_LOCKED_OUT: u32 = 0xC000_0234;
/// The other side offers less than it has to.
pub const STATUS_DOWNGRADE_DETECTED: u32 = 0xC000_0388;

/// The statuses and the interface are those of the definitions.
pub fn what_constants_are()
    ensures statuses { (
        STATUS_ACCESS_DENIED ∷
        STATUS_INVALID_INFO_CLASS ∷
        STATUS_NO_LOGON_SERVERS ∷
        STATUS_NO_SUCH_LOGON_SESSION ∷
        STATUS_NO_SUCH_USER ∷
        STATUS_WRONG_PASSWORD ∷
        STATUS_INVALID_WORKSTATION ∷
        STATUS_PASSWORD_EXPIRED ∷
        STATUS_ACCOUNT_DISABLED ∷
        STATUS_INSUFFICIENT_RESOURCES ∷
        STATUS_NO_SUCH_DOMAIN ∷
        STATUS_NO_TRUST_SAM_ACCOUNT ∷
        STATUS_ACCOUNT_EXPIRED ∷
        STATUS_NOLOGON_INTERDOMAIN_TRUST_ACCOUNT ∷
        STATUS_NOLOGON_WORKSTATION_TRUST_ACCOUNT ∷
        STATUS_NOLOGON_SERVER_TRUST_ACCOUNT ∷
        STATUS_PASSWORD_MUST_CHANGE ∷
        STATUS_ACCOUNT_LOCKED_OUT ∷
        STATUS_DOWNGRADE_DETECTED ∷
        []) ≡ statuses }
    ensures interface { NETLOGON ≡ netlogon_syntax }
{}
