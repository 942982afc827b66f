//! The calls of Netlogon's secure channel and their replies, as stubs of RPC (MS-NRPC 3.5.4).
#![tactic(auto)]

mod answers;
mod calls;
mod info;
mod interface;
mod laws;
mod reading;
mod reading_info;
mod reading_parts;
mod refused;
mod status;
mod writing;
mod writing_info;
mod writing_parts;

pub use answers::answers_are_long;
pub use calls::{
    AUTHENTICATE_OPNUM, AuthCall, AuthReply, CHALLENGE_OPNUM, Call, ChallengeCall, ChallengeReply,
    LOGOFF_OPNUM, LOGON_OPNUM, LogoffCall, LogoffReply, LogonCall, LogonReply, Reply,
};
pub use info::{ExtraSids, NetworkInfo, SamInfo, Verdict};
pub use interface::NETLOGON;
pub use laws::lost_middles_are_refused;
pub use reading::{read_call, read_reply};
pub use reading_parts::{read_sixteen, read_unique_authenticator};
pub use refused::StubRefused;
pub use status::{
    STATUS_ACCESS_DENIED, STATUS_ACCOUNT_DISABLED, STATUS_ACCOUNT_EXPIRED,
    STATUS_ACCOUNT_LOCKED_OUT, STATUS_DOWNGRADE_DETECTED, STATUS_INSUFFICIENT_RESOURCES,
    STATUS_INVALID_INFO_CLASS, STATUS_INVALID_WORKSTATION, STATUS_NO_LOGON_SERVERS,
    STATUS_NO_SUCH_DOMAIN, STATUS_NO_SUCH_LOGON_SESSION, STATUS_NO_SUCH_USER,
    STATUS_NO_TRUST_SAM_ACCOUNT, STATUS_NOLOGON_INTERDOMAIN_TRUST_ACCOUNT,
    STATUS_NOLOGON_SERVER_TRUST_ACCOUNT, STATUS_NOLOGON_WORKSTATION_TRUST_ACCOUNT,
    STATUS_PASSWORD_EXPIRED, STATUS_PASSWORD_MUST_CHANGE, STATUS_WRONG_PASSWORD,
    what_constants_are,
};
pub use writing::{what_is_written_is_read, write_call, write_reply};
pub use writing_parts::{write_sixteen, write_unique_authenticator};
