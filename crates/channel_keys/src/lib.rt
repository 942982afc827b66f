//! The keys and credentials of Netlogon's secure channel (MS-NRPC 3.1.4.3 and 3.1.4.4), without AES, its flags, and the
//! types that a channel may have.
//!
//! No call refuses or takes memory. DES, MD5 and HMAC-MD5 are what the protocol asks for: use them for nothing else.
#![tactic(auto)]

mod channel_types;
mod credentials;
mod flags;
mod hidden;
pub mod laws;
mod parts;
mod session_keys;

pub use channel_types::{BACKUP_CONTROLLER_CHANNEL, TRUSTED_DOMAIN_CHANNEL, WORKSTATION_CHANNEL};
pub use credentials::{CredKey, cred, cred_back};
pub use flags::{AES, RC4, SECURE_RPC, STRONG_KEY, SUPPORTED_FLAGS, granted_flags};
pub use hidden::crypt_key;
pub use session_keys::{des_key, session_key, strong_key};
