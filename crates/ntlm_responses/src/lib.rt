//! NTLM's hashes of a password, its responses to a challenge, and the keys of a session (MS-NLMP 3.3 and 3.4.5.1).
//!
//! Only `respond_v2` takes memory.
#![tactic(auto)]

mod hashes;
mod keys;
mod responses;
mod verification;

pub use hashes::{lm_hash, nt_hash, nt_key_v2};
pub use keys::{exchange_key, exported_key};
pub use responses::{
    challenge_for, hashed_challenge, one_response_answers_one_challenge, respond_v1,
    respond_v1_ess, respond_v2,
};
pub use verification::{verify, what_is_written_verifies};
