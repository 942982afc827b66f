//! MD4 (RFC 1320) and HMAC-MD5 (RFC 2104) of a message, whole or in pieces.
//!
//! NTLM is made of both (MS-NLMP 6). MD4 and MD5 are broken as hash functions: use them for nothing else.
#![tactic(auto)]

mod hmac_digest;
mod md4_block;
mod md4_digest;

pub use hmac_digest::{Hmac, hmac_md5};
pub use md4_digest::{Md4Hasher, md4};
