//! DES (FIPS 46-3) on single blocks, under keys of 8 bytes and of 7 bytes, and its inverse under keys of 7 bytes. A
//! `Schedule` keeps the round keys of one key.
//!
//! The calls at the root work on words; those of `plain` work on lists of bits as the standard writes them, and serve
//! as the reference. No call refuses or takes memory, and none claims constant time.
#![tactic(auto)]

mod bits;
mod cipher;
mod des;
mod exchanges;
mod joined_boxes;
mod left_rows;
pub mod plain;
mod right_rows;
mod schedule;
mod tables;
mod word_cipher;
mod word_round;
mod word_schedule;

pub use des::{Schedule, des_back, des_block, des_block8, spread_key};
