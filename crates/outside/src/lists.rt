//! The lists that scripted implementations are made from, and keep.

use wire_base::{Blob, List};

/// Challenges of 8 bytes.
pub type Draws = List<[u8; 8]>;

/// Moments of a clock.
pub type Moments = List<u64>;

/// Pairs of byte strings, as the names of files and what is in them.
pub type Texts = List<(Blob, Blob)>;

/// What was sent: the link and the bytes of each.
pub type Sends = List<(u32, Blob)>;
