//! Why a session refuses.

use thiserror::Error;

/// Why a session refuses a unit. Each refusal breaks the session.
#[derive(Clone, Copy, Debug, PartialEq, Eq, Error)]
pub enum SealRefused {
    /// The session refused before.
    #[error("the session has refused before")]
    Broken,
    /// The direction's number stands at 2^32 - 1, the last, which no unit takes.
    #[error("the numbers of this direction are used up")]
    Spent,
    /// The version of the signature isn't 1.
    #[error("the signature has another version than 1")]
    BadVersion,
    /// The number of the signature isn't the next of its direction.
    #[error("the signature has the number {found}, not {wanted}")]
    BadSequence {
        /// The number in the signature.
        found: u32,
        /// The next number of the direction.
        wanted: u32,
    },
    /// The checksum isn't that of the unit.
    #[error("the checksum is not that of the unit")]
    BadChecksum,
}
