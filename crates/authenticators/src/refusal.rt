//! Why a sequence refuses.

use thiserror::Error;

/// The credential isn't the next one of the sequence.
#[derive(Clone, Copy, Debug, PartialEq, Eq, Error)]
#[error("the credential is not the next of the sequence")]
pub struct NotNext {
    /// The credential that would have been taken.
    pub awaited: [u8; 8],
}
