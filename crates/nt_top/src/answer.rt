//! What a command comes to.

use logon_client::RefusedCause;
use wire_base::Blob;

/// What a command puts where its words are of their form, and whether it refused a logon.
#[derive(Drop)]
pub(crate) struct Answer {
    /// Why the logon was refused, if it was.
    pub refused: Option<RefusedCause>,
    /// All that is put.
    pub lines: Blob,
}
