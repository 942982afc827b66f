//! Who asks on a channel.

use wire_base::Units;

/// Who asks: the account's secret, which is its NT hash, the names of the computer and of its account, and the type of
/// the channel (MS-NRPC 2.2.1.3.13).
#[derive(Debug, Drop)]
pub struct Caller {
    pub secret: [u8; 16],
    pub computer: Units,
    pub account: Units,
    pub kind: u16,
}
