//! Netlogon's interface as a bind names it.

use rpc_units::Syntax;

/// Netlogon's interface: its UUID, 12345678-1234-ABCD-EF00-01234567CFFB, as its bytes stand in a bind, and its version
/// (MS-NRPC 2.1; C706 14.1).
pub const NETLOGON: Syntax = Syntax {
    uuid: [
        0x78, 0x56, 0x34, 0x12, 0x34, 0x12, 0xCD, 0xAB, 0xEF, 0x00, 0x01, 0x23, 0x45, 0x67, 0xCF,
        0xFB,
    ],
    version: 1,
};
