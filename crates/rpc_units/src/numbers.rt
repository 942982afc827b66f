//! Numbers of the standards that all ends share.

ghost use Rattle.std.specs.Prelude.{◌≡◌};
ghost use Rattle.rpc_units.specs.Numbers.{ndr_syntax, nca_op_rng_error, nca_proto_error, rpc_x_bad_stub_data, error_access_denied, rpc_s_server_unavailable, ntlm_provider, connect_level, integrity_level, privacy_level};

use crate::joiner::CALL_LIMIT;
use crate::reading::UNIT_LIMIT;
use crate::unit::Syntax;

/// The transfer syntax NDR, version 2 (MS-RPCE 2.2.4.12).
pub const NDR: Syntax = Syntax {
    uuid: [
        0x04, 0x5D, 0x88, 0x8A, 0xEB, 0x1C, 0xC9, 0x11, 0x9F, 0xE8, 0x08, 0x00, 0x2B, 0x10, 0x48,
        0x60,
    ],
    version: 2,
};

/// The status of a fault: the operation is out of range (nca_op_rng_error, C706 appendix E).
pub const OPERATION_OUT_OF_RANGE: u32 = 0x1C01_0002;

/// The status of a fault: a protocol error (nca_proto_error, C706 appendix E).
pub const PROTOCOL_ERROR: u32 = 0x1C01_000B;

/// The status of a fault: the stub isn't of its layout (RPC_X_BAD_STUB_DATA, MS-ERREF 2.2).
pub const BAD_STUB_DATA: u32 = 0x6F7;

/// The status of a fault: access is denied (ERROR_ACCESS_DENIED, MS-ERREF 2.2).
pub const ACCESS_DENIED: u32 = 5;

/// The status of a fault: no controller is found (RPC_S_SERVER_UNAVAILABLE, MS-ERREF 2.2; this project's own use).
pub const NO_CONTROLLER: u32 = 0x6BA;

/// The security provider of a trailer that has NTLM (RPC_C_AUTHN_WINNT, MS-RPCE 2.2.1.1.7).
pub const NTLM_PROVIDER: u8 = 10;

/// The level of a trailer at which the bind alone proves who calls (RPC_C_AUTHN_LEVEL_CONNECT, MS-RPCE 2.2.1.1.8).
pub const CONNECT_LEVEL: u8 = 2;

/// The level at which units are signed (RPC_C_AUTHN_LEVEL_PKT_INTEGRITY, MS-RPCE 2.2.1.1.8).
pub const INTEGRITY_LEVEL: u8 = 5;

/// The level at which units are signed, and their stubs sealed (RPC_C_AUTHN_LEVEL_PKT_PRIVACY, MS-RPCE 2.2.1.1.8).
pub const PRIVACY_LEVEL: u8 = 6;

/// The numbers are those of the standards, and the limits those of the definitions.
pub fn numbers_are_of_the_standards()
    ensures ndr { NDR ≡ ndr_syntax }
    ensures operation { OPERATION_OUT_OF_RANGE ≡ nca_op_rng_error }
    ensures protocol { PROTOCOL_ERROR ≡ nca_proto_error }
    ensures stub_data { BAD_STUB_DATA ≡ rpc_x_bad_stub_data }
    ensures denied { ACCESS_DENIED ≡ error_access_denied }
    ensures controller { NO_CONTROLLER ≡ rpc_s_server_unavailable }
    ensures provider { NTLM_PROVIDER ≡ ntlm_provider }
    ensures connect { CONNECT_LEVEL ≡ connect_level }
    ensures integrity { INTEGRITY_LEVEL ≡ integrity_level }
    ensures privacy { PRIVACY_LEVEL ≡ privacy_level }
    ensures unit { UNIT_LIMIT ≡ 5840 }
    ensures call { CALL_LIMIT ≡ 65536 }
{}
