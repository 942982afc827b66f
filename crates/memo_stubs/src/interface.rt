//! The memo interface as a bind names it.

ghost use Rattle.std.specs.Prelude.{◌≡◌};
ghost use Rattle.memo_stubs.specs.Interface.{memo_syntax};

use rpc_units::Syntax;

/// The memo interface: its UUID, 6E744C6F-676F-4E4D-8D65-6D6F00000001, as its bytes stand in a bind, and its version
/// (this project's own choice; C706 14.1).
pub const MEMO: Syntax = Syntax {
    uuid: [
        0x6F, 0x4C, 0x74, 0x6E, 0x6F, 0x67, 0x4D, 0x4E, 0x8D, 0x65, 0x6D, 0x6F, 0x00, 0x00, 0x00,
        0x01,
    ],
    version: 1,
};

/// The constant is that of the definitions.
pub fn what_constants_are()
    ensures { MEMO ≡ memo_syntax }
{}
