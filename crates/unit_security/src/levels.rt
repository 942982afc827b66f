//! What the authentication levels say of units.

ghost use Rattle.std.specs.Prelude.{◌≡◌};
ghost use Rattle.unit_security.specs.Levels.{is_level, is_plain, is_sealed, is_signed};

use rpc_units::{CONNECT_LEVEL, INTEGRITY_LEVEL, PRIVACY_LEVEL};

/// Whether calls and replies have no signature at the level (MS-RPCE 2.2.1.1.8).
pub fn is_plain(level: u8) -> bool
    ensures { result ≡ is_plain level }
{
    level == CONNECT_LEVEL
}

/// Whether units are signed at the level (MS-RPCE 2.2.1.1.8).
pub fn is_signed(level: u8) -> bool
    ensures { result ≡ is_signed level }
{
    level == INTEGRITY_LEVEL || level == PRIVACY_LEVEL
}

/// Whether stubs are sealed at a level, besides being signed (MS-RPCE 2.2.1.1.8).
pub fn is_sealed(level: u8) -> bool
    ensures { result ≡ is_sealed level }
{
    level == PRIVACY_LEVEL
}

/// Whether a level is spoken: that without signatures, and those at which units are signed, or sealed too.
pub fn is_level(level: u8) -> bool
    ensures { result ≡ is_level level }
{
    is_plain(level) || is_signed(level)
}
