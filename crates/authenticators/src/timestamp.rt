//! The timestamp of an authenticator.

ghost use Rattle.std.specs.Prelude.{◌≡◌, ◌+◌, ◌/◌, ◌%◌, ◌^◌};
ghost use Rattle.authenticators.specs.Timestamps.{seconds_to_1970, timestamp_of};

/// The seconds from 1601-01-01 to 1970-01-01.
const SECONDS_TO_1970: u64 = 11_644_473_600;

/// The seconds since 1970-01-01 at a moment (MS-NRPC 2.2.1.1.5), which is a number of units of 100 ns since 1601-01-01
/// (MS-DTYP 2.3.3, FILETIME): modulo 2^32, so that a moment before 1970 has a timestamp too (this project's own
/// choice).
pub fn timestamp_at(now: u64) -> u32
    ensures value { result ≡ timestamp_of now }

    // With the seconds up to 1970 it is the moment's seconds since 1601, modulo 2^32.
    ensures seconds { (result + seconds_to_1970) % 2 ^ 32 ≡ now / 10000000 % 2 ^ 32 }
{
    ((now / 10_000_000 + 3 * (1 << 32) - SECONDS_TO_1970) % (1 << 32)) as u32
}
