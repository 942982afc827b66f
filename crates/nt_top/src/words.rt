//! Words that must be of a form.

ghost use Rattle.std.specs.Prelude.{◌≡◌, ◌⊎◌, Ok, IsErr, MatchResult};
ghost use Rattle.hex.specs.Hex.{decode_of};
ghost use Rattle.nt_top.specs.Refusals.{message_exit, pairs_exit};

use crate::exit::Exit;
use hex::FromHexError;
use ntlm_messages::{MessageRefused, PairsRefused};
use std::alloc::Global;

/// The bytes of the word of that number, a hex text in either case of its digits.
pub(crate) fn bytes_from_hex(alloc: Global, number: u32, text: &str) -> Result<Vec<u8>, Exit>
    ensures { MatchResult result (λ bytes. decode_of text.now ≡ Ok bytes.items)
        (λ exit. (exit ≡ Exit.NoMemory) ⊎
        ((exit ≡ Exit.BadInput number) × IsErr (decode_of text.now))) }
{
    hex::decode(alloc, text).map_err(|refused| match refused {
        FromHexError::OutOfMemory => Exit::NoMemory,
        _ => Exit::BadInput(number),
    })
}

/// The exit where the word of that number holds a message that was refused.
pub(crate) fn message_exit(refused: MessageRefused, number: u32) -> Exit
    ensures { result ≡ message_exit refused number }
{
    match refused {
        MessageRefused::Memory => Exit::NoMemory,
        _ => Exit::BadInput(number),
    }
}

/// The exit where the word of that number holds a list of pairs that was refused.
pub(crate) fn pairs_exit(refused: PairsRefused, number: u32) -> Exit
    ensures { result ≡ pairs_exit refused number }
{
    match refused {
        PairsRefused::Memory => Exit::NoMemory,
        _ => Exit::BadInput(number),
    }
}
