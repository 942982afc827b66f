//! Why a message or a list of pairs wasn't read or written.

ghost use Rattle.std.specs.Prelude.{◌≡◌};

use thiserror::Error;
use wire_base::NoMemory;

/// A payload field of a message.
#[derive(Clone, Copy, Debug, PartialEq, Eq)]
pub enum Field {
    /// The domain's name, of NEGOTIATE and AUTHENTICATE.
    Domain,
    /// The workstation's name, of NEGOTIATE and AUTHENTICATE.
    Workstation,
    /// The target's name, of CHALLENGE.
    Target,
    /// The target information, of CHALLENGE.
    Info,
    /// The LM response, of AUTHENTICATE.
    Lm,
    /// The NT response, of AUTHENTICATE.
    Nt,
    /// The user's name, of AUTHENTICATE.
    User,
    /// The encrypted session key, of AUTHENTICATE.
    Key,
}

/// Why bytes weren't read as a message: the first of these, in this order, that holds of the bytes, or want of memory.
#[derive(Clone, Copy, Debug, PartialEq, Eq, Error)]
pub enum MessageRefused {
    /// Fewer than the least number of bytes: 16 in NEGOTIATE, 48 in CHALLENGE, 64 in AUTHENTICATE.
    #[error("the message is shorter than its header")]
    ShortHeader,
    /// The first 8 bytes aren't `NTLMSSP` and a zero.
    #[error("the message doesn't begin with the signature")]
    BadSignature,
    /// The message is of this type, which isn't the one asked for.
    #[error("the message is of type {0}")]
    BadType(u32),
    /// The first field in header order that isn't empty and begins inside the fixed header or ends past the message.
    #[error("the field {0:?} lies outside of the payload")]
    FieldOutside(Field),
    /// The first text field of odd length in a message whose texts are UTF-16LE.
    #[error("the text field {0:?} has an odd length")]
    OddText(Field),
    /// No memory was found.
    #[error("no memory")]
    Memory,
}

impl From<NoMemory> for MessageRefused {
    ghost use Rattle.ntlm_messages.specs.declared.refused.MessageRefused.TheVariants.{Memory};

    ghost from_gives = { λ _ e. e ≡ Memory };

    fn from(_error: NoMemory) -> MessageRefused {
        MessageRefused::Memory
    }
}

/// Why a message wasn't written.
#[derive(Clone, Copy, Debug, PartialEq, Eq, Error)]
pub enum WriteRefused {
    /// The first field in header order of more than 65,535 bytes.
    #[error("the field {0:?} is longer than 65,535 bytes")]
    TooLong(Field),
    /// No memory was found.
    #[error("no memory")]
    Memory,
}

impl From<NoMemory> for WriteRefused {
    ghost use Rattle.ntlm_messages.specs.declared.refused.WriteRefused.TheVariants.{Memory};

    ghost from_gives = { λ _ e. e ≡ Memory };

    fn from(_error: NoMemory) -> WriteRefused {
        WriteRefused::Memory
    }
}
