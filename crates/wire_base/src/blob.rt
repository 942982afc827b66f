//! Byte strings that own their bytes.

ghost use Rattle.std.specs.Prelude.{◌≡◌, IfOk};

use crate::memory::NoMemory;
use std::alloc::Global;
use std::marker::Model;

/// A byte string, seen as the list of its bytes.
#[derive(Debug, Drop)]
pub struct Blob {
    bytes: Vec<u8>,
}

impl Model for Blob {
    ghost use Rattle.std.specs.Prelude.{ℕ, List};

    ghost Value = { List ℕ };

    ghost view = { λ b. b.bytes.items };
}

impl Blob {
    /// A copy of the bytes.
    pub fn copy(alloc: Global, bytes: &[u8]) -> Result<Blob, NoMemory>
        ensures { IfOk result (λ b. b ≡ bytes.now) }
    {
        Ok(Blob {
            bytes: Vec::from_slice(alloc, bytes)?,
        })
    }

    /// The bytes, in order.
    pub fn bytes(&self) -> &[u8]
        ensures { result.now ≡ self.now }
    {
        self.bytes.as_slice()
    }

    /// The bytes of a vector, without a copy.
    pub fn from_vec(bytes: Vec<u8>) -> Blob
        ensures { result ≡ bytes.items }
    {
        Blob { bytes }
    }

    /// The bytes as a vector, without a copy.
    pub fn into_vec(self) -> Vec<u8>
        ensures { result.items ≡ self }
    {
        let Blob { bytes } = self;
        bytes
    }
}
