//! Files that are read whole.

ghost use Rattle.std.specs.Prelude.{◌≡◌, ◌≤◌, ℕ, List, [], ◌∷◌, Bool, Option, IfSome, IfOk, OnErr, is_err, length};
ghost use Rattle.outside.specs.Causes.{Rose};
ghost use Rattle.outside.specs.Telling.{Appends, Tells};
ghost use Rattle.outside.specs.Contents.{AnswersFrom, LeavesFiles, most_file_bytes, reading};

use crate::port::Failed;
use std::alloc::Global;
use thiserror::Error;
use wire_base::{Blob, NoMemory};

/// The most bytes of a file.
pub const MOST_FILE_BYTES: usize = 16777216;

/// Why a file wasn't read.
#[derive(Clone, Copy, Debug, PartialEq, Eq, Error)]
pub enum FileRefused {
    /// The file couldn't be read. The count of faults rose in this call.
    #[error("the file could not be read")]
    Failed,
    /// The file has more bytes than a file may have here.
    #[error("the file is too long")]
    TooLong,
    /// No memory was found for its content.
    #[error("no memory")]
    Memory,
}

impl From<NoMemory> for FileRefused {
    ghost use Rattle.std.specs.Prelude.{◌≡◌};
    ghost use Rattle.outside.specs.declared.files.FileRefused.TheVariants.{Memory};

    ghost from_gives = { λ _ refused. refused ≡ Memory };

    fn from(_error: NoMemory) -> FileRefused {
        FileRefused::Memory
    }
}

/// Files by name (this project's own choice). `faults` counts the failures and never falls. `contents` is, where it is
/// told, what the files hold, `reads` the names that were read, in order, each with whether that failed, and `writes`
/// the names and the bytes that were written, in the same way.
pub trait Files {
    ghost faults: { Self → ℕ };

    ghost contents: { Self → Option (List (List ℕ × List ℕ)) };

    ghost reads: { Self → Option (List (List ℕ × Bool)) };

    ghost writes: { Self → Option (List (List ℕ × List ℕ × Bool)) };

    /// The whole content of the file, at most 16,777,216 bytes.
    fn read(&mut self, alloc: Global, name: &[u8]) -> Result<Blob, FileRefused>
        ensures cause { result ≡ Err FileRefused.Failed → Rose (faults self.old) (faults self.new) }
        ensures faults { faults self.old ≤ faults self.new }
        ensures limit { IfOk result (λ content. length content ≤ most_file_bytes) }
        ensures content { IfSome (contents self.old) (λ files. AnswersFrom files name.now result) }
        ensures contents { contents self.new ≡ contents self.old }
        ensures told { Appends (reads self.old) (reads self.new) (reading name.now result) }
        ensures writes { Appends (writes self.old) (writes self.new) [] };

    /// Writes the file, of any number of bytes: the whole file has them at Ok, and after `Failed` the old or the new
    /// ones. Every other file stays. It takes no memory that it answers for.
    fn write(&mut self, name: &[u8], bytes: &[u8]) -> Result<(), Failed>
        ensures cause { OnErr result (Rose (faults self.old) (faults self.new)) }
        ensures faults { faults self.old ≤ faults self.new }
        ensures contents { Tells (contents self.old) (contents self.new)
            (λ files now. LeavesFiles result name.now bytes.now files now) }
        ensures told { Appends (writes self.old) (writes self.new)
            ((name.now, bytes.now, is_err result) ∷ []) }
        ensures reads { Appends (reads self.old) (reads self.new) [] };
}
