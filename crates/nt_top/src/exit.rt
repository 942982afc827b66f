//! Exits.

ghost use Rattle.std.specs.Prelude.{◌≡◌};

use account_table::TableRefused;
use end_loop::Halt;
use logon_client::{NoAnswerCause, PeerFault, RefusedCause};
use nt_words::{FilesRefused, WordsRefused};
use std::alloc::AllocError;
use wire_base::NoMemory;

/// How a command ended.
#[derive(Debug, Drop)]
pub enum Exit {
    /// The command did its work.
    Done,
    /// The logon was refused.
    Refused(RefusedCause),
    /// The command line isn't of its form: 0, or the number of the first option whose value isn't.
    BadWords(u32),
    /// A file wasn't read or written.
    FileFault,
    /// The account table was refused.
    BadTable(TableRefused),
    /// The word of that number, or the file of the option of that number, isn't of its form or is too long.
    BadInput(u32),
    /// The port failed to listen, or to give an event.
    PortFault,
    /// Output failed.
    SinkFault,
    /// No memory was found.
    NoMemory,
    /// No answer came to a logon.
    NoAnswer(NoAnswerCause),
    /// A logon was answered wrongly.
    BadPeer(PeerFault),
    /// The end draws a challenge and none is left.
    Spent,
}

impl From<NoMemory> for Exit {
    ghost use Rattle.std.specs.Prelude.{◌≡◌};
    ghost use Rattle.nt_top.specs.declared.exit.Exit.TheVariants as exits;

    ghost from_gives = { λ _ exit. exit ≡ exits.NoMemory };

    fn from(_error: NoMemory) -> Exit {
        Exit::NoMemory
    }
}

impl From<AllocError> for Exit {
    ghost use Rattle.std.specs.Prelude.{◌≡◌};
    ghost use Rattle.nt_top.specs.declared.exit.Exit.TheVariants as exits;

    ghost from_gives = { λ _ exit. exit ≡ exits.NoMemory };

    fn from(_error: AllocError) -> Exit {
        Exit::NoMemory
    }
}

impl From<WordsRefused> for Exit {
    ghost use Rattle.std.specs.Prelude.{◌≡◌};
    ghost use Rattle.nt_top.specs.Refusals.{words_exit};

    ghost from_gives = { λ refused exit. exit ≡ words_exit refused };

    fn from(refused: WordsRefused) -> Exit {
        match refused {
            WordsRefused::BadWords(number) => Exit::BadWords(number),
            WordsRefused::Memory => Exit::NoMemory,
        }
    }
}

impl From<FilesRefused> for Exit {
    ghost use Rattle.std.specs.Prelude.{◌≡◌};
    ghost use Rattle.nt_top.specs.Refusals.{files_exit};

    ghost from_gives = { λ refused exit. exit ≡ files_exit refused };

    fn from(refused: FilesRefused) -> Exit {
        match refused {
            FilesRefused::FileFault => Exit::FileFault,
            FilesRefused::BadTable(cause) => Exit::BadTable(cause),
            FilesRefused::BadInput(number) => Exit::BadInput(number),
            FilesRefused::NoMemory => Exit::NoMemory,
        }
    }
}

impl From<Halt> for Exit {
    ghost use Rattle.std.specs.Prelude.{◌≡◌};
    ghost use Rattle.nt_top.specs.Serve.{halt_exit};

    ghost from_gives = { λ halt exit. exit ≡ halt_exit halt };

    fn from(halt: Halt) -> Exit {
        match halt {
            Halt::PortFault => Exit::PortFault,
            Halt::FileFault => Exit::FileFault,
            Halt::SinkFault => Exit::SinkFault,
            Halt::NoMemory => Exit::NoMemory,
            Halt::Spent => Exit::Spent,
        }
    }
}

impl Exit {
    ghost use Rattle.nt_top.specs.Exits.{status_of};

    /// The exit status of the process (this project's own choice).
    pub fn status(&self) -> u8
        ensures { result ≡ status_of self.now }
    {
        match self {
            Exit::Done => 0,
            Exit::Refused(_) => 1,
            Exit::BadWords(_) => 2,
            Exit::FileFault => 3,
            Exit::BadTable(_) | Exit::BadInput(_) => 4,
            Exit::PortFault => 5,
            Exit::SinkFault => 6,
            Exit::NoMemory => 7,
            Exit::NoAnswer(_) => 8,
            Exit::BadPeer(_) => 9,
            Exit::Spent => 10,
        }
    }
}
