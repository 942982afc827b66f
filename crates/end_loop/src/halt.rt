//! Why a run halts before its end.

use wire_base::NoMemory;

/// Why a run halted before its end (this project's own choice).
#[derive(Clone, Copy, Debug, PartialEq, Eq)]
pub enum Halt {
    /// The port failed to listen or to give an event.
    PortFault,
    /// A text wasn't written to the file that is kept.
    FileFault,
    /// The sink failed.
    SinkFault,
    /// No memory was found.
    NoMemory,
    /// The end's step draws more challenges than were left.
    Spent,
}

impl From<NoMemory> for Halt {
    ghost use Rattle.std.specs.Prelude.{◌≡◌};
    ghost use Rattle.end_loop.specs.declared.halt.Halt.TheVariants as halts;

    ghost from_gives = { λ _ halt. halt ≡ halts.NoMemory };

    fn from(_error: NoMemory) -> Halt {
        Halt::NoMemory
    }
}
