//! The outside in memory that a command runs over.

use case_words::number_list;
use nt_top::{Exit, Role, run};
use outside::{ListChances, ListClock, MapFiles, ScriptPort, Sink, VecSink};
use std::alloc::Global;
use wire_base::List;

/// An outside but for its sink.
pub(crate) struct Memory {
    pub port: ScriptPort,
    pub files: MapFiles,
    pub clock: ListClock,
    pub chances: ListChances,
}

impl Drop for Memory {
    // The drop that would be derived. Written out, it is one call wherever a value that holds a `Memory` is let go,
    // which keeps the proofs of those places short.
    fn drop(self) {
        let Memory {
            port: _port,
            files: _files,
            clock: _clock,
            chances: _chances,
        } = self;
    }
}

impl Memory {
    /// No events, no files and no challenges.
    pub(crate) fn empty(alloc: Global) -> Memory {
        let events = List::new(alloc);
        Memory {
            port: ScriptPort::new(alloc, events, List::new(alloc)),
            files: MapFiles::new(alloc, List::new(alloc), List::new(alloc)),
            clock: clock(alloc),
            chances: ListChances::new(List::new(alloc)),
        }
    }

    /// Whether all that was kept is still told.
    pub(crate) fn tells(&self) -> bool {
        self.port.tells() && self.files.tells() && self.clock.tells()
    }
}

/// A clock that stands at 0.
pub(crate) fn clock(alloc: Global) -> ListClock {
    ListClock::new(alloc, 0, List::new(alloc))
}

/// A sink of which the calls of a word fail.
pub(crate) fn sink(alloc: Global, failing: &str) -> anyhow::Result<VecSink> {
    Ok(VecSink::new(alloc, number_list(alloc, failing)?))
}

/// Runs a command.
pub(crate) fn run_over<S: Sink>(
    alloc: Global,
    role: Role,
    command: &[String],
    memory: &mut Memory,
    out: &mut S,
) -> Exit {
    run(
        alloc,
        role,
        command,
        &mut memory.port,
        &mut memory.files,
        out,
        &mut memory.clock,
        &mut memory.chances,
    )
}
