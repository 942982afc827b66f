//! Waiting for sockets: which of them can be read, written or accepted from.

use mio::event::Event as Readiness;
use mio::unix::SourceFd;
use mio::{Events, Interest, Poll, Token};
use std::alloc::Global;
use std::collections::VecDeque;
use std::io;
use std::net::Net;
use std::os::fd::AsRawFd;
use std::time::Duration;

/// How many sockets the system tells of at once. Each of them is served once before it is asked again.
const MOST_AT_ONCE: usize = 64;

/// How many bytes are read at once: a unit of RPC has no more here.
const MOST_READ: usize = 5840;

/// The sockets that are watched, each under a number, and those that the system told of and that weren't served yet.
/// A socket that is dropped leaves it.
#[derive(Drop)]
pub(crate) struct Watch {
    poll: Poll,
    events: Events,
    ready: VecDeque<Readiness>,
    /// The place that sockets are read into, one after the other.
    pub(crate) room: Vec<u8>,
}

impl Watch {
    /// No socket is watched yet.
    pub(crate) fn new<N: Net>(alloc: Global, net: &N) -> io::Result<Watch> {
        Ok(Watch {
            poll: Poll::new(net)?,
            events: Events::with_capacity(alloc, MOST_AT_ONCE)?,
            ready: VecDeque::with_capacity(alloc, MOST_AT_ONCE)?,
            room: Vec::from_elem(alloc, 0, MOST_READ)?,
        })
    }

    /// Watches one more socket for what can be read or accepted.
    pub(crate) fn add<F: AsRawFd>(&self, socket: &F, number: u32) -> io::Result<()> {
        self.poll.registry().register(
            &mut SourceFd(&socket.as_raw_fd()),
            Token(number as usize),
            Interest::READABLE,
        )
    }

    /// Has the system tell again what the socket is ready for: it tells of changes alone. `writes` is whether it is
    /// to tell of room for bytes too.
    pub(crate) fn ask_again<F: AsRawFd>(
        &self,
        socket: &F,
        number: u32,
        writes: bool,
    ) -> io::Result<()> {
        let interest = if writes {
            Interest::READABLE | Interest::WRITABLE
        } else {
            Interest::READABLE
        };
        self.poll.registry().reregister(
            &mut SourceFd(&socket.as_raw_fd()),
            Token(number as usize),
            interest,
        )
    }

    /// The next socket that was told of: its number, and what it is ready for.
    pub(crate) fn next(&mut self) -> Option<Readiness> {
        self.ready.pop_front()
    }

    /// Waits until a socket is ready, at most so long.
    pub(crate) fn wait(&mut self, limit: Option<Duration>) -> io::Result<()> {
        self.poll.poll(&mut self.events, limit)?;
        for event in &self.events {
            self.ready.push_back(*event)?;
        }
        Ok(())
    }
}
