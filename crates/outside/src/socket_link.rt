//! Links of the port over TCP.

ghost use Rattle.std.specs.Prelude.{◌≡◌, ◌≤◌, ◌++◌, [], true, false, length, take, drop, IfOk, IfSome, if◌then◌else◌};
ghost use Rattle.std.specs.Io.KnownBytes.{Appends, Keeps, append_known};
ghost use Rattle.outside.specs.Reads.{HasFew};

use crate::port::MOST_EVENT_BYTES;
use mio::event::Event as Readiness;
use std::alloc::Global;
use std::io::{ErrorKind, Read, Write};
use std::os::fd::AsRawFd;
use wire_base::{Blob, NoMemory};

/// The most bytes of one link that wait for its peer to read.
const MOST_WAITING: usize = 1 << 18;

/// How many seconds a link that this end closed still has for what waits.
const LEAVING: u64 = 5;

/// An open link. It is closed where it is dropped.
#[derive(Drop)]
pub(crate) struct Link<T> {
    stream: T,
    /// What the socket didn't take yet.
    waiting: Vec<u8>,
    /// The second in which bytes came or were sent last.
    used: u64,
    /// Where this end closed it: the second at which what waits is given up.
    leaves: Option<u64>,
}

/// What a socket that was ready gave.
#[derive(Drop)]
pub(crate) enum Came {
    /// Bytes, and whether there may be more of them or an end.
    Bytes(Blob, bool),
    /// Nothing.
    Nothing,
    /// The end: the peer sends no more, closed the link or reset it, or all that waited went.
    End,
}

impl<T: Read + Write + AsRawFd + Drop> Link<T> {
    /// A link on which nothing was sent.
    pub(crate) fn new(alloc: Global, stream: T, now: u64) -> Link<T> {
        Link {
            stream,
            waiting: Vec::new(alloc),
            used: now,
            leaves: None,
        }
    }

    /// The link's socket.
    pub(crate) fn socket(&self) -> &T {
        &self.stream
    }

    /// Whether bytes wait for the socket to take them.
    pub(crate) fn waits(&self) -> bool
        ensures none { result ≡ false → self.now.waiting.items ≡ [] }
    {
        !self.waiting.is_empty()
    }

    /// Whether this end closed it.
    pub(crate) fn is_left(&self) -> bool {
        self.leaves.is_some()
    }

    /// Whether the link was silent for `limit` seconds, or this end closed it and its time is over.
    pub(crate) fn is_over(&self, now: u64, limit: u64) -> bool {
        match self.leaves {
            Some(last) => last <= now,
            None => now.saturating_sub(self.used) >= limit,
        }
    }

    /// Closes it from this end, and tells whether something still waits.
    pub(crate) fn leave(&mut self, now: u64) -> bool {
        self.leaves = Some(now.saturating_add(LEAVING));
        self.waits()
    }

    /// Sends the bytes behind those that wait, or lets them wait, and tells whether they were taken. Then what the
    /// socket took and what waits, in this order, have these bytes at their end.
    pub(crate) fn send(&mut self, bytes: &[u8], now: u64) -> bool
        ensures told { result ≡ true → Appends
            (append_known (T.contents self.old.stream) self.old.waiting.items)
            (append_known (T.contents self.new.stream) self.new.waiting.items) bytes.now }
    {
        if self.is_left() {
            return false;
        }
        self.used = now;
        if self.waits() {
            return keep(&mut self.waiting, bytes);
        }
        match written(&mut self.stream, bytes) {
            Some(count) => keep(&mut self.waiting, &bytes[count..]),
            None => false,
        }
    }

    /// What comes where the socket is ready: first what waits is sent. It is read into the room.
    pub(crate) fn serve(
        &mut self,
        alloc: Global,
        room: &mut [u8],
        ready: Readiness,
        now: u64,
    ) -> Result<Came, NoMemory>
        ensures { IfOk result HasFew }
    {
        if !self.flush() {
            return Ok(Came::End);
        }
        if self.is_left() {
            return Ok(if self.waits() {
                Came::Nothing
            } else {
                Came::End
            });
        }
        let is_ended = ready.is_read_closed() || ready.is_error();
        if !ready.is_readable() && !is_ended {
            return Ok(Came::Nothing);
        }
        self.used = now;
        read(alloc, &mut self.stream, room, is_ended)
    }

    /// What comes where nothing was told of the socket.
    pub(crate) fn read_on(
        &mut self,
        alloc: Global,
        room: &mut [u8],
        now: u64,
    ) -> Result<Came, NoMemory>
        ensures { IfOk result HasFew }
    {
        if self.is_left() {
            return Ok(Came::Nothing);
        }
        self.used = now;
        read(alloc, &mut self.stream, room, false)
    }

    /// Sends what waits, as far as the socket takes it, and tells whether the link holds. Then what the socket took
    /// and what waits are the same bytes as before.
    fn flush(&mut self) -> bool
        ensures kept { result ≡ true → Keeps
            (append_known (T.contents self.old.stream) self.old.waiting.items)
            (append_known (T.contents self.new.stream) self.new.waiting.items) }
    {
        if !self.waits() {
            return true;
        }
        match written(&mut self.stream, &self.waiting) {
            Some(count) => {
                drop_front(&mut self.waiting, count);
                true
            }
            None => false,
        }
    }
}

/// What the socket gives at once, read into the room. `is_ended` is whether an end was told, which stands behind the
/// bytes.
fn read<T: Read>(
    alloc: Global,
    stream: &mut T,
    room: &mut [u8],
    is_ended: bool,
) -> Result<Came, NoMemory>
    ensures { IfOk result HasFew }
{
    let most = room.len().min(MOST_EVENT_BYTES);
    let room = &mut room[..most];
    match stream.read(room) {
        Ok(0) => Ok(Came::End),
        Ok(count) => {
            let more = is_ended || count == most;
            Ok(Came::Bytes(Blob::copy(alloc, &room[..count])?, more))
        }
        Err(error) if error.kind() == ErrorKind::WouldBlock => Ok(Came::Nothing),
        // A signal came first: no bytes came so far.
        Err(error) if error.kind() == ErrorKind::Interrupted => {
            Ok(Came::Bytes(Blob::copy(alloc, &[])?, true))
        }
        Err(_) => Ok(Came::End),
    }
}

/// Writes as many of the bytes as the socket takes at once. Gives how many it took, or nothing where the link failed.
fn written<T: Write>(stream: &mut T, bytes: &[u8]) -> Option<usize>
    ensures most { IfSome result (λ count. count ≤ length bytes.now) }
    ensures told { IfSome result (λ count.
        Appends (T.contents stream.old) (T.contents stream.new) (take count bytes.now)) }
{
    let mut done = 0;
    // Each turn writes at least one byte, but for one that a signal ends.
    for _ in 0..bytes.len() {
        if done == bytes.len() {
            return Some(done);
        }
        match stream.write(&bytes[done..]) {
            Ok(0) => return None,
            Ok(count) => done += count,
            Err(error) if error.kind() == ErrorKind::WouldBlock => return Some(done),
            Err(error) if error.kind() == ErrorKind::Interrupted => {}
            Err(_) => return None,
        }
    }
    Some(done)
}

/// Lets the bytes wait behind the others, and tells whether there was room for them.
fn keep(waiting: &mut Vec<u8>, bytes: &[u8]) -> bool
    ensures { waiting.new.items ≡
        (if result then waiting.old.items ++ bytes.now else waiting.old.items) }
{
    bytes.len() <= MOST_WAITING.saturating_sub(waiting.len())
        && waiting.extend_from_slice(bytes).is_ok()
}

/// Takes `count` bytes away from the front.
fn drop_front(waiting: &mut Vec<u8>, count: usize)
    ensures { waiting.new.items ≡ drop count waiting.old.items }
{
    let left = waiting.len().saturating_sub(count);
    if count <= waiting.len() {
        waiting.rotate_left(count);
    }
    waiting.truncate(left);
}
