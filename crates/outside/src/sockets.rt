//! The sockets of the port over TCP: the listening place, and the open links by their numbers.

ghost use Rattle.std.specs.Prelude.{IfOk};
ghost use Rattle.outside.specs.Links.{IsGiven, MayBeGiven};
ghost use Rattle.outside.specs.Reads.{HasFew};

use crate::event::Event;
use crate::port::PortRefused;
use crate::socket_link::{Came, Link};
use crate::socket_watch::Watch;
use mio::event::Event as Readiness;
use std::alloc::Global;
use std::collections::BTreeMap;
use std::io;
use std::io::ErrorKind;
use std::net::{Net, OpenListener, OpenStream, TcpListener, TcpStream, ToSocketAddrs};
use std::time::{Clock, Duration};

/// The number of the listening place, which no link has.
const LISTENER: u32 = 0;

/// The first number of a link that was dialled. Those that were accepted have lower ones.
const FIRST_DIALLED: u32 = 1 << 31;

/// How many seconds a dial waits for its peer, where the port isn't told another number.
const DIAL_LIMIT: u64 = 3;

/// How many seconds a peer that was dialled may be silent while it is waited for.
const DIALLED_SILENCE: u64 = 30;

/// How many seconds a peer that was dialled may be silent while it is waited for, where the port listens too: those
/// that wait for it meanwhile are to hear of it in their own time.
const DIALLED_SILENCE_OF_SERVER: u64 = 15;

/// How many seconds a peer whose link was accepted may be silent.
const ACCEPTED_SILENCE: u64 = 900;

/// How many seconds pass at most until the links are looked over for silent ones.
const LOOK_EVERY: u64 = 1;

/// How many pieces come after a link that was read before the port waited and gave nothing, until that is tried
/// again.
const PIECES_UNTIL_AHEAD: u32 = 32;

/// The errors of accept(2) of Linux that say that the listening place is none.
const EBADF: i32 = 9;

const EINVAL: i32 = 22;

const ENOTSOCK: i32 = 88;

/// The errors of Linux that say that descriptors or memory are wanting.
const ENOMEM: i32 = 12;

const ENFILE: i32 = 23;

const EMFILE: i32 = 24;

const ENOBUFS: i32 = 105;

/// How many seconds peers have that are dialled.
#[derive(Drop)]
pub(crate) struct Limits {
    /// For all addresses of a peer together, until one answers.
    pub(crate) dial: u64,
    /// For a peer that is waited for, until something comes of it.
    pub(crate) silence: u64,
    /// For a peer that is waited for where the port listens too.
    pub(crate) silence_of_server: u64,
}

/// The limits of a port that isn't told others, in seconds.
pub(crate) fn usual_limits() -> Limits {
    Limits {
        dial: DIAL_LIMIT,
        silence: DIALLED_SILENCE,
        silence_of_server: DIALLED_SILENCE_OF_SERVER,
    }
}

/// The sockets. Nothing of what they give is told.
#[derive(Drop)]
pub(crate) struct Sockets<N: Net> {
    alloc: Global,
    watch: Option<Watch>,
    listener: Option<N::Listener>,
    /// Whether no descriptor was found for the next link that is accepted.
    rests: bool,
    limits: Limits,
    links: BTreeMap<u32, Link<N::Stream>>,
    next_accepted: u32,
    next_dialled: u32,
    /// The second in which the port last waited or dialled.
    now: u64,
    /// The second in which the links were looked over last.
    looked: u64,
    /// The link that gave bytes last, where it is to be read once more before the port waits.
    ahead: Option<u32>,
    /// How many pieces are to come until a link is again read once more before the port waits.
    pieces_until_ahead: u32,
}

impl<N: Net + Clock> Sockets<N> {
    /// Nothing is open yet.
    pub(crate) fn new(alloc: Global, limits: Limits) -> Self {
        Sockets {
            alloc,
            watch: None,
            listener: None,
            rests: false,
            limits,
            links: BTreeMap::new(alloc),
            next_accepted: 1,
            next_dialled: FIRST_DIALLED,
            now: 0,
            looked: 0,
            ahead: None,
            pieces_until_ahead: 0,
        }
    }

    /// Opens the listening place at the address.
    pub(crate) fn listen(&mut self, net: &N, address: &str) -> io::Result<()> {
        self.begin(net)?;
        let listener = TcpListener::bind(net, address)?;
        listener.set_nonblocking(true)?;
        if let Some(watch) = &self.watch {
            watch.add(&listener, LISTENER)?;
        }
        self.listener = Some(listener);
        Ok(())
    }

    /// Makes the watch where there is none.
    fn begin(&mut self, net: &N) -> io::Result<()> {
        if self.watch.is_none() {
            self.watch = Some(Watch::new(self.alloc, net)?);
        }
        Ok(())
    }

    /// The next event of all sockets. It waits until there is one.
    pub(crate) fn next(&mut self, net: &N, want: Option<u32>) -> Result<Event, PortRefused>
        ensures { IfOk result IsGiven }
    {
        // A loop is proved to end, so this one counts its turns.
        for _ in 0..u64::MAX {
            match self.turn(net, want) {
                Ok(Some(event)) => return Ok(event),
                Ok(None) => {}
                Err(refused) => return Err(refused),
            }
        }
        Err(PortRefused::Failed)
    }

    /// Serves one socket that is ready, or waits for one where none is.
    fn turn(&mut self, net: &N, want: Option<u32>) -> Result<Option<Event>, PortRefused>
        ensures { IfOk result MayBeGiven }
    {
        if self.listener.is_none() && self.links.is_empty() {
            return Ok(Some(Event::Stop));
        }
        let Some(watch) = &mut self.watch else {
            return Ok(Some(Event::Stop));
        };
        if let Some(ready) = watch.next() {
            return self.serve(ready);
        }
        match self.ahead.take() {
            Some(number) => self.read_ahead(number),
            None => self.wait(net, want),
        }
    }

    /// What a socket gives that is ready.
    fn serve(&mut self, ready: Readiness) -> Result<Option<Event>, PortRefused>
        ensures { IfOk result MayBeGiven }
    {
        let Ok(number) = u32::try_from(ready.token().0) else {
            return Ok(None);
        };
        if number == LISTENER {
            return self.accept();
        }
        // A link that isn't there was closed meanwhile.
        let Some(link) = self.links.get_mut(&number) else {
            return Ok(None);
        };
        let Some(watch) = &mut self.watch else {
            return Ok(None);
        };
        let came = link.serve(self.alloc, &mut watch.room, ready, self.now)?;
        Ok(self.event_of(number, came))
    }

    /// What the link gives that was served last, where more came of it meanwhile.
    fn read_ahead(&mut self, number: u32) -> Result<Option<Event>, PortRefused>
        ensures { IfOk result MayBeGiven }
    {
        let Some(link) = self.links.get_mut(&number) else {
            return Ok(None);
        };
        let Some(watch) = &mut self.watch else {
            return Ok(None);
        };
        let came = link.read_on(self.alloc, &mut watch.room, self.now)?;
        if matches!(came, Came::Nothing) {
            self.pieces_until_ahead = PIECES_UNTIL_AHEAD;
        }
        let event = self.event_of(number, came);
        self.ahead = None;
        Ok(event)
    }

    /// What came on the link as an event, where it is one.
    fn event_of(&mut self, number: u32, came: Came) -> Option<Event>
        requires { HasFew came }
        ensures { MayBeGiven result }
    {
        match came {
            Came::Nothing => None,
            Came::End => self.end(number),
            Came::Bytes(bytes, more) => {
                if more {
                    self.ask_again(number);
                } else {
                    self.plan_ahead(number);
                }
                Some(Event::Bytes(number, bytes))
            }
        }
    }

    /// Has the link, which gave all that it had, read once more before the port waits, unless that was of no use
    /// lately.
    fn plan_ahead(&mut self, number: u32) {
        if self.pieces_until_ahead == 0 {
            self.ahead = Some(number);
        } else {
            self.pieces_until_ahead -= 1;
        }
    }

    /// Has the system tell again what the socket of the link is ready for. That can fail only where the link is none
    /// of the watch's, which it is.
    fn ask_again(&self, number: u32) {
        if let Some(watch) = &self.watch
            && let Some(link) = self.links.get(&number)
        {
            watch.ask_again(link.socket(), number, link.waits()).ok();
        }
    }

    /// Ends the link, as the port tells it, unless this end closed it before. What waits on it is still sent.
    fn end(&mut self, number: u32) -> Option<Event>
        ensures { MayBeGiven result }
    {
        let link = self.links.get_mut(&number)?;
        if link.is_left() {
            self.links.remove(&number);
            return None;
        }
        if !link.leave(self.now) {
            self.links.remove(&number);
        }
        Some(Event::Closed(number))
    }

    /// The next link of a peer, where there is one.
    fn accept(&mut self) -> Result<Option<Event>, PortRefused>
        ensures { IfOk result MayBeGiven }
    {
        let Some(listener) = &self.listener else {
            return Ok(None);
        };
        match listener.accept() {
            Ok((stream, _)) => {
                self.go_on_accepting()?;
                Ok(self.open(stream))
            }
            Err(error) if error.kind() == ErrorKind::WouldBlock => Ok(None),
            Err(error) if is_of_the_place(error.raw_os_error()) => Err(PortRefused::Failed),
            Err(error) if is_want(error.raw_os_error()) => {
                self.rests = true;
                Ok(None)
            }
            // A link that ended before it was accepted.
            Err(_) => {
                self.go_on_accepting()?;
                Ok(None)
            }
        }
    }

    /// Has the system tell again of links to accept.
    fn go_on_accepting(&mut self) -> Result<(), PortRefused> {
        self.rests = false;
        if let Some(watch) = &self.watch
            && let Some(listener) = &self.listener
            && watch.ask_again(listener, LISTENER, false).is_err()
        {
            return Err(PortRefused::Failed);
        }
        Ok(())
    }

    /// Opens the link that was accepted.
    fn open(&mut self, stream: N::Stream) -> Option<Event>
        ensures { MayBeGiven result }
    {
        let number = self.next_accepted;
        self.next_accepted = (number % (FIRST_DIALLED - 1)) + 1;
        if self.adopt(stream, number) {
            Some(Event::Opened(number))
        } else {
            None
        }
    }

    /// Takes the stream in as the link of this number. Where that fails it is closed: for want of memory, or since a
    /// link of the number is open still.
    fn adopt(&mut self, stream: N::Stream, number: u32) -> bool {
        if self.links.contains_key(&number) || stream.set_nonblocking(true).is_err() {
            return false;
        }
        // Without this option each small unit waits for an answer to the one before.
        stream.set_nodelay(true).ok();
        let Some(watch) = &self.watch else {
            return false;
        };
        if watch.add(&stream, number).is_err() {
            return false;
        }
        let link = Link::new(self.alloc, stream, self.now);
        self.links.insert(number, link).is_ok()
    }

    /// Gives up one link that was silent too long, where there is one, or else waits for a socket that is ready.
    fn wait(&mut self, net: &N, want: Option<u32>) -> Result<Option<Event>, PortRefused>
        ensures { IfOk result MayBeGiven }
    {
        if self.now != self.looked {
            if let Some(number) = self.over(want) {
                return self.give_up(number);
            }
            self.looked = self.now;
            if self.rests {
                self.go_on_accepting()?;
            }
        }
        let limit = if self.links.is_empty() && !self.rests {
            None
        } else {
            Some(Duration::from_secs(LOOK_EVERY))
        };
        if let Some(watch) = &mut self.watch
            && watch.wait(limit).is_err()
        {
            return Err(PortRefused::Failed);
        }
        self.read_clock(net);
        Ok(None)
    }

    /// Ends the link whose time is over, unless something came on it that wasn't read: this program itself may have
    /// stood still.
    fn give_up(&mut self, number: u32) -> Result<Option<Event>, PortRefused>
        ensures { IfOk result MayBeGiven }
    {
        let Some(link) = self.links.get_mut(&number) else {
            return Ok(None);
        };
        let Some(watch) = &mut self.watch else {
            return Ok(None);
        };
        let came = link.read_on(self.alloc, &mut watch.room, self.now)?;
        if matches!(came, Came::Nothing) {
            return Ok(self.end(number));
        }
        Ok(self.event_of(number, came))
    }

    /// A link whose time is over.
    fn over(&self, want: Option<u32>) -> Option<u32> {
        let silence = if self.listener.is_some() {
            self.limits.silence_of_server
        } else {
            self.limits.silence
        };
        for (number, link) in self.links.iter() {
            if link.is_over(self.now, limit_of(*number, want, silence)) {
                return Some(*number);
            }
        }
        None
    }

    /// Takes the second from the system's clock, which never goes back. Where it can't be read the last one stands.
    fn read_clock(&mut self, net: &N) {
        if let Ok(time) = net.monotonic() {
            self.now = time.as_secs();
        }
    }

    /// Dials the peer, and gives its link.
    pub(crate) fn dial(&mut self, net: &N, peer: &str) -> Option<u32> {
        self.begin(net).ok()?;
        let stream = connect(net, peer, self.limits.dial);
        self.read_clock(net);
        let stream = stream?;
        let number = self.next_dialled;
        self.next_dialled = number.wrapping_add(1) | FIRST_DIALLED;
        if self.adopt(stream, number) {
            Some(number)
        } else {
            None
        }
    }

    /// Sends all the bytes on the link, and tells whether they were taken. A link on which that fails is closed.
    pub(crate) fn send(&mut self, number: u32, bytes: &[u8]) -> bool {
        let Some(link) = self.links.get_mut(&number) else {
            return false;
        };
        if !link.send(bytes, self.now) {
            if !link.is_left() {
                self.links.remove(&number);
            }
            return false;
        }
        if link.waits() {
            self.ask_again(number);
        }
        true
    }

    /// Closes the link. What waits on it is still sent.
    pub(crate) fn close(&mut self, number: u32) {
        let Some(link) = self.links.get_mut(&number) else {
            return;
        };
        if !link.is_left() && !link.leave(self.now) {
            self.links.remove(&number);
        }
    }
}

/// How many seconds the peer of the link may be silent, where one that is waited for may be so for this many.
fn limit_of(number: u32, want: Option<u32>, silence: u64) -> u64 {
    if number < FIRST_DIALLED {
        ACCEPTED_SILENCE
    } else if want == Some(number) {
        silence
    } else {
        u64::MAX
    }
}

/// A stream to the first address of the peer that answers, within `limit` seconds for all.
fn connect<N: Net + Clock>(net: &N, peer: &str, limit: u64) -> Option<N::Stream> {
    let begun = net.monotonic().ok()?;
    for address in peer.to_socket_addrs(net).ok()? {
        let passed = net.monotonic().ok()?.saturating_sub(begun);
        let left = Duration::from_secs(limit).saturating_sub(passed);
        if let Ok(stream) = TcpStream::connect_timeout(net, &address, left) {
            return Some(stream);
        }
    }
    None
}

/// Whether an error of accept(2) says that the listening place is none. The others are of the link that was to be
/// accepted, or a want.
fn is_of_the_place(code: Option<i32>) -> bool {
    matches!(code, Some(EBADF | EINVAL | ENOTSOCK))
}

/// Whether an error of accept(2) says that descriptors or memory are wanting.
fn is_want(code: Option<i32>) -> bool {
    matches!(code, Some(ENOMEM | ENFILE | EMFILE | ENOBUFS))
}
