//! The limits of the port over TCP, at the loopback address: how long a peer may be silent, that one which sends
//! without end keeps none waiting, and what comes where descriptors are wanting. The clock is the test's own, so that
//! none waits as long as a limit.

use crate::sockets::{dial_fails, free_address, is_bytes, is_closed, is_opened};
use outside::{Event, Port, SocketPort};
use std::cell::Cell;
use std::io;
use std::io::Write;
use std::net::{Net, OpenListener, SocketAddr, TcpListener, TcpStream};
use std::os::fd::{AsRawFd, RawFd};
use std::time::{Clock, Duration};

/// What a test says in the system's place.
#[derive(Drop)]
struct Says {
    /// The second that the clock told last.
    second: Cell<u64>,
    /// How many seconds it goes on before each look at it.
    step: Cell<u64>,
    /// The error of accept(2) and connect(2), while there is one.
    want: Cell<Option<i32>>,
    /// How many times accept(2) gave it.
    refused: Cell<u32>,
    /// How many seconds the last dial was to wait.
    dialled: Cell<u64>,
}

impl Says {
    /// The clock stands at 1000, and nothing is wanting.
    fn new() -> Says {
        Says {
            second: Cell::new(1000),
            step: Cell::new(0),
            want: Cell::new(None),
            refused: Cell::new(0),
            dialled: Cell::new(0),
        }
    }

    /// The clock stands at this second.
    fn stand(&self, second: u64) {
        self.second.set(second);
        self.step.set(0);
    }

    /// The clock tells this second at the next look, and one more at each look after it.
    fn run(&self, second: u64) {
        self.second.set(second.saturating_sub(1));
        self.step.set(1);
    }

    /// The error that stands.
    fn error(&self) -> Option<io::Error> {
        Some(io::Error::from_raw_os_error(self.want.get()?))
    }
}

/// The system's network, but for what a test says.
#[derive(Drop)]
struct Ruled<'a, R> {
    rt: &'a R,
    says: &'a Says,
}

impl<R> Clock for Ruled<'_, R> {
    fn monotonic(&self) -> io::Result<Duration> {
        let second = self.says.second.get().saturating_add(self.says.step.get());
        self.says.second.set(second);
        Ok(Duration::from_secs(second))
    }

    fn since_1970(&self) -> io::Result<Duration> {
        self.monotonic()
    }
}

impl<'a, R: Net> Net for Ruled<'a, R> {
    type Stream = R::Stream;

    type Listener = Place<'a, R::Listener>;

    fn bind(&self, addr: SocketAddr) -> io::Result<Place<'a, R::Listener>> {
        Ok(Place {
            listener: self.rt.bind(addr)?,
            says: self.says,
        })
    }

    fn connect(&self, addr: SocketAddr) -> io::Result<R::Stream> {
        self.rt.connect(addr)
    }

    fn connect_timeout(&self, addr: SocketAddr, timeout: Duration) -> io::Result<R::Stream> {
        self.says.dialled.set(timeout.as_secs());
        match self.says.error() {
            Some(error) => Err(error),
            None => self.rt.connect_timeout(addr, timeout),
        }
    }

    fn lookup_host(&self, host: &str, port: u16, found: &mut [SocketAddr]) -> io::Result<usize> {
        self.rt.lookup_host(host, port, found)
    }
}

/// A listening place, but for what a test says.
#[derive(Drop)]
struct Place<'a, L> {
    listener: L,
    says: &'a Says,
}

impl<L: OpenListener> OpenListener for Place<'_, L> {
    type Stream = L::Stream;

    fn accept(&self) -> io::Result<(L::Stream, SocketAddr)> {
        match self.says.error() {
            Some(error) => {
                self.says
                    .refused
                    .set(self.says.refused.get().saturating_add(1));
                Err(error)
            }
            None => self.listener.accept(),
        }
    }

    fn local_addr(&self) -> io::Result<SocketAddr> {
        self.listener.local_addr()
    }

    fn set_nonblocking(&self, nonblocking: bool) -> io::Result<()> {
        self.listener.set_nonblocking(nonblocking)
    }
}

impl<L: AsRawFd> AsRawFd for Place<'_, L> {
    fn as_raw_fd(&self) -> RawFd {
        self.listener.as_raw_fd()
    }
}

/// Whether the port serves another link and accepts one more, where link 1 sends the piece before each event.
fn serves_others<R: Net + Clock + AllocGlobal>(rt: &R, piece: &[u8]) -> io::Result<bool> {
    let address = free_address(rt)?;
    let mut port = SocketPort::new(rt.alloc(), rt);
    if port.listen(address.as_bytes()).is_err() {
        return Ok(false);
    }
    let mut sender = TcpStream::connect(rt, address.as_str())?;
    let opened = is_opened(&port.next(None), 1);
    let mut other = TcpStream::connect(rt, address.as_str())?;
    if !opened || !is_opened(&port.next(None), 2) {
        return Ok(false);
    }
    let mut heard = false;
    let mut accepted = false;
    let mut more = Vec::new(rt.alloc());
    for number in 0..16u32 {
        if number == 8 {
            other.write_all(b"asked")?;
            more.push(TcpStream::connect(rt, address.as_str())?)?;
        }
        sender.write_all(piece)?;
        match port.next(None) {
            Ok(Event::Bytes(1, _)) => {}
            Ok(Event::Bytes(2, _)) => heard = true,
            Ok(Event::Opened(3)) => accepted = true,
            _ => return Ok(false),
        }
    }
    Ok(heard && accepted)
}

#[test]
fn an_accepted_link_is_silent_for_900_seconds(rt: HostRuntime) -> io::Result<()> {
    let address = free_address(&rt)?;
    let nobody = free_address(&rt)?;
    let says = Says::new();
    let net = Ruled {
        rt: &rt,
        says: &says,
    };
    let mut port = SocketPort::new(rt.alloc(), &net);
    assert_eq!(rt; port.listen(address.as_bytes()), Ok(()));
    // By what comes on a link its time begins anew.
    let mut peer = TcpStream::connect(&rt, address.as_str())?;
    assert!(rt; is_opened(&port.next(None), 1));
    says.stand(1100);
    peer.write_all(b"asked")?;
    assert!(rt; is_bytes(&port.next(None), 1, b"asked"));
    says.run(1999);
    assert!(rt; is_closed(&port.next(None), 1));
    assert_eq!(rt; says.second.get(), 2000);

    // By what is sent on it too. A dial is a look at the clock.
    says.stand(3000);
    let _peer = TcpStream::connect(&rt, address.as_str())?;
    assert!(rt; is_opened(&port.next(None), 2));
    says.stand(3100);
    assert!(rt; dial_fails(&mut port, nobody.as_bytes()));
    assert_eq!(rt; port.send(2, b"answered"), Ok(()));
    says.run(3999);
    assert!(rt; is_closed(&port.next(None), 2));
    assert_eq!(rt; says.second.get(), 4000);
    Ok(())
}

#[test]
fn a_dialled_link_is_silent_for_30_seconds_or_15(rt: HostRuntime) -> io::Result<()> {
    let place = TcpListener::bind(&rt, "127.0.0.1:0")?;
    let peer = format!(in rt.alloc(); "{}", place.local_addr()?)?;
    let address = free_address(&rt)?;
    let says = Says::new();
    let net = Ruled {
        rt: &rt,
        says: &says,
    };
    let mut port = SocketPort::new(rt.alloc(), &net);
    let dialled = port.dial(peer.as_bytes()).unwrap_or(0);
    says.run(1029);
    assert!(rt; is_closed(&port.next(Some(dialled)), dialled));
    assert_eq!(rt; says.second.get(), 1030);

    // While the port listens it is half as long.
    assert_eq!(rt; port.listen(address.as_bytes()), Ok(()));
    says.stand(2000);
    let dialled = port.dial(peer.as_bytes()).unwrap_or(0);
    says.run(2014);
    assert!(rt; is_closed(&port.next(Some(dialled)), dialled));
    assert_eq!(rt; says.second.get(), 2015);

    // One that nobody waits for outlasts one that was accepted after it.
    says.stand(3000);
    let dialled = port.dial(peer.as_bytes()).unwrap_or(0);
    says.stand(3100);
    let _silent = TcpStream::connect(&rt, address.as_str())?;
    assert!(rt; is_opened(&port.next(None), 1));
    says.run(3999);
    assert!(rt; is_closed(&port.next(None), 1));
    assert_eq!(rt; says.second.get(), 4000);
    assert!(rt; is_closed(&port.next(Some(dialled)), dialled));
    Ok(())
}

#[test]
fn a_port_may_have_other_limits_of_what_is_dialled(rt: HostRuntime) -> io::Result<()> {
    let place = TcpListener::bind(&rt, "127.0.0.1:0")?;
    let peer = format!(in rt.alloc(); "{}", place.local_addr()?)?;
    let address = free_address(&rt)?;
    let says = Says::new();
    let net = Ruled {
        rt: &rt,
        says: &says,
    };
    let mut usual = SocketPort::new(rt.alloc(), &net);
    assert!(rt; usual.dial(peer.as_bytes()).is_ok());
    assert_eq!(rt; says.dialled.get(), 3);

    let mut port = SocketPort::with_limits(rt.alloc(), &net, 1, 4);
    let dialled = port.dial(peer.as_bytes()).unwrap_or(0);
    assert_eq!(rt; says.dialled.get(), 1);
    says.run(1003);
    assert!(rt; is_closed(&port.next(Some(dialled)), dialled));
    assert_eq!(rt; says.second.get(), 1004);

    // While the port listens they are the same.
    assert_eq!(rt; port.listen(address.as_bytes()), Ok(()));
    says.stand(2000);
    let dialled = port.dial(peer.as_bytes()).unwrap_or(0);
    says.run(2003);
    assert!(rt; is_closed(&port.next(Some(dialled)), dialled));
    assert_eq!(rt; says.second.get(), 2004);
    Ok(())
}

#[test]
fn what_came_before_a_limit_is_given(rt: HostRuntime) -> io::Result<()> {
    let place = TcpListener::bind(&rt, "127.0.0.1:0")?;
    let peer = format!(in rt.alloc(); "{}", place.local_addr()?)?;
    let address = free_address(&rt)?;
    let nobody = free_address(&rt)?;
    let says = Says::new();
    let net = Ruled {
        rt: &rt,
        says: &says,
    };
    let mut port = SocketPort::new(rt.alloc(), &net);
    assert_eq!(rt; port.listen(address.as_bytes()), Ok(()));
    let mut accepted = TcpStream::connect(&rt, address.as_str())?;
    assert!(rt; is_opened(&port.next(None), 1));
    let dialled = port.dial(peer.as_bytes()).unwrap_or(0);
    let (mut server, _) = place.accept()?;
    // Bytes come while the program stands still, for longer than any limit. A dial is its first look at the clock.
    accepted.write_all(b"asked")?;
    server.write_all(b"answered")?;
    says.stand(5000);
    assert!(rt; dial_fails(&mut port, nobody.as_bytes()));
    assert!(rt; is_bytes(&port.next(Some(dialled)), 1, b"asked"));
    assert!(rt; is_bytes(&port.next(Some(dialled)), dialled, b"answered"));
    // The time of each begins anew.
    says.run(5014);
    assert!(rt; is_closed(&port.next(Some(dialled)), dialled));
    assert_eq!(rt; says.second.get(), 5015);
    says.run(5899);
    assert!(rt; is_closed(&port.next(None), 1));
    assert_eq!(rt; says.second.get(), 5900);
    Ok(())
}

#[test]
fn a_link_that_sends_without_end_keeps_none_waiting(rt: HostRuntime) -> io::Result<()> {
    assert!(rt; serves_others(&rt, b"more")?);
    // A link that sends as much as is read at once keeps none waiting either.
    assert!(rt; serves_others(&rt, &[7; 5840])?);
    Ok(())
}

#[test]
fn want_of_descriptors_keeps_one_link_waiting(rt: HostRuntime) -> io::Result<()> {
    // ENOMEM, ENFILE, EMFILE and ENOBUFS of Linux.
    for want in [12, 23, 24, 105] {
        let address = free_address(&rt)?;
        let says = Says::new();
        let net = Ruled {
            rt: &rt,
            says: &says,
        };
        let mut port = SocketPort::new(rt.alloc(), &net);
        assert_eq!(rt; port.listen(address.as_bytes()), Ok(()));
        let mut served = TcpStream::connect(&rt, address.as_str())?;
        assert!(rt; is_opened(&port.next(None), 1));
        // While the second lasts the place is asked for the next link once. The other link is served, and a dial fails.
        says.want.set(Some(want));
        let mut waiting = TcpStream::connect(&rt, address.as_str())?;
        for _ in 0..8 {
            served.write_all(b"asked")?;
            assert!(rt; is_bytes(&port.next(None), 1, b"asked"));
            assert_eq!(rt; port.send(1, b"answered"), Ok(()));
        }
        assert_eq!(rt; says.refused.get(), 1);
        assert!(rt; dial_fails(&mut port, address.as_bytes()));
        // The second peer is accepted before the first link was silent for too long.
        says.want.set(None);
        says.run(1898);
        assert!(rt; is_opened(&port.next(None), 2));
        says.stand(1899);
        waiting.write_all(b"asked")?;
        assert!(rt; is_bytes(&port.next(None), 2, b"asked"));
    }
    Ok(())
}
