//! The port over TCP, at the loopback address: it tells nothing that a clause could speak of. What a test waits for
//! was sent before, or the port itself ends the wait.

ghost use Rattle.std.specs.Prelude.{◌≡◌, ◌≢◌, false};
ghost use Rattle.outside.specs.Causes.{next_count};

use outside::{Event, Port, PortRefused, SocketPort};
use std::io;
use std::io::{Read, Write};
use std::net::{Net, OpenListener, OpenStream, Shutdown, TcpListener, TcpStream};
use std::time::{Clock, Duration};

/// An address of the loopback at which nothing listens.
pub(crate) fn free_address<R: Net + AllocGlobal>(rt: &R) -> io::Result<String> {
    let listener = TcpListener::bind(rt, "127.0.0.1:0")?;
    Ok(format!(in rt.alloc(); "{}", listener.local_addr()?)?)
}

/// Whether a link was opened, of this number.
pub(crate) fn is_opened(event: &Result<Event, PortRefused>, link: u32) -> bool {
    matches!(event, Ok(Event::Opened(number)) if *number == link)
}

/// Whether the link of this number was closed.
pub(crate) fn is_closed(event: &Result<Event, PortRefused>, link: u32) -> bool {
    matches!(event, Ok(Event::Closed(number)) if *number == link)
}

/// Whether these bytes came on the link of this number.
pub(crate) fn is_bytes(event: &Result<Event, PortRefused>, link: u32, bytes: &[u8]) -> bool {
    match event {
        Ok(Event::Bytes(number, came)) => *number == link && came.bytes() == bytes,
        _ => false,
    }
}

/// Whether a send failed. Then the count of dials and sends rose, and the other one stands.
fn send_fails<N: Net + Clock>(port: &mut SocketPort<'_, N>, link: u32) -> bool
    ensures other { port.new.faults ≡ port.old.faults }
    ensures rose { result ≢ false → port.new.link_faults ≡ next_count port.old.link_faults }
{
    port.send(link, b"unheard").is_err()
}

/// Whether a dial failed. Then the count of dials and sends rose, and the other one stands.
pub(crate) fn dial_fails<N: Net + Clock>(port: &mut SocketPort<'_, N>, peer: &[u8]) -> bool
    ensures other { port.new.faults ≡ port.old.faults }
    ensures rose { result ≢ false → port.new.link_faults ≡ next_count port.old.link_faults }
{
    port.dial(peer).is_err()
}

/// How many bytes a piece of a long send has.
const PIECE: usize = 8192;

/// How many pieces are sent at most: more than the system and the port keep for a peer.
const MOST_PIECES: u32 = 8192;

/// The piece of this number: no other one has its first bytes.
fn piece(number: u32) -> [u8; PIECE] {
    let mut bytes = [7; PIECE];
    bytes[..4].copy_from_slice(&number.to_le_bytes());
    bytes
}

/// How many pieces the port takes for a peer that doesn't read, until a send fails.
fn pieces_taken<N: Net + Clock>(port: &mut SocketPort<'_, N>, link: u32) -> u32 {
    for number in 0..MOST_PIECES {
        if port.send(link, &piece(number)).is_err() {
            return number;
        }
    }
    MOST_PIECES
}

#[test]
fn a_port_dials_itself(rt: HostRuntime) -> io::Result<()> {
    let address = free_address(&rt)?;
    let mut port = SocketPort::new(rt.alloc(), &rt);
    assert_eq!(rt; port.listen(address.as_bytes()), Ok(()));
    let dialled = port.dial(address.as_bytes()).unwrap_or(0);
    assert_eq!(rt; dialled, 1 << 31);
    assert!(rt; is_opened(&port.next(None), 1));
    assert_eq!(rt; port.send(dialled, b"asked"), Ok(()));
    assert!(rt; is_bytes(&port.next(None), 1, b"asked"));
    assert_eq!(rt; port.send(1, b"answered"), Ok(()));
    assert!(rt; is_bytes(&port.next(Some(dialled)), dialled, b"answered"));
    // Others are dialled beside it.
    assert_eq!(rt; port.dial(address.as_bytes()).ok(), Some(dialled + 1));
    assert!(rt; is_opened(&port.next(None), 2));
    port.close(dialled);
    assert!(rt; is_closed(&port.next(None), 1));
    assert_eq!(rt; port.send(dialled + 1, b"more"), Ok(()));
    assert!(rt; is_bytes(&port.next(None), 2, b"more"));
    Ok(())
}

#[test]
fn a_peer_that_ends_is_a_closed_link(rt: HostRuntime) -> io::Result<()> {
    let address = free_address(&rt)?;
    let mut port = SocketPort::new(rt.alloc(), &rt);
    assert_eq!(rt; port.listen(address.as_bytes()), Ok(()));

    // A peer ends in the middle of a unit.
    let mut peer = TcpStream::connect(&rt, address.as_str())?;
    peer.write_all(b"\x05\x00\x0b")?;
    drop(peer);
    assert!(rt; is_opened(&port.next(None), 1));
    assert!(rt; is_bytes(&port.next(None), 1, b"\x05\x00\x0b"));
    assert!(rt; is_closed(&port.next(None), 1));

    // A peer sends no more, and reads on.
    let mut peer = TcpStream::connect(&rt, address.as_str())?;
    peer.write_all(b"asked")?;
    peer.shutdown(Shutdown::Write)?;
    assert!(rt; is_opened(&port.next(None), 2));
    assert!(rt; is_bytes(&port.next(None), 2, b"asked"));
    assert_eq!(rt; port.send(2, b"answered"), Ok(()));
    assert!(rt; is_closed(&port.next(None), 2));
    assert_eq!(rt;
        io::read_to_string(rt.alloc(), &mut peer)?.as_str(),
        "answered"
    );

    // A peer resets the link: bytes that it didn't read are left.
    let peer = TcpStream::connect(&rt, address.as_str())?;
    assert!(rt; is_opened(&port.next(None), 3));
    assert_eq!(rt; port.send(3, b"unread"), Ok(()));
    drop(peer);
    assert!(rt; is_closed(&port.next(None), 3));

    // A peer ends without having sent anything.
    drop(TcpStream::connect(&rt, address.as_str())?);
    assert!(rt; is_opened(&port.next(None), 4));
    assert!(rt; is_closed(&port.next(None), 4));
    Ok(())
}

#[test]
fn a_send_to_a_peer_that_ended_fails(rt: HostRuntime) -> io::Result<()> {
    let address = free_address(&rt)?;
    let mut port = SocketPort::new(rt.alloc(), &rt);
    assert_eq!(rt; port.listen(address.as_bytes()), Ok(()));
    drop(TcpStream::connect(&rt, address.as_str())?);
    assert!(rt; is_opened(&port.next(None), 1));
    // The first send may still be taken: only its answer tells that nobody is there.
    send_fails(&mut port, 1);
    assert!(rt; send_fails(&mut port, 1));
    // Neither this link nor one that never was is open.
    assert!(rt; send_fails(&mut port, 1));
    assert!(rt; send_fails(&mut port, 7));
    // The next peer is served.
    let _peer = TcpStream::connect(&rt, address.as_str())?;
    assert!(rt; is_opened(&port.next(None), 2));
    Ok(())
}

#[test]
fn an_address_is_listened_at_again(rt: HostRuntime) -> io::Result<()> {
    let address = free_address(&rt)?;
    let mut first = SocketPort::new(rt.alloc(), &rt);
    assert_eq!(rt; first.listen(address.as_bytes()), Ok(()));
    let peer = TcpStream::connect(&rt, address.as_str())?;
    assert!(rt; is_opened(&first.next(None), 1));
    // While it listens, no other does.
    let mut second = SocketPort::new(rt.alloc(), &rt);
    assert!(rt; second.listen(address.as_bytes()).is_err());
    drop(first);
    assert_eq!(rt; second.listen(address.as_bytes()), Ok(()));
    drop(peer);
    let _peer = TcpStream::connect(&rt, address.as_str())?;
    assert!(rt; is_opened(&second.next(None), 1));
    Ok(())
}

#[test]
fn nothing_is_there(rt: HostRuntime) -> io::Result<()> {
    let address = free_address(&rt)?;
    let mut port = SocketPort::new(rt.alloc(), &rt);
    assert!(rt; dial_fails(&mut port, address.as_bytes()));
    assert!(rt; dial_fails(&mut port, b"\xFF"));
    assert!(rt; port.listen(b"nowhere").is_err());
    assert!(rt; port.listen(b"\xFF").is_err());
    assert!(rt; matches!(port.next(None), Ok(Event::Stop)));
    assert!(rt; matches!(port.next(Some(1)), Ok(Event::Stop)));
    port.close(1);
    Ok(())
}

#[test]
fn a_piece_has_at_most_a_unit(rt: HostRuntime) -> io::Result<()> {
    let address = free_address(&rt)?;
    let mut port = SocketPort::new(rt.alloc(), &rt);
    assert_eq!(rt; port.listen(address.as_bytes()), Ok(()));
    let mut peer = TcpStream::connect(&rt, address.as_str())?;
    peer.write_all(&[7; 6000])?;
    assert!(rt; is_opened(&port.next(None), 1));
    let mut left = 6000;
    for _ in 0..6000 {
        if left > 0 {
            let Ok(Event::Bytes(1, piece)) = port.next(None) else {
                panic!(rt; "no bytes");
            };
            assert!(rt; piece.bytes().len() <= 5840 && piece.bytes().len() <= left);
            left -= piece.bytes().len();
        }
    }
    assert_eq!(rt; left, 0);
    Ok(())
}

#[test]
fn links_are_served_by_turns(rt: HostRuntime) -> io::Result<()> {
    let address = free_address(&rt)?;
    let mut port = SocketPort::new(rt.alloc(), &rt);
    assert_eq!(rt; port.listen(address.as_bytes()), Ok(()));
    let mut first = TcpStream::connect(&rt, address.as_str())?;
    assert!(rt; is_opened(&port.next(None), 1));
    let mut second = TcpStream::connect(&rt, address.as_str())?;
    assert!(rt; is_opened(&port.next(None), 2));
    // Each sends four pieces at once.
    first.write_all(&[1; 23_360])?;
    second.write_all(&[2; 23_360])?;
    let mut last = 0;
    for _ in 0..8 {
        let Ok(Event::Bytes(link, _)) = port.next(Some(1)) else {
            panic!(rt; "no bytes");
        };
        assert!(rt; link != last);
        last = link;
    }
    // The first peer ends in the middle of a unit, and the second one goes on.
    first.write_all(b"\x05\x00\x0b")?;
    drop(first);
    assert!(rt; is_bytes(&port.next(None), 1, b"\x05\x00\x0b"));
    assert!(rt; is_closed(&port.next(None), 1));
    second.write_all(b"asked")?;
    assert!(rt; is_bytes(&port.next(None), 2, b"asked"));
    Ok(())
}

#[test]
fn silent_peers_keep_none_waiting(rt: HostRuntime) -> io::Result<()> {
    let address = free_address(&rt)?;
    let mut port = SocketPort::new(rt.alloc(), &rt);
    assert_eq!(rt; port.listen(address.as_bytes()), Ok(()));
    let mut silent = Vec::new(rt.alloc());
    for link in 1..=200u32 {
        silent.push(TcpStream::connect(&rt, address.as_str())?)?;
        assert!(rt; is_opened(&port.next(None), link));
    }
    let mut peer = TcpStream::connect(&rt, address.as_str())?;
    assert!(rt; is_opened(&port.next(Some(7)), 201));
    for _ in 0..4 {
        peer.write_all(b"asked")?;
        assert!(rt; is_bytes(&port.next(Some(7)), 201, b"asked"));
        assert_eq!(rt; port.send(201, b"answered"), Ok(()));
        let mut answer = [0; 8];
        peer.read_exact(&mut answer)?;
        assert_eq!(rt; answer, *b"answered");
    }
    // A link that this end closed gives no more.
    peer.write_all(b"more")?;
    port.close(201);
    drop(silent);
    for _ in 0..200 {
        assert!(rt; matches!(port.next(None), Ok(Event::Closed(link)) if link <= 200));
    }
    Ok(())
}

#[test]
fn what_a_peer_does_not_read_waits(rt: HostRuntime) -> io::Result<()> {
    let address = free_address(&rt)?;
    let mut port = SocketPort::new(rt.alloc(), &rt);
    assert_eq!(rt; port.listen(address.as_bytes()), Ok(()));
    let _mute = TcpStream::connect(&rt, address.as_str())?;
    assert!(rt; is_opened(&port.next(None), 1));
    let mut other = TcpStream::connect(&rt, address.as_str())?;
    assert!(rt; is_opened(&port.next(None), 2));
    // More than the system's buffers hold, as far as the port takes it.
    let taken = pieces_taken(&mut port, 1);
    assert!(rt; taken > 32 && taken < MOST_PIECES);
    // The link on which a send failed is closed, and another is served.
    assert!(rt; send_fails(&mut port, 1));
    other.write_all(b"asked")?;
    assert!(rt; is_bytes(&port.next(None), 2, b"asked"));
    Ok(())
}

#[test]
fn what_was_sent_before_a_close_goes_out(rt: HostRuntime) -> io::Result<()> {
    let address = free_address(&rt)?;
    let mut port = SocketPort::new(rt.alloc(), &rt);
    assert_eq!(rt; port.listen(address.as_bytes()), Ok(()));
    let _mute = TcpStream::connect(&rt, address.as_str())?;
    assert!(rt; is_opened(&port.next(None), 1));
    let taken = pieces_taken(&mut port, 1);
    // Another peer is sent as much, but for half of what may wait in the port.
    let mut peer = TcpStream::connect(&rt, address.as_str())?;
    peer.set_nonblocking(true)?;
    assert!(rt; is_opened(&port.next(None), 2));
    let count = taken.saturating_sub(16);
    for number in 0..count {
        assert_eq!(rt; port.send(2, &piece(number)), Ok(()));
    }
    port.close(2);
    assert!(rt; send_fails(&mut port, 2));
    // The port goes on while a third peer sends, and the other reads.
    let mut ticks = TcpStream::connect(&rt, address.as_str())?;
    assert!(rt; is_opened(&port.next(None), 3));
    let mut came = 0u32;
    let mut bytes = [0; PIECE];
    let mut filled = 0;
    for _ in 0..100_000 {
        match peer.read(&mut bytes[filled.min(PIECE)..]) {
            Ok(0) => break,
            Ok(read) => filled = filled.saturating_add(read),
            Err(_) => {
                ticks.write_all(b"tick")?;
                assert!(rt; is_bytes(&port.next(None), 3, b"tick"));
            }
        }
        if filled == PIECE {
            assert!(rt; bytes == piece(came));
            came = came.saturating_add(1);
            filled = 0;
        }
    }
    assert_eq!(rt; (came, filled), (count, 0));
    Ok(())
}

#[test]
fn a_dial_waits_three_seconds(rt: HostRuntime) -> io::Result<()> {
    // The queue of a place that accepts none is full after some links.
    let listener = TcpListener::bind(&rt, "127.0.0.1:0")?;
    let place = listener.local_addr()?;
    let mut queue = Vec::new(rt.alloc());
    for _ in 0..1000 {
        match TcpStream::connect_timeout(&rt, &place, Duration::from_millis(200)) {
            Ok(stream) => queue.push(stream)?,
            Err(_) => break,
        }
    }
    let mut port = SocketPort::new(rt.alloc(), &rt);
    let address = format!(in rt.alloc(); "{place}")?;
    let begun = rt.monotonic()?;
    assert!(rt; dial_fails(&mut port, address.as_bytes()));
    let passed = rt.monotonic()?.saturating_sub(begun);
    assert!(rt; passed >= Duration::from_secs(3) && passed < Duration::from_secs(10));
    Ok(())
}
