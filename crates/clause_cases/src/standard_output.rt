//! What standard output takes, or another printer in its place: it tells nothing that a clause could speak of.

use outside::{OutSink, Sink};
use std::fmt::Display;
use std::io;

/// A printer that takes at most this many bytes of a piece.
struct Narrow(usize);

impl Print for Narrow {
    fn print<D: Display + Drop>(&self, _value: D) -> io::Result<()> {
        Ok(())
    }

    fn println<D: Display + Drop>(&self, _value: D) -> io::Result<()> {
        Ok(())
    }

    fn write_all(&self, _bytes: &[u8]) -> io::Result<()> {
        Ok(())
    }

    fn write_some(&self, bytes: &[u8]) -> io::Result<usize> {
        Ok(bytes.len().min(self.0))
    }
}

#[test]
fn standard_output_takes_a_front_or_fails(rt: HostRuntime) {
    assert_eq!(rt; OutSink::new(&rt).put(b"\n").ok(), Some(1));
    assert_eq!(rt; OutSink::new(&Narrow(2)).put(b"abc").ok(), Some(2));
    assert_eq!(rt; OutSink::new(&Narrow(0)).put(b"").ok(), Some(0));
    assert_eq!(rt; OutSink::new(&Narrow(0)).put(b"abc").ok(), None);
}
