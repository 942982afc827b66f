//! The status with which a process ends, and what it says on standard error: no contract of the toolchain says what a
//! process's arguments are, and standard error tells nothing that a clause could speak of.

use nt_top::{Role, start};
use outside::{CounterChances, DiskFiles, SocketPort, SystemClock};
use std::cell::RefCell;
use std::env::FillError;
use std::fmt::Display;
use std::rt::Env;
use std::{fs, io, net, time};

/// A printer that keeps what is written.
#[derive(Drop)]
struct Page(RefCell<Vec<u8>>);

impl Print for Page {
    fn print<D: Display + Drop>(&self, _value: D) -> io::Result<()> {
        Ok(())
    }

    fn println<D: Display + Drop>(&self, _value: D) -> io::Result<()> {
        Ok(())
    }

    fn write_all(&self, bytes: &[u8]) -> io::Result<()> {
        if let Ok(mut text) = self.0.try_borrow_mut() {
            text.extend_from_slice(bytes)?;
        }
        Ok(())
    }
}

/// The status of the program over the real outside, with this printer for its errors.
fn status<R, E>(rt: &R, errors: &E, role: Role) -> u8
where
    R: Env + Print + AllocGlobal + net::Net + fs::Files + time::Clock,
    E: Print,
{
    start(
        rt,
        errors,
        role,
        &mut SocketPort::new(rt.alloc(), rt),
        &mut DiskFiles::new(rt),
        &mut SystemClock::new(rt),
        &mut CounterChances::new(),
    )
}

#[test]
fn a_process_ends_with_the_status_of_its_exit_and_says_its_line(rt: HostRuntime) {
    // The process of the tests has no command among its arguments.
    for role in [Role::Controller, Role::Member, Role::Logon] {
        let errors = Page(RefCell::new(Vec::new(rt.alloc())));
        assert_eq!(rt; status(&rt, &errors, role), 2);
        assert_eq!(rt;
            errors.0.into_inner().as_slice(),
            b"bad words: 0\n".as_slice()
        );
    }
}

/// A process by the words that it is given, and what it prints.
#[derive(Drop)]
struct Called<'a> {
    words: &'a [&'a str],
    printed: Page,
}

impl Env for Called<'_> {
    fn arg(&self, i: usize, buf: &mut [u8]) -> Result<usize, FillError> {
        let Some(word) = self.words.get(i) else {
            return Err(FillError::NotPresent);
        };
        if buf.len() < word.len() {
            return Err(FillError::TooLong);
        }
        buf[..word.len()].copy_from_slice(word.as_bytes());
        Ok(word.len())
    }

    fn var(&self, _name: &str, _buf: &mut [u8]) -> Result<usize, FillError> {
        Err(FillError::NotPresent)
    }

    fn var_at(&self, _i: usize, _buf: &mut [u8]) -> Result<usize, FillError> {
        Err(FillError::NotPresent)
    }
}

impl Print for Called<'_> {
    fn print<D: Display + Drop>(&self, _value: D) -> io::Result<()> {
        Ok(())
    }

    fn println<D: Display + Drop>(&self, _value: D) -> io::Result<()> {
        Ok(())
    }

    fn write_all(&self, bytes: &[u8]) -> io::Result<()> {
        self.printed.write_all(bytes)
    }
}

#[test]
fn the_words_are_those_of_the_process_from_the_second_on(rt: HostRuntime) {
    let called = Called {
        words: &["drill", "drill", "--number", "1", "--moves", "0"],
        printed: Page(RefCell::new(Vec::new(rt.alloc()))),
    };
    let process = (called, rt.alloc());
    let errors = Page(RefCell::new(Vec::new(rt.alloc())));
    let status = start(
        &process,
        &errors,
        Role::Logon,
        &mut SocketPort::new(rt.alloc(), &rt),
        &mut DiskFiles::new(&rt),
        &mut SystemClock::new(&rt),
        &mut CounterChances::new(),
    );
    assert_eq!(rt; errors.0.into_inner().as_slice(), b"".as_slice());
    assert_eq!(rt; status, 0);
    let (called, _) = process;
    assert_eq!(rt;
        called.printed.0.into_inner().as_slice(),
        b"moves 0\naccepted 0\nrefused 0\nno controller 0\npassed 0\nbarred 0\n".as_slice()
    );
}

#[test]
fn standard_error_takes_bytes(rt: HostRuntime) {
    assert_eq!(rt; status(&rt, &rt.stderr(), Role::Member), 2);
}
