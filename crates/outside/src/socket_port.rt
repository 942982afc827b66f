//! The port that is the system's TCP sockets.

ghost use Rattle.std.specs.Prelude.{◌≡◌, ◌≤◌, IfOk, OnErr, Err, is_err, if◌then◌else◌};
ghost use Rattle.outside.specs.Causes.{Rose, next_count};
ghost use Rattle.outside.specs.Counts.{PortCounts};
ghost use Rattle.outside.specs.Links.{IsGiven, is_failed_next};
ghost use Rattle.outside.specs.declared.port.PortRefused.{PortRefused};

use crate::event::Event;
use crate::port::{Failed, Port, PortRefused};
use crate::sockets::{Limits, Sockets, usual_limits};
use std::alloc::Global;
use std::marker::Model;
use std::net::Net;
use std::time::Clock;

/// Links over TCP (this project's own choice): any number that were accepted, with numbers from 1 on, and any that
/// were dialled, from 2^31 on. An address is a host and a port. The port is seen as its counts of failures, and tells
/// nothing of what happens.
///
/// The events of all links come as their sockets are ready, each link in its turn and the listening place in its own.
/// What a peer doesn't read waits, up to 256 KiB; a send beyond that fails and closes the link. A link that was
/// accepted is closed after 15 minutes of silence. One that was dialled is closed after 30 seconds in which the
/// caller waits for it, 15 where the port listens too. A dial fails after 3 seconds. A port may be made with other
/// limits for what is dialled. Without a listening place and without links comes `Stop`.
#[derive(Drop)]
pub struct SocketPort<'a, N: Net> {
    net: &'a N,
    sockets: Sockets<N>,
    faults: u64,
    link_faults: u64,
}

impl<'a, N: Net> Model for SocketPort<'a, N> {
    ghost use Rattle.outside.specs.Counts.{PortCounts};

    ghost Value = { PortCounts };

    ghost view = { λ p. record { faults = p.faults; link_faults = p.link_faults } };
}

impl<'a, N: Net + Clock> SocketPort<'a, N> {
    /// Nothing is open yet, and nothing has failed.
    pub fn new(alloc: Global, net: &'a N) -> Self
        ensures { result ≡ record { faults = 0; link_faults = 0 } }
    {
        SocketPort::of_limits(alloc, net, usual_limits())
    }

    /// Nothing is open yet, and nothing has failed. A dial fails after `dial` seconds, and a link that was dialled is
    /// closed after `silence` seconds in which the caller waits for it.
    pub fn with_limits(alloc: Global, net: &'a N, dial: u64, silence: u64) -> Self
        ensures { result ≡ record { faults = 0; link_faults = 0 } }
    {
        let limits = Limits {
            dial,
            silence,
            silence_of_server: silence,
        };
        SocketPort::of_limits(alloc, net, limits)
    }

    /// A port with these limits, on which nothing is open yet.
    fn of_limits(alloc: Global, net: &'a N, limits: Limits) -> Self
        ensures { result ≡ record { faults = 0; link_faults = 0 } }
    {
        SocketPort {
            net,
            sockets: Sockets::new(alloc, limits),
            faults: 0,
            link_faults: 0,
        }
    }
}

impl<N: Net + Clock> Port for SocketPort<'_, N> {
    ghost use Rattle.std.specs.Prelude.{None};

    ghost faults = { λ p. p.faults };

    ghost link_faults = { λ p. p.link_faults };

    ghost story = { λ p. None };

    fn listen(&mut self, address: &[u8]) -> Result<(), Failed>
        ensures cause { OnErr result (Rose self.old.faults self.new.faults) }
        ensures faults { self.old.faults ≤ self.new.faults }
        ensures counts { self.new ≡ record self.old {
          faults = (if is_err result then next_count self.old.faults else self.old.faults);
        } }
    {
        if let Ok(text) = str::from_utf8(address)
            && self.sockets.listen(self.net, text).is_ok()
        {
            return Ok(());
        }
        self.faults = self.faults.saturating_add(1);
        Err(Failed)
    }

    fn next(&mut self, want: Option<u32>) -> Result<Event, PortRefused>
        ensures cause { result ≡ Err PortRefused.Failed → Rose self.old.faults self.new.faults }
        ensures faults { self.old.faults ≤ self.new.faults }
        ensures kind { IfOk result IsGiven }
        ensures counts { self.new ≡ record self.old {
          faults = (if is_failed_next result then next_count self.old.faults else self.old.faults);
        } }
    {
        match self.sockets.next(self.net, want) {
            Err(PortRefused::Failed) => {
                self.faults = self.faults.saturating_add(1);
                Err(PortRefused::Failed)
            }
            given => given,
        }
    }

    fn dial(&mut self, peer: &[u8]) -> Result<u32, Failed>
        ensures cause { OnErr result (Rose self.old.link_faults self.new.link_faults) }
        ensures link_faults { self.old.link_faults ≤ self.new.link_faults }
        ensures counts { self.new ≡ record self.old {
          link_faults =
              (if is_err result then next_count self.old.link_faults else self.old.link_faults);
        } }
    {
        if let Ok(text) = str::from_utf8(peer)
            && let Some(number) = self.sockets.dial(self.net, text)
        {
            return Ok(number);
        }
        self.link_faults = self.link_faults.saturating_add(1);
        Err(Failed)
    }

    fn send(&mut self, link: u32, bytes: &[u8]) -> Result<(), Failed>
        ensures cause { OnErr result (Rose self.old.link_faults self.new.link_faults) }
        ensures link_faults { self.old.link_faults ≤ self.new.link_faults }
        ensures counts { self.new ≡ record self.old {
          link_faults =
              (if is_err result then next_count self.old.link_faults else self.old.link_faults);
        } }
    {
        if self.sockets.send(link, bytes) {
            return Ok(());
        }
        self.link_faults = self.link_faults.saturating_add(1);
        Err(Failed)
    }

    fn close(&mut self, link: u32)
        ensures counts { self.new ≡ self.old }
    {
        self.sockets.close(link);
    }
}
