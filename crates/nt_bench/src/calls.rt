//! Turns of a logon at a controller, from the request's bytes to the reply's.

use crate::bench::{Outcome, end_of};
use account_table::Table;
use anyhow::bail;
use domain_controller::Controller;
use outside::{Action, Actions, Draws, Event, ListChances};
use std::alloc::Global;
use wire_base::{Blob, Name};

/// One user, and one workstation.
const TABLE: &str =
    "domain = 'CORP'\nsid = 'S-1-5-21-1-2-3'\n[[user]]\nname = 'ann'\nrid = 1001\nhash = '11111111111111111111111111111111'\n[[machine]]\nname = 'FILE1$'\nkind = 'workstation'\nhash = '41414141414141414141414141414141'\n";

/// The challenge that the controller draws.
const CHALLENGE: [u8; 8] = [0x10, 0x11, 0x12, 0x13, 0x14, 0x15, 0x16, 0x17];

/// A bind, and the requests that open the workstation's channel.
const OPENING: [&str; 3] = [
    "05000b03100000004800000001000000d016d016000000000100000000000100785634123412cdabef0001234567cffb01000000045d888aeb1cc9119fe808002b10486002000000",
    "05000003100000003c00000002000000240000000000040000000000060000000000000006000000460049004c004500310000000102030405060708",
    "05000003100000005c000000020000004400000000000f0000000000070000000000000007000000460049004c0045003100240000000200060000000000000006000000460049004c004500310000002fa843ef602ff7beff410000",
];

/// A request to log the user on. Its authenticator's timestamp is 2^32 - 1, so that it leaves the channel's seed as it
/// was, and passes again.
const LOGON: &str =
    "0500000310000000fa00000002000000e2000000000002000000000000000200060000000000000006000000460049004c0045003100000004000200d04799782f7e3621ffffffff08000200000000000000000000000000020002000c0002000800080010000200000000000700000000000000060006001400020004000400180002000123456789abcdef180018001c000200000000000000000004000000000000000400000043004f005200500003000000000000000300000061006e006e00000002000000000000000200000057005300180000000000000018000000176724fef3cefd31176724fef3cefd31f905acd82f73dc920200";

/// A controller with an open channel, and the request to log on.
pub struct Calls {
    end: Controller,
    chances: ListChances,
    logon: Event,
}

impl Drop for Calls {
    // The drop that would be derived. Written out, it is one call wherever a value that holds a `Calls` is let go,
    // which keeps the proofs of those places short.
    fn drop(self) {
        let Calls {
            end: _end,
            chances: _chances,
            logon: _logon,
        } = self;
    }
}

impl Calls {
    /// A controller on which the workstation has bound and opened its channel.
    pub fn new(alloc: Global) -> anyhow::Result<Calls> {
        let logon = bytes_on_link(alloc, LOGON)?;
        let chances = one_challenge(alloc)?;
        let end = controller(alloc)?;
        let mut calls = Calls {
            end,
            chances,
            logon,
        };
        calls.open(alloc)?;
        Ok(calls)
    }

    /// The link opens, and the opening requests come on it.
    fn open(&mut self, alloc: Global) -> anyhow::Result<()> {
        self.end
            .step(alloc, &Event::Opened(1), 0, &mut self.chances)?;
        for unit in OPENING {
            let event = bytes_on_link(alloc, unit)?;
            self.end.step(alloc, &event, 0, &mut self.chances)?;
        }
        Ok(())
    }

    /// The end of the reply to the logon, asked for `turns` times.
    pub fn log_on(&mut self, alloc: Global, turns: u32) -> anyhow::Result<Outcome> {
        let mut end = Outcome::new();
        for _ in 0..turns {
            match self.end.step(alloc, &self.logon, 0, &mut self.chances) {
                Ok(actions) => end = end_of_reply(&actions),
                Err(_) => bail!("a step was refused"),
            }
        }
        Ok(end)
    }
}

/// The controller of the table.
pub fn controller(alloc: Global) -> anyhow::Result<Controller> {
    let name = Name::read(alloc, b"PDC")?;
    let table = Table::read(alloc, TABLE.as_bytes())?;
    Ok(Controller::new(alloc, table, name)?)
}

/// The one challenge that is drawn.
fn one_challenge(alloc: Global) -> anyhow::Result<ListChances> {
    let mut draws = Draws::new(alloc);
    draws.push(CHALLENGE)?;
    Ok(ListChances::new(draws))
}

/// Bytes, given in hex, on link 1.
fn bytes_on_link(alloc: Global, digits: &str) -> anyhow::Result<Event> {
    let bytes = hex::decode(alloc, digits)?;
    Ok(Event::Bytes(1, Blob::from_vec(bytes)))
}

/// The end of the bytes that the last of the actions sends.
fn end_of_reply(actions: &Actions) -> Outcome {
    match actions.items().last() {
        Some(Action::Send(_, bytes)) => end_of(bytes.bytes()),
        _ => Outcome::new(),
    }
}
