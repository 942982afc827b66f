//! Turns of reading messages and units.

use crate::bench::{Outcome, end_of, ramp};
use crate::logon::LOGON_CALL;
use crate::operation::Operation;
use crate::plain::{authenticate_plain, view_plain};
use anyhow::bail;
use ntlm_messages::{read_authenticate, view_authenticate};
use rpc_units::{BodyView, UnitView, read_unit, stub_of, view_unit};
use std::alloc::Global;

/// An AUTHENTICATE of Domain\User with that response.
const MESSAGE: &str =
    "4e544c4d5353500003000000000000006400000018001800640000000c000c0040000000080008004c0000001000100054000000000000007c0000000182000044006f006d00610069006e00550073006500720043004f004d005000550054004500520067c43011f30298a2ad35ece64f16331c44bdbed927841f94";

/// The header of a request of 1,048 bytes, its hint, context and opnum (C706 12.6.4.9).
const REQUEST_HEAD: &str = "050000031000000018040000010000000004000000000200";

/// What is read: an AUTHENTICATE, a request of 1,048 bytes, and a request to log on.
pub struct Packets {
    message: Vec<u8>,
    request: Vec<u8>,
    logon: Vec<u8>,
}

impl Drop for Packets {
    // The drop that would be derived. Written out, it is one call wherever a value that holds a `Packets` is let go,
    // which keeps the proofs of those places short.
    fn drop(self) {
        let Packets {
            message: _message,
            request: _request,
            logon: _logon,
        } = self;
    }
}

impl Packets {
    /// The bytes of each.
    pub fn new(alloc: Global) -> anyhow::Result<Packets> {
        let message = hex::decode(alloc, MESSAGE)?;
        let request = request(alloc)?;
        let logon = hex::decode(alloc, LOGON_CALL)?;
        Ok(Packets {
            message,
            request,
            logon,
        })
    }

    /// The stub of the request to log on.
    pub fn logon(&self) -> &[u8] {
        &self.logon
    }

    /// Runs an operation on a message or a unit, as many turns as asked for.
    pub fn perform(
        &self,
        alloc: Global,
        operation: Operation,
        turns: u32,
    ) -> anyhow::Result<Outcome> {
        match operation {
            Operation::ReadAuthenticate => read_messages(alloc, &self.message, turns),
            Operation::ViewAuthenticate => view_messages(&self.message, turns),
            Operation::AuthenticatePlain => view_messages_plainly(&self.message, turns),
            Operation::ReadUnit => read_requests(alloc, &self.request, turns),
            Operation::ViewUnit => view_requests(&self.request, turns),
            _ => view_requests_plainly(&self.request, turns),
        }
    }
}

/// A request with 1,024 stub bytes.
fn request(alloc: Global) -> anyhow::Result<Vec<u8>> {
    let mut request = hex::decode(alloc, REQUEST_HEAD)?;
    request.extend_from_slice(&ramp::<1024>())?;
    Ok(request)
}

/// The NT response of the message, read `turns` times.
fn read_messages(alloc: Global, bytes: &[u8], turns: u32) -> anyhow::Result<Outcome> {
    let mut end = Outcome::new();
    for _ in 0..turns {
        match read_authenticate(alloc, bytes) {
            Ok(message) => end = end_of(message.nt.bytes()),
            Err(_) => bail!("a message was refused"),
        }
    }
    Ok(end)
}

/// The end of the NT response of a message that is viewed `turns` times.
fn view_messages(bytes: &[u8], turns: u32) -> anyhow::Result<Outcome> {
    let mut nt: &[u8] = &[];
    for _ in 0..turns {
        match view_authenticate(bytes) {
            Ok(message) => nt = message.nt,
            Err(_) => bail!("a message was refused"),
        }
    }
    Ok(end_of(nt))
}

/// The end of the NT response of a message that is viewed `turns` times without contracts.
fn view_messages_plainly(bytes: &[u8], turns: u32) -> anyhow::Result<Outcome> {
    let mut nt: &[u8] = &[];
    for _ in 0..turns {
        match authenticate_plain(bytes) {
            Some(message) => nt = message.nt,
            None => bail!("a message was refused"),
        }
    }
    Ok(end_of(nt))
}

/// The stub of the request, read `turns` times.
fn read_requests(alloc: Global, bytes: &[u8], turns: u32) -> anyhow::Result<Outcome> {
    let mut end = Outcome::new();
    for _ in 0..turns {
        match read_unit(alloc, bytes) {
            Ok(unit) => end = end_of(stub_of(&unit.body)),
            Err(_) => bail!("a request was refused"),
        }
    }
    Ok(end)
}

/// The end of the stub of a request that is viewed `turns` times.
fn view_requests(bytes: &[u8], turns: u32) -> anyhow::Result<Outcome> {
    let mut stub: &[u8] = &[];
    for _ in 0..turns {
        match view_unit(bytes) {
            Ok(unit) => stub = stub_in(unit),
            Err(_) => bail!("a request was refused"),
        }
    }
    Ok(end_of(stub))
}

/// The stub that a request lends; empty of another unit.
fn stub_in(unit: UnitView<'_>) -> &[u8] {
    match unit.body {
        BodyView::Request { stub, .. } => stub,
        _ => &[],
    }
}

/// The end of the stub of a request that is viewed `turns` times without contracts.
fn view_requests_plainly(bytes: &[u8], turns: u32) -> anyhow::Result<Outcome> {
    let mut stub: &[u8] = &[];
    for _ in 0..turns {
        match view_plain(bytes) {
            Some(unit) => stub = stub_in(unit),
            None => bail!("a request was refused"),
        }
    }
    Ok(end_of(stub))
}
