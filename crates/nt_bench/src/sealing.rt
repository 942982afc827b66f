//! Two sides of a session.

use crate::bench::{Outcome, end_of, ramp};
use anyhow::bail;
use ntlm_flags::{
    NTLMSSP_NEGOTIATE_128, NTLMSSP_NEGOTIATE_EXTENDED_SESSIONSECURITY, NTLMSSP_NEGOTIATE_KEY_EXCH,
};
use ntlm_seal::{SealRefused, Session, Side};

/// The bytes of a unit before its authentication value: a header, the range and a trailer.
const UNIT: usize = 24 + 1024 + 8;

const FLAGS: u32 = NTLMSSP_NEGOTIATE_EXTENDED_SESSIONSECURITY
    | NTLMSSP_NEGOTIATE_KEY_EXCH
    | NTLMSSP_NEGOTIATE_128;

/// A client's side and a server's side under one exported session key.
#[derive(Drop)]
pub struct Sides {
    client: Session,
    server: Session,
    unit: [u8; UNIT],
}

impl Sides {
    /// Both sides of a session, before their first unit.
    pub fn new(exported: [u8; 16]) -> Sides {
        Sides {
            client: Session::new(exported, FLAGS, Side::Client),
            server: Session::new(exported, FLAGS, Side::Server),
            unit: ramp(),
        }
    }

    /// Carries the unit `turns` times from the client to the server. Gives the last signature.
    pub fn carry(&mut self, turns: u32) -> anyhow::Result<Outcome> {
        let mut signature = [0; 16];
        for _ in 0..turns {
            match self.carry_once() {
                Ok(last) => signature = last,
                Err(_) => bail!("a unit was refused"),
            }
        }
        Ok(end_of(&signature))
    }

    /// Seals a unit at the client and opens it at the server. Gives the signature.
    fn carry_once(&mut self) -> Result<[u8; 16], SealRefused> {
        let signature = self.client.seal(&mut self.unit, 24, 24 + 1024)?;
        self.server.open(&mut self.unit, 24, 24 + 1024, &signature)?;
        Ok(signature)
    }
}
