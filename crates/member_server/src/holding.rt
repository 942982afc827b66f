//! The bytes that a member holds.

ghost use Rattle.std.specs.Prelude.{◌≡◌, ◌≤◌, ◌+◌};
ghost use Rattle.channel_turns.specs.Turning as turning;
ghost use Rattle.end_links.specs.Links.{held_by};
ghost use Rattle.member_server.specs.Held.{held_limit};
ghost use Rattle.member_server.specs.Holding.{bytes_in, held_of, holding_limit, talk_bytes};

use crate::member::Member;
use crate::state::{Phase, Running, Talk};
use end_links::SaysHeld;

impl SaysHeld for Talk {
    ghost use Rattle.member_server.specs.Holding.{talk_bytes, talk_limit};

    ghost bytes_held = { talk_bytes };

    ghost most_held = { talk_limit };

    /// The stub bytes of the open call, and the bytes of requests that wait.
    fn held(&self) -> usize {
        self.joiner.len() + bytes_in(&self.phase)
    }
}

/// The bytes of requests that wait on a link in this phase.
fn bytes_in(phase: &Phase) -> usize
    ensures count { result ≡ bytes_in phase.now }
    ensures most { result ≤ held_limit }
{
    match phase {
        Phase::Asked { held, .. } => held.len(),
        _ => 0,
    }
}

/// The bytes that a member holds that keeps this.
fn bytes_of(running: &Running) -> u64
    ensures count { result ≡
        held_by talk_bytes running.now.links + turning.bytes_of running.now.dialling }
    ensures most { result ≤ holding_limit }
{
    running.links.held() + running.dialling.held()
}

impl Member {
    /// The bytes that the member holds: the rests of its links' streams, the stub bytes of open calls, and the requests
    /// that wait. A member that was stopped holds none. They are at most what 256 links and the link of the turn hold.
    /// It takes no memory.
    pub fn held(&self) -> u64
        ensures count { result ≡ held_of self.now }
        ensures most { result ≤ holding_limit }
    {
        match self.running() {
            Some(running) => bytes_of(running),
            None => 0,
        }
    }
}
