//! A link, by its stream and what is said on it.

ghost use Rattle.std.specs.Prelude.{◌≡◌, ◌≤◌, [], false, length, IfOk};
ghost use Rattle.rpc_units.specs.Stream.{rest_limit};

use rpc_units::Inflow;
use std::alloc::Global;
use std::marker::Model;
use wire_base::NoMemory;

/// A link that isn't closed, seen as the bytes that came and are no whole unit yet, at most 5,839, and what is said on
/// it so far (this project's own choice). It is taken apart and made again, so that no link stands whose stream a
/// refusal has ended.
#[derive(Drop)]
pub struct Link<T> {
    flow: Inflow,
    talk: T,
}

impl<T> Model for Link<T> {
    ghost use Rattle.std.specs.Prelude.{◌≡◌, ◌≤◌, false, length};
    ghost use Rattle.rpc_units.specs.Stream.{rest_limit};
    ghost use Rattle.end_links.specs.Links.{LinkState};

    ghost Value = { LinkState T };

    ghost view = { λ l. record { rest = l.flow.held; talk = l.talk } };

    ghost invariant = { λ l. (l.flow.broken ≡ false) × (length l.flow.held ≤ rest_limit) };
}

impl<T> Link<T> {
    /// A link on which nothing came, and on which this is said.
    pub fn new(alloc: Global, talk: T) -> Result<Link<T>, NoMemory>
    where
        T: Drop,
        ensures { IfOk result (λ link. link ≡ record { rest = []; talk = talk }) }
    {
        Ok(Link {
            flow: Inflow::new(alloc)?,
            talk,
        })
    }

    /// The stream, and what is said. It takes no memory, nor does any call below.
    pub fn parts(self) -> (Inflow, T)
        ensures rest { result.0.held ≡ self.rest }
        ensures runs { result.0.broken ≡ false }
        ensures talk { result.1 ≡ self.talk }
    {
        let Link { flow, talk } = self;
        (flow, talk)
    }

    /// The link again, once its stream holds no whole unit.
    pub fn again(flow: Inflow, talk: T) -> Link<T>
        requires runs { flow.broken ≡ false }
        requires waits { length flow.held ≤ rest_limit }
        ensures { result ≡ record { rest = flow.held; talk = talk } }
    {
        Link { flow, talk }
    }

    /// What is said on the link.
    pub fn talk(&self) -> &T
        ensures { result.now ≡ self.now.talk }
    {
        &self.talk
    }

    /// The number of bytes that came and are no whole unit yet.
    pub fn rest_len(&self) -> usize
        ensures count { result ≡ length self.now.rest }
        ensures most { result ≤ rest_limit }
    {
        self.flow.len()
    }
}
