//! The accepted links of an end.

ghost use Rattle.std.specs.Prelude.{◌≡◌, ◌≤◌, ◌<◌, ◌+◌, ◌*◌, ℕ, [], length, nat_le, IfOk, IsSome, option_copied};
ghost use Rattle.wire_base.specs.Maps.{same_number, lookup, put, take_out};
ghost use Rattle.end_links.specs.Links.{held_by, link_limit, links_limit, talk_limit};
ghost use Rattle.rpc_units.specs.Stream.{rest_limit};

use crate::link::Link;
use std::alloc::Global;
use std::marker::Model;
use wire_base::{List, NoMemory, find_number, put_number, take_number};

/// The most accepted links of an end (this project's own choice).
pub const LINK_LIMIT: usize = 256;

/// Accepted links by their numbers, seen as a map: at most 256, each number once (this project's own choice).
#[derive(Drop)]
pub struct Links<T> {
    entries: List<(u32, Link<T>)>,
}

impl<T> Model for Links<T> {
    ghost use Rattle.std.specs.Prelude.{ℕ, List as list};
    ghost use Rattle.end_links.specs.Links.{AreLinks, LinkState};

    ghost Value = { list (ℕ × LinkState T) };

    ghost view = { λ l. l.entries };

    ghost invariant = { λ l. AreLinks l.entries };
}

/// What is said on a link, by the bytes that it holds beside the rest of the stream.
pub trait SaysHeld {
    ghost bytes_held: { Self → ℕ };

    ghost most_held: { ℕ };

    /// The bytes that it holds, as stub bytes of an open call and as requests that wait, each at most 65,536. It takes
    /// no memory.
    fn held(&self) -> usize
        ensures count { result ≡ bytes_held self.now }
        ensures most { result ≤ most_held }
        ensures few { result ≤ talk_limit };
}

impl<T> Links<T> {
    /// No links.
    #[tactic(auto, using(crate::proofs::LinkLaws::links_none))]
    pub fn new(alloc: Global) -> Links<T>
        ensures { result ≡ [] }
    {
        Links {
            entries: List::new(alloc),
        }
    }

    /// The number of links.
    pub fn len(&self) -> usize
        ensures count { result ≡ length self.now }
        ensures most { result ≤ 256 }
    {
        self.entries.len()
    }

    /// Whether there are as many links as may be.
    pub fn is_full(&self) -> bool
        ensures { result ≡ nat_le 256 (length self.now) }
    {
        self.entries.len() >= LINK_LIMIT
    }

    /// The link of that number. None exactly where no link has it.
    pub fn get(&self, number: u32) -> Option<&Link<T>>
        ensures { option_copied result ≡ lookup same_number number self.now }
    {
        find_number(self.entries.items(), number)
    }

    /// All links with their numbers.
    pub fn items(&self) -> &[(u32, Link<T>)]
        ensures { result.now ≡ self.now }
    {
        self.entries.items()
    }

    /// The links without that of the number, and the link. It takes no memory.
    #[tactic(auto, using(crate::proofs::LinkLaws::links_taken, crate::proofs::LinkLaws::room_taken))]
    pub fn take(self, number: u32) -> (Links<T>, Option<Link<T>>)
        ensures rest { result.0 ≡ take_out same_number number self }
        ensures link { result.1 ≡ lookup same_number number self }
        ensures room { IsSome result.1 → length result.0 < 256 }
    {
        let Links { entries } = self;
        let (rest, link) = take_number(entries, number);
        (Links { entries: rest }, link)
    }

    /// The links with this one of that number, in place of another of it.
    #[tactic(auto, using(crate::proofs::LinkLaws::links_put))]
    pub fn put(self, number: u32, link: Link<T>) -> Result<Links<T>, NoMemory>
    where
        T: Drop,
        requires { length self < 256 }
        ensures { IfOk result (λ links. links ≡ put same_number number link self) }
    {
        let Links { entries } = self;
        Ok(Links {
            entries: put_number(entries, number, link)?,
        })
    }

    /// The bytes that all links hold: the rests of their streams, and what is held by what is said on each. They are at
    /// most what 256 links hold. It takes no memory.
    pub fn held(&self) -> u64
    where
        T: SaysHeld,
        ensures count { result ≡ held_by T.bytes_held self.now }
        ensures most { result ≤ 256 * (rest_limit + T.most_held) }
        ensures few { result ≤ links_limit }
    {
        held_by_all(self.entries.items())
    }
}

/// The bytes that these links hold.
#[tactic(auto, using(crate::proofs::LinkLaws::holding))]
fn held_by_all<T: SaysHeld>(links: &[(u32, Link<T>)]) -> u64
    requires { length links.now ≤ 256 }
    ensures count { result ≡ held_by T.bytes_held links.now }
    ensures most { result ≤ 256 * (rest_limit + T.most_held) }
    ensures few { result ≤ links_limit }
{
    let mut held = 0;
    for link in links {
        held += held_by_link(&link.1);
    }
    held
}

/// The bytes that a link holds.
fn held_by_link<T: SaysHeld>(link: &Link<T>) -> u64
    ensures count { result ≡ length link.now.rest + T.bytes_held link.now.talk }
    ensures most { result ≤ rest_limit + T.most_held }
    ensures few { result ≤ link_limit }
{
    (link.rest_len() + link.talk().held()) as u64
}
