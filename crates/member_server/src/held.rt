//! Requests that wait for the outcome of a logon.

ghost use Rattle.std.specs.Prelude.{◌≡◌, ◌≤◌, ◌+◌, ◌++◌, ◌∷◌, [], length, nat_le, IfOk};
ghost use Rattle.member_server.specs.Held.{held_size, held_limit};

use std::alloc::Global;
use std::marker::Model;
use wire_base::{Blob, List, NoMemory};

/// The most bytes of requests that wait on a link (this project's own choice).
pub const HELD_LIMIT: usize = 65536;

/// Requests that wait on a link, each as the bytes of its unit, in the order in which they came. Clauses see the list
/// of them. They are at most `HELD_LIMIT` bytes in all.
#[derive(Drop)]
pub struct Held {
    units: List<Blob>,
    size: usize,
}

impl Model for Held {
    ghost use Rattle.std.specs.Prelude.{ℕ, ◌≡◌, ◌≤◌, List as list};
    ghost use Rattle.member_server.specs.Held.{held_limit, held_size};

    ghost Value = { list (list ℕ) };

    ghost view = { λ h. h.units };

    ghost invariant = { λ h. (h.size ≡ held_size h.units) × (h.size ≤ held_limit) };
}

impl Held {
    /// None wait.
    pub(crate) fn new(alloc: Global) -> Held
        ensures { result ≡ [] }
    {
        Held {
            units: List::new(alloc),
            size: 0,
        }
    }

    /// The number of their bytes.
    pub(crate) fn len(&self) -> usize
        ensures count { result ≡ held_size self.now }
        ensures most { result ≤ held_limit }
    {
        self.size
    }

    /// Whether as many bytes more may wait.
    pub(crate) fn has_room(&self, more: usize) -> bool
        ensures { result ≡ nat_le (held_size self.now + more) held_limit }
    {
        more <= HELD_LIMIT && self.size <= HELD_LIMIT - more
    }

    /// The units, in their order, without a copy.
    pub(crate) fn into_units(self) -> List<Blob>
        ensures { result ≡ self }
    {
        let Held { units, .. } = self;
        units
    }

    /// The requests that wait, and behind them a copy of this unit, for which there is room.
    #[tactic(auto, using(std::proofs::lemmas::List::Sums::sum_by_push))]
    pub(crate) fn hold(self, alloc: Global, bytes: &[u8]) -> Result<Held, NoMemory>
        requires { held_size self + length bytes.now ≤ held_limit }
        ensures { IfOk result (λ held. held ≡ self ++ bytes.now ∷ []) }
    {
        let Held { mut units, size } = self;
        units.push(Blob::copy(alloc, bytes)?)?;
        Ok(Held {
            units,
            size: size + bytes.len(),
        })
    }
}
