// The stream as callers see it.

ghost use Rattle.std.specs.Prelude.{◌≡◌, ◌+◌, ◌^◌, ◌<◌, ◌≤◌, length};
ghost use Rattle.rc4_stream.specs.Rc4.{Stream, applied};

use crate::state::Cells;
use std::marker::Model;

/// The key stream of a key of 1 to 256 bytes (RC4, as MS-NLMP 6 names it). Clauses see the key and the number of bytes
/// used.
#[derive(Drop)]
pub struct Rc4 {
    // The key, which no step reads once it is scheduled, is kept for the clauses to name.
    key: [u8; 256],
    key_length: usize,
    used: u64,
    cells: Cells,
}

impl Model for Rc4 {
    ghost use Rattle.std.specs.Prelude.{◌≡◌, ◌≤◌, take};
    ghost use Rattle.rc4_stream.specs.Rc4.{Stream, state_after};

    ghost Value = { Stream };

    ghost use Rattle.rc4_stream.specs.CellStates.{state_of};

    ghost view = { λ a. record { key = take a.key_length a.key; used = a.used } };

    ghost invariant = { λ a. (a.key_length ≤ 256) × (state_of a.cells ≡ state_after (take a.key_length a.key) a.used) };
}

impl Rc4 {
    /// The key stream of a key of 1 to 256 bytes, of which no byte has been used.
    pub fn new(key: &[u8]) -> Rc4
        requires some { 1 ≤ length key.now }
        requires within { length key.now ≤ 256 }
        ensures { result ≡ record { key = key.now; used = 0 } }
    {
        let mut kept = [0; 256];
        kept[..key.len()].copy_from_slice(key);
        Rc4 {
            key: kept,
            key_length: key.len(),
            used: 0,
            cells: Cells::scheduled(key),
        }
    }

    /// Combines each byte by exclusive or with the next byte of the key stream. The condition: the number of bytes
    /// used, these among them, stays below 2^63.
    pub fn apply(&mut self, bytes: &mut [u8])
        requires { self.old.used + length bytes.old < 2 ^ 63 }
        ensures bytes { bytes.new ≡ applied self.old.key self.old.used bytes.old }
        ensures stream { self.new ≡ record self.old { used = self.old.used + length bytes.old } }
    {
        self.cells.combine(bytes);
        self.used += bytes.len() as u64;
    }
}
