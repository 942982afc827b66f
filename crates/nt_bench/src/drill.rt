//! Turns of a drill.

ghost use Rattle.std.specs.Prelude.{◌≤◌};

use crate::bench::{Outcome, end_of};
use nt_top::drill_lines;
use std::alloc::Global;

/// The number that the moves are made from.
const NUMBER: u32 = 7;

/// The end of the lines of a drill of `moves` moves, made `turns` times.
pub fn drills(alloc: Global, moves: u32, turns: u32) -> anyhow::Result<Outcome>
    requires { moves ≤ 100000 }
{
    let mut end = Outcome::new();
    for _ in 0..turns {
        end = end_of(drill_lines(alloc, NUMBER, moves)?.bytes());
    }
    Ok(end)
}
