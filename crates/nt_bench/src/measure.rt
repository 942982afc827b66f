//! How long an operation takes.

use crate::bench::Bench;
use crate::operation::Operation;
use std::rt::Clock;
use std::time::Instant;

/// The nanoseconds that the rounds of one operation take together, about.
const TIME: u128 = 500_000_000;

/// The nanoseconds that one round takes at least: few, so that some round is undisturbed on a machine that does other
/// work too.
const ROUND: u128 = 200_000;

/// The most rounds of one operation.
const ROUNDS: u32 = 1_000_000;

/// Tenths of nanoseconds that one turn of an operation takes: the best of several rounds within half a second.
pub fn tenths_of_nanoseconds<R: Clock + AllocGlobal>(
    rt: &R,
    bench: &mut Bench,
    operation: Operation,
) -> anyhow::Result<u128> {
    let turns = turns_of_a_round(rt, bench, operation)?;
    let start = Instant::now(rt)?;
    let mut best = u128::MAX;
    for _ in 0..ROUNDS {
        let round = time_of(rt, bench, operation, turns)?;
        best = best.min(round.saturating_mul(10) / u128::from(turns.max(1)));
        if start.elapsed(rt)?.as_nanos() >= TIME {
            break;
        }
    }
    Ok(best)
}

/// How many turns make a round.
fn turns_of_a_round<R: Clock + AllocGlobal>(
    rt: &R,
    bench: &mut Bench,
    operation: Operation,
) -> anyhow::Result<u32> {
    let mut turns: u32 = 1;
    for _ in 0..31 {
        let first = time_of(rt, bench, operation, turns)?;
        if first.min(time_of(rt, bench, operation, turns)?) >= ROUND {
            break;
        }
        turns = turns.saturating_mul(2);
    }
    Ok(turns)
}

/// The nanoseconds that so many turns take.
fn time_of<R: Clock + AllocGlobal>(
    rt: &R,
    bench: &mut Bench,
    operation: Operation,
    turns: u32,
) -> anyhow::Result<u128> {
    let start = Instant::now(rt)?;
    bench.perform(rt.alloc(), operation, turns)?;
    Ok(start.elapsed(rt)?.as_nanos())
}
