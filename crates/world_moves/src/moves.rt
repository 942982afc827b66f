//! The moves of a world.

ghost use Rattle.std.specs.Prelude.{◌≡◌, ◌^◌, ◌<◌, All, IfOk};
ghost use Rattle.world_moves.specs.Forms.{HasMoveForm};
ghost use Rattle.world_moves.specs.Generator.{next_seed, value_of, rare_by, made, moves_of};

use crate::forms::{is_hyper, is_long};
use account_table::{are_bytes, is_hash};
use std::alloc::Global;
use wire_base::{Blob, List, NoMemory};

/// One move of a world (this project's own choice). Links and units of the bag are numbered from 0, ends as
/// controllers, members, clients and then stations. A number chooses by its remainder among what there is to choose
/// from; where there is nothing, the move changes nothing.
#[derive(Debug, Drop)]
pub enum Move {
    /// The client or station, of which the number chooses among the clients and then the stations, is made anew from
    /// its plan, and begins.
    Start(u32),
    /// A stranger opens a link at the controller or member.
    Stranger(u32),
    /// The oldest dial that waits is connected, where it dials an end that takes its links; else it fails.
    Connect,
    /// The oldest dial that waits fails.
    FailDial,
    /// The oldest unit that was neither delivered nor lost is delivered on its own link.
    Onward,
    /// The oldest unit that was neither delivered nor lost is lost.
    Lose,
    /// A unit is delivered, again or late or for the first time, on a link of its kind.
    Deliver { unit: u32, link: u32 },
    /// Bytes come on a client's or a stranger's link, at most 65,536 of them: to the end that accepted it, or back to
    /// the client.
    Hand { link: u32, back: bool, bytes: Blob },
    /// A link that is open at a side is closed at both.
    Shut(u32),
    /// The end is made anew and forgets its links. A controller keeps its accounts; a member has the secrets whose text
    /// it kept last.
    Restart(u32),
    /// A member begins to change its secret to this one, where it changes to none yet.
    Change { member: u32, secret: [u8; 16] },
    /// Time passes: as many units of 100 ns.
    Tick(u64),
}

/// Moves, in order.
pub type Moves = List<Move>;

/// The moves that a number makes (this project's own choice): so many.
#[tactic(auto, using(crate::proofs::GeneratorLaws::making))]
pub fn moves_from(alloc: Global, number: u64, count: u32) -> Result<Moves, NoMemory>
    ensures { IfOk result (λ moves. moves ≡ moves_of count number) }
{
    let mut moves = Moves::new(alloc);
    let mut seed = number;
    for _ in 0..count {
        let (what, after) = next_move(seed);
        moves.push(what)?;
        seed = after;
    }
    Ok(moves)
}

/// The number after this one: 6364136223846793005 times it and 1442695040888963407 more, modulo 2^64.
#[tactic(auto, using(crate::proofs::GeneratorLaws::seed_is))]
fn next_seed(seed: u64) -> u64
    ensures { result ≡ next_seed seed }
{
    seed.wrapping_mul(6364136223846793005)
        .wrapping_add(1442695040888963407)
}

/// The value that is drawn where the number is that: its upper 31 bits.
#[tactic(auto, using(crate::proofs::GeneratorLaws::value_is))]
fn value_of(seed: u64) -> u32
    ensures value { result ≡ value_of seed }
    ensures most { result < 2 ^ 31 }
{
    (seed >> 33) as u32
}

/// The move that is made from this number, and the number after it.
fn next_move(seed: u64) -> (Move, u64)
    ensures what { result.0 ≡ (made seed).what }
    ensures after { result.1 ≡ (made seed).after }
{
    let first = next_seed(seed);
    let second = next_seed(first);
    let third = next_seed(second);
    match value_of(first) % 16 {
        0 | 1 => (Move::Start(value_of(second)), second),
        2..=4 => (Move::Connect, first),
        5..=12 => (Move::Onward, first),
        13 => {
            let what = Move::Deliver {
                unit: value_of(second),
                link: value_of(third),
            };
            (what, third)
        }
        14 => (Move::Tick(u64::from(value_of(second))), second),
        _ => rare_move(value_of(second) % 16, second),
    }
}

/// One of the moves that are seldom made: the one of this remainder, and the number after it.
fn rare_move(kind: u32, seed: u64) -> (Move, u64)
    requires { kind < 16 }
    ensures what { result.0 ≡ (rare_by kind seed).what }
    ensures after { result.1 ≡ (rare_by kind seed).after }
{
    let drawn = next_seed(seed);
    match kind {
        0 => (Move::Restart(value_of(drawn)), drawn),
        1..=5 => (Move::Shut(value_of(drawn)), drawn),
        6..=10 => (Move::FailDial, seed),
        _ => (Move::Lose, seed),
    }
}

/// Each move has the form that its type gives it. It is called so that this is known. It takes no memory, and walks the
/// moves.
pub fn moves_have_forms(moves: &Moves)
    ensures { All HasMoveForm moves.now }
{
    for what in moves.items() {
        what.has_form();
    }
}

impl Move {
    /// A move has the form that its type gives it. It is called so that this is known: of the moves that a world makes
    /// one by one, as `moves_have_forms` says it of a list. It takes no memory.
    pub fn has_form(&self)
        ensures { HasMoveForm self.now }
    {
        match self {
            Move::Start(number)
            | Move::Stranger(number)
            | Move::Shut(number)
            | Move::Restart(number) => {
                is_long(*number);
            }
            Move::Connect | Move::FailDial | Move::Onward | Move::Lose => {}
            Move::Deliver { unit, link } => {
                is_long(*unit);
                is_long(*link);
            }
            Move::Hand { link, bytes, .. } => {
                is_long(*link);
                are_bytes(bytes.bytes());
            }
            Move::Change { member, secret } => {
                is_long(*member);
                is_hash(*secret);
            }
            Move::Tick(more) => is_hyper(*more),
        }
    }
}
