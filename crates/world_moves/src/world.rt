//! The world.

ghost use Rattle.std.specs.Prelude.{◌≡◌, ◌≢◌, ◌+◌, ◌-◌, ◌<◌, ◌↔◌, ◌++◌, ◌∷◌, [], List, Err, true, false, length, IfOk, OnOk, OnErr, IsTrue, option_copied};
ghost use Rattle.world_moves.specs.declared.moves.Move.{Move};
ghost use Rattle.world_moves.specs.declared.plan.Plan.{Plan};
ghost use Rattle.world_moves.specs.Bag.{AreShortUnits, HaveBytes};
ghost use Rattle.world_moves.specs.Bounds.{HasChallengesFor};
ghost use Rattle.world_moves.specs.Counting.{AreCounted};
ghost use Rattle.world_moves.specs.Draws.{DrawsAreBlocks, DrawsDiffer};
ghost use Rattle.world_moves.specs.Outcomes.{HasOutcomesOf, HasNoOtherOutcomes};
ghost use Rattle.world_moves.specs.World.{IsPlan, IsMove, move_limit, counted_of_run, first_world, happens, kept_of, run, run_of, report_of, report_of_run, outcome_of, station_outcome_of};

use crate::counting::Report;
use crate::making::first_state;
use crate::moves::Move;
use crate::plan::Plan;
use crate::state::State;
use interactive_station::StationOutcome;
use logon_client::ClientOutcome;
use outside::StepRefused;
use secret_change::Secrets;
use std::alloc::Global;
use std::marker::Model;
use thiserror::Error;
use wire_base::NoMemory;

/// Why a world makes no move.
#[derive(Clone, Copy, Debug, PartialEq, Eq, Error)]
pub enum WorldRefused {
    /// No memory was found.
    #[error("no memory")]
    Memory,
    /// An earlier move found no memory.
    #[error("stopped before")]
    Stopped,
}

/// Controllers, members, clients and stations, the links between them, and what is under way (this project's own
/// choice). It keeps no moves.
#[derive(Drop)]
pub struct World {
    state: State,
    moves: u32,
    stopped: bool,
}

impl Model for World {
    ghost use Rattle.world_moves.specs.Bounds.{IsBounded};
    ghost use Rattle.world_moves.specs.World.{World as AnyWorld};

    ghost Value = { AnyWorld };

    ghost view = { λ w. record { state = w.state; moves = w.moves; stopped = w.stopped } };

    ghost invariant = { λ w. IsBounded w.state w.moves w.stopped };
}

impl World {
    /// The world of a plan, in which no move was made yet.
    #[tactic(auto, using(crate::proofs::OpenLaws::made_bounded))]
    pub fn new(alloc: Global, plan: Plan) -> Result<World, NoMemory>
        requires { IsPlan plan }
        ensures { IfOk result (λ world. world ≡ first_world plan) }
    {
        Ok(World {
            state: first_state(alloc, plan)?,
            moves: 0,
            stopped: false,
        })
    }

    /// Makes a move. A world makes at most 100,000.
    ///
    /// `Memory` where no memory was found: after it the world answers `Stopped` for ever, each client has the outcome
    /// that it had before the move, and no station has another one than it had; it may have none any more. It isn't
    /// told for want of challenges: they are left for each move that a world makes, whatever the earlier ones came to.
    #[tactic(auto, using(crate::proofs::OpenLaws::never_spent, crate::proofs::OpenLaws::left_after, crate::proofs::OpenLaws::left_still, crate::proofs::OutcomeLaws::none_other, crate::proofs::OutcomeLaws::same_other))]
    pub fn step(&mut self, alloc: Global, what: &Move) -> Result<(), WorldRefused>
        requires few { self.old.moves < move_limit }
        requires given { IsMove what.now }
        ensures world { OnOk result (self.new ≡ happens self.old what.now) }
        // `Stopped` is answered exactly where the world had stopped, and a move that isn't made stops it.
        ensures stopped { (result ≡ Err WorldRefused.Stopped) ↔ IsTrue self.old.stopped }
        ensures stops { OnErr result (self.new.stopped ≡ true) }
        ensures goes_on { OnOk result (self.new.stopped ≡ false) }
        // What a move that isn't made gave isn't counted.
        ensures kept { OnErr result (report_of self.new ≡ report_of self.old) }
        // An outcome that a client got in it is taken back, and each other stays.
        ensures outcomes { OnErr result (HasOutcomesOf self.old self.new) }
        // So is one that a station got, and others of stations may be lost with it.
        ensures stations { OnErr result (HasNoOtherOutcomes self.old self.new) }
        // Whatever it comes to, challenges are left for each further move that a world makes.
        ensures left { self.old.stopped ≡ false →
            HasChallengesFor (move_limit - (self.old.moves + 1)) self.new.state }
        // From a plan on the world is that of all moves, the earlier ones and this one.
        ensures from_plan { OnOk result ((plan : Plan) (earlier : List Move) →
            self.old ≡ run earlier (first_world plan) →
            self.new ≡ run (earlier ++ what.now ∷ []) (first_world plan)) }
    {
        if self.stopped {
            return Err(WorldRefused::Stopped);
        }
        let counts = self.state.counts;
        let had = match self.state.ends.have_outcomes(alloc) {
            Ok(had) => had,
            Err(_) => {
                self.stopped = true;
                return Err(WorldRefused::Memory);
            }
        };
        self.state.bag.units_are_short();
        match self.state.act(alloc, what) {
            Ok(()) => {
                self.moves += 1;
                Ok(())
            }
            Err(why) => {
                self.state.ends.give_up(alloc, had.as_slice());
                self.state.counts = counts;
                self.stopped = true;
                Err(refusal(why))
            }
        }
    }

    /// Whether a move wasn't made.
    pub fn is_stopped(&self) -> bool
        ensures { result ≡ self.now.stopped }
    {
        self.stopped
    }

    /// What was counted since the plan. It takes no memory.
    #[tactic(auto, using(crate::proofs::RunLaws::counted_so))]
    pub fn report(&self) -> Report
        ensures value { result ≡ report_of self.now }
        // Of a run from a plan what is counted are the actions that its controllers and members gave.
        ensures counted { (plan : Plan) (moves : List Move) →
            self.now ≡ run moves (first_world plan) → result ≡ report_of_run plan moves }
        // No count has come to the end of its type: each is the number of such actions of the run.
        ensures fits { (plan : Plan) (moves : List Move) →
            self.now ≡ run moves (first_world plan) →
            AreCounted result (counted_of_run (run_of moves (first_world plan))) (length moves) }
    {
        let counts = self.state.counts;
        Report {
            moves: self.moves,
            accepted: counts.accepted,
            refused: counts.refused,
            no_controller: counts.no_controller,
            passed: counts.passed,
            barred: counts.barred,
        }
    }

    /// No two challenges that were drawn are alike. It is called so that this is known.
    pub fn draws_differ(&self)
        ensures { DrawsDiffer self.now }
    {
        self.state.chances.draws_differ();
    }

    /// Each challenge that was drawn has 8 bytes. It is called so that this is known.
    pub fn draws_are_blocks(&self)
        ensures { DrawsAreBlocks self.now }
    {
        self.state.chances.draws_are_blocks();
    }

    /// No unit of the bag has more bytes than an end sends at once. It is called so that this is known.
    pub fn units_are_short(&self)
        ensures { AreShortUnits self.now.state.bag }
    {
        self.state.bag.units_are_short();
    }

    /// Each unit of the bag has bytes. It is called so that this is known.
    pub fn units_have_bytes(&self)
        ensures { HaveBytes self.now.state.bag }
    {
        self.state.bag.units_have_bytes();
    }

    /// The outcome of the client at that place of the plan's list. None exactly where there is no such client, or it
    /// has no outcome yet. It takes no memory.
    pub fn outcome(&self, client: u32) -> Option<&ClientOutcome>
        ensures { option_copied result ≡ outcome_of self.now client }
    {
        match self.state.ends.client(client as usize) {
            Some(client) => client.outcome(),
            None => None,
        }
    }

    /// The outcome of the station at that place of the plan's list. None exactly where there is no such station, or it
    /// has no outcome: it has none yet, or the world has stopped and lost it. It takes no memory.
    pub fn station(&self, station: u32) -> Option<&StationOutcome>
        ensures { option_copied result ≡ station_outcome_of self.now station }
    {
        match self.state.ends.station(station as usize) {
            Some(station) => station.outcome(),
            None => None,
        }
    }

    /// The secrets that the member at that place of the plan's list keeps, from which it is made anew at a restart:
    /// those of the text that it kept last, and before that those of its plan. None exactly where there is no such
    /// member. It takes no memory.
    pub fn kept(&self, member: u32) -> Option<&Secrets>
        ensures { option_copied result ≡ kept_of self.now member }
    {
        match self.state.member_plans.get(member as usize) {
            Some(plan) => Some(&plan.secrets),
            None => None,
        }
    }
}

/// Why a move wasn't made, by why an end took no step.
fn refusal(why: StepRefused) -> WorldRefused
    requires { why ≡ StepRefused.Memory }
    ensures { result ≡ WorldRefused.Memory }
{
    match why {
        StepRefused::Memory => WorldRefused::Memory,
        StepRefused::Spent | StepRefused::Stopped => unreachable!(),
    }
}
