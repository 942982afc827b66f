//! A world that is driven by a list of moves.

ghost use Rattle.std.specs.Prelude.{◌≡◌, ◌≢◌, ◌+◌, ◌++◌, ◌≤◌, ◌↔◌, [], true, false, List, Err, length, All, IfOk, OnOk, OnErr, IsTrue};
ghost use Rattle.world_moves.specs.declared.moves.Move.{Move};
ghost use Rattle.world_moves.specs.declared.plan.Plan.{Plan};
ghost use Rattle.world_moves.specs.Counting.{AreCounted};
ghost use Rattle.world_moves.specs.Forms.{IsSchedule};
ghost use Rattle.world_moves.specs.World.{IsMove, IsPlan, counted_of_run, first_world, move_limit, report_of, report_of_run, run, run_of};
ghost use Rattle.domain_world.specs.Driving.{IsCutShort};
ghost use Rattle.domain_world.specs.Headline.{OfItsRun, Proved};

use std::alloc::Global;
use wire_base::NoMemory;
use world_moves::{Moves, Plan, Report, World, WorldRefused, moves_have_forms};

/// Makes a world of a plan and the moves in it, in their order, and gives it. It fails only for want of memory.
pub fn drive_from(alloc: Global, plan: Plan, moves: &Moves) -> Result<World, NoMemory>
    requires plan { IsPlan plan }
    requires few { length moves.now ≤ move_limit }
    requires given { All IsMove moves.now }
    ensures world { IfOk result (λ world. world ≡ run moves.now (first_world plan)) }
    // A plan and moves of these types are a schedule, so that all that is proved of schedules holds of this run.
    ensures schedule { IsSchedule plan moves.now }
    ensures proved { OnOk result (Proved plan moves.now) }
{
    plan.has_forms();
    moves_have_forms(moves);
    let mut world = World::new(alloc, plan)?;
    match drive(alloc, &mut world, moves) {
        Ok(_) => Ok(world),
        Err(why) => Err(no_memory_for_run(why)),
    }
}

/// A run of a world that hadn't stopped fails for want of memory alone.
fn no_memory_for_run(why: WorldRefused) -> NoMemory
    requires { why ≢ WorldRefused.Stopped }
{
    match why {
        WorldRefused::Memory => NoMemory,
        WorldRefused::Stopped => unreachable!(),
    }
}

/// Makes the moves in their order, and gives what was counted since the plan.
///
/// `Memory` where a move found no memory, and `Stopped` exactly where the world had stopped before. The world then
/// reports the moves that were made, and has the clients' outcomes after them.
#[tactic(auto, using(crate::proofs::DrivingLaws::cut_short, crate::proofs::DrivingLaws::not_begun))]
pub fn drive(alloc: Global, world: &mut World, moves: &Moves) -> Result<Report, WorldRefused>
    requires few { world.old.moves + length moves.now ≤ move_limit }
    requires given { All IsMove moves.now }
    ensures world { OnOk result (world.new ≡ run moves.now world.old) }
    ensures report { IfOk result (λ report. report ≡ report_of (run moves.now world.old)) }
    // `Stopped` is answered exactly where a move wasn't made before, and a move that isn't made stops the world.
    ensures stopped { (result ≡ Err WorldRefused.Stopped) ↔ IsTrue world.old.stopped }
    ensures stops { OnErr result (world.new.stopped ≡ true) }
    ensures goes_on { OnOk result (world.new.stopped ≡ false) }
    // Of moves that are cut short those that were made are counted, and clients have their outcomes of then.
    ensures kept { OnErr result (IsCutShort moves.now world.old world.new) }
    // Where the world is that of earlier moves from a plan, it is afterwards that of all moves, the earlier ones and
    // these, and what was counted are the actions that its controllers and members gave.
    ensures from_plan { OnOk result ((plan : Plan) (earlier : List Move) →
        world.old ≡ run earlier (first_world plan) →
        world.new ≡ run (earlier ++ moves.now) (first_world plan)) }
    ensures counted { IfOk result (λ report. (plan : Plan) (earlier : List Move) →
        world.old ≡ run earlier (first_world plan) →
        report ≡ report_of_run plan (earlier ++ moves.now)) }
    // No count has come to the end of its type: each is the number of such actions of the run, and the moves are all
    // that were made.
    ensures fits { IfOk result (λ report. (plan : Plan) (earlier : List Move) →
        world.old ≡ run earlier (first_world plan) →
        AreCounted report (counted_of_run (run_of (earlier ++ moves.now) (first_world plan)))
        (length (earlier ++ moves.now))) }
    // What is proved of every run holds of the one that made the world, from a plan on, with these moves behind it.
    ensures proved { OnOk result (OfItsRun world.old moves.now Proved) }
{
    if world.is_stopped() {
        return Err(WorldRefused::Stopped);
    }
    for what in moves.items() {
        match world.step(alloc, what) {
            Ok(()) => {}
            Err(why) => return Err(why),
        }
    }
    Ok(world.report())
}
