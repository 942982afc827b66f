//! What holds of runs of a world.

ghost use Rattle.std.specs.Prelude.{◌≡◌, List};
ghost use Rattle.world_moves.specs.Alone.{HearsAlone};
ghost use Rattle.world_moves.specs.Plain.{HearsPlainly};
ghost use Rattle.world_moves.specs.declared.moves.Move.{Move};
ghost use Rattle.world_moves.specs.World.{World, last_of, run, run_of};

/// The last state of a run is the world after its moves.
#[tactic(auto, using(crate::proofs::RunLaws::run_ends))]
pub fn a_run_ends_in_its_last_state()
    ensures { (moves : List Move) (w : World) → last_of (run_of moves w) w ≡ run moves w }
{}

/// In a plain world, in which nothing seals, since its controllers can't and no member's plan asks for it, and no
/// station stands, an end hears as one that can't seal, and is made anew as one; a station hears nothing; and it stays
/// such a world, whatever moves are made.
#[tactic(auto, using(crate::proofs::PlainLaws::hears_plainly))]
pub fn a_plain_world_hears_plainly()
    ensures { HearsPlainly }
{}

/// In a plain world whose controllers ask nobody, since its plan doesn't let them or its tables trust no domain, an end
/// hears as it does where controllers trust no domain; and it stays such a world, whatever moves are made.
#[tactic(auto, using(crate::proofs::AloneLaws::hears_alone))]
pub fn who_asks_nobody_hears_alone()
    ensures { HearsAlone }
{}
