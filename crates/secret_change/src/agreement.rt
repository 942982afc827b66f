//! A machine and its controller while the machine replaces its secret.

ghost use Rattle.std.specs.Prelude.{◌≡◌, ℕ, List};
ghost use Rattle.secret_change.specs.Agreement.{Pair, Happening, MayHappenAll, after_all, first_pair, Agree};

/// Whatever is lost, the secrets that the machine keeps have the controller's among them.
///
/// A machine and a controller begin with one secret. Whatever then happens of what may, in any order, three things
/// stand. The controller's secret is the current or the next one of those that the machine holds, and of those that it
/// wrote last. Where none is next it is the current one. Where the next channel doesn't open under the secret that is
/// tried, it does under the one that is tried after one denial.
pub fn the_kept_pair_has_the_controllers()
    ensures { (secret : List ℕ) (happenings : List Happening)
        → MayHappenAll (first_pair secret) happenings
        → Agree (after_all (first_pair secret) happenings) }
{}
