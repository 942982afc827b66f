//! Laws of what the outside tells, for loops over its calls: what two calls in a row come to.

ghost use Rattle.outside.specs.Causes.{RisesAddUp};
ghost use Rattle.outside.specs.Drawing.{DrawsAddUp};
ghost use Rattle.outside.specs.Machine.{RefusalsPass};
ghost use Rattle.outside.specs.Stories.{FaultsFollow, StoriesAddUp};
ghost use Rattle.outside.specs.Telling.{FrontsAreParts};

/// What is drawn in a row is drawn in that order, and is known by what was left before and after.
pub fn draws_add_up()
    ensures { DrawsAddUp }
{}

/// A count rose over calls in a row where one of them failed.
pub fn faults_add_up()
    ensures { RisesAddUp }
{}

/// What a story says of its calls, where more happened after it.
pub fn stories_add_up()
    ensures { StoriesAddUp }
{}

/// The count of link faults follows the story: it rises where a send or a dial in it failed.
pub fn faults_follow_the_story()
    ensures { FaultsFollow }
{}

/// A front of bytes that was taken is a part of them by value.
pub fn fronts_are_parts()
    ensures { FrontsAreParts }
{}

/// Where a part of an end's step is refused, so is the step, and what was drawn is a front of what the step draws. `S`
/// are the end's states, `T` and `U` what its parts give.
pub fn refusals_pass<S, T, U>()
    ensures { RefusalsPass S T U }
{}
