//! What a world counts.

ghost use Rattle.std.specs.Prelude.{◌≡◌, ◌+◌, count_by};
ghost use Rattle.domain_controller.specs.Laws.{is_passed};
ghost use Rattle.world_moves.specs.Counting.{no_counts, counts_of, add_counts, is_counted, counted_of, clipped, tells, judges, is_in, is_out, is_unanswered, is_barred};

use crate::links::EndId;
use outside::{Action, Judged, Outcome};

/// How often members told each outcome, and controllers judged an authenticator so. Each count stands still at the end
/// of its type.
#[derive(Clone, Copy, Debug, PartialEq, Eq)]
pub struct Counts {
    pub accepted: u32,
    pub refused: u32,
    pub no_controller: u32,
    pub passed: u32,
    pub barred: u32,
}

/// What a world has counted since its plan (this project's own choice).
#[derive(Clone, Copy, Debug, PartialEq, Eq)]
pub struct Report {
    /// The moves.
    pub moves: u32,
    /// The logons that members let in, those that the domain refused, and those without an answer of a controller.
    pub accepted: u32,
    pub refused: u32,
    pub no_controller: u32,
    /// The logons' authenticators that controllers passed, and those that they barred.
    pub passed: u32,
    pub barred: u32,
}

impl Counts {
    /// Nothing was counted.
    pub(crate) fn new() -> Counts
        ensures { result ≡ no_counts }
    {
        Counts {
            accepted: 0,
            refused: 0,
            no_controller: 0,
            passed: 0,
            barred: 0,
        }
    }

    /// What was counted, and these actions of an end besides, as far as they are counted.
    pub(crate) fn add(self, end: EndId, actions: &[Action]) -> Counts
        ensures { result ≡ add_counts self (counts_of (counted_of end actions.now)) }
    {
        self.add_all(counted_of(end, actions))
    }

    /// What was counted, and these actions besides.
    fn add_all(self, actions: &[Action]) -> Counts
        ensures { result ≡ add_counts self (counts_of actions.now) }
    {
        Counts {
            accepted: add_up(self.accepted, count_in(actions)),
            refused: add_up(self.refused, count_out(actions)),
            no_controller: add_up(self.no_controller, count_unanswered(actions)),
            passed: add_up(self.passed, count_passed(actions)),
            barred: add_up(self.barred, count_barred(actions)),
        }
    }
}

/// Whether what the end gives is counted: a member tells what comes of logons, and a controller what it judges. What a
/// station tells isn't.
fn is_counted(end: EndId) -> bool
    ensures { result ≡ is_counted end }
{
    match end {
        EndId::Controller(_) | EndId::Member(_) | EndId::Client(_) => true,
        EndId::Station(_) => false,
    }
}

/// The actions of an end that are counted.
fn counted_of(end: EndId, actions: &[Action]) -> &[Action]
    ensures { result.now ≡ counted_of end actions.now }
{
    if is_counted(end) { actions } else { &[] }
}

/// A count and `more`, which stands still at the end of its type.
fn add_up(count: u32, more: usize) -> u32
    ensures { result ≡ clipped (count + clipped more) }
{
    count.saturating_add(more.min(u32::MAX as usize) as u32)
}

/// Whether a member lets somebody in.
fn is_in(action: &Action) -> bool
    ensures { result ≡ tells is_in action.now }
{
    matches!(action, Action::Told(_, Outcome::In { .. }))
}

/// Whether the domain refused somebody to a member.
fn is_out(action: &Action) -> bool
    ensures { result ≡ tells is_out action.now }
{
    matches!(action, Action::Told(_, Outcome::Out(_)))
}

/// Whether a member found no controller.
fn is_unanswered(action: &Action) -> bool
    ensures { result ≡ tells is_unanswered action.now }
{
    matches!(action, Action::Told(_, Outcome::NoController(_)))
}

/// Whether a controller passed an authenticator.
fn is_passed(action: &Action) -> bool
    ensures { result ≡ judges is_passed action.now }
{
    matches!(
        action,
        Action::Judged(Judged::Passed(_)) | Action::Judged(Judged::Forwarded)
    )
}

/// Whether a controller barred an authenticator.
fn is_barred(action: &Action) -> bool
    ensures { result ≡ judges is_barred action.now }
{
    matches!(action, Action::Judged(Judged::Barred))
}

/// How many of the actions let somebody in.
fn count_in(actions: &[Action]) -> usize
    ensures { result ≡ count_by (tells is_in) actions.now }
{
    actions.iter().filter(|it| is_in(*it)).count()
}

/// How many tell that the domain refused somebody.
fn count_out(actions: &[Action]) -> usize
    ensures { result ≡ count_by (tells is_out) actions.now }
{
    actions.iter().filter(|it| is_out(*it)).count()
}

/// How many tell that no controller answered.
fn count_unanswered(actions: &[Action]) -> usize
    ensures { result ≡ count_by (tells is_unanswered) actions.now }
{
    actions.iter().filter(|it| is_unanswered(*it)).count()
}

/// How many pass an authenticator.
fn count_passed(actions: &[Action]) -> usize
    ensures { result ≡ count_by (judges is_passed) actions.now }
{
    actions.iter().filter(|it| is_passed(*it)).count()
}

/// How many bar one.
fn count_barred(actions: &[Action]) -> usize
    ensures { result ≡ count_by (judges is_barred) actions.now }
{
    actions.iter().filter(|it| is_barred(*it)).count()
}
