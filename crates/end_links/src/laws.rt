//! What holds of bindings, and of the units of a stream that any end serves.

ghost use Rattle.end_links.specs.Binding.{ContextsAnswered};
ghost use Rattle.end_links.specs.Bounds.{StepsBounded};
ghost use Rattle.end_links.specs.Serving.{UnitsServed};
ghost use Rattle.end_links.specs.Whole.{UnitsAreWhole};

/// A context is accepted exactly where the answer to it says so, and only for the interface that is served, with NDR.
pub fn contexts_are_answered()
    ensures { ContextsAnswered }
{}

/// The units of a stream are served in order, however it comes in pieces; a call that is sent in fragments is heard
/// once; challenges are drawn from the front. `W` is the end at work, `T` what is said on the link.
pub fn units_are_served_in_order<W, T>()
    ensures { UnitsServed W T }
{}

/// Serving a stream draws few challenges, whatever it comes to, and a call leaves no fewer than what it makes.
pub fn steps_are_bounded<W, T>()
    ensures { StepsBounded W T }
{}

/// A unit that an end sends is the bytes of one whole unit, in one fragment or more, and has room in one piece of a
/// link: a bind and the answers to it, a fault, and a call or reply whose stub has at most 58,209 bytes
/// (`whole_limit`). Its numbers are to have their widths, its limit to be from 1,432 to 5,840, stubs and identifiers
/// are to be bytes, and no more contexts are to be answered than one unit holds.
#[tactic(auto, using(crate::proofs::WholeLaws::units_are_whole))]
pub fn sends_are_whole()
    ensures { UnitsAreWhole }
{}
