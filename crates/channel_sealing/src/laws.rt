//! Laws of sealed frames, over their definitions. Each function does nothing, and its clauses are the law.

ghost use Rattle.channel_sealing.specs.Exchanges.{EndsStandAtTheLast, SealedCallsArrive};
ghost use Rattle.channel_sealing.specs.Names.{BindNamesAreRead};

/// A call or reply whose frames one end seals arrives at the other end: the stream is cut into the frames, each is
/// opened, and joined they are the call. Both ends stay in step.
#[tactic(auto, using(crate::proofs::ExchangeLaws::sealed_calls_arrive))]
pub fn sealed_calls_arrive()
    ensures { SealedCallsArrive }
{}

/// Where an end doesn't seal all frames of a call or reply, it has used up its numbers: it stands at the last then.
#[tactic(auto, using(crate::proofs::LastLaws::ends_stand_at_the_last))]
pub fn ends_stand_at_the_last()
    ensures { EndsStandAtTheLast }
{}

/// The names that a bind tells are read as they were written, whatever stands behind them.
#[tactic(auto, using(crate::proofs::NameLaws::bind_names_are_read))]
pub fn bind_names_are_read()
    ensures { BindNamesAreRead }
{}
