//! Laws of the calls at a controller, over their definitions. Each function does nothing, and its clauses are the laws.

ghost use Rattle.controller_calls.specs.Binds.{SealedBindsAreShort};
ghost use Rattle.controller_calls.specs.ChannelKinds.{ChannelsHaveKinds};
ghost use Rattle.controller_calls.specs.Doing.{DoesWhatPasses};
ghost use Rattle.controller_calls.specs.Granting.{GrantsAsOpened};
ghost use Rattle.controller_calls.specs.Handing.{JudgesHere};
ghost use Rattle.controller_calls.specs.Passing.{PassesTheNext};
ghost use Rattle.controller_calls.specs.Seals.{ReplacedStay};
ghost use Rattle.controller_calls.specs.Unsent.{UnsentAreSent};

/// An authenticator passes exactly where it is the next one of the channel of the computer that the call names, whoever
/// sent it, and whatever the call asks.
#[tactic(auto, using(crate::proofs::PassLaws::passes_the_next))]
pub fn the_next_authenticator_passes()
    ensures { PassesTheNext }
{}

/// What a call comes to whose authenticator passes (`done_by`), whatever it asks, is what the controller does and
/// answers: the accounts and the sessions behind it, the status that is told, and the reply. A call that doesn't pass
/// leaves accounts, sessions and each computer's channel; it is told why, and answered by STATUS_ACCESS_DENIED.
#[tactic(auto, using(crate::proofs::DoneLaws::does_what_passes))]
pub fn what_passes_is_done()
    ensures { DoesWhatPasses }
{}

/// The channel that an accepted NetrServerAuthenticate2 leaves is of the type that the call names. Whatever call comes,
/// each channel that is kept has a type afterwards where each had one before.
#[tactic(auto, using(crate::proofs::ChannelKindLaws::channels_have_kinds))]
pub fn kept_channels_have_kinds()
    ensures { ChannelsHaveKinds }
{}

/// A controller that can ask no trusted domain's controller hands nothing on: each call on a channel is judged here.
#[tactic(auto, using(crate::proofs::HandingLaws::judges_here))]
pub fn what_asks_nobody_is_judged_here()
    ensures { JudgesHere }
{}

/// With the flags that every end supports, a NetrServerAuthenticate2 is answered as by a controller that can't seal.
#[tactic(auto, using(crate::proofs::SealLaws::grants_as_opened))]
pub fn supported_flags_open_as_before()
    ensures { GrantsAsOpened }
{}

/// A call whose reply is sent behind it is a call that is answered at once.
#[tactic(auto, using(crate::proofs::SealLaws::unsent_are_sent))]
pub fn replies_may_be_sent_later()
    ensures { UnsentAreSent }
{}

/// A sealed link whose channel was replaced is never one of a channel that stands again.
#[tactic(auto, using(crate::proofs::StandingLaws::replaced_stay))]
pub fn replaced_channels_stay_so()
    ensures { ReplacedStay }
{}

/// A bind with a trailer has so few contexts that its answer fits into a unit with a trailer.
#[tactic(auto, using(crate::proofs::BindLaws::sealed_binds_are_short))]
pub fn sealed_binds_are_short()
    ensures { SealedBindsAreShort }
{}
