//! What holds of secure channels, whatever happens to them.

ghost use Rattle.std.specs.Prelude.{ℕ};
ghost use Rattle.channel_events.specs.AcceptedOrder.{AcceptedStayInOrder};
ghost use Rattle.channel_events.specs.OrderSteps.{RequestersKeepOrder};
ghost use Rattle.channel_events.specs.RequestSteps.{RequestersKeepCallsApart};
ghost use Rattle.channel_events.specs.Requests.{CallsStayApart};
ghost use Rattle.channel_events.specs.SecretOrder.{StayTogether};

/// No two calls on a secure channel have one number, whatever happens to the requesters, and a clash or not: each event
/// of a requester keeps that.
#[tactic(auto, using(crate::proofs::RequestLaws::calls_stay_apart))]
pub fn calls_stay_apart()
    ensures { CallsStayApart ℕ }
{}

/// Each step of a requester is one of the events that keep calls apart, by what the step does and the number of its
/// numbers.
#[tactic(auto, using(crate::proofs::RequestStepLaws::requesters_keep))]
pub fn requesters_keep_calls_apart()
    ensures { RequestersKeepCallsApart }
{}

/// Channels are accepted in the order in which their requester opens them, through each event: an opening that is
/// accepted, requesters that hold no more, one that begins an opening, one that calls on its channel, and any other
/// unit. So a channel that is kept, on which a call was made, is of the opening that the requester holds, if one of
/// that was accepted.
#[tactic(auto, using(crate::proofs::AcceptedOrderLaws::stay_in_order))]
pub fn accepted_channels_stay_in_order()
    ensures { AcceptedStayInOrder ℕ }
{}

/// A requester that replaces its secret and the controller that keeps its channel stay together through each event: the
/// controller's hash is the current or the next secret of the requester. An opening is accepted, a call passes or sets
/// a secret, and the controller begins anew; the requester begins to open a channel, opens it, sends a call, hears that
/// its secret was taken, or goes on without. Whatever is lost is something that doesn't happen.
#[tactic(auto, using(crate::proofs::SecretOrderLaws::stay_together))]
pub fn secrets_stay_together()
    ensures { StayTogether ℕ }
{}

/// Each step of a requester keeps the order in which channels are accepted, and the calls on them, where a channel that
/// opens was accepted by a call in a unit, and where a call of another requester is one of another computer.
#[tactic(auto, using(crate::proofs::OrderStepLaws::requesters_keep_order))]
pub fn requesters_keep_accepted_in_order()
    ensures { RequestersKeepOrder }
{}
