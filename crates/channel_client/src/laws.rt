//! Laws of the steps of a channel, over their definitions. Each function does nothing, and its clauses are the law.

ghost use Rattle.channel_client.specs.Causes.{CausesInOrder};
ghost use Rattle.channel_client.specs.AnyChannel.{ChannelGrantsAreWritable, ChannelsHaveEffects, ChannelsHaveOneTurn, ChannelsSendWhole, ChannelsSetNothing};
ghost use Rattle.channel_client.specs.Effects.{StepsHaveEffects};
ghost use Rattle.channel_client.specs.Grants.{GrantsAreWritable};
ghost use Rattle.channel_client.specs.NoNext.{SetsNothing};
ghost use Rattle.channel_client.specs.SealedCarrying.{SealedChannelsCarry};
ghost use Rattle.channel_client.specs.SealedCauses.{SealedCausesInOrder};
ghost use Rattle.channel_client.specs.Turns.{OneTurn};
ghost use Rattle.channel_client.specs.Unsealed.{PlainChannelsStay};
ghost use Rattle.channel_client.specs.Whole.{RequestersSendWhole};

/// One turn is out at a time: a right to it is given where none is out, and is given back exactly where its turn is
/// still out.
#[tactic(auto, using(crate::proofs::TurnLaws::one_turn))]
pub fn one_turn_is_out()
    ensures { OneTurn }
{}

/// A turn ends by the first cause that holds, in one order: `Bind`, `Fault`, `BadReply`, `Denied`, `NotNext`, and
/// `BadReply` for what a right credential came with.
#[tactic(auto, using(crate::proofs::CauseLaws::causes_in_order))]
pub fn causes_come_in_order()
    ensures { CausesInOrder }
{}

/// Each step has an effect on the channel, the calls on it and the numbers of its units, and keeps what holds of them:
/// that the turn is for the first logon that waits, and asks what the channel needs next, that places follow one
/// another, and that at most 64 logons wait.
#[tactic(auto, using(crate::proofs::EffectLaws::steps_have_effects))]
pub fn each_step_has_its_effect()
    ensures { StepsHaveEffects }
{}

/// What is sent is whole: a bind and a request are each the bytes of one whole unit, in one fragment or more, with room
/// in one piece of a link, where names, numbers and what is told of logons are in their ranges; each step leaves them
/// so.
#[tactic(auto, using(crate::proofs::WholeLaws::requesters_send_whole))]
pub fn requesters_send_whole()
    ensures { RequestersSendWhole }
{}

/// What a verdict grants that is taken can be handed on, where the stub of the response is bytes: it can be written
/// into a stub again, and has its ranges.
#[tactic(auto, using(crate::proofs::GrantLaws::grants_are_writable))]
pub fn grants_can_be_written()
    ensures { GrantsAreWritable }
{}

/// Without a next secret none is set: a turn begins as one of an end that can't set one, no unit is heard as the answer
/// to a change, and an end without a next secret stays one.
#[tactic(auto, using(crate::proofs::NoNextLaws::sets_nothing))]
pub fn nothing_is_set_without_a_next_secret()
    ensures { SetsNothing }
{}

/// A channel that seals nothing goes as if none could, and stays one.
#[tactic(auto, using(crate::proofs::UnsealedLaws::plain_channels_stay))]
pub fn plain_channels_stay()
    ensures { PlainChannelsStay }
{}

// ---- any channel, sealed or not

/// One turn of any channel is out at a time. A challenge is looked at only where it is drawn.
#[tactic(auto, using(crate::proofs::ChannelTurnLaws::any_channel_has_one_turn))]
pub fn any_channel_has_one_turn()
    ensures { ChannelsHaveOneTurn }
{}

/// A turn of a channel that seals ends by the first cause that holds, in the order of other channels, and last by
/// `BadSeal`, where a request can't be sealed.
#[tactic(auto, using(crate::proofs::SealedCauseLaws::sealed_causes_in_order))]
pub fn causes_come_in_order_where_sealed()
    ensures { SealedCausesInOrder }
{}

/// Each step of any channel has the effect that it has on one that seals nothing, and keeps what holds of it.
#[tactic(auto, using(crate::proofs::ChannelEffectLaws::any_step_has_its_effect))]
pub fn any_step_has_its_effect()
    ensures { ChannelsHaveEffects }
{}

/// What any channel sends is whole, but for requests that are sealed; each step leaves what is kept in its ranges.
#[tactic(auto, using(crate::proofs::ChannelWholeLaws::any_channel_sends_whole))]
pub fn any_channel_sends_whole()
    ensures { ChannelsSendWhole }
{}

/// What a verdict grants that any channel takes can be handed on.
#[tactic(auto, using(crate::proofs::SealedGrantLaws::any_grant_is_writable))]
pub fn any_grant_can_be_written()
    ensures { ChannelGrantsAreWritable }
{}

/// Without a next secret no channel sets one.
#[tactic(auto, using(crate::proofs::ChannelNoNextLaws::any_channel_sets_nothing))]
pub fn any_channel_sets_nothing_without_a_next_secret()
    ensures { ChannelsSetNothing }
{}

/// A channel that seals and its controller's end begin alike as the channel opens; a call that goes out arrives as that
/// call, and what the controller's end seals the channel opens, in the same order.
#[tactic(auto, using(crate::proofs::SealedCarryLaws::sealed_channels_carry))]
pub fn sealed_channels_carry_calls()
    ensures { SealedChannelsCarry }
{}
