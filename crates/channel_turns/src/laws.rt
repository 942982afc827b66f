//! Laws of turns, over their definitions. Each function does nothing, and its clause is the law.

ghost use Rattle.channel_turns.specs.Laws.{NextTurnsKnown, TurnsEndOnce, TurnsSendWhole, TurnsStepTheChannel};
ghost use Rattle.channel_turns.specs.SealedTurns.{SealedRepliesAreOpened};

/// What a piece on the link of a turn comes to is that of the words for any end's units, and no challenge is drawn.
/// Where the turn hadn't ended before, it ends once, or its link stays open. One that was out is out exactly while the
/// link stays open, and one that is lost is out no more.
#[tactic(auto, using(crate::proofs::TurnLaws::turns_end))]
pub fn turns_end_once()
    ensures { TurnsEndOnce }
{}

/// The channel takes the whole units on the link of its turn in their order, up to the first that ends the turn; where
/// none does and a unit is refused, the turn is lost then. Nothing else is done to it. The bytes of one whole unit come
/// to that unit taken.
#[tactic(auto, using(crate::proofs::TurnLaws::turns_step))]
pub fn turns_step_their_channel()
    ensures { TurnsStepTheChannel }
{}

/// A piece on the link of a turn makes sends on that link and nothing else, each the bytes of one whole unit, in one
/// fragment or more, with room in one piece of a link, where what the channel has is in its ranges; it stays so.
#[tactic(auto, using(crate::proofs::WholeLaws::turns_send_whole))]
pub fn what_is_sent_in_turns_is_whole()
    ensures { TurnsSendWhole }
{}

/// A turn starts exactly where one can, and is out then. It draws a challenge exactly where the channel needs one, and
/// it is `Spent` where none is left then.
#[tactic(auto, using(crate::proofs::NextLaws::next_turns))]
pub fn next_turns_are_known()
    ensures { NextTurnsKnown }
{}

/// On a sealed link a response that has no signature, or that the channel's end refuses, loses the turn with `BadSeal`,
/// and the link is to be closed with `BadAuthentication`. One that is opened is heard as what is found in it, and what
/// else comes as it is.
#[tactic(auto, using(crate::proofs::SealedLaws::replies_are_opened))]
pub fn sealed_replies_are_opened()
    ensures { SealedRepliesAreOpened }
{}
