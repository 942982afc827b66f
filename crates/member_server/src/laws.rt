//! Laws of the member's machine, over its definitions. Each function does nothing, and its clause is the law.

ghost use Rattle.member_server.specs.Laws.{AsksWhatWaits, ClosesNothing, KeepsRequests, LeavesOtherLinks, LetsInTheGranted, ReachesItsLink, ServesOneMessage};
ghost use Rattle.member_server.specs.Keeping.{KeepsTextsOfSecrets, KeepsWhatIsHeld};
ghost use Rattle.member_server.specs.Pending.{Settles};
ghost use Rattle.member_server.specs.ChannelSteps.{ChannelStepsKnown};
ghost use Rattle.member_server.specs.Dials.{TurnsAreDialled};
ghost use Rattle.member_server.specs.SealStep.{PlainMembersStay, SealingMembersStay};
ghost use Rattle.member_server.specs.Secrets.{TellsTextsApart};
ghost use Rattle.member_server.specs.Sharing.{SharesTurns};
ghost use Rattle.member_server.specs.Trying.{TriesItsSecrets};
ghost use Rattle.member_server.specs.Whole.{MembersSendWhole};

/// The events that the step for a closed or dialled link makes, with those that may come of it, are no more than
/// before: two for each logon that waits, two where a turn can start, one for a dial that waits, and one for each
/// request that is held.
#[tactic(auto, using(crate::proofs::PendingLaws::settles))]
pub fn made_events_end()
    ensures { Settles }
{}

/// After any unit on a link that was sent a CHALLENGE, the link is closed or its challenge is past: so a challenge
/// serves one AUTHENTICATE at most.
#[tactic(auto, using(crate::proofs::LinkLaws::serves_one_message))]
pub fn a_challenge_serves_one_message()
    ensures { ServesOneMessage }
{}

/// The outcome of a place is told where its logon is kept, and changes no link but the one of that number that waits
/// for this place.
#[tactic(auto, using(crate::proofs::LinkLaws::reaches_its_link))]
pub fn an_outcome_reaches_its_link()
    ensures { ReachesItsLink }
{}

/// A step for a link that was closed, or for a dial's answer, closes no link, where what is held on links are requests.
#[tactic(auto, using(crate::proofs::QuietLaws::closes_nothing))]
pub fn what_is_closed_closes_nothing()
    ensures { ClosesNothing }
{}

/// What is held on links are requests, at first and after each step.
#[tactic(auto, using(crate::proofs::KeptLaws::keeps_requests))]
pub fn what_is_held_are_requests()
    ensures { KeepsRequests }
{}

/// Bytes on a link that isn't the turn's leave every other link as it is.
#[tactic(auto, using(crate::proofs::OtherLinkLaws::leaves_other_links))]
pub fn bytes_leave_other_links()
    ensures { LeavesOtherLinks }
{}

/// In is told only where the channel took a granted answer for the place of that logon, in a unit that came on the link
/// of the turn in that very step; the logon was kept when the step began.
#[tactic(auto, using(crate::proofs::KeptLaws::lets_in_the_granted))]
pub fn in_is_told_of_a_granted_logon()
    ensures { LetsInTheGranted }
{}

/// The places of the logons that are kept are those of the logons that wait, in their order, and a turn is out exactly
/// where it is dialled: at first, and after each step.
#[tactic(auto, using(crate::proofs::AskedLaws::asks_what_waits))]
pub fn what_is_kept_waits()
    ensures { AsksWhatWaits }
{}

/// What each step does to the shared channel, part by part: where no whole unit comes on the link of the turn, logons
/// are asked and the turn is lost, if anything; where one does, and nothing is open there, it is taken first; and then
/// the next turn starts, where one can, with the next challenge that is left where it needs one.
#[tactic(auto, using(crate::proofs::ChannelStepLaws::channel_steps))]
pub fn channel_steps_are_known()
    ensures { ChannelStepsKnown }
{}

/// What is sent goes out on a link that the member accepted, or on the link of the turn, where what the member has and
/// what comes are in their ranges. On the turn's link it is the bytes of one whole unit, in one fragment or more, and
/// has at most 65,536; on the others it is bytes, at most 589,824. A step leaves the ranges so, and they are so at
/// first, where the computer's name is a name.
#[tactic(auto, using(crate::proofs::WholeLaws::members_send_whole))]
pub fn what_turns_send_is_whole()
    ensures { MembersSendWhole }
{}

/// A turn that starts is dialled once in that step, in which it is the last thing, and nothing else is dialled; its
/// dial waits then, and until the answer to it comes nothing becomes of the turn or of the channel.
#[tactic(auto, using(crate::proofs::DialLaws::turns_dialled))]
pub fn turns_are_dialled()
    ensures { TurnsAreDialled }
{}

/// The member's turns are those that all ends share: what the units of a piece on the link of the turn come to is what
/// they come to for its channel, and then the close of the link and the outcome of the logon, where the turn ended.
#[tactic(auto, using(crate::proofs::SharingLaws::shares_turns))]
pub fn turns_are_shared()
    ensures { SharesTurns }
{}

/// What the member keeps last is the text of the secrets that it holds: where that text stood in the file of its
/// secrets, it stands there after each step, and after each change that begins.
#[tactic(auto, using(crate::proofs::KeepingLaws::keeps_what_is_held))]
pub fn what_is_kept_is_held()
    ensures { KeepsWhatIsHeld }
{}

/// The text of the secrets is kept after a turn exactly where it is another then.
#[tactic(auto, using(crate::proofs::SecretLaws::tells_texts_apart))]
pub fn texts_that_change_are_kept()
    ensures { TellsTextsApart }
{}

/// Where the secrets have 16 bytes, so they have after each step, and each text that is kept is that of such secrets.
/// Where no bytes come none is kept, and the text of what is held is the same.
#[tactic(auto, using(crate::proofs::TextLaws::keeps_texts))]
pub fn texts_are_of_secrets()
    ensures { KeepsTextsOfSecrets }
{}

/// A member opens its channel under the secret that is tried, from the turn on that asks for the server's challenge.
/// While a turn is out that sets a secret there is a next one, and the call that waits for its bind hides it under the
/// key of the channel. Both hold at first, after each step, and after each change that begins.
#[tactic(auto, using(crate::proofs::TryingLaws::tries_its_secrets))]
pub fn what_is_tried_opens()
    ensures { TriesItsSecrets }
{}

/// A member whose channel seals nothing goes as if none could seal: its step is that of the machine without sealing,
/// and it stays one, also where a change begins. One whose plan isn't sealed is made so.
#[tactic(auto, using(crate::proofs::SealLaws::plain_members_stay))]
pub fn plain_members_stay()
    ensures { PlainMembersStay }
{}

/// A member of a plan that is sealed seals, and goes on to do so until it is stopped.
#[tactic(auto, using(crate::proofs::SealLaws::sealing_members_stay))]
pub fn sealing_members_stay()
    ensures { SealingMembersStay }
{}
