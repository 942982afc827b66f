//! What is claimed of runs.

ghost use Rattle.std.specs.Prelude.{List};
ghost use Rattle.world_moves.specs.declared.moves.Move.{Move};
ghost use Rattle.world_moves.specs.declared.plan.Plan.{Plan};
ghost use Rattle.world_moves.specs.Alone.{HandsNothingOn};
ghost use Rattle.world_moves.specs.Plain.{IsPlainPlan};
ghost use Rattle.domain_world.specs.Claims.AcceptedOpenings.{KeptAreLast, MembersOpenInOrder, OpeningsAreMade};
ghost use Rattle.domain_world.specs.Claims.ChannelKinds.{KindsDecide};
ghost use Rattle.domain_world.specs.Claims.Hashes.{HashesFollowSets};
ghost use Rattle.world_moves.specs.Unforwarded.{IsJudgedAlone, RunsAlone};
ghost use Rattle.domain_world.specs.Claims.LeftOut.{MembersLeaveNothingOut};
ghost use Rattle.domain_world.specs.Claims.NamedLinks.{LinksReachTheNamed};
ghost use Rattle.domain_world.specs.Claims.NeverApart.{MembersKeepWhatTheyHold, MembersTryTheirSecrets, NeverApartByHappenings};
ghost use Rattle.domain_world.specs.Claims.OrderedSteps.{MembersStepInOrder};
ghost use Rattle.domain_world.specs.Headline.{Proved};
ghost use Rattle.domain_world.specs.Past.{past};
ghost use Rattle.domain_world.specs.Schedules.{OfSchedules};
ghost use Rattle.domain_world.specs.Unforwarded.{BooksAlone, CarriesOver};

/// What is written down of a member's step for bytes leaves out no CHALLENGE that answers a bind (MS-NLMP 3.2.5.1.1),
/// and no AUTHENTICATE for which a logon then waits (MS-NLMP 3.2.5.1.2). Where nothing is bound on an accepted link,
/// the CHALLENGE is written down that goes out in the bind_ack. Where none is, a bind_nak goes out, or the link is
/// closed. Where a CHALLENGE had been sent, the message is written down whose logon the member then keeps. Where none
/// is, the link is closed, or the member tells that as many logons wait as may. What a unit draws is the challenges of
/// its CHALLENGEs. What the step draws is those of its units, and one more at most, where it dials.
#[tactic(auto, using(crate::proofs::Challenges::LeftOutLaws::members_leave))]
pub fn members_leave_nothing_out()
    ensures { MembersLeaveNothingOut }
{}

/// In a world a link that a member dials to the address of its plan is accepted by the controller with whose number the
/// member's channels are named, so that what `channels_are_named_alike` says of one step holds of the two ends of that
/// link.
#[tactic(auto, using(crate::proofs::Calls::NamedLinkLaws::links_reach))]
pub fn links_reach_the_named()
    ensures { LinksReachTheNamed }
{}

/// In every schedule a member that begins with secrets of 16 bytes has kept what it holds, but for which of them is
/// tried, at every state between two moves. So where it begins anew, it has the same secrets.
#[tactic(auto, using(crate::proofs::Apart::KeptTextLaws::members_keep))]
pub fn members_keep_what_they_hold()
    ensures { OfSchedules (λ plan moves. MembersKeepWhatTheyHold (past plan moves)) }
{}

/// In every run of a plain plan each member opens its channel under the secret that it tries, and its call that
/// sets a secret sets its next one.
#[tactic(auto, using(crate::proofs::Apart::TriedLaws::members_try))]
pub fn members_try_their_secrets()
    ensures { (plan : Plan) (moves : List Move) → IsPlainPlan plan →
        MembersTryTheirSecrets (past plan moves) }
{}

/// In every run of a plain plan the hash of each account of a controller is the one that a NetrServerPasswordSet
/// set last which passed there (MS-NRPC 3.5.4.4.6), or that of the plan. A call sets what its bytes show under the key
/// of its channel, for the machine's account that it names.
#[tactic(auto, using(crate::proofs::Judgements::HashLaws::hashes_follow))]
pub fn hashes_follow_sets()
    ensures { (plan : Plan) (moves : List Move) → IsPlainPlan plan →
        HashesFollowSets (past plan moves) }
{}

/// The controller of a member has its computer's account at every state of a run of a plain plan that hands nothing
/// on. Where a run came to happenings for the two, each of which might happen, as a secret that is
/// taken is one that the member holds, they are not apart.
#[tactic(auto, using(crate::proofs::Apart::HappeningLaws::never_apart_by))]
pub fn happenings_leave_no_two_apart()
    ensures { NeverApartByHappenings }
{}

/// In every run of a plain plan what a controller keeps for a computer is what it accepted last for it, among
/// all that were accepted.
pub fn kept_channels_are_last()
    ensures { (plan : Plan) (moves : List Move) → IsPlainPlan plan →
        KeptAreLast (past plan moves) }
{}

/// Where channels have the types that their openings named, and each opening names the type of who sent it (MS-NRPC
/// 2.2.1.3.13), each channel that a controller keeps has the type of who opened it. A call that came from another
/// controller is then handed on no further, without a clash, where what passes was made as a call, on a channel that
/// its end had opened.
#[tactic(auto, using(crate::proofs::Judgements::Openings::KindDecideLaws::kinds_decide))]
pub fn kinds_decide_who_is_asked()
    ensures { KindsDecide }
{}

/// In every schedule without a clash each opening that was accepted, and came in a unit of the bag, was made in one,
/// for its channel.
#[tactic(auto, using(crate::proofs::Apart::AcceptedLaws::openings_made))]
pub fn openings_are_made()
    ensures { OfSchedules (λ plan moves. OpeningsAreMade (past plan moves)) }
{}

/// In every schedule without a clash channels are accepted in the order in which a member opens them whose name no
/// other member has. A channel that was replaced has no call later; so where a controller keeps one, and a call was
/// made on it, it is of the opening that the member holds, if one of that was accepted.
pub fn members_open_in_order()
    ensures { OfSchedules (λ plan moves. MembersOpenInOrder (past plan moves)) }
{}

/// A step of a member keeps the order in which channels are accepted, and the calls on them: where no whole unit comes
/// on the link of its turn, and where one does, with the mark that is written down of it. A channel that opens is to be
/// one that was accepted, and a call of another member one of another computer.
#[tactic(auto, using(crate::proofs::Apart::StepOrderLaws::step_in_order))]
pub fn members_step_in_order()
    ensures { MembersStepInOrder }
{}

/// A run of a plain plan in which no call comes for a trusted domain and challenges are left at the end is that of the
/// plan whose controllers aren't to hand logons on, but for what controllers keep of those that they could ask.
#[tactic(auto, using(crate::proofs::Unforwarded::ErasedLaws::runs_alone))]
pub fn what_is_not_handed_on_runs_alone()
    ensures { RunsAlone }
{}

/// What is written down of a run of a plain plan in which no call comes for a trusted domain and challenges are left at
/// the end is what is written down of the run of the plan whose controllers aren't to hand logons on.
#[tactic(auto, using(crate::proofs::Unforwarded::ErasedBookLaws::books_alone))]
pub fn what_is_not_handed_on_is_written_alike()
    ensures { BooksAlone }
{}

/// A run of a plan that hands nothing on is one in which each call is judged by the controller that hears it: whatever
/// is proved of runs of the second kind is proved of runs of the first.
pub fn what_asks_nobody_is_judged_alone()
    ensures { (plan : Plan) (moves : List Move) → HandsNothingOn plan → IsJudgedAlone plan moves }
{}

/// What is proved of runs in which each call is judged by the controller that hears it holds of a run in which nothing
/// seals, no call comes for a trusted domain and challenges are left at the end, where it holds of the run of the plan
/// whose controllers aren't to hand logons on.
pub fn what_is_proved_alone_is_carried_over()
    ensures { CarriesOver }
{}

/// All that is proved of runs holds of the run of every list of moves from any plan. Each field but `marked` is of
/// plain plans. What most say is of runs in which each call is judged by the controller that hears it:
/// the plan hands nothing on, or no call comes for a trusted domain and challenges are left at the end.
pub fn claims_hold_of_runs()
    ensures { (plan : Plan) (moves : List Move) → Proved plan moves }
{}
