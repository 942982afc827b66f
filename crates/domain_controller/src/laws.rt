//! Laws of the steps of a controller, over their definitions. Each function does nothing, and its clauses are the laws.

ghost use Rattle.domain_controller.specs.Keeping.{HashesAreSet, KeepsSecrets};
ghost use Rattle.domain_controller.specs.Laws.{ClosesNothing, AnswersUnits, KeepsOthers, KeptHaveKinds, CountsByVerdict};
ghost use Rattle.domain_controller.specs.ReadBack.{RepliesAreReadBack};
ghost use Rattle.domain_controller.specs.SealJudging.{JudgesByLink, SeedsMoveByPassing};
ghost use Rattle.domain_controller.specs.SealLaws.{BadAuthenticationByRules, NoChannelByLink, PlainControllersStay};
ghost use Rattle.domain_controller.specs.SealNumbers.{SpentClosesLinks};
ghost use Rattle.domain_controller.specs.SealReplays.{SealedReplaysBySum};
ghost use Rattle.domain_controller.specs.SealReplies.{RepliesWhereItStands, SealsBySent};
ghost use Rattle.domain_controller.specs.Sessions.{HashesStayUnset, SessionsFollowCalls};
ghost use Rattle.domain_controller.specs.TrustLaws.{AnswersOnce, AnswersOpenLinks, ClosesNone, ForwardsByTrust, LinksAreApart, OneTurnIsOut, StepsAlone};
ghost use Rattle.domain_controller.specs.TrustActions.{ActsInOrder};
ghost use Rattle.domain_controller.specs.TrustHere.{AnswersHere, TellsOfNoTrust};
ghost use Rattle.domain_controller.specs.TrustOrder.{EachIsAnswered, StaysInOrder};
ghost use Rattle.domain_controller.specs.TrustWhole.{TrustsSendWhole, WhatFitsIsWhole};
ghost use Rattle.domain_controller.specs.Whole.{SendsAreWhole};

/// A step of a controller that asks nobody, for a link that was closed or for a dial's answer, has no actions.
#[tactic(auto, using(crate::proofs::QuietLaws::closes_nothing))]
pub fn what_is_closed_closes_nothing()
    ensures { ClosesNothing }
{}

/// What bytes on a link make at a controller that asks nobody is done on that link, and each send is a bind_ack, a
/// bind_nak, a fault or a response to a unit that was read on it, with its call number and context. Of one that asks
/// others `actions_stand_in_order` says it.
#[tactic(auto, using(crate::proofs::SendLaws::answers_units))]
pub fn each_send_answers_a_unit()
    ensures { AnswersUnits }
{}

/// Each send of a controller that asks nobody is the bytes of one whole unit, in one fragment or more, and has at most
/// 65,536, whatever comes, where the controller's table and name and the limits of its links have their ranges, the
/// moment has 64 bits, and challenges have 8 bytes. Each unit leaves them so.
#[tactic(auto, using(crate::proofs::WholeLaws::sends_are_whole))]
pub fn what_is_sent_is_whole()
    ensures { SendsAreWhole }
{}

/// The frames of a reply are heard as one unit. The stub of a reply to a call that passed, or that opened a channel, is
/// read as that reply.
#[tactic(auto, using(crate::proofs::ReadBackLaws::replies_are_read_back))]
pub fn replies_are_read_as_made()
    ensures { RepliesAreReadBack }
{}

/// A step leaves the challenges and the channel of every computer that no call answered in it names, also at a
/// controller that asks others.
#[tactic(auto, using(crate::proofs::OtherLaws::keeps_others))]
pub fn other_channels_stay()
    ensures { KeepsOthers }
{}

/// Each channel that a controller keeps has a type: at first it keeps none, and behind each step each has one. What an
/// accepted opening leaves has the type of its call (`kept_channels_have_kinds` of `controller_calls`). The channels of
/// a controller that asks others have types, too.
#[tactic(auto, using(crate::proofs::ChannelKindLaws::kept_have_kinds))]
pub fn kept_channels_have_kinds()
    ensures { KeptHaveKinds }
{}

/// Of the accounts a step changes counts of bad passwords and hashes alone, and nothing where it isn't taken. A call on
/// a channel whose authenticator doesn't pass leaves them. Where it passes, a logon is judged by the accounts as they
/// stand, and leaves what the judgement does; a change of a secret leaves the hash that it shows. A controller that
/// asks others leaves the accounts so too, also where it hands a logon on.
#[tactic(auto, using(crate::proofs::CountLaws::counts_by_verdict))]
pub fn counts_change_by_verdicts()
    ensures { CountsByVerdict }
{}

/// A controller has no sessions at first. A step leaves those before it, to which each interactive logon that passed
/// with status 0 added one, and from which each logoff that did took the first one of its computer, user and logon, in
/// the order of the calls. A step that is taken tells once of each call on a channel that it heard. Both hold of a
/// controller that asks others, too: what another controller's answer came to is told beside that.
#[tactic(auto, using(crate::proofs::SessionLaws::sessions_follow))]
pub fn sessions_follow_the_calls()
    ensures { SessionsFollowCalls }
{}

/// A step in which no NetrServerPasswordSet is heard changes counts of bad passwords alone, also at a controller that
/// asks others.
#[tactic(auto, using(crate::proofs::UnsetLaws::hashes_stay))]
pub fn hashes_stay_where_none_is_set()
    ensures { HashesStayUnset }
{}

/// The text that a step keeps last is that of all accounts whose hash was set, as the step leaves them. Where it keeps
/// none, that text is as it was. Both hold of a controller that asks others, too.
#[tactic(auto, using(crate::proofs::KeepingLaws::keeps_secrets))]
pub fn what_is_kept_stands()
    ensures { KeepsSecrets }
{}

/// A step sets hashes of machine and trust accounts alone, also at a controller that asks others: those of users stay.
/// So the text that is kept, applied to the accounts as they were read, gives the hashes that stand after any steps,
/// where no name is there twice.
#[tactic(auto, using(crate::proofs::SettingLaws::hashes_are_set))]
pub fn what_is_kept_is_read_again()
    ensures { HashesAreSet }
{}

/// A controller that can ask no controller of a trusted domain steps as one that trusts none: `trust_step_of` is
/// `step_of`, and it can ask none then. `Controller::new` makes one, and over a table without trusted domains
/// `Controller::with_trusts` does too.
#[tactic(auto, using(crate::proofs::TrustAloneLaws::steps_alone))]
pub fn what_asks_nobody_steps_alone()
    ensures { StepsAlone }
{}

/// While no logon waits for another controller's answer, a step of a controller that trusts other domains and can't
/// seal is that of one which trusts none, unless it tells of a call for a trusted domain, or draws more challenges
/// than are left. It tells of one where a logon is handed on, and where it passes with STATUS_NO_LOGON_SERVERS, since
/// nobody can be asked for it. At first no logon waits so, and a step that is the other's leaves what is kept of those
/// that are asked.
#[tactic(auto, using(crate::proofs::TrustHereLaws::answers_here))]
pub fn what_is_not_handed_on_is_answered_here()
    ensures { AnswersHere }
{}

/// A controller that trusts no domain tells of no call for a trusted one: it hands nothing on, and tells of none that
/// it passed with STATUS_NO_LOGON_SERVERS.
#[tactic(auto, using(crate::proofs::TrustNoneLaws::alone_tells_none))]
pub fn who_asks_nobody_tells_of_no_trust()
    ensures { TellsOfNoTrust }
{}

/// A step of a controller that asks others for a link that was closed, or for a dial's answer, closes nothing.
#[tactic(auto, using(crate::proofs::TrustSettleLaws::closes_none))]
pub fn what_is_closed_closes_none()
    ensures { ClosesNone }
{}

/// A call on a secure channel is handed on to the controller of a trusted domain exactly where its authenticator is the
/// channel's next one, it asks for a network logon of that domain at a level that is served, on a channel of type 2 or
/// 6, and there is room at that trust and in one call: then nothing is sent, the accounts stay, and the logon waits
/// there, with the line, the level, the key and the credential of its answer. Where there is no room it is told as
/// passed, and answered, with STATUS_NO_LOGON_SERVERS. Any other call comes to what it comes to where nobody is asked;
/// where its authenticator isn't the channel's next one, it is told whether its computer has a channel. Each call on a
/// channel that is heard on an accepted link is answered in this way, and the link stays open.
#[tactic(auto, using(crate::proofs::HandOnLaws::forwards_by_trust))]
pub fn a_logon_goes_by_its_domain()
    ensures { ForwardsByTrust }
{}

/// A step answers at most one of the logons that were asked of another controller: that of the turn which ended in it.
#[tactic(auto, using(crate::proofs::OnceLaws::answers_once))]
pub fn one_logon_is_answered()
    ensures { AnswersOnce }
{}

/// One turn is out at a time, over all trusts: exactly while its dial waits or its link is open. This holds at first,
/// and through each step.
#[tactic(auto, using(crate::proofs::TurnOutLaws::one_turn_out))]
pub fn one_turn_is_out()
    ensures { OneTurnIsOut }
{}

/// Each link has a number of its own: no two accepted links have one, nor has one of them that of the link of the turn.
/// This holds at first, and through each step.
#[tactic(auto, using(crate::proofs::ApartLaws::links_apart))]
pub fn links_have_their_own_numbers()
    ensures { LinksAreApart }
{}

/// A logon that was asked of another controller is answered on the link on which it came, while that is open, and else
/// nowhere: this holds at first, and through each step. Where a link opens no such logon is answered on it, also where
/// the number was another link's: a reply never goes to a later link of that number.
#[tactic(auto, using(crate::proofs::LineLaws::answers_open))]
pub fn replies_go_to_open_links()
    ensures { AnswersOpenLinks }
{}

/// The logons that a controller asked the controller of a trusted domain for are, in order, those that wait at the end
/// that asks it, and no two have one place; a turn that is out is for the first of them, and while no turn is out,
/// nobody waits. All of this holds at first, and through each step.
#[tactic(auto, using(crate::proofs::TrustOrderLaws::stays_in_order))]
pub fn what_is_asked_waits()
    ensures { StaysInOrder }
{}

/// Each logon that is told to be handed on is among those that were asked until a step tells that it is answered, and
/// no longer: in each step as many more are among them as were handed on, less those that were answered.
#[tactic(auto, using(crate::proofs::TrustCountLaws::each_is_answered))]
pub fn each_logon_is_answered()
    ensures { EachIsAnswered }
{}

/// The order of a step's actions: where bytes come on the link of a turn, requests there, the close of that link, how
/// the logon of the turn is told to be answered, and its reply; where they come on an accepted link, what answers the
/// units that were read there; last the dial for the next turn. A logon that is answered is one that was asked of the
/// trust whose turn it was, and its reply is made of what was kept with it. A link that opens is closed exactly where
/// 256 others are open.
#[tactic(auto, using(crate::proofs::TrustActionLaws::acts_in_order))]
pub fn actions_stand_in_order()
    ensures { ActsInOrder }
{}

/// The call that asks another controller for a logon whose texts and responses have at most 57,000 bytes is heard
/// whole: its request is one unit of at most 65,536 bytes, in fragments of whatever size is agreed on.
#[tactic(auto, using(crate::proofs::FitLaws::what_fits))]
pub fn what_fits_is_heard_whole()
    ensures { WhatFitsIsWhole }
{}

/// At a controller that asks others, too, each send is the bytes of one whole unit, in one fragment or more, and has at
/// most 65,536, but for the reply to a logon that another controller granted, which is whole where the texts that were
/// granted have at most 64 units. That holds where what the controller keeps has its ranges, the moment has 64 bits,
/// and challenges have 8 bytes. A step leaves it so, where the calls that it hears were read of bytes.
#[tactic(auto, using(crate::proofs::TrustWholeLaws::trusts_send_whole))]
pub fn what_trusts_send_is_whole()
    ensures { TrustsSendWhole }
{}

/// A controller that can't seal steps as one of which nothing is ever sealed, and can't seal afterwards.
#[tactic(auto, using(crate::proofs::PlainLaws::plain_controllers_stay))]
pub fn plain_controllers_stay_so()
    ensures { PlainControllersStay }
{}

/// A call on a secure channel finds none where its computer's channel seals and the link isn't that channel's; and on a
/// sealed link where it names another computer, or where that link's channel was replaced. It is told so, whatever it
/// asks, and no channel moves.
#[tactic(auto, using(crate::proofs::SealRuleLaws::no_channel))]
pub fn calls_find_their_channel()
    ensures { NoChannelByLink }
{}

/// A request on a sealed link closes it for BadAuthentication exactly where it has no trailer of Netlogon at the level
/// at which stubs are sealed with a value of 32 bytes, where the link's channel was replaced, where its operation opens
/// a channel, or where the channel's end refuses it.
#[tactic(auto, using(crate::proofs::SealRuleLaws::by_rules))]
pub fn sealed_links_close_by_rules()
    ensures { BadAuthenticationByRules }
{}

/// Whatever bytes come from anybody at a controller that can seal, a call on a secure channel passes, or is handed on,
/// exactly where its authenticator is the next one of the channel of the computer that it names, and it came on a link
/// of that channel: on one that isn't sealed where the channel doesn't seal either, else on one that was sealed by that
/// channel as it stands, where the channel's end opened the unit. It is told `Barred` exactly where all of that holds
/// but that its authenticator isn't the next one, and else `NoChannel`, once. Of other units nothing is told so. A step
/// tells of the units that its bytes complete on an accepted link, in order, each by what is kept then.
#[tactic(auto, using(crate::proofs::SealToldLaws::judges_by_link))]
pub fn calls_pass_on_their_own_links()
    ensures { JudgesByLink }
{}

/// A call that passes at a controller that can seal moves the channel of its computer to the next seed. No other unit
/// on an accepted link changes a channel that is kept, but one that opens another for its computer; one that asks to
/// and is refused changes none. Of events that bring no such unit nothing is said here.
#[tactic(auto, using(crate::proofs::SealToldLaws::seeds_move))]
pub fn seeds_move_where_calls_pass()
    ensures { SeedsMoveByPassing }
{}

/// Whatever happens to a controller that can seal, and whatever bytes come: where an authenticator passed on the
/// channel of a computer, and comes again in a call on a link of that channel, it passes again exactly where the
/// timestamps that passed there since, its own first, each plus one, sum to a multiple of 2^32. Between both calls no
/// unit opened another channel for the computer. On a sealed link the channel's end opened the unit.
#[tactic(auto, using(crate::proofs::SealReplayLaws::replays_by_sum))]
pub fn replays_pass_by_the_sum()
    ensures { SealedReplaysBySum }
{}

/// A logon from a sealed link that was asked of another controller waits without a line. The answer of one that waits
/// so is told, and nothing is sent in the clear. Where its link has closed or its channel was replaced since, nothing
/// else is done. Where its link is open, its channel stands and a number is left its reply goes out, sealed.
#[tactic(auto, using(crate::proofs::SealReplyLaws::replies_where_it_stands))]
pub fn sealed_logons_are_answered_where_they_stand()
    ensures { RepliesWhereItStands }
{}

/// The bytes of a sealed reply don't depend on how many units the channel's end has received.
#[tactic(auto, using(crate::proofs::SealReplyLaws::seals_by_sent))]
pub fn replies_are_sealed_by_the_number_sent()
    ensures { SealsBySent }
{}

/// Where a channel's end has used up its numbers, its links are closed for BadAuthentication, and nothing is sent: at a
/// request where as many were opened as there are numbers; at a reply that has more frames than numbers are left, also
/// one to a logon that another controller answered. Where numbers are left for its frames a reply goes out.
#[tactic(auto, using(crate::proofs::SealNumberLaws::spent_closes_links))]
pub fn used_up_numbers_close_links()
    ensures { SpentClosesLinks }
{}
