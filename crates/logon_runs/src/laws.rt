//! Laws of the moves of a world, where little waits in it. Each function does nothing, and its
//! clause is the law.

ghost use Rattle.logon_runs.specs.AnyAnswer.AnyPhases.{AnyPhasesGoOn};
ghost use Rattle.logon_runs.specs.AnyAnswer.AnyStarts.{AnyLogonsStart};
ghost use Rattle.logon_runs.specs.AnyAnswer.ControllerAnswers.{ControllersAnswer};
ghost use Rattle.logon_runs.specs.OtherKeys.GrantRests.{GrantsRest};
ghost use Rattle.logon_runs.specs.AnyAnswer.SetAnswers.{ControllersAnswerSets};
ghost use Rattle.logon_runs.specs.AnyAnswer.AnyLogons.{LogonsRest};
ghost use Rattle.logon_runs.specs.Scenes.AskScenes.{LogonsAreSeen};
ghost use Rattle.logon_runs.specs.FirstLogon.ExampleLogon.{AnnLogsOn};
ghost use Rattle.logon_runs.specs.Failing.FailingSteps.{FailingsStep};
ghost use Rattle.logon_runs.specs.Failing.Failings.{FailingsAreSeen};
ghost use Rattle.logon_runs.specs.FirstLogon.FirstLogonRuns.{FirstLogonsRun};
ghost use Rattle.logon_runs.specs.FirstLogon.FirstRuns.{FirstTurnsRun};
ghost use Rattle.logon_runs.specs.FirstLogon.FirstTraces.{FirstLogonsAreSeen, FirstTurnsAreSeen};
ghost use Rattle.logon_runs.specs.FirstLogon.FirstWorlds.{FirstWorldsRun};
ghost use Rattle.logon_runs.specs.Grants.{GrantsAreTold};
ghost use Rattle.logon_runs.specs.GrantsTold.{GrantsTell};
ghost use Rattle.logon_runs.specs.OtherKeys.Differing.{KeysMayDiffer};
ghost use Rattle.logon_runs.specs.OtherKeys.LetIn.{GrantsGoOn};
ghost use Rattle.logon_runs.specs.Scenes.HopScenes.{HopTurnsAreSeen};
ghost use Rattle.logon_runs.specs.Scenes.LinkScenes.{MeetingsAreSeen};
ghost use Rattle.logon_runs.specs.Scenes.Others.{OthersAreLeft};
ghost use Rattle.logon_runs.specs.Phases.{PhasesGoOn};
ghost use Rattle.logon_runs.specs.Rests.{LogonsComeToRest, RestsStay};
ghost use Rattle.logon_runs.specs.Runs.{TurnsRun};
ghost use Rattle.logon_runs.specs.Scenes.Scene.{ScenesGoOn};
ghost use Rattle.logon_runs.specs.SecretRests.{SetsLeaveOthers};
ghost use Rattle.logon_runs.specs.Scenes.SetScenes.{SetsAreSeen};
ghost use Rattle.logon_runs.specs.Scenes.Starts.{StartsAreSeen};
ghost use Rattle.logon_runs.specs.Scenes.Staying.{EndsStay};
ghost use Rattle.logon_runs.specs.Scenes.Traffic.{TrafficGoesOn};
ghost use Rattle.logon_runs.specs.Scenes.TurnScenes.{TurnsAreSeen};
ghost use Rattle.logon_runs.specs.Failing.TurnedAway.{LogonsAreTurnedAway};
ghost use Rattle.logon_runs.specs.Scenes.Turnings.{ScenesTurn};
ghost use Rattle.logon_runs.specs.Scenes.TwoLinks.{TurnsHaveLinks};
ghost use Rattle.logon_runs.specs.Scenes.WaitingUnits.{WaitingComes};

/// The oldest unit that waits comes at the end that hears it on its own link, and those behind it
/// wait on. What an end makes of what it hears changes that end alone, until its actions are done.
#[tactic(auto, using(crate::proofs::Scenes::WaitingLaws::waiting_comes))]
pub fn what_waits_comes()
    ensures { WaitingComes }
{}

/// There are as many ends after each move as before it, with the same plans but for members' secrets, so an address is
/// the same end's in each state of a run.
#[tactic(auto, using(crate::proofs::Scenes::StayingLaws::ends_stay))]
pub fn ends_stay()
    ensures { EndsStay }
{}

/// What becomes of what is under way in a world, and of its ends, follows from the steps of the ends that hear,
/// whatever the others are: where a unit comes, a link is closed, a dial is answered or fails, and where time passes.
#[tactic(auto, using(crate::proofs::Scenes::TrafficLaws::traffic_goes_on))]
pub fn traffic_goes_on()
    ensures { TrafficGoesOn }
{}

/// What comes of the oldest unit is seen of the ends, the links and what waits alone, where the end
/// that hears it closes nothing.
#[tactic(auto, using(crate::proofs::Scenes::SceneLaws::scenes_go_on))]
pub fn scenes_go_on()
    ensures { ScenesGoOn }
{}

/// What comes where a link is closed, where a dial is answered, and where time passes, is seen of the ends, the links
/// and what waits alone.
#[tactic(auto, using(crate::proofs::Scenes::TurningSceneLaws::scenes_turn))]
pub fn scenes_turn()
    ensures { ScenesTurn }
{}

/// A client that starts where no link is open dials its member. A move that finds no dial or no
/// unit changes nothing that is seen.
#[tactic(auto, using(crate::proofs::Scenes::StartLaws::starts_are_seen))]
pub fn starts_are_seen()
    ensures { StartsAreSeen }
{}

/// A turn of a member with its controller, unit by unit, whichever call it makes: its dial, its
/// bind and the answer, its call and the reply, and the next turn of a channel that opens.
#[tactic(auto, using(crate::proofs::Scenes::TurnSceneLaws::turns_are_seen))]
pub fn turns_are_seen()
    ensures { TurnsAreSeen }
{}

/// A turn that sets a member's next secret, unit by unit: from the reply that opens the channel under the current one,
/// to the dial of the logon's own turn. Where the channel opens under the next one, no such turn is needed.
#[tactic(auto, using(crate::proofs::Scenes::SetSceneLaws::sets_are_seen))]
pub fn sets_are_seen()
    ensures { SetsAreSeen }
{}

/// A client and its member on their link: from the dial to the AUTHENTICATE with WhoAmI behind it,
/// and from the answer of WhoAmI to the link's end.
#[tactic(auto, using(crate::proofs::Scenes::LinkSceneLaws::meetings_are_seen))]
pub fn meetings_are_seen()
    ensures { MeetingsAreSeen }
{}

/// A logon goes over into the member's turns, while WhoAmI is held, and out of them where it is
/// granted.
#[tactic(auto, using(crate::proofs::Scenes::AskSceneLaws::logons_are_seen))]
pub fn logons_are_seen()
    ensures { LogonsAreSeen }
{}

/// The link of a turn is the next one, beside its client's: open at both sides once its dial is
/// answered. The client's link stays as it is, also once the turn's is closed.
#[tactic(auto, using(crate::proofs::Scenes::TwoLinkLaws::turns_have_links))]
pub fn turns_have_links()
    ensures { TurnsHaveLinks }
{}

/// The turn of a member whose channel stands, from the AUTHENTICATE of its client to the answer of
/// WhoAmI. The account's count of bad passwords is 0 afterwards.
#[tactic(auto, using(crate::proofs::RunLaws::turns_run))]
pub fn turns_run()
    ensures { TurnsRun }
{}

/// What a controller grants by accounts that are in their ranges can be told, and the member finds
/// the domain's name, a backslash and the account's name in it.
#[tactic(auto, using(crate::proofs::GrantLaws::grants_are_told))]
pub fn grants_are_told()
    ensures { GrantsAreTold }
{}

/// What is seen at each move of the three turns of a member that has no channel yet.
#[tactic(auto, using(crate::proofs::FirstLogon::FirstTraceLaws::first_turns_are_seen))]
pub fn first_turns_are_seen()
    ensures { FirstTurnsAreSeen }
{}

/// The three turns of a member that has no channel yet, from the AUTHENTICATE of its client to the
/// answer of WhoAmI. The channel stands afterwards, and the account's count of bad passwords is 0.
#[tactic(auto, using(crate::proofs::FirstLogon::FirstRunLaws::first_turns_run))]
pub fn first_turns_run()
    ensures { FirstTurnsRun }
{}

/// What is seen at each move of a first logon, from the client's start to the answer of WhoAmI.
#[tactic(auto, using(crate::proofs::FirstLogon::FirstLogonTraceLaws::first_logons_are_seen))]
pub fn first_logons_are_seen()
    ensures { FirstLogonsAreSeen }
{}

/// A whole first logon, by a channel that is opened for it, from the client's start to its end: the
/// client is in, with its own key and the name that the member found.
#[tactic(auto, using(crate::proofs::FirstLogon::FirstLogonRunLaws::first_logons_run))]
pub fn first_logons_run()
    ensures { FirstLogonsRun }
{}

/// The first logon in a world is granted by the values of its plan: after these moves the client is
/// in, no link is open, and the account's count of bad passwords is 0.
#[tactic(auto, using(crate::proofs::FirstLogon::FirstWorldLaws::first_worlds_run))]
pub fn first_worlds_run()
    ensures { FirstWorldsRun }
{}

/// There is such a world: in one of a controller, a member and a client, the client's logon is
/// granted, and it is in after 24 moves.
#[tactic(auto, using(crate::proofs::FirstLogon::ExampleLogonLaws::an_example_logs_on))]
pub fn an_example_logs_on()
    ensures { AnnLogsOn }
{}

/// A logon that is granted goes on at each move, in whichever order the moves come and whenever time
/// passes: from one phase to another, and from the last one to its end, where the client is in. Where its member keeps
/// a next secret, and the channel opens under the current one, that is set first; the member keeps it alone then.
#[tactic(auto, using(crate::proofs::Phases::PhaseLaws::phases_go_on))]
pub fn phases_go_on()
    ensures { PhasesGoOn }
{}

/// The moves of one logon change its client, its member and its controller alone: all other ends
/// are as they were, and no other link opens.
#[tactic(auto, using(crate::proofs::Scenes::OtherLaws::others_are_left))]
pub fn others_are_left()
    ensures { OthersAreLeft }
{}

/// The first world rests: no link is open, and nothing waits. A logon at a member that has its own
/// computer starts at rest and leads to rest, granted or not. A channel that such a member has is in
/// step with its controller's then, and the member's account has the secret that the member tries.
#[tactic(auto, using(crate::proofs::RestLaws::logons_come_to_rest))]
pub fn logons_come_to_rest()
    ensures { LogonsComeToRest }
{}

/// The steps of a member and a client where a logon fails: its dial or its turn fails, or the
/// controller refuses it. WhoAmI is answered with a fault, and the client then has its outcome.
#[tactic(auto, using(crate::proofs::Failing::FailingStepLaws::failings_step))]
pub fn failings_step()
    ensures { FailingsStep }
{}

/// A logon that fails, as it is seen in the world: a dial that reaches nobody, a turn that is
/// dropped or refused, and the fault upon which the client closes its link.
#[tactic(auto, using(crate::proofs::Failing::FailingLaws::failings_are_seen))]
pub fn failings_are_seen()
    ensures { FailingsAreSeen }
{}

/// A logon that a controller refuses which knows the computer, or whose member reaches no
/// controller, goes on at each move to its end: the client has its outcome, and no link is open.
#[tactic(auto, using(crate::proofs::Failing::TurnedAwayLaws::logons_are_turned_away))]
pub fn logons_are_turned_away()
    ensures { LogonsAreTurnedAway }
{}

/// Where a logon is granted, the member tells of the client's own link that he is in, with the
/// domain, the account's name and the client's own key.
#[tactic(auto, using(crate::proofs::GrantsToldLaws::grants_tell))]
pub fn grants_tell()
    ensures { GrantsTell }
{}

/// A world that rests does so still after a dial would be answered, a unit would come, or time
/// passes.
#[tactic(auto, using(crate::proofs::RestStayLaws::rests_stay))]
pub fn rests_stay()
    ensures { RestsStay }
{}

/// A request at a member and a reply at its client, whatever sessions both have: the member answers or closes the
/// link, and the client has an outcome or asks for its echo.
#[tactic(auto, using(crate::proofs::OtherKeys::DifferingLaws::keys_may_differ))]
pub fn keys_may_differ()
    ensures { KeysMayDiffer }
{}

/// A logon that a member takes as granted, with whatever key, goes on at each move to its end: the client has its
/// outcome, and no link is open. No challenge is drawn.
#[tactic(auto, using(crate::proofs::OtherKeys::LetInLaws::grants_go_on))]
pub fn grants_go_on()
    ensures { GrantsGoOn }
{}

/// A controller answers each call of a member's turn by one reply, whatever it keeps of that
/// computer, and keeps the channels of the others.
#[tactic(auto, using(crate::proofs::AnyAnswer::ControllerAnswerLaws::controllers_answer))]
pub fn controllers_answer()
    ensures { ControllersAnswer }
{}

/// A controller answers a call that sets a secret by one reply, whatever it keeps of that computer. It sets the hash of
/// the channel's own account or none, and keeps the channels of the others.
#[tactic(auto, using(crate::proofs::AnyAnswer::SetAnswerLaws::controllers_answer_sets))]
pub fn controllers_answer_sets()
    ensures { ControllersAnswerSets }
{}

/// A logon that a member takes as granted, with whatever key, comes to rest: once nothing waits its client has an
/// outcome, all other ends are as they were, and no challenge was drawn.
#[tactic(auto, using(crate::proofs::OtherKeys::GrantRestLaws::grants_rest))]
pub fn grants_rest()
    ensures { GrantsRest }
{}

/// A logon at any member goes on at each move, whatever its controller answers, to its end or to
/// where the member lets the client in. At its end the client has its outcome, and no link is open.
#[tactic(auto, using(crate::proofs::AnyAnswer::AnyPhaseLaws::any_phases_go_on))]
pub fn any_phases_go_on()
    ensures { AnyPhasesGoOn }
{}

/// A client that starts at rest is in a phase of its logon, at any member. Once the logon is over
/// the world rests again.
#[tactic(auto, using(crate::proofs::AnyAnswer::AnyBeginLaws::any_logons_start))]
pub fn any_logons_start()
    ensures { AnyLogonsStart }
{}

/// Whichever client starts at rest, in a plan with a member and a controller, and whatever these
/// make of it: once nothing waits the world rests, and the client has an outcome.
#[tactic(auto, using(crate::proofs::AnyAnswer::AnyLogonLaws::logons_rest))]
pub fn logons_rest()
    ensures { LogonsRest }
{}

/// A secret that is set leaves the accounts as they were by which a controller opens other computers' channels, those
/// of users, and which computers it knows.
#[tactic(auto, using(crate::proofs::SecretRestLaws::sets_leave_others))]
pub fn sets_leave_others()
    ensures { SetsLeaveOthers }
{}

/// The turns of a controller that hands a logon on, with the trusted domain's controller, are seen of a world move by
/// move: from the first dial to the answer that goes back, whatever the other controller answers.
#[tactic(auto, using(crate::proofs::Scenes::HopSceneLaws::hop_turns_are_seen))]
pub fn hop_turns_are_seen()
    ensures { HopTurnsAreSeen }
{}
