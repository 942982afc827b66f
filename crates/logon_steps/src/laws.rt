//! Laws of the units of a logon, over the machines of its ends. Each function does nothing, and its
//! clause is the law.

ghost use Rattle.logon_steps.specs.Answering.{CallsAreAnswered};
ghost use Rattle.logon_steps.specs.Answers.{AnswersAreAsked};
ghost use Rattle.logon_steps.specs.Asking.{LogonsAreAsked};
ghost use Rattle.logon_steps.specs.BesideTrusts.{AnswersBesideTrusts};
ghost use Rattle.logon_steps.specs.Calling.{CallsCanGo};
ghost use Rattle.logon_steps.specs.ClientSteps.{ClientsStep};
ghost use Rattle.logon_steps.specs.ControllerTurns.{ControllersStep};
ghost use Rattle.logon_steps.specs.Granting.{LogonsAreGranted};
ghost use Rattle.logon_steps.specs.HandedCalls.{HandedCallsGo, TrustsAreKnown};
ghost use Rattle.logon_steps.specs.HandedOn.{HandedTurnsStep, LogonsAreHandedOn};
ghost use Rattle.logon_steps.specs.Knowing.{ComputersAreKnown};
ghost use Rattle.logon_steps.specs.Meeting.{Meets};
ghost use Rattle.logon_steps.specs.MemberAnswers.{LogonsEnd};
ghost use Rattle.logon_steps.specs.MemberLinks.{LinksStep};
ghost use Rattle.logon_steps.specs.MemberTurns.{TurnsStep};
ghost use Rattle.logon_steps.specs.MemoCalls.{MemoCallsGo};
ghost use Rattle.logon_steps.specs.SetTurns.{ControllersSet, SecretsAreSet, SetTurnsStep, SetUnitsGo};
ghost use Rattle.logon_steps.specs.Telling.{LogonsAreShort};
ghost use Rattle.logon_steps.specs.Turning.{TurnsGoThrough};

/// A turn goes through, whichever call it makes: the controller answers the bind, and hears the
/// call once; the member's channel takes the answer to its bind, and the reply, once.
#[tactic(auto, using(crate::proofs::TurningLaws::turns_go_through))]
pub fn turns_go_through()
    ensures { TurnsGoThrough }
{}

/// A logon that waits on a channel while no other does has one turn after the other, each by what
/// the channel needs, until it is answered.
#[tactic(auto, using(crate::proofs::AskingLaws::logons_are_asked))]
pub fn logons_are_asked()
    ensures { LogonsAreAsked }
{}

/// A controller that has the computer's secret opens the channel and judges the logon, and both
/// ends stay in step.
#[tactic(auto, using(crate::proofs::AnsweringLaws::calls_are_answered))]
pub fn calls_are_answered()
    ensures { CallsAreAnswered }
{}

/// The steps of a member while one logon waits at it and its turn is out.
#[tactic(auto, using(crate::proofs::MemberTurnLaws::turns_step))]
pub fn turns_step()
    ensures { TurnsStep }
{}

/// The steps of a controller on the one link that is open there: of a computer that it knows, whose
/// secret it has, and that is in step.
#[tactic(auto, using(crate::proofs::ControllerTurnLaws::controllers_step))]
pub fn controllers_step()
    ensures { ControllersStep }
{}

/// A member answers the bind of any client that can log on, and the client answers its CHALLENGE.
#[tactic(auto, using(crate::proofs::MeetingLaws::meets))]
pub fn clients_and_members_meet()
    ensures { Meets }
{}

/// A client's call under its logon is heard once at its member, and the reply at the client, at
/// each level, where each fits into one unit.
#[tactic(auto, using(crate::proofs::MemoCallLaws::memo_calls_go))]
pub fn memo_calls_go()
    ensures { MemoCallsGo }
{}

/// A client's answer to the CHALLENGE goes out with its first call behind it, and its member asks
/// for the logon, with the names of the client's plan.
#[tactic(auto, using(crate::proofs::AnswersLaws::answers_are_asked))]
pub fn answers_are_asked()
    ensures { AnswersAreAsked }
{}

/// The steps of a member on the one link that it accepted, up to the logon that is asked.
#[tactic(auto, using(crate::proofs::MemberLinkLaws::links_step))]
pub fn links_step()
    ensures { LinksStep }
{}

/// A logon that is granted is told, the first call is answered then, and Echo is answered with the
/// same bytes.
#[tactic(auto, using(crate::proofs::MemberAnswerLaws::logons_end))]
pub fn logons_end()
    ensures { LogonsEnd }
{}

/// The steps of a client, from its start to its outcome.
#[tactic(auto, using(crate::proofs::ClientStepLaws::clients_step))]
pub fn clients_step()
    ensures { ClientsStep }
{}

/// The answer of a client whose hash is the stored one is granted where the account may log on, and
/// both ends have one key then. The account's count of bad passwords is 0 afterwards.
#[tactic(auto, using(crate::proofs::GrantingLaws::logons_are_granted))]
pub fn logons_are_granted()
    ensures { LogonsAreGranted }
{}

/// The calls of a member's turns and the replies of a controller can be written, joined and read,
/// and a hidden key is shown again, unless it travels as zeros.
#[tactic(auto, using(crate::proofs::CallingLaws::calls_can_go))]
pub fn calls_can_go()
    ensures { CallsCanGo }
{}

/// A controller that has an enabled workstation's account of a member's computer knows it, and
/// finds that account for its channel, also after it has judged logons.
#[tactic(auto, using(crate::proofs::KnowingLaws::computers_are_known))]
pub fn computers_are_known()
    ensures { ComputersAreKnown }
{}

/// What a member tells its controller of a client's answer fits into a call.
#[tactic(auto, using(crate::proofs::TellingLaws::logons_are_short))]
pub fn logons_are_short()
    ensures { LogonsAreShort }
{}

/// The units of a turn that sets a secret go through: the call is heard once and its reply is judged, whatever their
/// fragments.
#[tactic(auto, using(crate::proofs::SetTurnLaws::set_units_go))]
pub fn set_units_go()
    ensures { SetUnitsGo }
{}

/// On an open channel the next secret is set before a logon is asked, and the reply that takes it leaves the logon
/// waiting.
#[tactic(auto, using(crate::proofs::SetTurnLaws::secrets_are_set))]
pub fn secrets_are_set()
    ensures { SecretsAreSet }
{}

/// A member with two secrets, from the reply that opens the channel to the dial of the logon's own turn: the next
/// secret is set, or has become the current one, and the text of the one that is left is kept.
#[tactic(auto, using(crate::proofs::SetTurnLaws::set_turns_step))]
pub fn set_turns_step()
    ensures { SetTurnsStep }
{}

/// A controller that is in step with a member, and has its account, takes the secret that the member sets.
#[tactic(auto, using(crate::proofs::SetTurnLaws::controllers_set))]
pub fn controllers_set()
    ensures { ControllersSet }
{}

/// A controller that trusts other domains, and asks no other controller for a logon, answers on the one link that is
/// open there as one that trusts none, unless a logon comes for a trusted domain. What it keeps of those who ask stays.
#[tactic(auto, using(crate::proofs::BesideTrustsLaws::trusts_stay_beside))]
pub fn trusts_stay_beside()
    ensures { AnswersBesideTrusts }
{}

/// A logon that comes for a trusted domain is told to be handed on, and the domain's controller is dialled.
#[tactic(auto, using(crate::proofs::HandedOnLaws::logons_are_handed_on))]
pub fn logons_are_handed_on()
    ensures { LogonsAreHandedOn }
{}

/// The turns of a logon that was handed on, until its verdict goes back, or that there is none.
#[tactic(auto, using(crate::proofs::HandedOnLaws::handed_turns_step))]
pub fn handed_turns_step()
    ensures { HandedTurnsStep }
{}

/// What is said on behalf of a logon that is handed on can be written, joined and read.
#[tactic(auto, using(crate::proofs::HandedCallsLaws::handed_calls_go))]
pub fn handed_calls_go()
    ensures { HandedCallsGo }
{}

/// A controller that has a trust's account for the domain that asks knows who asks, and finds that account for its
/// channel, also after it has judged logons.
#[tactic(auto, using(crate::proofs::HandedCallsLaws::trusts_are_known))]
pub fn trusts_are_known()
    ensures { TrustsAreKnown }
{}
