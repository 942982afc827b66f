//! Laws of the steps of a client, over their definitions. Each function does nothing, and its clauses are the laws.

ghost use Rattle.logon_client.specs.Answers.{OffersAgreed, DrawsKeys, AnswersVerify, AnswersFit, KeysFound};
ghost use Rattle.logon_client.specs.Laws.{ClosesOnce, OutcomeStays};
ghost use Rattle.logon_client.specs.Losses.{LossesComeOfEvents};
ghost use Rattle.logon_client.specs.Sends.{SendsOnItsLink};
ghost use Rattle.logon_client.specs.SendsBytes.{ClientsSendBytes};

/// An outcome that comes while the link is open closes it, once, for its work done; one that comes otherwise closes
/// nothing, nor does another step. A client that has its outcome does nothing more, and keeps it.
pub fn an_outcome_closes_the_link()
    ensures closes { ClosesOnce }
    ensures stays { OutcomeStays }
{}

/// An offer that is answered has the flags of both sides, and they are enough. What is drawn for it are the client's
/// challenge, and a key exactly where keys are exchanged. The message verifies under the plan's hash, and whoever has
/// the session base key of its NT response finds the client's key in it. It fits into a unit, where the server's target
/// information has at most 4,096 bytes.
pub fn what_is_answered_verifies()
    ensures agreed { OffersAgreed }
    ensures drawn { DrawsKeys }
    ensures verifies { AnswersVerify }
    ensures keys { KeysFound }
    ensures fits { AnswersFit }
{}

/// A step brings that the dial failed only at the event that says so, while the dial waits; and that the link was
/// closed only at an event that shows that it is gone. A dial that was answered doesn't wait again.
pub fn a_loss_comes_of_its_event()
    ensures { LossesComeOfEvents }
{}

/// A client sends on its own link alone: the one that is open, or the one that its dial opens in that step.
#[tactic(auto, using(crate::proofs::SendLaws::sends_on_its_link))]
pub fn clients_send_on_their_link()
    ensures { SendsOnItsLink }
{}

/// What a client sends is bytes, and no more than an end sends at once, where what comes and what is drawn are bytes.
/// What it has at first is bytes, and a step leaves that so.
#[tactic(auto, using(crate::proofs::ByteLaws::clients_send_bytes))]
pub fn what_clients_send_is_bytes()
    ensures { ClientsSendBytes }
{}
