//! What a run's answers rest on, where the plan is plain. What looks at controllers is said of plans that hand nothing
//! on.

ghost use Rattle.std.specs.Prelude.{List};
ghost use Rattle.world_moves.specs.declared.moves.Move.{Move};
ghost use Rattle.world_moves.specs.declared.plan.Plan.{Plan};
ghost use Rattle.world_moves.specs.Alone.{IsPlainAlone};
ghost use Rattle.world_moves.specs.Bag.{AreShortUnits, HaveBytes};
ghost use Rattle.world_moves.specs.Draws.{DrawsAreBlocks, DrawsDiffer};
ghost use Rattle.world_moves.specs.Forms.{IsSchedule};
ghost use Rattle.world_moves.specs.Plain.{IsPlainPlan};
ghost use Rattle.world_moves.specs.World.{first_world, run};
ghost use Rattle.domain_world.specs.Accepting.Answered.{AnswersAreHeard, AnswersAreJudged};
ghost use Rattle.domain_world.specs.Accepting.Carried.{CarriedCallsAreHeard, JudgedAsCarried, MarkedUnitsAreWhole, MessagesAreCalled};
ghost use Rattle.domain_world.specs.Accepting.KeysMade.{KeysAreFoundAsMade, MessagesAreMade, MessagesAreTakenAsSent};
ghost use Rattle.domain_world.specs.Accepting.Listening.{TrustsListen};
ghost use Rattle.domain_world.specs.Accepting.ReadBack.{OutcomesAreReadBack, RepliesAreReadBack, TurnsAreHeard};
ghost use Rattle.domain_world.specs.Accepting.Runs.{NothingIsOpen, RunsBegin, RunsStandSo};
ghost use Rattle.domain_world.specs.Accepting.Sequences.{CallsAreStamped, SequencesFollow, TakenCallsPass};
ghost use Rattle.domain_world.specs.Accepting.Units.{RunsAreHeard, UnitsAreHeard};
ghost use Rattle.domain_world.specs.Claims.{AcceptsAllGranted, AcceptsOnlyGranted, IsClear, KeysAgree};
ghost use Rattle.domain_world.specs.Past.{Past, past};
ghost use Rattle.domain_world.specs.Schedules.{OfSchedules};

/// Where what is said of units that are heard whole holds of a run that is clear, a member accepts only what its
/// controller granted, and all of it, and client and member hold one key.
#[tactic(auto, using(crate::proofs::Acceptance::AnsweredLaws::accepts_only, crate::proofs::Acceptance::AnsweredLaws::accepts_all, crate::proofs::Acceptance::AnsweredLaws::keys_agree))]
pub fn what_is_heard_is_accepted()
    ensures only { (past : Past) → AnswersAreJudged past → AnswersAreHeard past →
        IsClear past.book → AcceptsOnlyGranted past }
    ensures all { (past : Past) → AnswersAreJudged past → AnswersAreHeard past →
        IsClear past.book → AcceptsAllGranted past }
    ensures keys { (past : Past) → AnswersAreJudged past → AnswersAreHeard past →
        IsClear past.book → KeysAgree past }
{}

/// In every run whose draws differ, of a plain plan that hands nothing on, calls are judged and answered as is claimed,
/// messages are made for challenges of their own, and each unit has its mark.
pub fn runs_are_proved()
    ensures { (plan : Plan) (moves : List Move) → IsPlainAlone plan →
        DrawsDiffer (past plan moves).world → AnswersAreJudged (past plan moves) }
{}

/// Three of the premises of the claims on answers follow from what is said of single units and messages: units are
/// heard alike, calls ask for their messages, and answers are to the calls of their messages.
#[tactic(auto, using(crate::proofs::Acceptance::CarriedLaws::carried_heard))]
pub fn carried_calls_are_heard()
    ensures { CarriedCallsAreHeard }
{}

/// Two premises of the claims on answers follow from what a member reads in single units: what is told of an answer,
/// and who is let in, is what the controller judged.
#[tactic(auto, using(crate::proofs::Acceptance::Heard::ReadBackLaws::read_back))]
pub fn outcomes_are_read_back()
    ensures { OutcomesAreReadBack }
{}

/// In a run whose draws differ a member accepts only what its controller granted, and all of it, client and member hold
/// one key, and each call raises a count of bad passwords at most once, where the run is clear and each unit is heard
/// whole; and calls have different numbers, where requesters keep them apart.
#[tactic(auto, using(crate::proofs::Acceptance::UnitLaws::runs_heard))]
pub fn runs_are_heard()
    ensures { RunsAreHeard }
{}

/// The premise that keys are found as they were made follows from what a client makes for a CHALLENGE and what a member
/// takes.
#[tactic(auto, using(crate::proofs::Messages::KeyLaws::keys_made))]
pub fn keys_are_found_as_made()
    ensures { KeysAreFoundAsMade }
{}

/// A run begins as it is to go on: nothing is under way, and no call was made; and within a schedule no number comes
/// round.
#[tactic(auto, using(crate::proofs::Acceptance::RunBeginLaws::runs_begin))]
pub fn runs_begin()
    ensures { RunsBegin }
{}

/// In every schedule of a plain plan each AUTHENTICATE that a client made is the answer of its plan to the
/// CHALLENGE that it read, and is read again as it was made.
#[tactic(auto, using(crate::proofs::Messages::MessageMadeLaws::messages_made))]
pub fn messages_are_made()
    ensures { (plan : Plan) (moves : List Move) → IsPlainPlan plan → IsSchedule plan moves →
        MessagesAreMade (past plan moves) }
{}

/// In every run of a plain plan a member keeps the AUTHENTICATE that it read, the challenge of the one CHALLENGE
/// that it sent on the link, and the flags that both have.
#[tactic(auto, using(crate::proofs::Messages::MessageTakenLaws::messages_taken))]
pub fn messages_are_taken_as_sent()
    ensures { (plan : Plan) (moves : List Move) → IsPlainPlan plan →
        MessagesAreTakenAsSent (past plan moves) }
{}

/// After every schedule each unit of the bag has bytes, and no more than an end sends at once.
#[tactic(auto, using(crate::proofs::Quiet::QuietRunLaws::units_short, crate::proofs::Quiet::QuietRunLaws::units_bytes))]
pub fn schedules_send_bytes()
    ensures short { OfSchedules (λ plan moves.
        AreShortUnits (run moves (first_world plan)).state.bag) }
    ensures bytes { OfSchedules (λ plan moves. HaveBytes (run moves (first_world plan)).state.bag) }
{}

/// After every schedule what is under way between members and controllers is whole, and nothing stays open on the links
/// between them.
#[tactic(auto, using(crate::proofs::Quiet::QuietRunLaws::stands_quiet))]
pub fn schedules_stand_quiet()
    ensures { OfSchedules (λ plan moves. NothingIsOpen (past plan moves).world.state) }
{}

/// After every schedule the unit of the bag that the call of a message names is one whole NetrLogonSamLogon (MS-NRPC
/// 3.5.4.5.3, C706 12.6.2): it asks what the message does, at level 3, with the message's place as the identity of the
/// logon, and its stub is read back as it was written.
#[tactic(auto, using(crate::proofs::Calls::CalledRunLaws::schedules_call))]
pub fn messages_are_called()
    ensures { OfSchedules (λ plan moves. MessagesAreCalled (past plan moves)) }
{}

/// In every run no two challenges that were drawn are alike, and each has 8 bytes.
#[tactic(auto, using(crate::proofs::Moves::DrawnRunLaws::draws_differ, crate::proofs::Moves::DrawnRunLaws::draws_are_blocks))]
pub fn draws_of_runs_differ()
    ensures differ { (plan : Plan) (moves : List Move) → DrawsDiffer (past plan moves).world }
    ensures blocks { (plan : Plan) (moves : List Move) → DrawsAreBlocks (past plan moves).world }
{}

/// After every schedule whose draws differ what is under way is whole, no number of a bind or a request came round, the
/// calls on secure channels have different numbers (MS-NRPC 3.1.4.1, C706 12.6.3.1), and a Logon call that is out is
/// that of the message for which its turn is.
#[tactic(auto, using(crate::proofs::Calls::CallFrameLaws::schedules_stand))]
pub fn runs_stand_so()
    ensures { OfSchedules (λ plan moves. DrawsDiffer (past plan moves).world →
        RunsStandSo plan moves) }
{}

/// In every schedule each call that a controller judged, and that came in a unit of the bag, is the call which
/// that unit carries, with its number.
#[tactic(auto, using(crate::proofs::Acceptance::Heard::JudgedRunLaws::judged_as_carried))]
pub fn calls_are_judged_as_carried()
    ensures { OfSchedules (λ plan moves. JudgedAsCarried (past plan moves)) }
{}

/// In every schedule a reply to a call that passed is read as its controller made it.
pub fn replies_are_read_back()
    ensures { OfSchedules (λ plan moves. RepliesAreReadBack (past plan moves)) }
{}

/// In every schedule each unit that was made for a secure channel is one whole unit, and what its mark says: no Logon
/// call and no answer to one, and a request or a reply of the number that is written down.
#[tactic(auto, using(crate::proofs::Acceptance::Heard::MarkWholeLaws::marked_whole))]
pub fn marked_units_are_whole()
    ensures { OfSchedules (λ plan moves. MarkedUnitsAreWhole (past plan moves)) }
{}

/// In every schedule without a clash each answer was taken in the turn of its call, that of a message among them; its
/// outcome is told, and who is let in is so by an answer that was taken.
#[tactic(auto, using(crate::proofs::Acceptance::Turns::TurnRunLaws::turns_run))]
pub fn answers_are_taken_in_turn()
    ensures { OfSchedules (λ plan moves. TurnsAreHeard (past plan moves)) }
{}

/// In every schedule all holds on which the claims on answers rest: units are heard whole, calls have different
/// numbers, answers are taken in their turns and told, and keys are found as they were made.
#[tactic(auto, using(crate::proofs::Acceptance::ScheduleLaws::units_heard))]
pub fn schedules_are_heard()
    ensures { OfSchedules (λ plan moves. UnitsAreHeard (past plan moves)) }
{}

/// That both ends of a channel share its sequence (MS-NRPC 3.1.4.5) follows in a clear run where each unit is heard
/// whole, each call that was made and carries a Logon call has the timestamp of its turn, and the calls on the channel
/// are those of the member's turns, each passed but for one that is out.
pub fn sequences_follow()
    ensures { SequencesFollow }
{}

/// In every schedule the Logon call that a unit carries which was made as a call on a secure channel, if it carries
/// one, has the timestamp that is written down.
#[tactic(auto, using(crate::proofs::Sequences::StampLaws::calls_stamped))]
pub fn calls_are_stamped()
    ensures { OfSchedules (λ plan moves. CallsAreStamped (past plan moves)) }
{}

/// In a run without a clash a call whose answer a member took passed, where each unit is heard whole.
#[tactic(auto, using(crate::proofs::Sequences::SharedLaws::taken_pass))]
pub fn taken_calls_pass()
    ensures { TakenCallsPass }
{}

/// A controller that may hand logons on hears whole units (C706 12.6.2). Of the bytes of one whole unit it hears that
/// unit alone, and nothing stays open on the link. What is held for its links stays bytes through each step, the calls
/// that it hears have their ranges, and so it keeps its own. What it sends is whole, but for replies to logons that it
/// handed on: those go back on the links on which the logons came, and are bytes, no more than an end sends at once.
#[tactic(auto, using(crate::proofs::Quiet::TrustHearLaws::trusts_listen))]
pub fn trusting_controllers_listen()
    ensures { TrustsListen }
{}
