//! No claim is true, or false, of everything that could be written down of a run.

ghost use Rattle.claim_examples.specs.AnnAccepted.{AnnIsAccepted};
ghost use Rattle.claim_examples.specs.ChangeRuns.{ChangeLeavesNoneApart};
ghost use Rattle.claim_examples.specs.TellApart.{ClaimsTellApart};
ghost use Rattle.claim_examples.specs.ClearRuns.{FirstLogonsAreClear};
ghost use Rattle.claim_examples.specs.ClearSuccess.{AnnCanSucceed};
ghost use Rattle.claim_examples.specs.GrantExamples.{GrantsTellApart};
ghost use Rattle.claim_examples.specs.KindExamples.{OfAskers, OfCallsOpened, OfHops, OfKinds, OfKindsAsked};
ghost use Rattle.claim_examples.specs.LetInExamples.{OfLettingIn, OfNames};
ghost use Rattle.claim_examples.specs.NearMisses.{NearMissesTellApart};
ghost use Rattle.claim_examples.specs.NeverApartExamples.{OfBeginnings, OfKeeping, OfNeverApart, OfProvedRun, OfTrying};
ghost use Rattle.claim_examples.specs.OpeningExamples.{OfOpenedReplies, OfOpenings};
ghost use Rattle.claim_examples.specs.OwnChallengeExamples.{OfOwnChallenges};
ghost use Rattle.claim_examples.specs.ReplyExamples.{OfReplies};
ghost use Rattle.claim_examples.specs.RequestExamples.{OfAnsweredCalls, OfOpeningAnswers, OfRequestNumbers};
ghost use Rattle.claim_examples.specs.SequenceMisses.{SequencesTellApart};
ghost use Rattle.claim_examples.specs.SessionExamples.{OfHashGrants, OfSessions, OfStatuses};
ghost use Rattle.claim_examples.specs.StrangerRuns.{StrangerPartsThem};
ghost use Rattle.claim_examples.specs.SuccessMisses.{SuccessTellsApart};

/// No claim is true, or false, of everything that could be written down of a run: each is met by some small run and not
/// by another. A seed that comes round, a clash and the answer that a member took are told apart so, too.
#[tactic(auto, using(crate::proofs::ClaimLaws::claims_tell_apart))]
pub fn claims_tell_apart()
    ensures { ClaimsTellApart }
{}

/// The claim on who is let in and the one on names are neither true nor false of everything that could be written down
/// of a run: each is met by a run in which somebody is let in, and not by others, each of which differs in one thing.
#[tactic(auto, using(crate::proofs::LetInExampleLaws::of_letting_in, crate::proofs::LetInExampleLaws::of_names))]
pub fn letting_in_tells_apart()
    ensures asked { OfLettingIn }
    ensures names { OfNames }
{}

/// What is claimed of replies is met by a run in which one was sent, and not by others, each of which differs from it
/// in one thing.
#[tactic(auto, using(crate::proofs::ReplyExampleLaws::of_replies))]
pub fn replies_tell_apart()
    ensures { OfReplies }
{}

/// What is claimed of grants is met by a small run and by a step, and not by others that differ from them in one thing.
#[tactic(auto, using(crate::proofs::GrantExampleLaws::grants_tell_apart))]
pub fn grants_tell_apart()
    ensures { GrantsTellApart }
{}

/// What is claimed of openings is met by a run in which a controller keeps a channel that it accepted, and not by
/// others with one part changed. What is claimed of their replies is met by a run in which one is in the bag, and not
/// by others.
#[tactic(auto, using(crate::proofs::OpeningExampleLaws::of_openings, crate::proofs::OpeningExampleLaws::of_opened_replies))]
pub fn openings_tell_apart()
    ensures order { OfOpenings }
    ensures replies { OfOpenedReplies }
{}

/// What is claimed of the types of channels is met by small runs, and not by others, each of which differs in one thing
/// from one that meets it: of the type that an opening named, of who asks and who asked, of how far a call goes, and of
/// what a call follows.
#[tactic(auto, using(crate::proofs::KindExampleLaws::of_kinds, crate::proofs::KindExampleLaws::of_askers, crate::proofs::KindExampleLaws::of_kinds_asked, crate::proofs::KindExampleLaws::of_hops, crate::proofs::KindExampleLaws::of_calls_opened))]
pub fn kinds_tell_apart()
    ensures kinds { OfKinds }
    ensures askers { OfAskers }
    ensures asked { OfKindsAsked }
    ensures hops { OfHops }
    ensures called { OfCallsOpened }
{}

/// What is claimed of requests is met by small runs, and not by others, each of which differs from one that meets it in
/// one thing: of the numbers that openings and calls have, of the call that a message has whose answer was taken, and
/// of which opening a reply is to.
#[tactic(auto, using(crate::proofs::RequestExampleLaws::of_request_numbers, crate::proofs::RequestExampleLaws::of_answered_calls, crate::proofs::RequestExampleLaws::of_opening_answers))]
pub fn requests_tell_apart()
    ensures numbers { OfRequestNumbers }
    ensures calls { OfAnsweredCalls }
    ensures openings { OfOpeningAnswers }
{}

/// What `Proved.messages` says isn't true of everything that could be written down of a run: a small run meets it, and
/// others, each with one part changed, don't.
#[tactic(auto, using(crate::proofs::OwnChallengeExampleLaws::of_own_challenges))]
pub fn own_challenges_tell_apart()
    ensures { OfOwnChallenges }
{}

/// Claims on accepting, keys, counts, units of the bag, what members ask, what is written down of members and clients,
/// what controllers tell, and their accounts aren't met by runs that differ in one thing more from those that meet
/// them. A run with two calls is clear, and moves of each kind are a schedule.
#[tactic(auto, using(crate::proofs::NearMissLaws::near_misses))]
pub fn near_misses_tell_apart()
    ensures { NearMissesTellApart }
{}

/// That a member and its controller are never apart is said of small states of a change of its secret, and not of
/// others: each has another hash, or another secret that is held or kept. What the claim asks of the start, and of what
/// a stranger did, is met and missed so, too. So is that a member keeps what it holds, and that it opens its channel
/// under the secret that it tries. What is proved of all runs says it of one in which the change begins.
#[tactic(auto, using(crate::proofs::NeverApartExampleLaws::of_beginnings, crate::proofs::NeverApartExampleLaws::of_never_apart, crate::proofs::NeverApartExampleLaws::of_keeping, crate::proofs::NeverApartExampleLaws::of_trying, crate::proofs::NeverApartExampleLaws::of_proved_run))]
pub fn members_tell_apart()
    ensures premise { OfBeginnings }
    ensures claim { OfNeverApart }
    ensures keeping { OfKeeping }
    ensures trying { OfTrying }
    ensures run { OfProvedRun }
{}

/// The claim on sequences is met by a run whose seeds are written by the standard's ciphers, and not by others, each of
/// which differs from one that meets it in one thing. Its part on members alone, which holds of every run, is met and
/// missed by runs that differ in one thing too.
#[tactic(auto, using(crate::proofs::SequenceMissLaws::sequences_apart))]
pub fn sequences_tell_apart()
    ensures { SequencesTellApart }
{}

/// The claims on interactive logons, on sessions and on statuses are met by small runs in which one is granted, opens a
/// session, and is logged off. Others don't meet them: with 10,000 sessions, with a hash that differs in a byte, where
/// sessions are lost, or kept over a restart or a logoff, or where a logoff or a change of a secret was told with
/// another status.
#[tactic(auto, using(crate::proofs::SessionExampleLaws::of_hash_grants, crate::proofs::SessionExampleLaws::of_sessions, crate::proofs::SessionExampleLaws::of_statuses))]
pub fn sessions_tell_apart()
    ensures grants { OfHashGrants }
    ensures follow { OfSessions }
    ensures told { OfStatuses }
{}

/// Of runs that a world made itself: the first logon of any plain plan runs clear where it is granted and its key
/// arrives, and its member lets in who asked. The run of the example is clear too: its moves are a schedule in which
/// one client logs on. The claims on clear runs therefore speak of runs that there are.
#[tactic(auto, using(crate::proofs::Runs::ClearRunLaws::first_logons_are_clear))]
pub fn a_run_is_clear()
    ensures { FirstLogonsAreClear }
{}

/// The client of the example, ann, can succeed, as completeness asks it of a client: her account may log on in each
/// state of the run. The run meets all premises of completeness, and she is in, as completeness says it.
#[tactic(auto, using(crate::proofs::Runs::ClearSuccessLaws::ann_can_succeed))]
pub fn ann_can_succeed()
    ensures { AnnCanSucceed }
{}

/// What completeness asks and says isn't met by runs, moves and clients that differ in one thing more from those that
/// meet it. It asks of clients and moves nothing besides, and speaks of each client that is started.
#[tactic(auto, using(crate::proofs::SuccessMissLaws::success_misses))]
pub fn success_tells_apart()
    ensures { SuccessTellsApart }
{}

/// All that is proved of runs holds of the run of the example, which is a clear schedule. A message of it is accepted,
/// on its controller's answer and by the link's unused challenge. The client made it for the CHALLENGE of the link, and
/// the member lets in with the client's key.
#[tactic(auto, using(crate::proofs::Runs::AnnAcceptedLaws::ann_is_accepted))]
pub fn ann_is_accepted()
    ensures { AnnIsAccepted }
{}

/// What is proved of all runs says that a member and its controller are not apart at four states of a run in which the
/// member replaces its secret, each with no premise left: where it keeps both and the controller has the old one, where
/// the new one is set and the reply is lost, where the member has learned of it, and where its user is in. In between
/// the member begins anew, and its channel is denied under the old secret.
#[tactic(auto, using(crate::proofs::Runs::ChangeRunLaws::change_leaves_none_apart))]
pub fn a_change_leaves_none_apart()
    ensures { ChangeLeavesNoneApart }
{}

/// In the same run a stranger hands in a copy of the member's own call that sets its secret, which was lost. The copy
/// passes as a call from outside, so one premise isn't met. With another last byte it passes too, all other premises
/// are met, and the member and its controller are apart.
#[tactic(auto, using(crate::proofs::Runs::StrangerRunLaws::stranger_parts_them))]
pub fn a_stranger_parts_them()
    ensures { StrangerPartsThem }
{}
