//! What tells the replies to a logon from those to an opening.

ghost use Rattle.logon_stubs.specs.Answers.{AnswersAreLong};

/// A reply to a Logon call that has an authenticator has at least 17 bytes, and one to an Authenticate call has 16. So
/// none of an Authenticate call is read as a logon's with an authenticator.
#[tactic(auto, using(crate::proofs::AnswerLaws::answers_are_long))]
pub fn answers_are_long()
    ensures { AnswersAreLong }
{}
