//! What holds of the stubs of calls.

ghost use Rattle.logon_stubs.specs.LostMiddles.{LostMiddles};

/// A Logon call whose stub lost bytes in its middle isn't read.
///
/// All lengths of a Logon stand in its heads: its parameters up to the network information, and the structure of that.
/// The heads have at most 199 bytes more than the names of both computers. So the first of its fragments holds them,
/// where a name has at most 64 units. Two stubs with the same heads that are read as Logons have Logons of the same
/// length. So a Logon that lacks bytes behind its heads is refused: for one of its parts, and not for its level.
#[tactic(auto, using(crate::proofs::LostMiddleLaws::lost_middles))]
pub fn lost_middles_are_refused()
    ensures { LostMiddles }
{}
