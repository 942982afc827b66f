//! A verdict that a turn ended with.

ghost use Rattle.std.specs.Prelude.{◌≡◌};
ghost use Rattle.logon_stubs.specs.Ranges.{InRangeSamInfo};
ghost use Rattle.logon_stubs.specs.Verdicts.{IfGranted};
ghost use Rattle.logon_stubs.specs.Writing.{CanWriteSamInfo};

use logon_stubs::Verdict;
use std::marker::Model;

/// A verdict that a channel took, seen as that verdict. What it grants can be handed on: it can be written into a stub
/// again, and has its ranges.
#[derive(Drop)]
pub struct TakenVerdict {
    verdict: Verdict,
}

impl Model for TakenVerdict {
    ghost use Rattle.logon_stubs.specs.Ranges.{InRangeSamInfo};
    ghost use Rattle.logon_stubs.specs.Verdicts.{IfGranted};
    ghost use Rattle.logon_stubs.specs.Writing.{CanWriteSamInfo};
    ghost use Rattle.logon_stubs.specs.declared.info.Verdict.{Verdict};

    ghost Value = { Verdict };

    ghost view = { λ taken. taken.verdict };

    ghost invariant = { λ taken.
        IfGranted taken.verdict CanWriteSamInfo × IfGranted taken.verdict InRangeSamInfo };
}

impl TakenVerdict {
    /// The verdict, as one that was taken.
    pub(crate) fn new(verdict: Verdict) -> TakenVerdict
        requires writable { IfGranted verdict CanWriteSamInfo }
        requires range { IfGranted verdict InRangeSamInfo }
        ensures { result ≡ verdict }
    {
        TakenVerdict { verdict }
    }

    /// The verdict itself. It takes no memory.
    pub fn into_verdict(self) -> Verdict
        ensures value { result ≡ self }
        ensures writable { IfGranted result CanWriteSamInfo }
        ensures range { IfGranted result InRangeSamInfo }
    {
        let TakenVerdict { verdict } = self;
        verdict
    }
}
