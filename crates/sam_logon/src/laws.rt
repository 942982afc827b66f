//! Laws of what is granted, over its definition. The function does nothing, and its clauses are the laws.

ghost use Rattle.std.specs.Prelude.{ℕ, ◌≡◌, ◌⊎◌, ◌<◌, ◌≤◌, ◌^◌, List, Option, length};
ghost use Rattle.logon_stubs.specs.Parts.{IfThere};
ghost use Rattle.wire_base.specs.declared.authenticator.Authenticator.{Authenticator};
ghost use Rattle.logon_stubs.specs.declared.info.SamInfo.{SamInfo as Info};
ghost use Rattle.logon_stubs.specs.Ranges.{HasShortTexts, InRangeReply, InRangeSamInfo, IsAuthenticator, IsBlock};
ghost use Rattle.logon_stubs.specs.Writing.{CanWriteReply, CanWriteSamInfo, written_reply};
ghost use Rattle.sam_logon.specs.Granting.{granting_reply};

/// A reply to a logon carries what is granted at level 2 and at level 3, whatever key of 16 bytes stands in place of
/// its own: it can be written, and where its other parts have their ranges, it has them and is at most 65,536 bytes,
/// the most that are joined from fragments.
pub fn what_is_granted_joins()
    ensures writable { (returned : Option Authenticator) (level : ℕ) (info : Info) (key : List ℕ)
        (authoritative status : ℕ) → (level ≡ 2) ⊎ (level ≡ 3) → CanWriteSamInfo info →
        CanWriteReply (granting_reply returned level info key authoritative status) }
    ensures range { (returned : Option Authenticator) (level : ℕ) (info : Info) (key : List ℕ)
        (authoritative status : ℕ) → level < 2 ^ 16 → InRangeSamInfo info → IsBlock 16 key →
        IfThere IsAuthenticator returned → authoritative < 2 ^ 8 → status < 2 ^ 32 →
        InRangeReply (granting_reply returned level info key authoritative status) }
    ensures joins { (returned : Option Authenticator) (level : ℕ) (info : Info) (key : List ℕ)
        (authoritative status : ℕ) → (level ≡ 2) ⊎ (level ≡ 3) → CanWriteSamInfo info →
        HasShortTexts info →
        InRangeReply (granting_reply returned level info key authoritative status) →
        length (written_reply (granting_reply returned level info key authoritative status))
        ≤ 65536 }
{}
