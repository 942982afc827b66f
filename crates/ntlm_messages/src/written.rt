//! What is written is read: the law of the written forms.

ghost use Rattle.std.specs.Prelude.{◌≡◌, ℕ, List, IsTrue, Ok};
ghost use Rattle.wire_base.specs.Units.{AreUnits, utf16_of};
ghost use Rattle.ntlm_flags.specs.Flags.{has_flag, negotiate_unicode};
ghost use Rattle.ntlm_messages.specs.Fields.{FieldsFit, IsText};
ghost use Rattle.ntlm_messages.specs.Negotiate as negotiate;
ghost use Rattle.ntlm_messages.specs.Challenge as challenge;
ghost use Rattle.ntlm_messages.specs.Authenticate as authenticate;
ghost use Rattle.ntlm_messages.specs.Pairs.{ArePairs, pairs_of, written_pairs};
ghost use Rattle.ntlm_messages.specs.Text.{text_units_of};
ghost use Rattle.ntlm_messages.specs.declared.messages.Negotiate.{Negotiate};
ghost use Rattle.ntlm_messages.specs.declared.messages.Challenge.{Challenge};
ghost use Rattle.ntlm_messages.specs.declared.messages.Authenticate.{Authenticate};

/// The written form of a message or of a list of pairs is read as the same value. Units that are written in UTF-16LE
/// into a text field of a message with the flag UNICODE are read as those units, and the field's length is even as a
/// writer asks for.
pub fn what_is_written_is_read()
    ensures negotiate { (value : Negotiate) →
        negotiate.CanWriteNegotiate value → negotiate.HasWidths value →
        FieldsFit (negotiate.negotiate_fields value) →
        negotiate.negotiate_of (negotiate.written_negotiate value) ≡ Ok value }
    ensures challenge { (value : Challenge) →
        challenge.CanWriteChallenge value → challenge.HasWidths value →
        FieldsFit (challenge.challenge_fields value) →
        challenge.challenge_of (challenge.written_challenge value) ≡ Ok value }
    ensures authenticate { (value : Authenticate) →
        authenticate.CanWriteAuthenticate value → authenticate.HasWidths value →
        FieldsFit (authenticate.authenticate_fields value) →
        authenticate.authenticate_of (authenticate.written_authenticate value) ≡ Ok value }
    ensures pairs { (pairs : List (ℕ × List ℕ)) → ArePairs pairs →
        pairs_of (written_pairs pairs) ≡ Ok pairs }
    ensures text { (flags : ℕ) (units : List ℕ) → IsTrue (has_flag flags negotiate_unicode) →
        AreUnits units → text_units_of flags (utf16_of units) ≡ Ok units }
    ensures even { (flags : ℕ) (units : List ℕ) → IsText flags (utf16_of units) }
{}
