//! CHALLENGE_MESSAGE (MS-NLMP 2.2.1.2).

ghost use Rattle.std.specs.Prelude.{◌≡◌, ◌⊎◌, ◌↔◌, OnOk, Ok, IfOk, IfErr, Err, IsErrOf};
ghost use Rattle.wire_base.specs.Memory.{UpToMemory};
ghost use Rattle.ntlm_messages.specs.Fields.{Shows, FieldsFit, IsFirstTooLong, lengths_of, form_of};
ghost use Rattle.ntlm_messages.specs.Challenge.{IsChallenge, IsChallengeRefusal, challenge_of, challenge_shown, challenge_fields, CanWriteChallenge, HasWidths, written_challenge};
ghost use Rattle.ntlm_messages.specs.declared.messages.Challenge.{Challenge};
ghost use Rattle.ntlm_messages.specs.declared.refused.Field.{Field};
ghost use Rattle.ntlm_messages.specs.declared.refused.MessageRefused.{MessageRefused};
ghost use Rattle.ntlm_messages.specs.declared.refused.WriteRefused.{WriteRefused};

use crate::fields::{
    SIGNATURE, check_fields, check_header, check_text, count_of, field_at, gap_left, long_at,
    put_bytes, put_field, version_at,
};
use crate::messages::{Challenge, ChallengeView};
use crate::places::{
    CHALLENGE_FLAGS, CHALLENGE_INFO, CHALLENGE_SERVER, CHALLENGE_SIZE, CHALLENGE_TARGET,
};
use crate::refused::{Field, MessageRefused, WriteRefused};
use std::alloc::Global;
use wire_base::{Blob, NoMemory};

/// The view; that it agrees with the grammar follows in `view_challenge`.
#[tactic(auto, unfolding(crate::specs::Challenge::challenge_of))]
fn lend_challenge(bytes: &[u8]) -> Result<ChallengeView<'_>, MessageRefused>
    ensures exact { Shows challenge_shown result (challenge_of bytes.now) }
    ensures fits { IfOk result (λ view. FieldsFit (challenge_fields (challenge_shown view))) }
{
    check_header(bytes, 2, CHALLENGE_SIZE)?;
    let size = CHALLENGE_SIZE;
    let target = field_at(bytes, Field::Target, CHALLENGE_TARGET, size, bytes.len())?;
    let info = field_at(bytes, Field::Info, CHALLENGE_INFO, size, target.gap)?;
    let flags = long_at(bytes, CHALLENGE_FLAGS);
    check_text(flags, Field::Target, target.bytes)?;
    let gap = gap_left(bytes, &[CHALLENGE_TARGET, CHALLENGE_INFO], info.gap);
    let mut challenge = [0; 8];
    challenge.copy_from_slice(&bytes[CHALLENGE_SERVER..CHALLENGE_SERVER + 8]);
    Ok(ChallengeView {
        flags,
        target: target.bytes,
        challenge,
        info: info.bytes,
        version: version_at(bytes, flags, size, gap),
    })
}

/// Reads a CHALLENGE, and lends its fields from the bytes. It takes no memory.
///
/// The first of these refusals that holds of the bytes: `ShortHeader` below 48 bytes; `BadSignature`; `BadType` where
/// the type isn't 2; `FieldOutside` of the first field, in the order target, target information, that isn't empty and
/// begins before byte 48 or ends past the message; `OddText` of the target where texts are UTF-16LE and its length is
/// odd.
pub fn view_challenge(bytes: &[u8]) -> Result<ChallengeView<'_>, MessageRefused>
    // The value or the first refusal.
    ensures exact { Shows challenge_shown result (challenge_of bytes.now) }
    // What is read is in the grammar.
    ensures found { IfOk result (λ view. IsChallenge bytes.now (challenge_shown view)) }
    // What is in the grammar is read.
    ensures only { (value : Challenge) → IsChallenge bytes.now value →
        Shows challenge_shown result (Ok value) }
    // Which refusal it is.
    ensures refused { IfErr result (λ refused. IsChallengeRefusal bytes.now refused) }
    // What is read can be written, and no field is too long for it.
    ensures writable { IfOk result (λ view. CanWriteChallenge (challenge_shown view)) }
    ensures fits { IfOk result (λ view. FieldsFit (challenge_fields (challenge_shown view))) }
{
    lend_challenge(bytes)
}

impl ChallengeView<'_> {
    ghost use Rattle.std.specs.Prelude.{◌≡◌, IfOk};
    ghost use Rattle.ntlm_messages.specs.Challenge.{challenge_shown};

    /// The value, with copies of its fields.
    fn copy(&self, alloc: Global) -> Result<Challenge, NoMemory>
        ensures { IfOk result (λ value. value ≡ challenge_shown self.now) }
    {
        Ok(Challenge {
            flags: self.flags,
            target: Blob::copy(alloc, self.target)?,
            challenge: self.challenge,
            info: Blob::copy(alloc, self.info)?,
            version: self.version,
        })
    }
}

/// Reads a CHALLENGE, and copies its fields: the value that `view_challenge` shows, or its refusal, which comes before
/// memory is looked for; `Memory` where no memory was found.
pub fn read_challenge(alloc: Global, bytes: &[u8]) -> Result<Challenge, MessageRefused>
    // The value or the first refusal.
    ensures exact { UpToMemory MessageRefused.Memory result (challenge_of bytes.now) }
    // A refusal comes before memory is looked for.
    ensures refusals { (refused : MessageRefused) →
        challenge_of bytes.now ≡ Err refused → result ≡ Err refused }
    // What is read is in the grammar.
    ensures found { IfOk result (λ value. IsChallenge bytes.now value) }
    // What is in the grammar is read, unless memory runs out.
    ensures only { (value : Challenge) → IsChallenge bytes.now value →
        UpToMemory MessageRefused.Memory result (Ok value) }
    // Which refusal it is.
    ensures refused { IfErr result (λ refused.
        (refused ≡ MessageRefused.Memory) ⊎ IsChallengeRefusal bytes.now refused) }
    // What is read can be written, and no field is too long for it.
    ensures writable { IfOk result (λ value. CanWriteChallenge value) }
    ensures fits { IfOk result (λ value. FieldsFit (challenge_fields value)) }
{
    Ok(view_challenge(bytes)?.copy(alloc)?)
}

/// Whether each field fits.
fn check_lengths(value: &Challenge) -> Result<(), WriteRefused>
    ensures value { result ≡ lengths_of (challenge_fields value.now) }
    ensures fits { OnOk result (FieldsFit (challenge_fields value.now)) }
{
    check_fields(&[
        (Field::Target, value.target.bytes()),
        (Field::Info, value.info.bytes()),
    ])
}

/// The written form of a value whose fields fit.
#[tactic(auto, unfolding(crate::specs::Challenge::written_challenge))]
fn challenge_bytes(alloc: Global, value: &Challenge) -> Result<Blob, NoMemory>
    requires { FieldsFit (challenge_fields value.now) }
    ensures written { IfOk result (λ bytes. bytes ≡ written_challenge value.now) }
    ensures widths { IfOk result (λ _. HasWidths value.now) }
{
    let target_at = CHALLENGE_SIZE + count_of(&value.version);
    let info_at = target_at + value.target.bytes().len();
    let mut out = Vec::new(alloc);
    out.extend_from_slice(&SIGNATURE)?;
    out.extend_from_slice(&2u32.to_le_bytes())?;
    put_field(&mut out, value.target.bytes(), target_at)?;
    out.extend_from_slice(&value.flags.to_le_bytes())?;
    out.extend_from_slice(&value.challenge)?;
    out.extend_from_slice(&0u64.to_le_bytes())?;
    put_field(&mut out, value.info.bytes(), info_at)?;
    put_bytes(&mut out, &value.version)?;
    out.extend_from_slice(value.target.bytes())?;
    out.extend_from_slice(value.info.bytes())?;
    Ok(Blob::from_vec(out))
}

/// The written form, or the first field that is too long for it; what that says in the grammar's terms follows in
/// `write_challenge`.
fn challenge_form(alloc: Global, value: &Challenge) -> Result<Blob, WriteRefused>
    requires { CanWriteChallenge value.now }
    ensures exact { UpToMemory WriteRefused.Memory result
        (form_of (challenge_fields value.now) (written_challenge value.now)) }
    // A field that is too long is told before memory is looked for.
    ensures refusals { (refused : WriteRefused) →
        form_of (challenge_fields value.now) (written_challenge value.now) ≡ Err refused →
        result ≡ Err refused }
    ensures read_back { IfOk result (λ bytes. challenge_of bytes ≡ Ok value.now) }
{
    check_lengths(value)?;
    Ok(challenge_bytes(alloc, value)?)
}

/// Writes a CHALLENGE in its one written form: the header, the version where there is one, and the payload without gaps
/// in the order target, target information. The reserved bytes are zeros.
///
/// `TooLong` of the first field, in the order target, target information, of more than 65,535 bytes. `Memory` where no
/// memory was found.
pub fn write_challenge(alloc: Global, value: &Challenge) -> Result<Blob, WriteRefused>
    requires { CanWriteChallenge value.now }
    // The written form or the first field that is too long.
    ensures exact { UpToMemory WriteRefused.Memory result
        (form_of (challenge_fields value.now) (written_challenge value.now)) }
    // `TooLong` exactly where that field is the first one, also where no memory is left.
    ensures too_long { (name : Field) → IsErrOf result (WriteRefused.TooLong name)
        ↔ IsFirstTooLong (challenge_fields value.now) name }
    // What fits is written, as all that was read does, unless memory runs out.
    ensures fits { FieldsFit (challenge_fields value.now) →
        UpToMemory WriteRefused.Memory result (Ok (written_challenge value.now)) }
    // What is written is read back.
    ensures read_back { IfOk result (λ bytes. challenge_of bytes ≡ Ok value.now) }
{
    challenge_form(alloc, value)
}
