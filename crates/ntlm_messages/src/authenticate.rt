//! AUTHENTICATE_MESSAGE (MS-NLMP 2.2.1.3).

ghost use Rattle.std.specs.Prelude.{◌≡◌, ◌++◌, ◌⊎◌, ◌↔◌, OnOk, Ok, IfOk, IfErr, Err, IsErrOf};
ghost use Rattle.wire_base.specs.Memory.{UpToMemory};
ghost use Rattle.ntlm_messages.specs.Fields.{Shows, FieldsFit, IsFirstTooLong, lengths_of, form_of};
ghost use Rattle.ntlm_messages.specs.Authenticate.{IsAuthenticate, IsAuthenticateRefusal, authenticate_of, authenticate_shown, authenticate_fields, CanWriteAuthenticate, HasWidths, written_authenticate, authenticate_table, authenticate_payload};
ghost use Rattle.ntlm_messages.specs.declared.messages.Authenticate.{Authenticate};
ghost use Rattle.ntlm_messages.specs.declared.refused.Field.{Field};
ghost use Rattle.ntlm_messages.specs.declared.refused.MessageRefused.{MessageRefused};
ghost use Rattle.ntlm_messages.specs.declared.refused.WriteRefused.{WriteRefused};

use crate::fields::{
    SIGNATURE, check_fields, check_header, check_text, count_of, field_at, gap_left, long_at,
    mic_at, put_bytes, put_field, version_at,
};
use crate::messages::{Authenticate, AuthenticateView};
use crate::places::{
    AUTHENTICATE_DOMAIN, AUTHENTICATE_FLAGS, AUTHENTICATE_KEY, AUTHENTICATE_LM, AUTHENTICATE_NT,
    AUTHENTICATE_SIZE, AUTHENTICATE_USER, AUTHENTICATE_WORKSTATION,
};
use crate::refused::{Field, MessageRefused, WriteRefused};
use std::alloc::Global;
use wire_base::{Blob, NoMemory};

/// The view; that it agrees with the grammar follows in `view_authenticate`.
#[tactic(auto, unfolding(crate::specs::Authenticate::authenticate_of))]
fn lend_authenticate(bytes: &[u8]) -> Result<AuthenticateView<'_>, MessageRefused>
    ensures exact { Shows authenticate_shown result (authenticate_of bytes.now) }
    ensures fits { IfOk result (λ view. FieldsFit (authenticate_fields (authenticate_shown view))) }
{
    check_header(bytes, 3, AUTHENTICATE_SIZE)?;
    let size = AUTHENTICATE_SIZE;
    let lm = field_at(bytes, Field::Lm, AUTHENTICATE_LM, size, bytes.len())?;
    let nt = field_at(bytes, Field::Nt, AUTHENTICATE_NT, size, lm.gap)?;
    let domain = field_at(bytes, Field::Domain, AUTHENTICATE_DOMAIN, size, nt.gap)?;
    let user = field_at(bytes, Field::User, AUTHENTICATE_USER, size, domain.gap)?;
    let workstation = field_at(
        bytes,
        Field::Workstation,
        AUTHENTICATE_WORKSTATION,
        size,
        user.gap,
    )?;
    let key = field_at(bytes, Field::Key, AUTHENTICATE_KEY, size, workstation.gap)?;
    let flags = long_at(bytes, AUTHENTICATE_FLAGS);
    check_text(flags, Field::Domain, domain.bytes)?;
    check_text(flags, Field::User, user.bytes)?;
    check_text(flags, Field::Workstation, workstation.bytes)?;
    let gap = gap_left(
        bytes,
        &[
            AUTHENTICATE_LM,
            AUTHENTICATE_NT,
            AUTHENTICATE_DOMAIN,
            AUTHENTICATE_USER,
            AUTHENTICATE_WORKSTATION,
            AUTHENTICATE_KEY,
        ],
        key.gap,
    );
    Ok(AuthenticateView {
        flags,
        lm: lm.bytes,
        nt: nt.bytes,
        domain: domain.bytes,
        user: user.bytes,
        workstation: workstation.bytes,
        key: key.bytes,
        version: version_at(bytes, flags, size, gap),
        mic: mic_at(bytes, flags, size, gap),
    })
}

/// Reads an AUTHENTICATE, and lends its fields from the bytes. It takes no memory.
///
/// The first of these refusals that holds of the bytes: `ShortHeader` below 64 bytes; `BadSignature`; `BadType` where
/// the type isn't 3; `FieldOutside` of the first field, in the order LM response, NT response, domain, user,
/// workstation, session key, that isn't empty and begins before byte 64 or ends past the message; `OddText` of the
/// first of domain, user and workstation of odd length where texts are UTF-16LE.
pub fn view_authenticate(bytes: &[u8]) -> Result<AuthenticateView<'_>, MessageRefused>
    // The value or the first refusal.
    ensures exact { Shows authenticate_shown result (authenticate_of bytes.now) }
    // What is read is in the grammar.
    ensures found { IfOk result (λ view. IsAuthenticate bytes.now (authenticate_shown view)) }
    // What is in the grammar is read.
    ensures only { (value : Authenticate) → IsAuthenticate bytes.now value →
        Shows authenticate_shown result (Ok value) }
    // Which refusal it is.
    ensures refused { IfErr result (λ refused. IsAuthenticateRefusal bytes.now refused) }
    // What is read can be written, and no field is too long for it.
    ensures writable { IfOk result (λ view. CanWriteAuthenticate (authenticate_shown view)) }
    ensures fits { IfOk result (λ view. FieldsFit (authenticate_fields (authenticate_shown view))) }
{
    lend_authenticate(bytes)
}

impl AuthenticateView<'_> {
    ghost use Rattle.std.specs.Prelude.{◌≡◌, ◌++◌, IfOk};
    ghost use Rattle.ntlm_messages.specs.Authenticate.{authenticate_shown};

    /// The value, with copies of its fields.
    fn copy(&self, alloc: Global) -> Result<Authenticate, NoMemory>
        ensures { IfOk result (λ value. value ≡ authenticate_shown self.now) }
    {
        Ok(Authenticate {
            flags: self.flags,
            lm: Blob::copy(alloc, self.lm)?,
            nt: Blob::copy(alloc, self.nt)?,
            domain: Blob::copy(alloc, self.domain)?,
            user: Blob::copy(alloc, self.user)?,
            workstation: Blob::copy(alloc, self.workstation)?,
            key: Blob::copy(alloc, self.key)?,
            version: self.version,
            mic: self.mic,
        })
    }
}

/// Reads an AUTHENTICATE, and copies its fields: the value that `view_authenticate` shows, or its refusal, which comes
/// before memory is looked for; `Memory` where no memory was found.
pub fn read_authenticate(alloc: Global, bytes: &[u8]) -> Result<Authenticate, MessageRefused>
    // The value or the first refusal.
    ensures exact { UpToMemory MessageRefused.Memory result (authenticate_of bytes.now) }
    // A refusal comes before memory is looked for.
    ensures refusals { (refused : MessageRefused) →
        authenticate_of bytes.now ≡ Err refused → result ≡ Err refused }
    // What is read is in the grammar.
    ensures found { IfOk result (λ value. IsAuthenticate bytes.now value) }
    // What is in the grammar is read, unless memory runs out.
    ensures only { (value : Authenticate) → IsAuthenticate bytes.now value →
        UpToMemory MessageRefused.Memory result (Ok value) }
    // Which refusal it is.
    ensures refused { IfErr result (λ refused.
        (refused ≡ MessageRefused.Memory) ⊎ IsAuthenticateRefusal bytes.now refused) }
    // What is read can be written, and no field is too long for it.
    ensures writable { IfOk result (λ value. CanWriteAuthenticate value) }
    ensures fits { IfOk result (λ value. FieldsFit (authenticate_fields value)) }
{
    Ok(view_authenticate(bytes)?.copy(alloc)?)
}

/// Whether each field fits.
fn check_lengths(value: &Authenticate) -> Result<(), WriteRefused>
    ensures value { result ≡ lengths_of (authenticate_fields value.now) }
    ensures fits { OnOk result (FieldsFit (authenticate_fields value.now)) }
{
    check_fields(&[
        (Field::Lm, value.lm.bytes()),
        (Field::Nt, value.nt.bytes()),
        (Field::Domain, value.domain.bytes()),
        (Field::User, value.user.bytes()),
        (Field::Workstation, value.workstation.bytes()),
        (Field::Key, value.key.bytes()),
    ])
}

/// Appends the payload fields' places in the header.
#[tactic(auto, unfolding(crate::specs::Authenticate::authenticate_table))]
fn put_table(out: &mut Vec<u8>, value: &Authenticate) -> Result<(), NoMemory>
    requires { FieldsFit (authenticate_fields value.now) }
    ensures table { OnOk result (out.new.items ≡ out.old.items ++ authenticate_table value.now) }
    ensures widths { OnOk result (HasWidths value.now) }
{
    let domain_at = AUTHENTICATE_SIZE + count_of(&value.version) + count_of(&value.mic);
    let user_at = domain_at + value.domain.bytes().len();
    let workstation_at = user_at + value.user.bytes().len();
    let lm_at = workstation_at + value.workstation.bytes().len();
    let nt_at = lm_at + value.lm.bytes().len();
    let key_at = nt_at + value.nt.bytes().len();
    put_field(out, value.lm.bytes(), lm_at)?;
    put_field(out, value.nt.bytes(), nt_at)?;
    put_field(out, value.domain.bytes(), domain_at)?;
    put_field(out, value.user.bytes(), user_at)?;
    put_field(out, value.workstation.bytes(), workstation_at)?;
    put_field(out, value.key.bytes(), key_at)?;
    Ok(())
}

/// Appends the payload.
#[tactic(auto, unfolding(crate::specs::Authenticate::authenticate_payload))]
fn put_payload(out: &mut Vec<u8>, value: &Authenticate) -> Result<(), NoMemory>
    ensures { OnOk result (out.new.items ≡ out.old.items ++ authenticate_payload value.now) }
{
    out.extend_from_slice(value.domain.bytes())?;
    out.extend_from_slice(value.user.bytes())?;
    out.extend_from_slice(value.workstation.bytes())?;
    out.extend_from_slice(value.lm.bytes())?;
    out.extend_from_slice(value.nt.bytes())?;
    out.extend_from_slice(value.key.bytes())?;
    Ok(())
}

/// The written form of a value whose fields fit.
#[tactic(auto, unfolding(crate::specs::Authenticate::written_authenticate))]
fn authenticate_bytes(alloc: Global, value: &Authenticate) -> Result<Blob, NoMemory>
    requires { FieldsFit (authenticate_fields value.now) }
    ensures written { IfOk result (λ bytes. bytes ≡ written_authenticate value.now) }
    ensures widths { IfOk result (λ _. HasWidths value.now) }
{
    let mut out = Vec::new(alloc);
    out.extend_from_slice(&SIGNATURE)?;
    out.extend_from_slice(&3u32.to_le_bytes())?;
    put_table(&mut out, value)?;
    out.extend_from_slice(&value.flags.to_le_bytes())?;
    put_bytes(&mut out, &value.version)?;
    put_bytes(&mut out, &value.mic)?;
    put_payload(&mut out, value)?;
    Ok(Blob::from_vec(out))
}

/// The written form, or the first field that is too long for it; what that says in the grammar's terms follows in
/// `write_authenticate`.
fn authenticate_form(alloc: Global, value: &Authenticate) -> Result<Blob, WriteRefused>
    requires { CanWriteAuthenticate value.now }
    ensures exact { UpToMemory WriteRefused.Memory result
        (form_of (authenticate_fields value.now) (written_authenticate value.now)) }
    // A field that is too long is told before memory is looked for.
    ensures refusals { (refused : WriteRefused) →
        form_of (authenticate_fields value.now) (written_authenticate value.now) ≡ Err refused →
        result ≡ Err refused }
    ensures read_back { IfOk result (λ bytes. authenticate_of bytes ≡ Ok value.now) }
{
    check_lengths(value)?;
    Ok(authenticate_bytes(alloc, value)?)
}

/// Writes an AUTHENTICATE in its one written form: the header, the version and the message integrity code where there
/// are some, and the payload without gaps in the order domain, user, workstation, LM response, NT response, session
/// key.
///
/// `TooLong` of the first field, in the order LM response, NT response, domain, user, workstation, session key, of more
/// than 65,535 bytes. `Memory` where no memory was found.
pub fn write_authenticate(alloc: Global, value: &Authenticate) -> Result<Blob, WriteRefused>
    requires { CanWriteAuthenticate value.now }
    // The written form or the first field that is too long.
    ensures exact { UpToMemory WriteRefused.Memory result
        (form_of (authenticate_fields value.now) (written_authenticate value.now)) }
    // `TooLong` exactly where that field is the first one, also where no memory is left.
    ensures too_long { (name : Field) → IsErrOf result (WriteRefused.TooLong name)
        ↔ IsFirstTooLong (authenticate_fields value.now) name }
    // What fits is written, as all that was read does, unless memory runs out.
    ensures fits { FieldsFit (authenticate_fields value.now) →
        UpToMemory WriteRefused.Memory result (Ok (written_authenticate value.now)) }
    // What is written is read back.
    ensures read_back { IfOk result (λ bytes. authenticate_of bytes ≡ Ok value.now) }
{
    authenticate_form(alloc, value)
}
