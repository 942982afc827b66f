//! NEGOTIATE_MESSAGE (MS-NLMP 2.2.1.1).

ghost use Rattle.std.specs.Prelude.{◌≡◌, ◌≤◌, length, ◌⊎◌, ◌↔◌, OnOk, Ok, IfOk, IfErr, Err, IsErrOf};
ghost use Rattle.wire_base.specs.Memory.{UpToMemory};
ghost use Rattle.ntlm_messages.specs.Fields.{Shows, FieldsFit, IsFirstTooLong, lengths_of, form_of};
ghost use Rattle.ntlm_messages.specs.Negotiate.{IsNegotiate, IsNegotiateRefusal, negotiate_of, negotiate_shown, negotiate_fields, CanWriteNegotiate, HasWidths, written_negotiate, is_supplied, name_of, names_read, narrow_name};
ghost use Rattle.ntlm_messages.specs.declared.messages.Negotiate.{Negotiate};
ghost use Rattle.ntlm_messages.specs.declared.refused.Field.{Field};
ghost use Rattle.ntlm_messages.specs.declared.refused.MessageRefused.{MessageRefused};
ghost use Rattle.ntlm_messages.specs.declared.refused.WriteRefused.{WriteRefused};

use crate::fields::{
    Part, SIGNATURE, check_fields, check_header, count_of, field_at, gap_left, long_at, put_bytes,
    put_field, version_at,
};
use crate::messages::{Negotiate, NegotiateView};
use crate::places::{
    NEGOTIATE_DOMAIN, NEGOTIATE_FLAGS, NEGOTIATE_LEAST, NEGOTIATE_SIZE, NEGOTIATE_WORKSTATION,
};
use crate::refused::{Field, MessageRefused, WriteRefused};
use ntlm_flags::{
    NTLMSSP_NEGOTIATE_OEM_DOMAIN_SUPPLIED, NTLMSSP_NEGOTIATE_OEM_WORKSTATION_SUPPLIED, has_flag,
};
use std::alloc::Global;
use wire_base::{Blob, NoMemory};

/// Whether the name with that flag is read.
fn is_supplied(flag: u32, bytes: &[u8]) -> bool
    ensures { result ≡ is_supplied flag bytes.now }
{
    bytes.len() >= NEGOTIATE_SIZE && has_flag(long_at(bytes, NEGOTIATE_FLAGS), flag)
}

/// A name's field, empty where it isn't read.
fn name_at(
    bytes: &[u8],
    read: bool,
    name: Field,
    place: usize,
    gap: usize,
) -> Result<Part<'_>, MessageRefused>
    requires { place ≤ 64 }
    ensures value { Shows (λ part. part.bytes.now) result (name_of read name place bytes.now) }
    ensures short { IfOk result (λ part. length part.bytes.now ≤ 65535) }
    ensures gap { IfOk result (λ part. part.gap ≡ narrow_name read place bytes.now gap) }
{
    if !read {
        return Ok(Part { bytes: &[], gap });
    }
    field_at(bytes, name, place, NEGOTIATE_SIZE, gap)
}

/// The places of the names that are read.
fn names_read(domain: bool, workstation: bool) -> &'static [usize]
    ensures { result.now ≡ names_read domain workstation }
{
    match (domain, workstation) {
        (true, true) => &[NEGOTIATE_DOMAIN, NEGOTIATE_WORKSTATION],
        (true, false) => &[NEGOTIATE_DOMAIN],
        (false, true) => &[NEGOTIATE_WORKSTATION],
        (false, false) => &[],
    }
}

/// The view; that it agrees with the grammar follows in `view_negotiate`.
#[tactic(auto, using(crate::proofs::NegotiateLaws::names_narrowed), unfolding(crate::specs::Negotiate::negotiate_of))]
fn lend_negotiate(bytes: &[u8]) -> Result<NegotiateView<'_>, MessageRefused>
    ensures exact { Shows negotiate_shown result (negotiate_of bytes.now) }
    ensures fits { IfOk result (λ view. FieldsFit (negotiate_fields (negotiate_shown view))) }
{
    check_header(bytes, 1, NEGOTIATE_LEAST)?;
    let has_domain = is_supplied(NTLMSSP_NEGOTIATE_OEM_DOMAIN_SUPPLIED, bytes);
    let has_workstation = is_supplied(NTLMSSP_NEGOTIATE_OEM_WORKSTATION_SUPPLIED, bytes);
    let domain = name_at(
        bytes,
        has_domain,
        Field::Domain,
        NEGOTIATE_DOMAIN,
        bytes.len(),
    )?;
    let workstation = name_at(
        bytes,
        has_workstation,
        Field::Workstation,
        NEGOTIATE_WORKSTATION,
        domain.gap,
    )?;
    let flags = long_at(bytes, NEGOTIATE_FLAGS);
    let gap = gap_left(
        bytes,
        names_read(has_domain, has_workstation),
        workstation.gap,
    );
    Ok(NegotiateView {
        flags,
        domain: domain.bytes,
        workstation: workstation.bytes,
        version: version_at(bytes, flags, NEGOTIATE_SIZE, gap),
    })
}

/// Reads a NEGOTIATE, and lends its fields from the bytes. It takes no memory.
///
/// A name is read only where the message has 32 bytes or more and the name's own flag is set; else it is empty and its
/// field is passed over. The first of these refusals that holds of the bytes: `ShortHeader` below 16 bytes;
/// `BadSignature`; `BadType` where the type isn't 1; `FieldOutside` of the first name, domain before workstation, that
/// is read, isn't empty and begins before byte 32 or ends past the message. The names are OEM texts, so none is odd.
pub fn view_negotiate(bytes: &[u8]) -> Result<NegotiateView<'_>, MessageRefused>
    // The value or the first refusal.
    ensures exact { Shows negotiate_shown result (negotiate_of bytes.now) }
    // What is read is in the grammar.
    ensures found { IfOk result (λ view. IsNegotiate bytes.now (negotiate_shown view)) }
    // What is in the grammar is read.
    ensures only { (value : Negotiate) → IsNegotiate bytes.now value →
        Shows negotiate_shown result (Ok value) }
    // Which refusal it is.
    ensures refused { IfErr result (λ refused. IsNegotiateRefusal bytes.now refused) }
    // What is read can be written, and no field is too long for it.
    ensures writable { IfOk result (λ view. CanWriteNegotiate (negotiate_shown view)) }
    ensures fits { IfOk result (λ view. FieldsFit (negotiate_fields (negotiate_shown view))) }
{
    lend_negotiate(bytes)
}

impl NegotiateView<'_> {
    ghost use Rattle.std.specs.Prelude.{◌≡◌, ◌≤◌, length, IfOk};
    ghost use Rattle.ntlm_messages.specs.Negotiate.{negotiate_shown};

    /// The value, with copies of its fields.
    fn copy(&self, alloc: Global) -> Result<Negotiate, NoMemory>
        ensures { IfOk result (λ value. value ≡ negotiate_shown self.now) }
    {
        Ok(Negotiate {
            flags: self.flags,
            domain: Blob::copy(alloc, self.domain)?,
            workstation: Blob::copy(alloc, self.workstation)?,
            version: self.version,
        })
    }
}

/// Reads a NEGOTIATE, and copies its fields: the value that `view_negotiate` shows, or its refusal, which comes before
/// memory is looked for; `Memory` where no memory was found.
pub fn read_negotiate(alloc: Global, bytes: &[u8]) -> Result<Negotiate, MessageRefused>
    // The value or the first refusal.
    ensures exact { UpToMemory MessageRefused.Memory result (negotiate_of bytes.now) }
    // A refusal comes before memory is looked for.
    ensures refusals { (refused : MessageRefused) →
        negotiate_of bytes.now ≡ Err refused → result ≡ Err refused }
    // What is read is in the grammar.
    ensures found { IfOk result (λ value. IsNegotiate bytes.now value) }
    // What is in the grammar is read, unless memory runs out.
    ensures only { (value : Negotiate) → IsNegotiate bytes.now value →
        UpToMemory MessageRefused.Memory result (Ok value) }
    // Which refusal it is.
    ensures refused { IfErr result (λ refused.
        (refused ≡ MessageRefused.Memory) ⊎ IsNegotiateRefusal bytes.now refused) }
    // What is read can be written, and no field is too long for it.
    ensures writable { IfOk result (λ value. CanWriteNegotiate value) }
    ensures fits { IfOk result (λ value. FieldsFit (negotiate_fields value)) }
{
    Ok(view_negotiate(bytes)?.copy(alloc)?)
}

/// Whether each field fits.
fn check_lengths(value: &Negotiate) -> Result<(), WriteRefused>
    ensures value { result ≡ lengths_of (negotiate_fields value.now) }
    ensures fits { OnOk result (FieldsFit (negotiate_fields value.now)) }
{
    check_fields(&[
        (Field::Domain, value.domain.bytes()),
        (Field::Workstation, value.workstation.bytes()),
    ])
}

/// The written form of a value whose fields fit.
#[tactic(auto, unfolding(crate::specs::Negotiate::written_negotiate))]
fn negotiate_bytes(alloc: Global, value: &Negotiate) -> Result<Blob, NoMemory>
    requires { FieldsFit (negotiate_fields value.now) }
    ensures written { IfOk result (λ bytes. bytes ≡ written_negotiate value.now) }
    ensures widths { IfOk result (λ _. HasWidths value.now) }
{
    let domain_at = NEGOTIATE_SIZE + count_of(&value.version);
    let workstation_at = domain_at + value.domain.bytes().len();
    let mut out = Vec::new(alloc);
    out.extend_from_slice(&SIGNATURE)?;
    out.extend_from_slice(&1u32.to_le_bytes())?;
    out.extend_from_slice(&value.flags.to_le_bytes())?;
    put_field(&mut out, value.domain.bytes(), domain_at)?;
    put_field(&mut out, value.workstation.bytes(), workstation_at)?;
    put_bytes(&mut out, &value.version)?;
    out.extend_from_slice(value.domain.bytes())?;
    out.extend_from_slice(value.workstation.bytes())?;
    Ok(Blob::from_vec(out))
}

/// The written form, or the first field that is too long for it; what that says in the grammar's terms follows in
/// `write_negotiate`.
fn negotiate_form(alloc: Global, value: &Negotiate) -> Result<Blob, WriteRefused>
    requires { CanWriteNegotiate value.now }
    ensures exact { UpToMemory WriteRefused.Memory result
        (form_of (negotiate_fields value.now) (written_negotiate value.now)) }
    // A field that is too long is told before memory is looked for.
    ensures refusals { (refused : WriteRefused) →
        form_of (negotiate_fields value.now) (written_negotiate value.now) ≡ Err refused →
        result ≡ Err refused }
    ensures read_back { IfOk result (λ bytes. negotiate_of bytes ≡ Ok value.now) }
{
    check_lengths(value)?;
    Ok(negotiate_bytes(alloc, value)?)
}

/// Writes a NEGOTIATE in its one written form: the header, the version where there is one, and the payload without gaps
/// in the order domain, workstation.
///
/// `TooLong` of the first name, domain before workstation, of more than 65,535 bytes. `Memory` where no memory was
/// found.
pub fn write_negotiate(alloc: Global, value: &Negotiate) -> Result<Blob, WriteRefused>
    requires { CanWriteNegotiate value.now }
    // The written form or the first field that is too long.
    ensures exact { UpToMemory WriteRefused.Memory result
        (form_of (negotiate_fields value.now) (written_negotiate value.now)) }
    // `TooLong` exactly where that field is the first one, also where no memory is left.
    ensures too_long { (name : Field) → IsErrOf result (WriteRefused.TooLong name)
        ↔ IsFirstTooLong (negotiate_fields value.now) name }
    // What fits is written, as all that was read does, unless memory runs out.
    ensures fits { FieldsFit (negotiate_fields value.now) →
        UpToMemory WriteRefused.Memory result (Ok (written_negotiate value.now)) }
    // What is written is read back.
    ensures read_back { IfOk result (λ bytes. negotiate_of bytes ≡ Ok value.now) }
{
    negotiate_form(alloc, value)
}
