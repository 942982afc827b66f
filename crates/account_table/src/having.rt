//! What the types of an account's and a trusted domain's parts give of themselves, which is known by calls that do
//! nothing.

ghost use Rattle.std.specs.Prelude.{◌≡◌, ◌^◌, ◌<◌, All};
ghost use Rattle.wire_base.specs.Names.{IsName};
ghost use Rattle.account_table.specs.Ranges.{InRangeAccount};
ghost use Rattle.account_table.specs.TableForms.{HasAccountForm, HasFewNames, HasTrustForm, IsBlock, IsByte};

use crate::account::{Account, Trust};
use wire_base::Name;

/// The account has the form that its type gives it.
pub(crate) fn account_has_form(account: &Account)
    requires range { InRangeAccount account.now }
    requires names { HasFewNames account.now }
    ensures { HasAccountForm account.now }
{
    is_hash(account.hash);
    names_have_forms(account.workstations.items());
    names_have_forms(account.controllers.items());
}

/// Each trusted domain has the form that its type gives it.
pub(crate) fn trusts_have_forms(trusts: &[Trust])
    ensures { All HasTrustForm trusts.now }
{
    for trust in trusts {
        trust_has_form(trust);
    }
}

/// The trusted domain has that form.
fn trust_has_form(trust: &Trust)
    ensures { HasTrustForm trust.now }
{
    let _domain = trust.domain.bytes();
    is_hash(trust.hash);
    are_bytes(trust.address.bytes());
}

/// Each is a name, which its type gives. It is called so that this is known.
pub fn names_have_forms(names: &[Name])
    ensures { All IsName names.now }
{
    for name in names {
        let _bytes = name.bytes();
    }
}

/// A hash has 16 bytes, which its type gives. It is called so that this is known.
pub fn is_hash(hash: [u8; 16])
    ensures { IsBlock 16 hash }
{
    are_bytes(hash.as_slice());
}

/// Bytes are below 2^8, which their type gives. It is called so that this is known.
pub fn are_bytes(bytes: &[u8])
    ensures { All IsByte bytes.now }
{}
