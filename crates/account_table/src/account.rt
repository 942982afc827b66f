//! An account of the domain, a trusted domain, and what the table says of all accounts.

use wire_base::{Blob, List, Name, Names, Numbers, Sid};

/// Security identifiers.
pub type Sids = List<Sid>;

/// What a table says of all its accounts (this project's own choice).
#[derive(Clone, Copy, Debug, PartialEq, Eq)]
pub struct Policy {
    /// From how many bad passwords on an account is locked out; 0 is never.
    pub lockout: u16,
    /// Whether an NT response of 24 bytes, as NTLMv1's (MS-NLMP 3.3.1), is refused.
    pub ntlmv2_only: bool,
}

/// What an account stands for (MS-NRPC 2.2.1.3.13): a user, or a computer with a secure channel to the domain
/// controller.
#[derive(Clone, Copy, Debug, PartialEq, Eq)]
pub enum Kind {
    /// A person who logs on.
    User,
    /// A member of the domain.
    Workstation,
    /// A backup domain controller.
    Backup,
    /// The controllers of a domain that trusts this one.
    Trust,
}

/// An account, with the fields that the account table's document gives it (this project's own choice), and the count of
/// bad passwords. Moments are in units of 100 ns since 1601, and 0 is none.
#[derive(Debug, Drop)]
pub struct Account {
    pub name: Name,
    /// The relative identifier: with the domain's identifier in front it is the account's. A computer has 0.
    pub rid: u32,
    /// The NT hash of the password or secret.
    pub hash: [u8; 16],
    pub full_name: Name,
    /// The relative identifier of the primary group.
    pub group: u32,
    /// The relative identifiers of the groups, at most 256.
    pub groups: Numbers,
    pub disabled: bool,
    pub locked: bool,
    pub must_change: bool,
    /// The moment from which the account has expired.
    pub expires: u64,
    pub password_set: u64,
    /// The moment from which the password has expired.
    pub password_expires: u64,
    /// The computers from which the account logs on, at most 8; any where there are none.
    pub workstations: Names,
    /// The identifiers that its user has beside the groups of the domain, at most 16.
    pub extra_sids: Sids,
    /// How many responses didn't verify since the document was read, or since the last grant.
    pub bad_count: u16,
    /// The controllers that open a channel by the account, at most 8; of kind `Trust` alone.
    pub controllers: Names,
    /// Whether the hash was set since the document was read.
    pub changed: bool,
    pub kind: Kind,
}

/// A domain that this one trusts (this project's own choice).
#[derive(Debug, Drop)]
pub struct Trust {
    /// The trusted domain's name.
    pub domain: Name,
    /// The secret of this domain's account there.
    pub hash: [u8; 16],
    /// Where its controller is dialled.
    pub address: Blob,
}

/// Trusted domains, in the order of the document.
pub type Trusts = List<Trust>;
