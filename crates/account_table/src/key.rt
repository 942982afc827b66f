//! Where a value stands in the account table's document.

ghost use Rattle.std.specs.Prelude.{◌≡◌};
ghost use Rattle.account_table.specs.Keys.{word_text, top};

/// The list that an entry is of.
#[derive(Clone, Copy, Debug, PartialEq, Eq)]
pub enum Part {
    /// The document itself.
    Top,
    /// The list of users.
    User,
    /// The list of machines.
    Machine,
    /// The list of trusted domains.
    Trust,
}

/// The name of a value.
#[derive(Clone, Copy, Debug, PartialEq, Eq)]
pub enum Word {
    Domain,
    Sid,
    Lockout,
    Ntlmv2Only,
    User,
    Machine,
    Trust,
    Name,
    Rid,
    Hash,
    FullName,
    Group,
    Groups,
    Disabled,
    Locked,
    MustChange,
    Expires,
    PasswordSet,
    PasswordExpires,
    Workstations,
    ExtraSids,
    Kind,
    Controllers,
    Address,
}

/// The place of a value: the list, the entry in it from 0, and the name of the value. The document itself is entry 0 of
/// `Top`.
#[derive(Clone, Copy, Debug, PartialEq, Eq)]
pub struct Key {
    pub list: Part,
    pub entry: u32,
    pub word: Word,
}

/// The key of the document itself.
pub(crate) fn top_key(word: Word) -> Key
    ensures { result ≡ top word }
{
    Key {
        list: Part::Top,
        entry: 0,
        word,
    }
}

impl Word {
    /// The name as it stands in the document.
    pub(crate) fn text(self) -> &'static str
        ensures { result.now ≡ word_text self }
    {
        match self {
            Word::Domain => "domain",
            Word::Sid => "sid",
            Word::Lockout => "lockout",
            Word::Ntlmv2Only => "ntlmv2_only",
            Word::User => "user",
            Word::Machine => "machine",
            Word::Trust => "trust",
            Word::Name => "name",
            Word::Rid => "rid",
            Word::Hash => "hash",
            Word::FullName => "full_name",
            Word::Group => "group",
            Word::Groups => "groups",
            Word::Disabled => "disabled",
            Word::Locked => "locked",
            Word::MustChange => "must_change",
            Word::Expires => "expires",
            Word::PasswordSet => "password_set",
            Word::PasswordExpires => "password_expires",
            Word::Workstations => "workstations",
            Word::ExtraSids => "extra_sids",
            Word::Kind => "kind",
            Word::Controllers => "controllers",
            Word::Address => "address",
        }
    }
}
