//! What is measured.

/// An operation on the fixed input of `Bench`.
#[derive(Clone, Copy, Debug, PartialEq, Eq)]
pub enum Operation {
    /// MD4 of 16 bytes.
    Md4Short,
    /// MD4 of 16,384 bytes.
    Md4Long,
    /// One block of DES under a kept schedule, each the block that the one before gave.
    DesBlock,
    /// The key schedule of a DES key of 7 bytes, and one block.
    DesKeyBlock,
    /// The key schedule of an RC4 key of 16 bytes, and 16 bytes of its stream.
    Rc4Key,
    /// 16,384 bytes of a running RC4 stream.
    Rc4Long,
    /// HMAC-MD5 of 40 bytes under a key of 16 bytes.
    HmacShort,
    /// HMAC-MD5 of 16,384 bytes under a key of 16 bytes.
    HmacLong,
    /// The credential of 8 bytes under a session key.
    Credential,
    /// The judgement on a right authenticator: two credentials under a kept key.
    JudgeAuthenticator,
    /// The check of an NTLMv1 response of 24 bytes.
    VerifyV1,
    /// The check of an NTLMv2 response of 292 bytes, with names of 36 bytes.
    VerifyV2,
    /// Reading an AUTHENTICATE message of 124 bytes.
    ReadAuthenticate,
    /// Viewing the AUTHENTICATE message of 124 bytes, whose fields are lent.
    ViewAuthenticate,
    /// Viewing the AUTHENTICATE message by a function without contracts, for comparison.
    AuthenticatePlain,
    /// Reading a request of RPC with 1,024 stub bytes.
    ReadUnit,
    /// Viewing the request with 1,024 stub bytes, whose stub is lent.
    ViewUnit,
    /// Viewing the request by a function without contracts, for comparison.
    ViewPlain,
    /// Reading the stub of a request to log on, with two responses of 24 bytes.
    ReadLogonCall,
    /// Making the reply to a granted logon, with three texts and one group, and writing its stub.
    WriteLogonReply,
    /// A request to log on at a controller, from its bytes to those of the reply that grants it.
    ControllerLogon,
    /// A logon at a member beside its controller, from the client's bind to the member's word that it is in, over an
    /// open channel.
    MemberLogon,
    /// Sealing a range of 1,024 bytes at one side, and opening it at the other.
    Seal,
    /// Reading a table of 10,000 accounts.
    ReadTable,
    /// A look-up by name in that table.
    FindAccount,
    /// A drill of 10,000 moves.
    DrillShort,
    /// A drill of 100,000 moves.
    DrillLong,
}

/// All operations, in the order in which they are printed.
pub const OPERATIONS: [Operation; 27] = [
    Operation::Md4Short,
    Operation::Md4Long,
    Operation::DesBlock,
    Operation::DesKeyBlock,
    Operation::Rc4Key,
    Operation::Rc4Long,
    Operation::HmacShort,
    Operation::HmacLong,
    Operation::Credential,
    Operation::JudgeAuthenticator,
    Operation::VerifyV1,
    Operation::VerifyV2,
    Operation::ReadAuthenticate,
    Operation::ViewAuthenticate,
    Operation::AuthenticatePlain,
    Operation::ReadUnit,
    Operation::ViewUnit,
    Operation::ViewPlain,
    Operation::ReadLogonCall,
    Operation::WriteLogonReply,
    Operation::ControllerLogon,
    Operation::MemberLogon,
    Operation::Seal,
    Operation::ReadTable,
    Operation::FindAccount,
    Operation::DrillShort,
    Operation::DrillLong,
];

impl Operation {
    /// The name that is printed.
    pub fn name(self) -> &'static str {
        match self {
            Operation::Md4Short => "md4-16",
            Operation::Md4Long => "md4-16k",
            Operation::DesBlock => "des-block",
            Operation::DesKeyBlock => "des-key-block",
            Operation::Rc4Key => "rc4-key-16",
            Operation::Rc4Long => "rc4-16k",
            Operation::HmacShort => "hmac-40",
            Operation::HmacLong => "hmac-16k",
            Operation::Credential => "cred",
            Operation::JudgeAuthenticator => "judge-authenticator",
            Operation::VerifyV1 => "verify-v1",
            Operation::VerifyV2 => "verify-v2",
            Operation::ReadAuthenticate => "read-authenticate",
            Operation::ViewAuthenticate => "view-authenticate",
            Operation::AuthenticatePlain => "authenticate-plain",
            Operation::ReadUnit => "read-unit",
            Operation::ViewUnit => "view-unit",
            Operation::ViewPlain => "view-plain",
            Operation::ReadLogonCall => "read-logon-call",
            Operation::WriteLogonReply => "write-logon-reply",
            Operation::ControllerLogon => "controller-logon",
            Operation::MemberLogon => "member-logon",
            Operation::Seal => "seal-1k",
            Operation::ReadTable => "table-10k",
            Operation::FindAccount => "find-10k",
            Operation::DrillShort => "drill-10k",
            Operation::DrillLong => "drill-100k",
        }
    }
}
