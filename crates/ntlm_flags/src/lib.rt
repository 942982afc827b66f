//! The negotiate flags of NTLM (MS-NLMP 2.2.2.5), which messages, responses and sessions all go by.
#![tactic(auto)]

ghost use Rattle.std.specs.Prelude.{◌≡◌, ◌+◌, ◌&&◌, ℕ, bit_and, bit_or};
ghost use Rattle.ntlm_flags.specs.Flags as ms;
ghost use Rattle.ntlm_flags.specs.Flags.{has_flag, challenge_flags, agreed_flags};
ghost use Rattle.ntlm_flags.specs.declared.TheConstants as code;

/// Texts are UTF-16LE.
pub const NTLMSSP_NEGOTIATE_UNICODE: u32 = 0x0000_0001;
/// Texts are in the OEM character set.
pub const NTLM_NEGOTIATE_OEM: u32 = 0x0000_0002;
/// The CHALLENGE is to name its target.
pub const NTLMSSP_REQUEST_TARGET: u32 = 0x0000_0004;
/// Session keys for signing.
pub const NTLMSSP_NEGOTIATE_SIGN: u32 = 0x0000_0010;
/// Session keys for sealing.
pub const NTLMSSP_NEGOTIATE_SEAL: u32 = 0x0000_0020;
/// The NTLM protocol.
pub const NTLMSSP_NEGOTIATE_NTLM: u32 = 0x0000_0200;
/// NEGOTIATE carries a domain name.
pub const NTLMSSP_NEGOTIATE_OEM_DOMAIN_SUPPLIED: u32 = 0x0000_1000;
/// NEGOTIATE carries a workstation name.
pub const NTLMSSP_NEGOTIATE_OEM_WORKSTATION_SUPPLIED: u32 = 0x0000_2000;
/// A signature on every message.
pub const NTLMSSP_NEGOTIATE_ALWAYS_SIGN: u32 = 0x0000_8000;
/// The target is a domain.
pub const NTLMSSP_TARGET_TYPE_DOMAIN: u32 = 0x0001_0000;
/// The target is a server.
pub const NTLMSSP_TARGET_TYPE_SERVER: u32 = 0x0002_0000;
/// Extended session security.
pub const NTLMSSP_NEGOTIATE_EXTENDED_SESSIONSECURITY: u32 = 0x0008_0000;
/// CHALLENGE carries a list of AV_PAIRs.
pub const NTLMSSP_NEGOTIATE_TARGET_INFO: u32 = 0x0080_0000;
/// The version field is filled.
pub const NTLMSSP_NEGOTIATE_VERSION: u32 = 0x0200_0000;
/// Session keys of 128 bits.
pub const NTLMSSP_NEGOTIATE_128: u32 = 0x2000_0000;
/// AUTHENTICATE carries an encrypted session key.
pub const NTLMSSP_NEGOTIATE_KEY_EXCH: u32 = 0x4000_0000;
/// Session keys of 56 bits.
pub const NTLMSSP_NEGOTIATE_56: u32 = 0x8000_0000;

/// What a client's NEGOTIATE offers (this project's own choice).
pub const OFFERED_FLAGS: u32 = 0xE008_8235;
/// What it offers for NTLMv1 responses without extended session security (this project's own choice).
pub const OFFERED_FLAGS_V1: u32 = 0xE000_8235;
/// What a member's CHALLENGE answers of the flags that are offered (this project's own choice).
pub const ANSWERED_FLAGS: u32 = 0xE008_8235;
/// What it says besides: its target is a domain, and it carries target information (this project's own choice).
pub const TARGET_FLAGS: u32 = 0x0081_0000;

/// The flags have their values of MS-NLMP 2.2.2.5.
pub fn flags_have_their_values()
    ensures unicode { code.NTLMSSP_NEGOTIATE_UNICODE ≡ ms.negotiate_unicode }
    ensures oem { code.NTLM_NEGOTIATE_OEM ≡ ms.negotiate_oem }
    ensures target { code.NTLMSSP_REQUEST_TARGET ≡ ms.request_target }
    ensures sign { code.NTLMSSP_NEGOTIATE_SIGN ≡ ms.negotiate_sign }
    ensures seal { code.NTLMSSP_NEGOTIATE_SEAL ≡ ms.negotiate_seal }
    ensures ntlm { code.NTLMSSP_NEGOTIATE_NTLM ≡ ms.negotiate_ntlm }
    ensures domain_supplied { code.NTLMSSP_NEGOTIATE_OEM_DOMAIN_SUPPLIED
        ≡ ms.negotiate_oem_domain_supplied }
    ensures workstation_supplied { code.NTLMSSP_NEGOTIATE_OEM_WORKSTATION_SUPPLIED
        ≡ ms.negotiate_oem_workstation_supplied }
    ensures always_sign { code.NTLMSSP_NEGOTIATE_ALWAYS_SIGN ≡ ms.negotiate_always_sign }
    ensures domain { code.NTLMSSP_TARGET_TYPE_DOMAIN ≡ ms.target_type_domain }
    ensures server { code.NTLMSSP_TARGET_TYPE_SERVER ≡ ms.target_type_server }
    ensures extended { code.NTLMSSP_NEGOTIATE_EXTENDED_SESSIONSECURITY
        ≡ ms.negotiate_extended_sessionsecurity }
    ensures info { code.NTLMSSP_NEGOTIATE_TARGET_INFO ≡ ms.negotiate_target_info }
    ensures version { code.NTLMSSP_NEGOTIATE_VERSION ≡ ms.negotiate_version }
    ensures bits_128 { code.NTLMSSP_NEGOTIATE_128 ≡ ms.negotiate_128 }
    ensures key_exchange { code.NTLMSSP_NEGOTIATE_KEY_EXCH ≡ ms.negotiate_key_exch }
    ensures bits_56 { code.NTLMSSP_NEGOTIATE_56 ≡ ms.negotiate_56 }
{}

/// What the ends of this project offer and answer, flag by flag.
pub fn offers_and_answers()
    ensures offered { code.OFFERED_FLAGS ≡ ms.offered_flags }
    ensures offered_v1 { code.OFFERED_FLAGS_V1 ≡ ms.offered_flags_v1 }
    ensures answered { code.ANSWERED_FLAGS ≡ ms.answered_flags }
    ensures target { code.TARGET_FLAGS ≡ ms.target_flags }
    ensures offered_are { ms.offered_flags ≡ ms.negotiate_unicode + ms.request_target
        + ms.negotiate_sign + ms.negotiate_seal + ms.negotiate_ntlm + ms.negotiate_always_sign
        + ms.negotiate_extended_sessionsecurity + ms.negotiate_128 + ms.negotiate_key_exch
        + ms.negotiate_56 }
    ensures offered_v1_are { ms.offered_flags
        ≡ ms.offered_flags_v1 + ms.negotiate_extended_sessionsecurity }
    ensures answered_are { ms.answered_flags ≡ ms.offered_flags }
    ensures target_are { ms.target_flags ≡ ms.target_type_domain + ms.negotiate_target_info }
{}

/// A flag is agreed exactly where it stands in both messages. One that says nothing of the target stands in a member's
/// CHALLENGE exactly where it is offered and among those that are answered.
pub fn flags_of_two()
    ensures agreed { (one other flag : ℕ) →
        has_flag (agreed_flags one other) flag ≡ (has_flag one flag && has_flag other flag) }
    ensures challenge { (offered flag : ℕ) → bit_and ms.target_flags flag ≡ 0 →
        has_flag (challenge_flags offered) flag
        ≡ (has_flag offered flag && has_flag ms.answered_flags flag) }
{}

/// Whether a flag is set among the flags of a message.
pub fn has_flag(flags: u32, flag: u32) -> bool
    ensures { result ≡ has_flag flags flag }
{
    flags & flag == flag
}

/// The flags of a member's CHALLENGE, by those that the NEGOTIATE offers (this project's own choice).
pub fn challenge_flags(offered: u32) -> u32
    ensures { result ≡ challenge_flags offered }
{
    offered & ANSWERED_FLAGS | TARGET_FLAGS
}

/// The flags that stand in both of two messages.
pub fn agreed_flags(one: u32, other: u32) -> u32
    ensures { result ≡ agreed_flags one other }
{
    one & other
}
