//! Laws of the definitions that contracts cite: that the constants have the standard's values, and what is known of
//! every credential. Each function does nothing, and its clauses are the laws.

ghost use Rattle.std.specs.Prelude.{◌≡◌, ℕ, List};
ghost use Rattle.des_cipher.specs.Des.{IsBlock};
ghost use Rattle.channel_keys.specs.ChannelTypes.{workstation_channel, trusted_domain_channel, backup_controller_channel};
ghost use Rattle.channel_keys.specs.Credentials.{cred_of, cred_back_of};
ghost use Rattle.channel_keys.specs.Flags.{rc4_flag, strong_key_flag, aes_flag, secure_rpc_flag, supported_flags};

use crate::channel_types::{
    BACKUP_CONTROLLER_CHANNEL, TRUSTED_DOMAIN_CHANNEL, WORKSTATION_CHANNEL,
};
use crate::flags::{AES, RC4, SECURE_RPC, STRONG_KEY, SUPPORTED_FLAGS};

/// The flags have the values of MS-NRPC 3.1.4.2, and those supported are this project's own choice.
pub fn flags_have_their_values()
    ensures rc4 { RC4 ≡ rc4_flag }
    ensures strong_key { STRONG_KEY ≡ strong_key_flag }
    ensures aes { AES ≡ aes_flag }
    ensures secure_rpc { SECURE_RPC ≡ secure_rpc_flag }
    ensures supported { SUPPORTED_FLAGS ≡ supported_flags }
{}

/// The types of channels have the values of MS-NRPC 2.2.1.3.13.
pub fn channel_types_have_their_values()
    ensures workstation { WORKSTATION_CHANNEL ≡ workstation_channel }
    ensures trusted_domain { TRUSTED_DOMAIN_CHANNEL ≡ trusted_domain_channel }
    ensures backup_controller { BACKUP_CONTROLLER_CHANNEL ≡ backup_controller_channel }
{}

/// A credential is a block of 8 bytes, and so is what it is the credential of; each undoes the other, so under one key
/// two blocks never have one credential (MS-NRPC 3.1.4.4.2).
pub fn credentials_are_one_to_one()
    ensures block { (key input : List ℕ) → IsBlock (cred_of key input) }
    ensures back_block { (key output : List ℕ) → IsBlock (cred_back_of key output) }
    ensures undone { (key input : List ℕ) → IsBlock input
        → cred_back_of key (cred_of key input) ≡ input }
    ensures conversely { (key output : List ℕ) → IsBlock output
        → cred_of key (cred_back_of key output) ≡ output }
    ensures one_to_one { (key one other : List ℕ) → IsBlock one → IsBlock other
        → cred_of key one ≡ cred_of key other → one ≡ other }
{}
