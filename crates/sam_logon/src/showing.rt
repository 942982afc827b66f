//! What a logon shows of an account's password.

ghost use Rattle.std.specs.Prelude.{◌≡◌, List, ℕ};
ghost use Rattle.ntlm_responses.specs.Verification.{verified_by};
ghost use Rattle.sam_logon.specs.Rules.{Shown, shown_by_hash, shown_by_response};

use digest_parts::md4;
use logon_stubs::NetworkInfo;
use ntlm_responses::verify;

/// What a logon shows of an account's password.
pub(crate) trait Shows {
    ghost shown: { Self → Shown };

    /// The session base key under an account's NT hash, where what is shown is right.
    fn key(&self, hash: &[u8; 16]) -> Option<[u8; 16]>
        ensures { result
            ≡ verified_by ((shown self.now).right hash.now) ((shown self.now).key hash.now) };

    /// Whether what is shown is an NT response of 24 bytes.
    fn is_short(&self) -> bool
        ensures { result ≡ (shown self.now).short };
}

/// A network logon shows a response to a challenge.
impl Shows for NetworkInfo {
    ghost use Rattle.sam_logon.specs.Rules.{shown_by_response};

    ghost shown = { λ info. shown_by_response info };

    fn key(&self, hash: &[u8; 16]) -> Option<[u8; 16]> {
        verify(
            hash,
            self.user.units(),
            self.domain.units(),
            self.challenge,
            self.nt.bytes(),
        )
    }

    fn is_short(&self) -> bool {
        self.nt.bytes().len() == 24
    }
}

/// The NT hash that an interactive logon shows.
#[derive(Clone, Copy)]
pub(crate) struct HashShown {
    pub nt: [u8; 16],
}

/// An interactive logon shows the NT hash itself.
impl Shows for HashShown {
    ghost use Rattle.sam_logon.specs.Rules.{shown_by_hash};

    ghost shown = { λ hash. shown_by_hash hash.nt };

    fn key(&self, hash: &[u8; 16]) -> Option<[u8; 16]> {
        if self.nt != *hash {
            return None;
        }
        Some(md4(hash))
    }

    fn is_short(&self) -> bool {
        false
    }
}
