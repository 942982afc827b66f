//! What a member is made from.

ghost use Rattle.std.specs.Prelude.{◌≡◌, IfOk};

use secret_change::Secrets;
use std::alloc::Global;
use wire_base::{Blob, Name, NoMemory};

/// A member server of a domain: the name of its computer, its domain, the secrets of its machine account, of which one
/// is that account's NT hash (MS-NRPC 3.1.1), the address of the controller that judges its logons, and whether its
/// channel with that controller is sealed (MS-NRPC 3.3).
#[derive(Debug, Drop)]
pub struct MemberPlan {
    pub computer: Name,
    pub domain: Name,
    pub secrets: Secrets,
    pub controller: Blob,
    pub sealed: bool,
}

impl MemberPlan {
    /// An equal plan.
    pub fn copy(&self, alloc: Global) -> Result<MemberPlan, NoMemory>
        ensures { IfOk result (λ plan. plan ≡ self.now) }
    {
        Ok(MemberPlan {
            computer: self.computer.copy(alloc)?,
            domain: self.domain.copy(alloc)?,
            secrets: self.secrets.copy(),
            controller: Blob::copy(alloc, self.controller.bytes())?,
            sealed: self.sealed,
        })
    }
}
