//! What a client is to do.

ghost use Rattle.std.specs.Prelude.{◌≡◌, ◌≤◌, IfOk};
ghost use Rattle.unit_security.specs.Levels.{is_sealed};
ghost use Rattle.logon_client.specs.Plans.{CanLogOn, offer_of};

use ntlm_flags::{OFFERED_FLAGS, OFFERED_FLAGS_V1};
use std::alloc::Global;
use std::marker::Model;
use unit_security::is_sealed;
use wire_base::{Blob, NoMemory, Units};

/// The responses that a client gives (MS-NLMP 3.3.1, 3.3.2).
#[derive(Clone, Copy, Debug, PartialEq, Eq)]
pub enum AuthKind {
    /// NTLMv1 without extended session security.
    V1,
    /// NTLMv1 with extended session security.
    V1Ess,
    /// NTLMv2.
    V2,
}

impl AuthKind {
    /// The flags of the NEGOTIATE.
    pub(crate) fn offer(self) -> u32
        ensures { result ≡ offer_of self }
    {
        match self {
            AuthKind::V1 => OFFERED_FLAGS_V1,
            AuthKind::V1Ess | AuthKind::V2 => OFFERED_FLAGS,
        }
    }
}

/// A logon, and what is called under it (this project's own choice).
#[derive(Debug, Drop)]
pub struct ClientPlan {
    /// The address of the member server.
    pub server: Blob,
    /// The account's domain, at most 64 units of UTF-16.
    pub domain: Units,
    /// The account's name, at most 64 units.
    pub user: Units,
    /// The name of the client's computer, at most 64 units.
    pub workstation: Units,
    /// The NT hash of the password (MS-NLMP 3.3.1).
    pub hash: [u8; 16],
    /// The level of authentication: connect 2, integrity 5 or privacy 6 (MS-RPCE 2.2.1.1.8).
    pub level: u8,
    /// The responses. Without extended session security the level is connect.
    pub auth: AuthKind,
    /// How many bytes are echoed, at most 4,096; 0 where none are.
    pub echo: u32,
}

impl ClientPlan {
    /// An equal plan.
    pub fn copy(&self, alloc: Global) -> Result<ClientPlan, NoMemory>
        ensures { IfOk result (λ plan. plan ≡ self.now) }
    {
        Ok(ClientPlan {
            server: Blob::copy(alloc, self.server.bytes())?,
            domain: self.domain.duplicate(alloc)?,
            user: self.user.duplicate(alloc)?,
            workstation: self.workstation.duplicate(alloc)?,
            hash: self.hash,
            level: self.level,
            auth: self.auth,
            echo: self.echo,
        })
    }
}

/// A plan that a client can follow, seen as the plan.
#[derive(Debug)]
pub struct Task {
    plan: ClientPlan,
}

impl Drop for Task {
    // The drop that would be derived. Written out, it is one call wherever a value that holds a `Task` is let go, which
    // keeps the proofs of those places short.
    fn drop(self) {
        let Task { plan: _plan } = self;
    }
}

impl Model for Task {
    ghost use Rattle.logon_client.specs.declared.plan.ClientPlan.{ClientPlan as Plan};
    ghost use Rattle.logon_client.specs.Plans.{CanLogOn};

    ghost Value = { Plan };

    ghost view = { λ t. t.plan };

    ghost invariant = { λ t. CanLogOn t.plan };
}

impl Task {
    /// The task of a plan.
    pub fn new(plan: ClientPlan) -> Task
        requires { CanLogOn plan }
        ensures { result ≡ plan }
    {
        Task { plan }
    }

    /// The plan.
    pub fn plan(&self) -> &ClientPlan
        ensures value { result.now ≡ self.now }
        ensures can { CanLogOn self.now }
    {
        &self.plan
    }

    /// The level of authentication.
    pub fn level(&self) -> u8
        ensures { result ≡ self.now.level }
    {
        self.plan.level
    }

    /// Whether stubs are sealed.
    pub fn seals(&self) -> bool
        ensures { result ≡ is_sealed self.now.level }
    {
        is_sealed(self.plan.level)
    }

    /// How many bytes are echoed.
    pub fn echo(&self) -> u32
        ensures value { result ≡ self.now.echo }
        ensures most { result ≤ 4096 }
    {
        self.plan.echo
    }
}
