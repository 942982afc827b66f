//! What a member keeps.

ghost use Rattle.std.specs.Prelude.{◌≡◌};

use crate::held::Held;
use crate::plan::MemberPlan;
use channel_client::PlainChannel;
use channel_turns::Dialling;
use end_links::{Binding, Links, ShortActions};
use ntlm_messages::Authenticate;
use ntlm_seal::Session;
use rpc_units::Joiner;
use wire_base::{List, Units};

/// What a link is bound to: the accepted contexts with the limit of a fragment, and the level and the security context
/// of the bind's trailer (C706 12.6.3.1, MS-RPCE 2.2.2.11).
#[derive(Drop)]
pub struct Bound {
    pub binding: Binding,
    pub level: u8,
    pub context: u32,
}

/// Who is logged on on a link: what it is bound to, the domain and the user as one name, the exported session key, and
/// the session that signs and seals, where extended session security is agreed (MS-NLMP 3.2.5.1.2, 3.4).
#[derive(Drop)]
pub struct LoggedOn {
    pub bound: Bound,
    pub name: Units,
    pub key: [u8; 16],
    pub session: Option<Session>,
}

/// How far an accepted link is.
#[derive(Drop)]
pub enum Phase {
    /// Nothing is bound.
    Fresh,
    /// A CHALLENGE was sent, with this challenge and these flags.
    Challenged {
        bound: Bound,
        challenge: [u8; 8],
        flags: u32,
    },
    /// The logon of that place is asked; these requests wait for its outcome.
    Asked {
        bound: Bound,
        place: u32,
        held: Held,
    },
    /// A user is logged on.
    In(LoggedOn),
    /// No user is logged on; every request is answered with a fault of this status.
    Out {
        bound: Bound,
        status: u32,
    },
}

/// What is said on an accepted link so far: the fragments of an open call, and how far the link is.
#[derive(Drop)]
pub struct Talk {
    pub joiner: Joiner,
    pub phase: Phase,
}

/// A logon that is asked: the link that it came on, the challenge of that link, the AUTHENTICATE and the agreed flags.
/// It is kept until its outcome is told, also where the link is closed by then.
#[derive(Drop)]
pub struct Logon {
    pub link: u32,
    pub challenge: [u8; 8],
    pub message: Authenticate,
    pub agreed: u32,
}

/// What logons need: the plan, the one channel that they share, and the logons that are asked, by their places.
pub struct Logons {
    pub plan: MemberPlan,
    pub channel: PlainChannel,
    pub asked: List<(u32, Logon)>,
}

impl Drop for Logons {
    // The drop that would be derived. Written out, it is one call wherever a value that holds a `Logons` is let go,
    // which keeps the proofs of those places short.
    fn drop(self) {
        let Logons {
            plan: _plan,
            channel: _channel,
            asked: _asked,
        } = self;
    }
}

impl Logons {
    /// The plan, the channel, and the logons that are asked. It takes no memory.
    pub(crate) fn apart(self) -> (MemberPlan, PlainChannel, List<(u32, Logon)>)
        ensures { result ≡ (self.plan, self.channel, self.asked) }
    {
        let Logons {
            plan,
            channel,
            asked,
        } = self;
        (plan, channel, asked)
    }
}

/// What a member whose channel seals keeps beside that channel: whether the link of the turn that is out is sealed.
#[derive(Clone, Copy, Debug, PartialEq, Eq)]
pub struct TurnSealing {
    pub is_link_sealed: bool,
}

/// What a member keeps while it isn't stopped. One whose channel seals nothing keeps nothing of sealing.
#[derive(Drop)]
pub struct Running {
    pub logons: Logons,
    pub links: Links<Talk>,
    pub dialling: Dialling,
    pub sealing: Option<TurnSealing>,
}

/// A member at work on an accepted link, which is out of its map then: its number, what logons need, and the actions so
/// far.
#[derive(Drop)]
pub struct AtLink {
    pub link: u32,
    pub logons: Logons,
    pub actions: ShortActions,
}

/// A member at work: what logons need, the accepted links, and the actions so far.
#[derive(Drop)]
pub struct Work {
    pub logons: Logons,
    pub links: Links<Talk>,
    pub actions: ShortActions,
}
