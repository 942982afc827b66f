//! The port: links to peers, as streams of bytes.

ghost use Rattle.std.specs.Prelude.{◌≡◌, ◌≤◌, ℕ, List, [], ◌∷◌, Option, OnErr, IfOk, IfSome, false, is_ok, is_err, if◌then◌else◌};
ghost use Rattle.std.specs.Result.{result_ok};
ghost use Rattle.outside.specs.declared.event.Happening.{Happening};
ghost use Rattle.outside.specs.Causes.{Rose};
ghost use Rattle.outside.specs.Telling.{Appends, Tells};
ghost use Rattle.outside.specs.Links.{is_linked, IsGiven, happenings_of_next};

use crate::event::Event;
use thiserror::Error;
use wire_base::NoMemory;

/// The most bytes of one `Bytes` event.
pub const MOST_EVENT_BYTES: usize = 65536;

/// A call of the outside failed. Its count of faults rose in that call.
#[derive(Clone, Copy, Debug, PartialEq, Eq, Error)]
#[error("the call failed")]
pub struct Failed;

/// Why the next event wasn't given.
#[derive(Clone, Copy, Debug, PartialEq, Eq, Error)]
pub enum PortRefused {
    /// The port failed. Its count of faults rose in this call.
    #[error("the port failed")]
    Failed,
    /// No memory was found for the event.
    #[error("no memory")]
    Memory,
}

impl From<NoMemory> for PortRefused {
    ghost use Rattle.std.specs.Prelude.{◌≡◌};
    ghost use Rattle.outside.specs.declared.port.PortRefused.TheVariants.{Memory};

    ghost from_gives = { λ _ refused. refused ≡ Memory };

    fn from(_error: NoMemory) -> PortRefused {
        PortRefused::Memory
    }
}

/// Links to peers (this project's own choice). `faults` counts the failures of `listen` and `next`, `link_faults` those
/// of `dial` and `send`; neither ever falls. `story` is, where it is told, what happened at the port, in order.
pub trait Port {
    ghost faults: { Self → ℕ };

    ghost link_faults: { Self → ℕ };

    ghost story: { Self → Option (List Happening) };

    /// Opens the listening place at the address.
    fn listen(&mut self, address: &[u8]) -> Result<(), Failed>
        ensures cause { OnErr result (Rose (faults self.old) (faults self.new)) }
        ensures faults { faults self.old ≤ faults self.new }
        ensures link_faults { link_faults self.new ≡ link_faults self.old }
        ensures told { Appends (story self.old) (story self.new)
            (if is_ok result then Happening.Listened address.now ∷ [] else []) };

    /// Gives the next event. `want` is the link that the caller waits for; any event may come.
    fn next(&mut self, want: Option<u32>) -> Result<Event, PortRefused>
        ensures cause { result ≡ Err PortRefused.Failed → Rose (faults self.old) (faults self.new) }
        ensures faults { faults self.old ≤ faults self.new }
        ensures link_faults { link_faults self.new ≡ link_faults self.old }
        ensures kind { IfOk result IsGiven }
        ensures told { Appends (story self.old) (story self.new)
            (happenings_of_next result want) };

    /// Dials the peer, and gives a link that isn't open.
    fn dial(&mut self, peer: &[u8]) -> Result<u32, Failed>
        ensures cause { OnErr result (Rose (link_faults self.old) (link_faults self.new)) }
        ensures link_faults { link_faults self.old ≤ link_faults self.new }
        ensures faults { faults self.new ≡ faults self.old }
        ensures fresh { IfOk result
            (λ link. IfSome (story self.old) (λ before. is_linked before link ≡ false)) }
        ensures told { Appends (story self.old) (story self.new)
            (Happening.Dialled peer.now (result_ok result) ∷ []) };

    /// Sends all the bytes on the link. After `Failed` nothing is told of how many went.
    fn send(&mut self, link: u32, bytes: &[u8]) -> Result<(), Failed>
        ensures cause { OnErr result (Rose (link_faults self.old) (link_faults self.new)) }
        ensures link_faults { link_faults self.old ≤ link_faults self.new }
        ensures faults { faults self.new ≡ faults self.old }
        ensures told { Appends (story self.old) (story self.new)
            (Happening.Sent link bytes.now (is_err result) ∷ []) };

    /// Closes the link.
    fn close(&mut self, link: u32)
        ensures faults { faults self.new ≡ faults self.old }
        ensures link_faults { link_faults self.new ≡ link_faults self.old }
        ensures told { Appends (story self.old) (story self.new) (Happening.Shut link ∷ []) };
}
