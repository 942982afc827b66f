//! What seals the units of a channel.

ghost use Rattle.std.specs.Prelude.{◌≡◌, IfOk, is_some};
ghost use Rattle.channel_sealing.specs.Frames.{seal_all};
ghost use Rattle.channel_client.specs.Sealing.{CanSealOn, frames_left, is_opened, no_seal, sealing_for, sealing_left, wire_of, with_confounder};

use crate::short_frames::ShortFrames;
use crate::state::{Sealing, Standing};
use channel_sealing::bind_value;
use netlogon_seal::NlSeal;
use std::alloc::Global;
use wire_base::{Name, NoMemory};

/// The flags that a channel offers that seals (MS-NRPC 3.1.4.2): secure RPC besides what every channel offers.
pub(crate) const SECURE_FLAGS: u32 = 0x4000_41FF;

/// The flags that it needs granted: secure RPC and RC4.
pub(crate) const NEEDED_SECURE_FLAGS: u32 = 0x4000_0004;

/// An end that seals nothing.
pub(crate) fn no_seal() -> NlSeal
    ensures { result ≡ no_seal }
{
    NlSeal::new([0; 16], true)
}

/// What seals a channel before it was opened, where it is one that seals: of this computer, in that domain.
pub(crate) fn sealing_for(
    alloc: Global,
    seals: bool,
    domain: &Name,
    computer: &Name,
) -> Result<Option<Sealing>, NoMemory>
    ensures value { IfOk result (λ sealing. sealing ≡ sealing_for seals domain.now computer.now) }
    ensures fits { IfOk result (λ sealing. CanSealOn sealing) }
{
    if !seals {
        return Ok(None);
    }
    let bind_value = bind_value(alloc, domain, computer)?;
    Ok(Some(Sealing {
        bind_value,
        confounder: [0; 8],
        seal: no_seal(),
    }))
}

/// Whether the turn that the channel needs next is sealed: an open channel alone is.
pub(crate) fn is_wire_sealed(sealing: &Option<Sealing>, standing: &Standing) -> bool
    ensures { result ≡ is_some (wire_of sealing.now standing.now) }
{
    match sealing {
        None => false,
        Some(_) => match standing {
            Standing::Open(_) => true,
            Standing::Nothing | Standing::Half { .. } => false,
        },
    }
}

/// Whether the channel is open.
pub(crate) fn is_opened(standing: &Standing) -> bool
    ensures { result ≡ is_opened standing.now }
{
    match standing {
        Standing::Open(_) => true,
        Standing::Nothing | Standing::Half { .. } => false,
    }
}

/// Keeps a challenge that is drawn for a turn on an open channel as the confounder of its call.
pub(crate) fn with_confounder(opened: bool, challenge: [u8; 8], sealing: Sealing) -> Sealing
    ensures value { result ≡ with_confounder opened challenge sealing }
    ensures bind_value { result.bind_value ≡ sealing.bind_value }
{
    if !opened {
        return sealing;
    }
    Sealing {
        confounder: challenge,
        ..sealing
    }
}

/// Seals the frames of a request. None exactly where they can't be; the end is then one that seals nothing. It takes no
/// memory.
pub(crate) fn seal_short(
    alloc: Global,
    sealing: &mut Sealing,
    frames: ShortFrames,
) -> Option<ShortFrames>
    ensures frames { result ≡ frames_left
        (seal_all sealing.old.seal sealing.old.confounder frames) }
    ensures sealing { sealing.new ≡ sealing_left
        (seal_all sealing.old.seal sealing.old.confounder frames) sealing.old }
    ensures bind_value { sealing.new.bind_value ≡ sealing.old.bind_value }
{
    match frames.seal(alloc, &mut sealing.seal, sealing.confounder) {
        Some(sealed) => Some(sealed),
        None => {
            sealing.seal = no_seal();
            None
        }
    }
}
