//! What a controller keeps of links that are sealed.

ghost use Rattle.std.specs.Prelude.{◌≡◌, IfOk, is_some};
ghost use Rattle.domain_controller.specs.Sealing.{link_sealed, no_sealing, seal_of_link};

use controller_calls::{ChannelSeals, ForwardedCall, LinkSeal, ReplySeal, no_seals};
use std::alloc::Global;
use wire_base::{List, NoMemory, find_number, put_number};

/// A logon that came on a sealed link and was asked of another controller: how its reply is sealed, and where it goes.
#[derive(Drop)]
pub struct SealedCall {
    pub reply: ReplySeal,
    pub call: ForwardedCall,
}

/// Logons from sealed links that were asked of other controllers, each by the number of the trust and the place there.
pub type AskedCalls = List<((usize, u32), SealedCall)>;

/// What a controller keeps that can seal (MS-NRPC 3.3): the ends of channels that seal; which links are sealed; and the
/// logons from those that were asked of other controllers.
#[derive(Drop)]
pub struct Sealing {
    pub seals: ChannelSeals,
    pub links: List<(u32, LinkSeal)>,
    pub asked: AskedCalls,
}

/// What is kept to seal at first: no channel was opened. It takes no memory.
pub(crate) fn no_sealing(alloc: Global) -> Sealing
    ensures { result ≡ no_sealing }
{
    Sealing {
        seals: no_seals(alloc),
        links: List::new(alloc),
        asked: List::new(alloc),
    }
}

/// The seal of the link of that number, where it is sealed.
pub(crate) fn seal_of_link(
    alloc: Global,
    number: u32,
    sealing: &Sealing,
) -> Result<Option<LinkSeal>, NoMemory>
    ensures { IfOk result (λ seal. seal ≡ seal_of_link number sealing.now) }
{
    match find_number(sealing.links.items(), number) {
        Some(seal) => Ok(Some(copy_seal(alloc, seal)?)),
        None => Ok(None),
    }
}

/// The seal of a link again.
fn copy_seal(alloc: Global, seal: &LinkSeal) -> Result<LinkSeal, NoMemory>
    ensures { IfOk result (λ copy. copy ≡ seal.now) }
{
    Ok(LinkSeal {
        computer: seal.computer.duplicate(alloc)?,
        opening: seal.opening,
        context: seal.context,
        receive: seal.receive,
    })
}

/// Whether the link of that number is sealed. It takes no memory.
pub(crate) fn is_sealed(number: u32, sealing: &Sealing) -> bool
    ensures { result ≡ is_some (seal_of_link number sealing.now) }
{
    find_number(sealing.links.items(), number).is_some()
}

/// What is kept to seal, where a bind sealed the link of that number or none did.
pub(crate) fn link_sealed(
    bound: Option<LinkSeal>,
    number: u32,
    sealing: Sealing,
) -> Result<Sealing, NoMemory>
    ensures { IfOk result (λ s. s ≡ link_sealed bound number sealing) }
{
    let Some(seal) = bound else {
        return Ok(sealing);
    };
    let Sealing {
        seals,
        links,
        asked,
    } = sealing;
    Ok(Sealing {
        seals,
        links: put_number(links, number, seal)?,
        asked,
    })
}
