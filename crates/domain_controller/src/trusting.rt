//! What a controller keeps of the logons that it asks of the controllers of trusted domains.

ghost use Rattle.std.specs.Prelude.{◌≡◌, ◌≤◌, IfOk, length};
ghost use Rattle.domain_controller.specs.Trusting.{account_there, first_trusting, fresh_requesters, no_trusting, trust_caller};
ghost use Rattle.channel_client.specs.Machine.{fresh_requester};

use crate::sealed::Sealing;
use crate::state::Talk;
use account_table::{Table, Trust};
use channel_client::PlainChannel;
use channel_turns::Dialling;
use controller_calls::{ForwardedCall, Work};
use end_links::Links;
use std::alloc::Global;
use wire_base::{List, Name, NoMemory, Units};

/// The type of channel of a trusted domain's controllers (MS-NRPC 2.2.1.3.13).
const TRUSTED_DOMAIN_CHANNEL: u16 = 4;

/// Logons that were asked, each by the number of the trust and the place there.
pub type ForwardedCalls = List<((usize, u32), ForwardedCall)>;

/// Who asks the controllers of trusted domains (the client of MS-NRPC 3.1.4 and 3.5.4), one for each trust in the
/// table's order; and which logons were asked (this project's own choice).
#[derive(Drop)]
pub struct Queues {
    pub requesters: List<PlainChannel>,
    pub forwarded: ForwardedCalls,
}

/// What a controller keeps of logons that it asks of others (this project's own choice): the queues, and the turn that
/// is out, with the number of the trust whose turn it is, which says nothing where none is out, and its link. Beside it
/// is what is kept to seal, where this controller can seal.
#[derive(Drop)]
pub struct Trusting {
    pub queues: Queues,
    pub turn_of: usize,
    pub dialling: Dialling,
    pub sealing: Option<Sealing>,
}

/// What answers calls at a controller, and the queues beside it (this project's own choice).
#[derive(Drop)]
pub struct TrustWork {
    pub work: Work,
    pub queues: Queues,
}

/// What a controller at work has beside its accounts (this project's own choice): what answers calls, the links, and
/// the turn that is out.
#[derive(Drop)]
pub struct Parts {
    pub work: TrustWork,
    pub links: Links<Talk>,
    pub turn_of: usize,
    pub dialling: Dialling,
}

/// What is kept of logons that are asked of others at a controller that can ask nobody: nothing.
pub(crate) fn no_trusting(alloc: Global) -> Trusting
    ensures { result ≡ no_trusting }
{
    Trusting {
        queues: Queues {
            requesters: List::new(alloc),
            forwarded: List::new(alloc),
        },
        turn_of: 0,
        dialling: Dialling::Nothing,
        sealing: None,
    }
}

/// What a controller of that name over these accounts keeps at first of logons that it asks of others: one end that
/// asks for each trust, at which nobody waits.
pub(crate) fn first_trusting(
    alloc: Global,
    table: &Table,
    name: &Name,
) -> Result<Trusting, NoMemory>
    ensures { IfOk result (λ trusting. trusting ≡ first_trusting table.now name.now) }
{
    Ok(Trusting {
        queues: Queues {
            requesters: fresh_requesters(alloc, table, name)?,
            forwarded: List::new(alloc),
        },
        turn_of: 0,
        dialling: Dialling::Nothing,
        sealing: None,
    })
}

/// The ends that ask the controllers of the table's trusts at first: one for each, in the table's order, with no
/// channel yet.
fn fresh_requesters(
    alloc: Global,
    table: &Table,
    name: &Name,
) -> Result<List<PlainChannel>, NoMemory>
    ensures { IfOk result (λ requesters. requesters ≡ fresh_requesters table.now name.now) }
{
    let mut requesters = Vec::new(alloc);
    for trust in table.trusts() {
        requesters.push(fresh_requester(alloc, table, name, trust)?)?;
    }
    Ok(List::from_vec(requesters))
}

/// The end that asks the controller of a trusted domain at first: it has no channel yet.
fn fresh_requester(
    alloc: Global,
    table: &Table,
    name: &Name,
    trust: &Trust,
) -> Result<PlainChannel, NoMemory>
    ensures { IfOk result (λ requester. requester
        ≡ fresh_requester (trust_caller table.now name.now trust.now)) }
{
    let account = account_there(alloc, table.domain())?;
    PlainChannel::new(
        alloc,
        trust.hash,
        name.copy(alloc)?,
        account,
        TRUSTED_DOMAIN_CHANNEL,
    )
}

/// The name of this domain's account in a domain that it trusts.
fn account_there(alloc: Global, domain: &Name) -> Result<Units, NoMemory>
    ensures value { IfOk result (λ account. account ≡ account_there domain.now) }
    ensures short { IfOk result (λ account. length account ≤ 65) }
{
    // Reading the bytes makes it known that the name has at most 64 bytes.
    let _short = domain.bytes();
    let mut units = domain.units(alloc)?.into_vec();
    units.push(0x24)?;
    Ok(Units::from_vec(units))
}
