//! What a controller keeps to open and to seal units of computers' channels.

ghost use Rattle.std.specs.Prelude.{◌≡◌, ◌<◌, ◌≤◌, ◌+◌, IfOk, IfSome, length};
ghost use Rattle.wire_base.specs.Maps.{has_key, place_of};
ghost use Rattle.wire_base.specs.Names.{same_name};
ghost use Rattle.channel_sealing.specs.Names.{bind_names_of};
ghost use Rattle.controller_calls.specs.Calls.{computer_named};
ghost use Rattle.controller_calls.specs.Seals.{after_opening, belongs, bytes_if, is_on, keep_if, link_bound, link_by, no_seals, open_unit, opening_kept, stands};

use crate::calls::JudgedCall;
use channel_sealing::bind_names;
use netlogon_seal::NlSeal;
use std::alloc::Global;
use wire_base::{List, NoMemory, Units, put_named, same_units, take_named};

/// The end of a computer's channel that seals (MS-NRPC 3.3), and which opening it is of: openings of channels are
/// counted, of all computers together, so that a channel is told from one that replaced it.
#[derive(Drop)]
pub struct KeptSeal {
    pub opening: u64,
    pub seal: NlSeal,
}

/// How many channels were opened, counted modulo 2^64; and of each computer whose channel seals, by its name without
/// case, that channel's end.
#[derive(Drop)]
pub struct ChannelSeals {
    pub openings: u64,
    pub kept: List<(Units, KeptSeal)>,
}

/// A link that is sealed: the computer that its bind named, which opening it belongs to, the context number of the
/// bind's trailer, and how many bytes the other end receives (MS-NRPC 2.2.1.3.1, MS-RPCE 2.2.2.11).
#[derive(Drop)]
pub struct LinkSeal {
    pub computer: Units,
    pub opening: u64,
    pub context: u32,
    pub receive: u16,
}

/// How a reply is sealed: as one of that link, with this confounder (MS-NRPC 3.3.4.2.1).
#[derive(Drop)]
pub struct ReplySeal {
    pub link: LinkSeal,
    pub confounder: [u8; 8],
}

/// What is kept at first: no channel was opened. It takes no memory.
pub fn no_seals(alloc: Global) -> ChannelSeals
    ensures { result ≡ no_seals }
{
    ChannelSeals {
        openings: 0,
        kept: List::new(alloc),
    }
}

// ---- channels that open

/// A channel of the computer was opened, with that session key: the one of before is replaced, and where this one seals
/// its end begins anew.
pub(crate) fn after_opening(
    seals_now: bool,
    computer: Units,
    key: [u8; 16],
    seals: ChannelSeals,
) -> Result<ChannelSeals, NoMemory>
    ensures { IfOk result (λ after. after ≡ after_opening seals_now computer key seals) }
{
    let ChannelSeals { openings, kept } = seals;
    let kept = keep_if(seals_now, computer, key, openings, kept)?;
    Ok(ChannelSeals {
        openings: openings.wrapping_add(1),
        kept,
    })
}

/// The end of a channel that seals begins anew; one that doesn't has none.
fn keep_if(
    seals_now: bool,
    computer: Units,
    key: [u8; 16],
    opening: u64,
    kept: List<(Units, KeptSeal)>,
) -> Result<List<(Units, KeptSeal)>, NoMemory>
    ensures { IfOk result (λ after. after ≡ keep_if seals_now computer key opening kept) }
{
    if !seals_now {
        let (kept, _replaced) = take_named(kept, computer.units());
        return Ok(kept);
    }
    let seal = NlSeal::new(key, false);
    put_named(kept, computer, KeptSeal { opening, seal })
}

// ---- the channel that a link belongs to

/// Where the end of the computer's channel is, if it seals. It takes no memory.
#[tactic(auto, using(wire_base::proofs::PlaceLaws::places))]
fn place_kept(kept: &[(Units, KeptSeal)], computer: &[u16]) -> Option<usize>
    ensures place { result ≡ place_of (has_key same_name computer.now) kept.now }
    ensures inside { IfSome result (λ place. place < length kept.now) }
{
    for (index, entry) in kept.iter().enumerate() {
        if is_of(&entry.0, computer) {
            return Some(index);
        }
    }
    None
}

/// Whether a name is the computer's, in any case. It takes no memory.
fn is_of(name: &Units, computer: &[u16]) -> bool
    ensures { result ≡ same_name computer.now name.now }
{
    same_units(computer, name.units())
}

/// Which opening the computer's channel is of, if it seals. It takes no memory.
#[tactic(auto, using(wire_base::proofs::MapLaws::lookup_at, wire_base::proofs::MapLaws::lookup_none))]
pub fn opening_kept(seals: &ChannelSeals, computer: &[u16]) -> Option<u64>
    ensures { result ≡ opening_kept computer.now seals.now }
{
    let kept = seals.kept.items();
    match place_kept(kept, computer) {
        Some(place) => Some(kept[place].1.opening),
        None => None,
    }
}

/// Whether the channel stands that the link belongs to. It takes no memory.
pub fn stands(link: &LinkSeal, seals: &ChannelSeals) -> bool
    ensures { result ≡ stands link.now seals.now }
{
    match opening_kept(seals, link.computer.units()) {
        Some(opening) => opening == link.opening,
        None => false,
    }
}

/// Whether a call that names that computer came on a link of its channel. It takes no memory.
pub fn is_on(link: &Option<LinkSeal>, computer: &[u16], seals: &ChannelSeals) -> bool
    ensures { result ≡ is_on link.now computer.now seals.now }
{
    match link {
        Some(link) => same_units(computer, link.computer.units()) && stands(link, seals),
        None => opening_kept(seals, computer).is_none(),
    }
}

/// Whether a call came on a link of the channel of the computer that it names; true of one that names none. It takes
/// no memory.
pub fn belongs(link: &Option<LinkSeal>, call: &JudgedCall, seals: &ChannelSeals) -> bool
    ensures { result ≡ belongs link.now (computer_named call.now) seals.now }
{
    match call {
        JudgedCall::Network(call) => belongs_named(link, &call.computer, seals),
        JudgedCall::Interactive(call) => belongs_named(link, &call.computer, seals),
        JudgedCall::Logoff(call) => belongs_named(link, &call.computer, seals),
        JudgedCall::NetworkLogoff(call) => belongs_named(link, &call.computer, seals),
        JudgedCall::Set(call) => is_on(link, call.computer.units(), seals),
    }
}

/// Whether a call that came on that link came on one of the channel of the computer that it names, if it names one.
fn belongs_named(link: &Option<LinkSeal>, named: &Option<Units>, seals: &ChannelSeals) -> bool
    ensures { result ≡ belongs link.now named.now seals.now }
{
    match named {
        Some(computer) => is_on(link, computer.units(), seals),
        None => true,
    }
}

// ---- the channel that a bind seals its link by

/// The seal of a link whose bind has a trailer with this context number and value, and comes from an end that receives
/// `receive` bytes in a fragment (MS-NRPC 2.2.1.3.1). None where the value tells no names, or the computer's channel
/// doesn't seal: the bind is refused then.
pub fn link_bound(
    alloc: Global,
    value: &[u8],
    context: u32,
    receive: u16,
    seals: &ChannelSeals,
) -> Result<Option<LinkSeal>, NoMemory>
    ensures { IfOk result (λ link.
        link ≡ link_bound (bind_names_of value.now) context receive seals.now) }
{
    let Some((_domain, computer)) = bind_names(value) else {
        return Ok(None);
    };
    let computer = units_of(alloc, computer)?;
    Ok(link_by(
        opening_kept(seals, computer.units()),
        computer,
        context,
        receive,
    ))
}

/// The seal of a link of that opening, where there is one.
fn link_by(opening: Option<u64>, computer: Units, context: u32, receive: u16) -> Option<LinkSeal>
    ensures { result ≡ link_by opening computer context receive }
{
    match opening {
        Some(opening) => Some(LinkSeal {
            computer,
            opening,
            context,
            receive,
        }),
        None => None,
    }
}

/// A unit for each byte.
fn units_of(alloc: Global, bytes: &[u8]) -> Result<Units, NoMemory>
    ensures { IfOk result (λ units. units ≡ bytes.now) }
{
    let units = bytes.iter().map(|byte| u16::from(*byte)).collect(alloc)?;
    Ok(Units::from_vec(units))
}

// ---- a request that is opened

/// Opens a unit on the link by the end of its channel, in the lent bytes, from one place to before the other (MS-NRPC
/// 3.3.4.2.2 and 3.3.4.2.4). Whether that is done, and what is kept then; after a refusal the bytes are of no use.
#[tactic(auto, using(crate::proofs::StandingLaws::none_kept))]
pub fn open_unit(
    alloc: Global,
    link: &LinkSeal,
    unit: &mut [u8],
    from: usize,
    to: usize,
    seals: ChannelSeals,
) -> Result<(ChannelSeals, bool), NoMemory>
    requires range { from ≤ to }
    requires within { to + 32 ≤ length unit.old }
    ensures len { length unit.new ≡ length unit.old }
    ensures seals { IfOk result (λ done.
        done.0 ≡ (open_unit link.now unit.old from to seals).seals) }
    ensures bytes { IfOk result (λ done. bytes_if done.1 unit.new
        ≡ (open_unit link.now unit.old from to seals).bytes) }
{
    let ChannelSeals { openings, kept } = seals;
    let (kept, found) = take_named(kept, link.computer.units());
    let Some(end) = found else {
        return Ok((ChannelSeals { openings, kept }, false));
    };
    let KeptSeal { opening, mut seal } = end;
    let done = seal.open(unit, from, to).is_ok();
    let computer = link.computer.duplicate(alloc)?;
    let kept = put_named(kept, computer, KeptSeal { opening, seal })?;
    Ok((ChannelSeals { openings, kept }, done))
}
