//! Frames that are sealed in their place.

ghost use Rattle.std.specs.Prelude.{◌≡◌, ◌+◌, ◌*◌, ◌≤◌, ◌<◌, ◌++◌, ◌∷◌, [], IfOk, IfSome, MatchOption, Some, None, length, take, drop, get_or};
ghost use Rattle.rpc_units.specs.Writing.{value_len};
ghost use Rattle.rpc_units.specs.Joining.{IsWholeCall, cut_of, stub_of};
ghost use Rattle.end_links.specs.Sending.{frames_of, joined_frames};
ghost use Rattle.channel_sealing.specs.Trailers.{sealed_limit, with_room};
ghost use Rattle.channel_sealing.specs.Frames.{HasRoom, end_after, end_by, frame_if, range_of, seal_all, seal_frame};

use crate::trailers::{sealed_limit, trailer};
use end_links::unit_bytes;
use netlogon_seal::NlSeal;
use rpc_units::{Unit, cut_call, sealed_range};
use std::alloc::Global;
use std::mem;
use wire_base::{Blob, Frames, NoMemory};

/// The bytes of a trailer and its signature, behind a sealed range.
pub const SEALED_ROOM: usize = 40;

/// The stub of a unit and its padding, where a trailer and a value of 32 bytes follow to the end. It takes no memory.
pub fn range_of(bytes: &[u8]) -> Option<(usize, usize)>
    ensures value { result ≡ range_of bytes.now }
    ensures inside { IfSome result (λ range.
        (range.0 ≤ range.1) × (range.1 + 40 ≡ length bytes.now)) }
{
    let (from, to) = sealed_range(bytes)?;
    if to + SEALED_ROOM != bytes.len() {
        return None;
    }
    Some((from, to))
}

/// The frames of a whole call or reply, each with room for a signature in a trailer of that context, for a peer that
/// receives so many bytes. They are at most the bytes of the stub, one more for each 20 of them, and 67.
pub fn room_frames(
    alloc: Global,
    call: Unit,
    context: u32,
    receive: u16,
) -> Result<Frames, NoMemory>
    requires { IsWholeCall call }
    ensures value { IfOk result (λ frames. frames
        ≡ frames_of (with_room context call) (sealed_limit receive)) }
    ensures short { IfOk result (λ frames.
        20 * length (joined_frames frames) ≤ 21 * length (stub_of call.body) + 20 * 67) }
{
    let call = with_room(alloc, context, call)?;
    cut_short(alloc, &call, sealed_limit(receive))
}

/// The fragments of a call with room for signatures, each for itself; and how long they are together.
fn cut_short(alloc: Global, call: &Unit, limit: u16) -> Result<Frames, NoMemory>
    requires whole { IsWholeCall call.now }
    requires value { value_len call.now.trailer ≡ 32 }
    requires least { 1432 ≤ limit }
    requires most { limit + 16 ≤ 5840 }
    ensures value { IfOk result (λ frames. frames ≡ frames_of call.now limit) }
    ensures short { IfOk result (λ frames.
        20 * length (joined_frames frames) ≤ 21 * length (stub_of call.now.body) + 20 * 67) }
{
    cut_frames(alloc, call, limit)
}

/// The unit with room for a signature.
fn with_room(alloc: Global, context: u32, unit: Unit) -> Result<Unit, NoMemory>
    ensures { IfOk result (λ room. room ≡ with_room context unit) }
{
    Ok(Unit {
        trailer: Some(trailer(context, Blob::copy(alloc, &[0; 32])?)),
        ..unit
    })
}

/// The fragments of a call with room for signatures, each for itself.
#[tactic(auto, unfolding(end_links::specs::Sending::frames_of))]
fn cut_frames(alloc: Global, call: &Unit, limit: u16) -> Result<Frames, NoMemory>
    requires whole { IsWholeCall call.now }
    requires value { value_len call.now.trailer ≡ 32 }
    requires least { 1432 ≤ limit }
    requires most { limit + 16 ≤ 5840 }
    ensures { IfOk result (λ frames. frames ≡ frames_of call.now limit) }
{
    let units = cut_call(alloc, call, limit)?;
    let mut frames = Frames::new(alloc);
    for unit in units.items() {
        frames.push(unit_bytes(alloc, unit)?)?;
    }
    Ok(frames)
}

/// Seals a frame in its place. Whether it is done: it isn't exactly where the frame has no room for a signature at its
/// end, or the end refuses; the end then stays. It takes no memory.
#[tactic(auto, using(crate::proofs::FrameLaws::refused_stays))]
pub fn seal_frame(seal: &mut NlSeal, confounder: [u8; 8], frame: &mut [u8]) -> bool
    ensures answer { seal_frame seal.old confounder frame.old
        ≡ frame_if result frame.new seal.new }
    ensures end { seal.new ≡ end_by (seal_frame seal.old confounder frame.old) seal.old }
    ensures len { length frame.new ≡ length frame.old }
{
    let Some((from, to)) = range_of(frame) else {
        return false;
    };
    seal.seal(frame, from, to, confounder).is_ok()
}

/// Seals the frame at a place of a list.
fn seal_at(
    alloc: Global,
    seal: &mut NlSeal,
    confounder: [u8; 8],
    frames: &mut Vec<Blob>,
    at: usize,
) -> bool
    requires { at < length frames.old.items }
    ensures answer { seal_frame seal.old confounder (get_or frames.old.items at [])
        ≡ frame_if result (get_or frames.new.items at []) seal.new }
    ensures end { seal.new
        ≡ end_by (seal_frame seal.old confounder (get_or frames.old.items at [])) seal.old }
    ensures others { frames.new.items ≡ take at frames.old.items
        ++ get_or frames.new.items at [] ∷ drop (at + 1) frames.old.items }
    ensures len { length (get_or frames.new.items at []) ≡ length (get_or frames.old.items at []) }
{
    let mut one = mem::replace(&mut frames[at], Blob::from_vec(Vec::new(alloc))).into_vec();
    let done = seal_frame(seal, confounder, &mut one);
    frames[at] = Blob::from_vec(one);
    done
}

/// Seals all frames of a call, one after the other, with one confounder (MS-NRPC 3.3.4.2.1). None exactly where one has
/// no room for a signature at its end, or the end refuses. The end stands behind the frames that were sealed: where all
/// have room and there are none, it stands at its last number (`ends_stand_at_the_last`). The frames have as many bytes
/// as before. It takes no memory.
pub fn seal_frames(
    alloc: Global,
    seal: &mut NlSeal,
    confounder: [u8; 8],
    frames: Frames,
) -> Option<Frames>
    ensures answer { MatchOption result (seal_all seal.old confounder frames ≡ None)
        (λ sealed. seal_all seal.old confounder frames
        ≡ Some (record { frames = sealed; seal = seal.new })) }
    ensures end { seal.new ≡ end_after seal.old confounder frames }
    ensures len { IfSome result
        (λ sealed. length (joined_frames sealed) ≡ length (joined_frames frames)) }
{
    let mut list = frames.into_vec();
    for at in 0..list.len() {
        if !seal_at(alloc, seal, confounder, &mut list, at) {
            return None;
        }
    }
    Some(Frames::from_vec(list))
}
