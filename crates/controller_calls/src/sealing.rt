//! Replies that are sealed.

ghost use Rattle.std.specs.Prelude.{◌≡◌, ◌≤◌, ◌<◌, ◌^◌, IfOk, IfSome, OnOk, length};
ghost use Rattle.rpc_units.specs.Writing.{IsInRange};
ghost use Rattle.channel_sealing.specs.Frames.{seal_all};
ghost use Rattle.end_links.specs.Bounds.{send_limit};
ghost use Rattle.end_links.specs.Sending.{joined_frames, response_of};
ghost use Rattle.controller_calls.specs.Limits.{stub_limit};
ghost use Rattle.controller_calls.specs.Seals.{reply_bytes, reply_end, reply_frames, seal_reply};

use crate::line::Line;
use crate::seals::{ChannelSeals, KeptSeal, LinkSeal, ReplySeal};
use channel_sealing::{room_frames, seal_frames};
use end_links::{join_frames, response};
use netlogon_seal::NlSeal;
use std::alloc::Global;
use wire_base::{Blob, Frames, NoMemory, put_named, take_named};

/// The bytes of a reply with that stub, sealed as one of its link by the end of the computer's channel (MS-NRPC
/// 3.3.4.2.1 and 3.3.4.2.3), and what is kept then: all of its frames, of at most 589,824 bytes together. None where
/// the channel doesn't seal, or its end has used up its numbers.
#[tactic(auto, using(crate::proofs::StandingLaws::none_kept))]
pub fn seal_reply(
    alloc: Global,
    reply: &ReplySeal,
    line: Line,
    stub: Blob,
    seals: ChannelSeals,
) -> Result<(ChannelSeals, Option<Blob>), NoMemory>
    requires { length stub ≤ stub_limit }
    ensures seals { IfOk result (λ done.
        done.0 ≡ (seal_reply reply.now line stub seals).seals) }
    ensures bytes { IfOk result (λ done.
        done.1 ≡ (seal_reply reply.now line stub seals).bytes) }
    ensures short { IfOk result (λ done. IfSome done.1 (λ bytes. length bytes ≤ send_limit)) }
{
    let ChannelSeals { openings, kept } = seals;
    let (kept, found) = take_named(kept, reply.link.computer.units());
    let Some(end) = found else {
        return Ok((ChannelSeals { openings, kept }, None));
    };
    let KeptSeal { opening, mut seal } = end;
    let bytes = seal_stub(alloc, &mut seal, reply, line, stub)?;
    let computer = reply.link.computer.duplicate(alloc)?;
    let kept = put_named(kept, computer, KeptSeal { opening, seal })?;
    Ok((ChannelSeals { openings, kept }, bytes))
}

/// The reply, sealed by the channel's end; None where that has used up its numbers.
#[tactic(auto, using(crate::proofs::SealingLaws::ends_behind))]
fn seal_stub(
    alloc: Global,
    seal: &mut NlSeal,
    reply: &ReplySeal,
    line: Line,
    stub: Blob,
) -> Result<Option<Blob>, NoMemory>
    requires { length stub ≤ stub_limit }
    ensures bytes { IfOk result (λ bytes. bytes ≡ reply_bytes
        (seal_all seal.old reply.now.confounder (reply_frames reply.now.link line stub))) }
    ensures end { OnOk result (seal.new ≡ reply_end
        (seal_all seal.old reply.now.confounder (reply_frames reply.now.link line stub))
        seal.old) }
    ensures short { IfOk result (λ bytes. IfSome bytes (λ bytes. length bytes ≤ send_limit)) }
{
    are_numbers(line.call, line.context, reply.link.context, &stub);
    let frames = reply_frames(alloc, &reply.link, line, stub)?;
    match seal_frames(alloc, seal, reply.confounder, frames) {
        Some(sealed) => Ok(Some(join_frames(alloc, &sealed)?)),
        None => Ok(None),
    }
}

/// The frames of the reply, with room for signatures.
fn reply_frames(alloc: Global, link: &LinkSeal, line: Line, stub: Blob) -> Result<Frames, NoMemory>
    requires { length stub ≤ stub_limit }
    ensures value { IfOk result (λ frames. frames ≡ reply_frames link.now line stub) }
    ensures short { IfOk result (λ frames. length (joined_frames frames) ≤ send_limit) }
{
    let unit = response(line.call, line.context, stub);
    let frames = room_frames(alloc, unit, link.context, link.receive)?;
    Ok(frames)
}

/// The numbers of the reply have their widths. It is called so that this is known.
fn are_numbers(call: u32, context: u16, trailer: u32, stub: &Blob)
    requires { length stub.now ≤ stub_limit }
    ensures range { IsInRange (response_of call context stub.now) }
    ensures context { trailer < 2 ^ 32 }
{}
