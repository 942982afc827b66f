//! What of a unit on a sealed link is sealed.

ghost use Rattle.std.specs.Prelude.{◌≡◌, ◌≤◌, ◌+◌, length, option_map};
ghost use Rattle.rpc_units.specs.Views.{body_shown, trailer_shown};
ghost use Rattle.channel_sealing.specs.Frames.{range_of};
ghost use Rattle.channel_sealing.specs.Parts.{IsInUnit, has_sealed_part, is_own_trailer, part_if, sealed_part_of};

use crate::frames::range_of;
use crate::trailers::NETLOGON_PROVIDER;
use rpc_units::{BodyView, PRIVACY_LEVEL, TrailerView, view_unit};

/// What of a unit on a sealed link is sealed.
#[derive(Clone, Copy, Debug, PartialEq, Eq)]
pub enum SealedPart {
    /// Nothing: it isn't a request or a response.
    Nothing,
    /// Of a request or response, the bytes from that place to before the other, by the signature in the last 32 bytes.
    Range(usize, usize),
    /// All of it is missing: the unit is a request or response without a signature in its last 32 bytes.
    Missing,
}

/// What of a unit on a sealed link is sealed: of a request or response, the range that its trailer of type 68 and level
/// 6 with a value of 32 bytes leaves, or `Missing` where it has no such trailer. What can't be read is for its reader
/// to refuse. It takes no memory.
pub fn sealed_part(bytes: &[u8]) -> SealedPart
    ensures value { result ≡ sealed_part_of bytes.now }
    ensures inside { IsInUnit bytes.now result }
{
    let Ok(view) = view_unit(bytes) else {
        return SealedPart::Nothing;
    };
    if !has_sealed_part(&view.body) {
        return SealedPart::Nothing;
    }
    part_if(is_own_trailer(&view.trailer), bytes)
}

/// Whether a unit is a request or a response.
fn has_sealed_part(body: &BodyView<'_>) -> bool
    ensures { result ≡ has_sealed_part (body_shown body.now) }
{
    match body {
        BodyView::Request { .. } | BodyView::Response { .. } => true,
        BodyView::Bind { .. }
        | BodyView::BindAck { .. }
        | BodyView::BindNak(_)
        | BodyView::Auth3
        | BodyView::Fault { .. } => false,
    }
}

/// Whether a trailer is one of Netlogon at the level at which stubs are sealed.
fn is_own_trailer(trailer: &Option<TrailerView<'_>>) -> bool
    ensures { result ≡ is_own_trailer (option_map trailer_shown trailer.now) }
{
    match trailer {
        Some(trailer) => trailer.kind == NETLOGON_PROVIDER && trailer.level == PRIVACY_LEVEL,
        None => false,
    }
}

/// The part that is sealed, where the trailer is the channel's own: the range in front of its value of 32 bytes.
fn part_if(own: bool, bytes: &[u8]) -> SealedPart
    ensures value { result ≡ part_if own (range_of bytes.now) }
    ensures inside { IsInUnit bytes.now result }
{
    if !own {
        return SealedPart::Missing;
    }
    match range_of(bytes) {
        Some((from, to)) => SealedPart::Range(from, to),
        None => SealedPart::Missing,
    }
}
