//! A turn that is out, and how it ends.

use crate::taken_verdict::TakenVerdict;
use channel_client::{PlainChannel, ShortFrames, Turn};
use end_links::{Link, ShortActions};
use outside::{CloseCause, DropCause};
use rpc_units::Joiner;

/// What is said on the link of a turn so far: the fragments of an open reply, and the right to the turn.
#[derive(Drop)]
pub struct TurnTalk {
    pub joiner: Joiner,
    pub turn: Turn,
}

/// How a turn ended.
#[derive(Drop)]
pub enum TurnEnd {
    /// Both challenges are known.
    Half,
    /// The channel is open.
    Opened,
    /// The verdict on the logon of that place.
    Answer(u32, TakenVerdict),
    /// The logon of that place gets no answer.
    Dropped(u32, DropCause),
    /// The account has the next secret. The logon that the turn was for waits on.
    Set,
}

/// A turn that ended: its link, which the end closes for that cause before anything else follows, where it is still
/// open; and how the turn ended.
#[derive(Drop)]
pub struct TurnEnded {
    pub closes: Option<(u32, CloseCause)>,
    pub how: TurnEnd,
}

/// A channel at work on the link of its turn: the number of the link, the channel, the actions of the end so far, and
/// how the turn ended, where it did. The link isn't closed among these actions.
#[derive(Drop)]
pub struct TurnWork {
    pub link: u32,
    pub channel: PlainChannel,
    pub actions: ShortActions,
    pub ended: Option<TurnEnded>,
}

/// The link of the turn that is out.
#[derive(Drop)]
pub enum Dialling {
    /// No turn is out.
    Nothing,
    /// The dial waits; the frames of the bind go out where it is answered.
    Waits(Turn, ShortFrames),
    /// The number of the link, and the link.
    On(u32, Link<TurnTalk>),
}

/// A channel with the link of its turn, and the actions of the end so far. An end with several channels, of which one
/// has a turn out at a time, keeps one link for all of them beside the number of the channel.
#[derive(Drop)]
pub struct Turning {
    pub channel: PlainChannel,
    pub dialling: Dialling,
    pub actions: ShortActions,
}
