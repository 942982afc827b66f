//! Frames that go out in one send.

ghost use Rattle.std.specs.Prelude.{◌≡◌, ◌≤◌, length, IfOk, MatchOption, None, Some};
ghost use Rattle.channel_sealing.specs.Frames.{seal_all};
ghost use Rattle.end_links.specs.Bounds.{send_limit};
ghost use Rattle.end_links.specs.Sending.{joined_frames};

use channel_sealing::seal_frames;
use end_links::join_frames;
use netlogon_seal::NlSeal;
use std::alloc::Global;
use std::marker::Model;
use wire_base::{Blob, Frames, NoMemory};

/// Frames of which all have at most 589,824 bytes together (this project's own choice), seen as the list of them.
#[derive(Debug, Drop)]
pub struct ShortFrames {
    frames: Frames,
}

impl Model for ShortFrames {
    ghost use Rattle.std.specs.Prelude.{ℕ, ◌≤◌, length, List as list};
    ghost use Rattle.end_links.specs.Bounds.{send_limit};
    ghost use Rattle.end_links.specs.Sending.{joined_frames};

    ghost Value = { list (list ℕ) };

    ghost view = { λ f. f.frames };

    ghost invariant = { λ f. length (joined_frames f.frames) ≤ send_limit };
}

impl ShortFrames {
    /// Frames that have room in one send. It takes no memory.
    pub(crate) fn new(frames: Frames) -> ShortFrames
        requires { length (joined_frames frames) ≤ send_limit }
        ensures { result ≡ frames }
    {
        ShortFrames { frames }
    }

    /// The frames, sealed one after the other with one confounder. None exactly where they can't be; the end's numbers
    /// are then of no use. It takes no memory.
    pub(crate) fn seal(
        self,
        alloc: Global,
        seal: &mut NlSeal,
        confounder: [u8; 8],
    ) -> Option<ShortFrames>
        ensures { MatchOption result (seal_all seal.old confounder self ≡ None)
            (λ sealed. seal_all seal.old confounder self
            ≡ Some (record { frames = sealed; seal = seal.new })) }
    {
        let ShortFrames { frames } = self;
        match seal_frames(alloc, seal, confounder, frames) {
            Some(sealed) => Some(ShortFrames { frames: sealed }),
            None => None,
        }
    }

    /// The frames, each for itself.
    pub fn frames(&self) -> &Frames
        ensures { result.now ≡ self.now }
    {
        &self.frames
    }

    /// The bytes of all frames, one after the other: at most 589,824. `NoMemory` where no memory was found.
    pub fn join(&self, alloc: Global) -> Result<Blob, NoMemory>
        ensures value { IfOk result (λ bytes. bytes ≡ joined_frames self.now) }
        ensures short { IfOk result (λ bytes. length bytes ≤ send_limit) }
    {
        join_frames(alloc, &self.frames)
    }
}
