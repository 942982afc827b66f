//! What is kept of computers, put and taken out by their names.

ghost use Rattle.std.specs.Prelude.{◌≡◌, IfOk};
ghost use Rattle.wire_base.specs.Maps.{lookup};
ghost use Rattle.wire_base.specs.Names.{same_name};
ghost use Rattle.controller_calls.specs.Opening.{put_pair_if};
ghost use Rattle.controller_calls.specs.Desk.{take_pair, put_channel, take_channel};

use crate::state::{ChallengePair, Computers, Work};
use authenticators::SecureChannel;
use wire_base::{NoMemory, Units, put_named, take_named};

/// The challenges wait for the computer, in place of older ones, where it is known.
pub(crate) fn put_pair_if(
    knows: bool,
    computer: Units,
    pair: ChallengePair,
    work: Work,
) -> Result<Work, NoMemory>
    ensures { IfOk result (λ w. w ≡ put_pair_if knows computer pair work) }
{
    if !knows {
        return Ok(work);
    }
    let Work { computers, actions } = work;
    let Computers {
        pending,
        channels,
        sessions,
    } = computers;
    let pending = put_named(pending, computer, pair)?;
    Ok(Work {
        computers: Computers {
            pending,
            channels,
            sessions,
        },
        actions,
    })
}

/// The computer's challenges are taken out. It takes no memory.
pub(crate) fn take_pair(computer: &[u16], work: Work) -> (Work, Option<ChallengePair>)
    ensures work { result.0 ≡ take_pair computer.now work }
    ensures pair { result.1 ≡ lookup same_name computer.now work.computers.pending }
{
    let Work { computers, actions } = work;
    let Computers {
        pending,
        channels,
        sessions,
    } = computers;
    let (pending, pair) = take_named(pending, computer);
    let work = Work {
        computers: Computers {
            pending,
            channels,
            sessions,
        },
        actions,
    };
    (work, pair)
}

/// The channel is the computer's, in place of an older one.
pub(crate) fn put_channel(
    computer: Units,
    channel: SecureChannel,
    work: Work,
) -> Result<Work, NoMemory>
    ensures { IfOk result (λ w. w ≡ put_channel computer channel work) }
{
    let Work { computers, actions } = work;
    let Computers {
        pending,
        channels,
        sessions,
    } = computers;
    let channels = put_named(channels, computer, channel)?;
    Ok(Work {
        computers: Computers {
            pending,
            channels,
            sessions,
        },
        actions,
    })
}

/// The computer's channel is taken out. It takes no memory.
pub(crate) fn take_channel(computer: &[u16], work: Work) -> (Work, Option<SecureChannel>)
    ensures work { result.0 ≡ take_channel computer.now work }
    ensures channel { result.1 ≡ lookup same_name computer.now work.computers.channels }
{
    let Work { computers, actions } = work;
    let Computers {
        pending,
        channels,
        sessions,
    } = computers;
    let (channels, channel) = take_named(channels, computer);
    let work = Work {
        computers: Computers {
            pending,
            channels,
            sessions,
        },
        actions,
    };
    (work, channel)
}
