//! The lines that a controller puts.

ghost use Rattle.std.specs.Prelude.{◌≡◌, ◌++◌, IfOk, codes};
ghost use Rattle.std.specs.Int.{w32, to_be_bytes};
ghost use Rattle.hex.specs.Hex.{encode_lower};
ghost use Rattle.domain_controller.specs.Lines.{judged_line, line_of};

use outside::{Action, Judged};
use std::alloc::Global;
use wire_base::{Blob, NoMemory};

/// The line of an action: how an authenticator was judged. Other actions put none.
pub(crate) fn line_of(alloc: Global, action: &Action) -> Result<Blob, NoMemory>
    ensures { IfOk result (λ line. line ≡ line_of action.now) }
{
    match action {
        Action::Judged(how) => judged_line(alloc, *how),
        Action::Keep(_)
        | Action::Send(..)
        | Action::Dial(_)
        | Action::Close(..)
        | Action::Told(..) => { Ok(Blob::from_vec(Vec::new(alloc))) }
    }
}

/// The line of how an authenticator was judged.
#[tactic(auto, unfolding(crate::specs::Lines::judged_line))]
fn judged_line(alloc: Global, how: Judged) -> Result<Blob, NoMemory>
    ensures { IfOk result (λ line. line ≡ judged_line how) }
{
    match how {
        Judged::Passed(status) => status_line(alloc, b"passed ", status),
        Judged::Forwarded => Blob::copy(alloc, b"forwarded\n"),
        Judged::Answered(status) => status_line(alloc, b"answered ", status),
        Judged::Barred => Blob::copy(alloc, b"barred\n"),
        Judged::NoChannel => Blob::copy(alloc, b"no channel\n"),
    }
}

/// A line of a word and an NTSTATUS.
fn status_line(alloc: Global, word: &[u8], status: u32) -> Result<Blob, NoMemory>
    ensures { IfOk result (λ line. line ≡
        word.now ++ encode_lower (to_be_bytes w32 status) ++ codes "\n") }
{
    let mut line = Vec::from_slice(alloc, word)?;
    let digits = hex::encode(alloc, &status.to_be_bytes())?;
    line.extend_from_slice(digits.as_bytes())?;
    line.push(b'\n')?;
    Ok(Blob::from_vec(line))
}
