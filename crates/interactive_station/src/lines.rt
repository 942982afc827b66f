//! The lines that are put for what a station tells.

ghost use Rattle.std.specs.Prelude.{◌≡◌, ◌++◌, codes, IfOk};
ghost use Rattle.interactive_station.specs.Lines.{in_line, line_of, told_line};

use outside::{Action, Outcome};
use std::alloc::Global;
use wire_base::{Blob, NoMemory, Units, put_printable};

/// The line of a user who is logged on.
#[tactic(auto, unfolding(crate::specs::Lines::in_line))]
fn in_line(alloc: Global, domain: &Units, user: &Units) -> Result<Blob, NoMemory>
    ensures { IfOk result (λ line. line ≡ in_line domain.now user.now) }
{
    let mut line = Vec::from_slice(alloc, b"in ")?;
    put_printable(&mut line, domain.units())?;
    line.push(b'\\')?;
    put_printable(&mut line, user.units())?;
    line.push(b'\n')?;
    Ok(Blob::from_vec(line))
}

/// The line that is put for an action: empty for all but a user who is logged on.
pub(crate) fn line_of(alloc: Global, action: &Action) -> Result<Blob, NoMemory>
    ensures { IfOk result (λ line. line ≡ line_of action.now) }
{
    match action {
        Action::Told(_, Outcome::In { domain, user, .. }) => in_line(alloc, domain, user),
        Action::Told(_, Outcome::Out(_) | Outcome::NoController(_))
        | Action::Keep(_)
        | Action::Send(_, _)
        | Action::Dial(_)
        | Action::Close(_, _)
        | Action::Judged(_) => Blob::copy(alloc, &[]),
    }
}
