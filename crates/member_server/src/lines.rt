//! The lines that are put for what a member tells.

ghost use Rattle.std.specs.Prelude.{◌≡◌, ◌++◌, map, IfOk, OnOk, codes};
ghost use Rattle.std.specs.Fmt.{decimal};
ghost use Rattle.std.specs.Int.{w32, to_be_bytes};
ghost use Rattle.hex.specs.Hex.{encode_lower};
ghost use Rattle.member_server.specs.Lines.{outcome_text, told_line, line_of};

use outside::{Action, Outcome};
use std::alloc::Global;
use wire_base::{Blob, NoMemory, put_printable};

/// Appends how the logon of a link ended.
fn put_outcome(line: &mut Vec<u8>, outcome: &Outcome) -> Result<(), NoMemory>
    ensures { OnOk result (line.new.items ≡ line.old.items ++ outcome_text outcome.now) }
{
    match outcome {
        Outcome::In { domain, user, .. } => {
            line.extend_from_slice(b"in ")?;
            put_printable(line, domain.units())?;
            line.push(b'\\')?;
            put_printable(line, user.units())
        }
        Outcome::Out(status) => {
            line.extend_from_slice(b"out ")?;
            let text = hex::encode(*line.allocator(), &status.to_be_bytes())?;
            line.extend_from_slice(text.as_bytes())?;
            Ok(())
        }
        Outcome::NoController(_) => {
            line.extend_from_slice(b"no controller")?;
            Ok(())
        }
    }
}

/// The line that is put for the end of a logon on a link.
#[tactic(auto, unfolding(crate::specs::Lines::told_line))]
fn told_line(alloc: Global, link: u32, outcome: &Outcome) -> Result<Blob, NoMemory>
    ensures { IfOk result (λ line. line ≡ told_line link outcome.now) }
{
    let head = format!(in alloc; "link {link} ")?;
    let mut line = Vec::from_slice(alloc, head.as_bytes())?;
    put_outcome(&mut line, outcome)?;
    line.push(b'\n')?;
    Ok(Blob::from_vec(line))
}

/// The line that is put for an action, empty for what is kept and for what is done at the port.
pub(crate) fn line_of(alloc: Global, action: &Action) -> Result<Blob, NoMemory>
    ensures { IfOk result (λ line. line ≡ line_of action.now) }
{
    match action {
        Action::Told(link, outcome) => told_line(alloc, *link, outcome),
        Action::Keep(_)
        | Action::Send(_, _)
        | Action::Dial(_)
        | Action::Close(_, _)
        | Action::Judged(_) => Blob::copy(alloc, &[]),
    }
}
