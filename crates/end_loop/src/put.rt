//! Putting whole texts into a sink.

ghost use Rattle.std.specs.Prelude.{◌≡◌, ◌≤◌, OnOk, OnErr};
ghost use Rattle.outside.specs.Causes.{Rose};
ghost use Rattle.outside.specs.Telling.{Appends, AppendsFront};

use outside::{Failed, Sink};

/// Puts all the bytes, in as many pieces as the sink takes them. `Failed` where it failed, and then a front of them was
/// taken. It takes no memory.
pub fn put_all<S: Sink>(out: &mut S, bytes: &[u8]) -> Result<(), Failed>
    ensures all { OnOk result (Appends (S.taken out.old) (S.taken out.new) bytes.now) }
    ensures front { OnErr result (AppendsFront (S.taken out.old) (S.taken out.new) bytes.now) }
    ensures faults { S.faults out.old ≤ S.faults out.new }
    ensures cause { OnErr result (Rose (S.faults out.old) (S.faults out.new)) }
{
    let mut rest = bytes;
    while !rest.is_empty() {
        let count = out.put(rest)?;
        rest = rest.split_at(count).1;
    }
    Ok(())
}
