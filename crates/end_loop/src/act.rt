//! Performing actions.

ghost use Rattle.std.specs.Prelude.{◌≡◌, ◌≤◌, ℕ, List, [], ◌∷◌, ◌++◌, OnOk, OnErr, IfErr, Err, is_ok, is_err, option_copied};
ghost use Rattle.std.specs.Result.{result_ok};
ghost use Rattle.outside.specs.Causes.{Rose};
ghost use Rattle.outside.specs.Telling.{Appends, AppendsFront};
ghost use Rattle.end_loop.specs.Acts.{Did, FailsToKeep, puts, dial_event, LoopState, loop_of, Performed, CutShort, has_link, writes_of, IsOfActs};
ghost use Rattle.end_loop.specs.Writing.{WritesFiles, files_told};

use crate::end::End;
use crate::halt::Halt;
use crate::put::put_all;
use outside::{Action, Event, Failed, Files, Port, Sink};
use std::alloc::Global;
use std::collections::VecDeque;
use wire_base::NoMemory;

/// Performs one action. `failed` are the links on which a send failed among the actions of this step, `file` is the
/// name of the file that texts are kept in.
pub(crate) fn act<E: End, P: Port, S: Sink, F: Files>(
    alloc: Global,
    end: &E,
    action: &Action,
    failed: &mut Vec<u32>,
    queue: &mut VecDeque<Event>,
    port: &mut P,
    out: &mut S,
    file: Option<&[u8]>,
    files: &mut F,
) -> Result<(), Halt>
    ensures ok { OnOk result (Performed (puts E.machine) (option_copied file.entry)
        (action.now ∷ [])
        (loop_of P.story P.link_faults S.taken (files_told F.contents F.reads F.writes)
        port.old out.old files.old failed.old.items queue.old.items)
        (loop_of P.story P.link_faults S.taken (files_told F.contents F.reads F.writes)
        port.new out.new files.new failed.new.items queue.new.items)) }
    ensures err { IfErr result (λ halt. CutShort (puts E.machine) (option_copied file.entry) halt
        (action.now ∷ [])
        (loop_of P.story P.link_faults S.taken (files_told F.contents F.reads F.writes)
        port.old out.old files.old failed.old.items queue.old.items)
        (loop_of P.story P.link_faults S.taken (files_told F.contents F.reads F.writes)
        port.new out.new files.new failed.new.items queue.new.items)) }
    ensures kinds { IfErr result IsOfActs }
    ensures cause { result ≡ Err Halt.SinkFault → Rose (S.faults out.old) (S.faults out.new) }
    ensures file_cause { result ≡ Err Halt.FileFault →
        Rose (F.faults files.old) (F.faults files.new) }
    ensures sink { S.faults out.old ≤ S.faults out.new }
    ensures files { F.faults files.old ≤ F.faults files.new }
    ensures port { P.faults port.new ≡ P.faults port.old }
    ensures links { P.link_faults port.old ≤ P.link_faults port.new }
{
    match action {
        Action::Keep(text) => keep(file, text.bytes(), files),
        Action::Send(link, bytes) => send_on(*link, bytes.bytes(), failed, queue, port),
        Action::Dial(peer) => dial_peer(peer.bytes(), queue, port),
        Action::Close(link, _) => {
            port.close(*link);
            Ok(())
        }
        Action::Told(_, _) => say(alloc, end, action, out),
        Action::Judged(_) => say(alloc, end, action, out),
    }
}

/// Writes the text into the file of that name, where there is a name.
fn keep<F: Files>(file: Option<&[u8]>, text: &[u8], files: &mut F) -> Result<(), Halt>
    ensures ok { OnOk result (WritesFiles
        (files_told F.contents F.reads F.writes files.old)
        (files_told F.contents F.reads F.writes files.new)
        (writes_of (option_copied file.entry) text.now)) }
    ensures err { OnErr result (FailsToKeep (option_copied file.entry) text.now
        (files_told F.contents F.reads F.writes files.old)
        (files_told F.contents F.reads F.writes files.new)) }
    ensures kind { IfErr result (λ halt. halt ≡ Halt.FileFault) }
    ensures cause { OnErr result (Rose (F.faults files.old) (F.faults files.new)) }
    ensures files { F.faults files.old ≤ F.faults files.new }
{
    match file {
        Some(name) => write(name, text, files),
        None => Ok(()),
    }
}

/// Writes the text into the file of that name.
fn write<F: Files>(name: &[u8], text: &[u8], files: &mut F) -> Result<(), Halt>
    ensures writes { WritesFiles
        (files_told F.contents F.reads F.writes files.old)
        (files_told F.contents F.reads F.writes files.new)
        ((name.now, text.now, is_err result) ∷ []) }
    ensures kind { IfErr result (λ halt. halt ≡ Halt.FileFault) }
    ensures cause { OnErr result (Rose (F.faults files.old) (F.faults files.new)) }
    ensures files { F.faults files.old ≤ F.faults files.new }
{
    match files.write(name, text) {
        Ok(()) => Ok(()),
        Err(Failed) => Err(Halt::FileFault),
    }
}

/// Sends on the link, unless a send on it failed before.
#[tactic(auto, using(crate::proofs::ActLaws::failing))]
fn send_on<P: Port>(
    link: u32,
    bytes: &[u8],
    failed: &mut Vec<u32>,
    queue: &mut VecDeque<Event>,
    port: &mut P,
) -> Result<(), Halt>
    ensures did { Did (Action.Send link bytes.now) failed.old.items failed.new.items
        queue.old.items queue.new.items (P.story port.old) (P.story port.new)
        (P.link_faults port.old) (P.link_faults port.new) (is_ok result) }
    ensures memory { IfErr result (λ halt. halt ≡ Halt.NoMemory) }
    ensures port { P.faults port.new ≡ P.faults port.old }
    ensures links { P.link_faults port.old ≤ P.link_faults port.new }
{
    if is_listed(failed, link) {
        return Ok(());
    }
    if port.send(link, bytes).is_err() {
        note_failure(link, failed, queue)?;
    }
    Ok(())
}

/// Keeps that a send on the link failed: it is listed, and waits to be stepped as closed.
fn note_failure(
    link: u32,
    failed: &mut Vec<u32>,
    queue: &mut VecDeque<Event>,
) -> Result<(), NoMemory>
    ensures failed { OnOk result (failed.new.items ≡ failed.old.items ++ link ∷ []) }
    ensures queue { OnOk result (queue.new.items ≡ queue.old.items ++ Event.Closed link ∷ []) }
{
    failed.push(link)?;
    queue.push_back(Event::Closed(link))?;
    Ok(())
}

/// Dials the peer.
#[tactic(auto, using(crate::proofs::ActLaws::failing))]
fn dial_peer<P: Port>(peer: &[u8], queue: &mut VecDeque<Event>, port: &mut P) -> Result<(), Halt>
    ensures did { (failed : List ℕ) → Did (Action.Dial peer.now) failed failed
        queue.old.items queue.new.items (P.story port.old) (P.story port.new)
        (P.link_faults port.old) (P.link_faults port.new) (is_ok result) }
    ensures memory { IfErr result (λ halt. halt ≡ Halt.NoMemory) }
    ensures port { P.faults port.new ≡ P.faults port.old }
    ensures links { P.link_faults port.old ≤ P.link_faults port.new }
{
    let event = dial_event(port.dial(peer));
    wait(event, queue)?;
    Ok(())
}

/// Lets the event wait behind the others.
fn wait(event: Event, queue: &mut VecDeque<Event>) -> Result<(), NoMemory>
    ensures { OnOk result (queue.new.items ≡ queue.old.items ++ event ∷ []) }
{
    queue.push_back(event)?;
    Ok(())
}

/// The event that a dial makes.
fn dial_event(link: Result<u32, Failed>) -> Event
    ensures { result ≡ dial_event (result_ok link) }
{
    match link {
        Ok(link) => Event::Dialled(link),
        Err(Failed) => Event::DialFailed,
    }
}

/// Puts the line of the action.
fn say<E: End, S: Sink>(alloc: Global, end: &E, action: &Action, out: &mut S) -> Result<(), Halt>
    ensures ok { OnOk result
        (Appends (S.taken out.old) (S.taken out.new) (E.machine.line action.now)) }
    ensures err { OnErr result
        (AppendsFront (S.taken out.old) (S.taken out.new) (E.machine.line action.now)) }
    ensures kinds { IfErr result IsOfActs }
    ensures cause { result ≡ Err Halt.SinkFault → Rose (S.faults out.old) (S.faults out.new) }
    ensures no_file { ¬ (result ≡ Err Halt.FileFault) }
    ensures sink { S.faults out.old ≤ S.faults out.new }
{
    let line = end.line(alloc, action)?;
    put_all(out, line.bytes()).map_err(|_| Halt::SinkFault)
}

/// Whether the link is among these.
fn is_listed(links: &[u32], link: u32) -> bool
    ensures { result ≡ has_link links.now link }
{
    links.iter().any(|other| *other == link)
}

/// Performs the actions in their order.
pub(crate) fn perform<E: End, P: Port, S: Sink, F: Files>(
    alloc: Global,
    end: &E,
    actions: &[Action],
    queue: &mut VecDeque<Event>,
    port: &mut P,
    out: &mut S,
    file: Option<&[u8]>,
    files: &mut F,
) -> Result<(), Halt>
    ensures ok { OnOk result ((failed : List ℕ) ×
        Performed (puts E.machine) (option_copied file.entry) actions.now
        (loop_of P.story P.link_faults S.taken (files_told F.contents F.reads F.writes)
        port.old out.old files.old [] queue.old.items)
        (loop_of P.story P.link_faults S.taken (files_told F.contents F.reads F.writes)
        port.new out.new files.new failed queue.new.items)) }
    ensures err { IfErr result (λ halt. (failed : List ℕ) ×
        CutShort (puts E.machine) (option_copied file.entry) halt actions.now
        (loop_of P.story P.link_faults S.taken (files_told F.contents F.reads F.writes)
        port.old out.old files.old [] queue.old.items)
        (loop_of P.story P.link_faults S.taken (files_told F.contents F.reads F.writes)
        port.new out.new files.new failed queue.new.items)) }
    ensures kinds { IfErr result IsOfActs }
    ensures cause { result ≡ Err Halt.SinkFault → Rose (S.faults out.old) (S.faults out.new) }
    ensures file_cause { result ≡ Err Halt.FileFault →
        Rose (F.faults files.old) (F.faults files.new) }
    ensures sink { S.faults out.old ≤ S.faults out.new }
    ensures files { F.faults files.old ≤ F.faults files.new }
    ensures port { P.faults port.new ≡ P.faults port.old }
    ensures links { P.link_faults port.old ≤ P.link_faults port.new }
{
    let mut failed = Vec::new(alloc);
    for action in actions {
        act(
            alloc,
            end,
            action,
            &mut failed,
            queue,
            port,
            out,
            file,
            files,
        )?;
    }
    Ok(())
}
