//! Calls on a secure channel before their replies are sent.

ghost use Rattle.std.specs.Prelude.{◌≡◌, ◌≤◌, IfOk, IfSome, None, Some, length};
ghost use Rattle.wire_base.specs.Maps.{lookup};
ghost use Rattle.wire_base.specs.Names.{same_name};
ghost use Rattle.account_table.specs.Changes.{with_changes};
ghost use Rattle.outside.specs.declared.action.Action.TheVariants as action;
ghost use Rattle.controller_calls.specs.Desk.{IsLine, desk, take_channel, tell};
ghost use Rattle.controller_calls.specs.Doing.{refused_stub};
ghost use Rattle.controller_calls.specs.Handing.{trust_asked};
ghost use Rattle.controller_calls.specs.Stubs.{asked_unsent};
ghost use Rattle.controller_calls.specs.Unsent.{call_unsent, on_unsent, owned_unsent, pass_or_hand_unsent, replies};

use crate::calls::{Asked, JudgedCall, parts};
use crate::computers::{put_channel, take_channel};
use crate::handing::{HandOn, hand_on, trust_asked};
use crate::interactive::{end_session, pass_interactive, pass_logoff, refused_logoff_stub};
use crate::line::Line;
use crate::logon::{pass_network, refused_logon_stub};
use crate::replying::tell;
use crate::setting::{refused_set_stub, set_hash};
use crate::state::Work;
use account_table::{Table, TableChanges};
use logon_stubs::STATUS_INVALID_INFO_CLASS;
use outside::{Action, Judged};
use std::alloc::Global;
use wire_base::{Authenticator, Blob, Name, NoMemory, Units};

/// What comes of a call that asks for something on a secure channel, at a moment (MS-NRPC 3.1.4.5), before its reply is
/// sent: what is done and told, and the stub of the reply, or the logon that is handed on. `judge_call` is this, and
/// sends.
pub fn call_unsent(
    alloc: Global,
    table: &Table,
    changes: &mut TableChanges,
    name: &Name,
    now: u64,
    line: Line,
    trusts: usize,
    call: JudgedCall,
    work: Work,
) -> Result<(Work, (Option<Blob>, Option<HandOn>)), NoMemory>
    requires { IsLine line }
    ensures value { IfOk result (λ done.
        (desk (with_changes changes.new table.now) done.0, done.1) ≡ call_unsent call
        (record { name = name.now; now = now; line = line; trusts = trusts })
        (desk (with_changes changes.old table.now) work)) }
    ensures short { IfOk result (λ done. IfSome done.1.0 (λ stub. length stub ≤ 65536)) }
{
    let (computer, given, asked) = parts(call);
    match (computer, given) {
        (Some(computer), Some(given)) => unsent_on(
            alloc, table, changes, name, now, line, trusts, computer, &given, asked, work,
        ),
        _ => refuse_unsent(alloc, Judged::NoChannel, &asked, work),
    }
}

/// Judges a call that came on a link of its computer's channel, or didn't: one that didn't is refused, and the channel
/// stays as it was.
pub fn owned_unsent(
    alloc: Global,
    is_own: bool,
    table: &Table,
    changes: &mut TableChanges,
    name: &Name,
    now: u64,
    line: Line,
    trusts: usize,
    call: JudgedCall,
    work: Work,
) -> Result<(Work, (Option<Blob>, Option<HandOn>)), NoMemory>
    requires { IsLine line }
    ensures value { IfOk result (λ done.
        (desk (with_changes changes.new table.now) done.0, done.1) ≡ owned_unsent is_own call
        (record { name = name.now; now = now; line = line; trusts = trusts })
        (desk (with_changes changes.old table.now) work)) }
    ensures short { IfOk result (λ done. IfSome done.1.0 (λ stub. length stub ≤ 65536)) }
{
    if is_own {
        return call_unsent(alloc, table, changes, name, now, line, trusts, call, work);
    }
    let (_computer, _given, asked) = parts(call);
    refuse_unsent(alloc, Judged::NoChannel, &asked, work)
}

/// What comes of what is asked on the computer's channel.
fn unsent_on(
    alloc: Global,
    table: &Table,
    changes: &mut TableChanges,
    name: &Name,
    now: u64,
    line: Line,
    trusts: usize,
    computer: Units,
    given: &Authenticator,
    asked: Asked,
    work: Work,
) -> Result<(Work, (Option<Blob>, Option<HandOn>)), NoMemory>
    requires { IsLine line }
    ensures value { IfOk result (λ done.
        (desk (with_changes changes.new table.now) done.0, done.1)
        ≡ on_unsent (lookup same_name computer work.computers.channels) given.now asked
        (record { name = name.now; now = now; line = line; trusts = trusts }) computer
        (desk (with_changes changes.old table.now) (take_channel computer work))) }
    ensures short { IfOk result (λ done. IfSome done.1.0 (λ stub. length stub ≤ 65536)) }
{
    let (work, found) = take_channel(computer.units(), work);
    let Some(mut channel) = found else {
        return refuse_unsent(alloc, Judged::NoChannel, &asked, work);
    };
    let kind = channel.kind();
    let returned = channel.judge(given);
    let key = channel.key();
    let work = put_channel(computer.duplicate(alloc)?, channel, work)?;
    match returned {
        Some(credential) => pass_or_hand(
            alloc,
            table,
            changes,
            name,
            now,
            line,
            trusts,
            kind,
            asked,
            computer.units(),
            key,
            credential,
            work,
        ),
        None => refuse_unsent(alloc, Judged::Barred, &asked, work),
    }
}

/// The call is refused: that is told, with the stub of the reply.
fn refuse_unsent(
    alloc: Global,
    how: Judged,
    asked: &Asked,
    work: Work,
) -> Result<(Work, (Option<Blob>, Option<HandOn>)), NoMemory>
    ensures value { IfOk result (λ done.
        done ≡ (tell work (action.Judged how), (Some (refused_stub asked.now), None))) }
    ensures short { IfOk result (λ done. IfSome done.1.0 (λ stub. length stub ≤ 65536)) }
{
    let (work, stub) = refuse_asked(alloc, how, asked, work)?;
    Ok((work, (Some(stub), None)))
}

/// Without a channel and an authenticator that passes, the call is told so, and its reply returns nothing.
pub(crate) fn refuse_asked(
    alloc: Global,
    how: Judged,
    asked: &Asked,
    work: Work,
) -> Result<(Work, Blob), NoMemory>
    ensures work { IfOk result (λ done. done.0 ≡ tell work (action.Judged how)) }
    ensures stub { IfOk result (λ done. done.1 ≡ refused_stub asked.now) }
    ensures short { IfOk result (λ done. length done.1 ≤ 65536) }
{
    let work = tell(work, Action::Judged(how))?;
    let stub = refused_stub(alloc, asked)?;
    Ok((work, stub))
}

/// The stub of the reply to what is refused.
fn refused_stub(alloc: Global, asked: &Asked) -> Result<Blob, NoMemory>
    ensures value { IfOk result (λ stub. stub ≡ refused_stub asked.now) }
    ensures short { IfOk result (λ stub. length stub ≤ 65536) }
{
    match asked {
        Asked::Network(_, validation) => refused_logon_stub(alloc, *validation),
        Asked::Interactive(_, validation) => refused_logon_stub(alloc, *validation),
        Asked::Logoff(_) | Asked::NetworkLogoff => refused_logoff_stub(alloc),
        Asked::Set(..) => refused_set_stub(alloc),
    }
}

/// Where the authenticator passes, on a channel of that type, what is asked is handed on, or done here.
fn pass_or_hand(
    alloc: Global,
    table: &Table,
    changes: &mut TableChanges,
    name: &Name,
    now: u64,
    line: Line,
    trusts: usize,
    kind: Option<u16>,
    asked: Asked,
    computer: &[u16],
    key: [u8; 16],
    credential: [u8; 8],
    work: Work,
) -> Result<(Work, (Option<Blob>, Option<HandOn>)), NoMemory>
    requires { IsLine line }
    ensures value { IfOk result (λ done.
        (desk (with_changes changes.new table.now) done.0, done.1) ≡ pass_or_hand_unsent
        (trust_asked asked kind (with_changes changes.old table.now) trusts) asked
        (record { name = name.now; now = now; line = line; trusts = trusts })
        computer.now key credential (desk (with_changes changes.old table.now) work)) }
    ensures short { IfOk result (λ done. IfSome done.1.0 (λ stub. length stub ≤ 65536)) }
{
    match trust_asked(table, changes, &asked, kind, trusts) {
        Some(trust) => Ok((work, (None, hand_on(asked, trust, line, key, credential)))),
        None => {
            let (work, stub) = pass_asked(
                alloc, table, changes, name, now, &asked, computer, key, credential, work,
            )?;
            Ok((work, (Some(stub), None)))
        }
    }
}

/// What is asked is done, where the authenticator passes, and told, with the stub of the reply.
fn pass_asked(
    alloc: Global,
    table: &Table,
    changes: &mut TableChanges,
    name: &Name,
    now: u64,
    asked: &Asked,
    computer: &[u16],
    key: [u8; 16],
    credential: [u8; 8],
    work: Work,
) -> Result<(Work, Blob), NoMemory>
    ensures value { IfOk result (λ done.
        replies (desk (with_changes changes.new table.now) done.0) done.1 ≡ asked_unsent
        asked.now name.now now computer.now key credential
        (desk (with_changes changes.old table.now) work)) }
    ensures short { IfOk result (λ done. length done.1 ≤ 65536) }
{
    match asked {
        Asked::Network(info, validation) => pass_network(
            alloc,
            table,
            changes,
            name,
            now,
            info,
            *validation,
            key,
            credential,
            work,
        ),
        Asked::Interactive(info, validation) => pass_interactive(
            alloc,
            table,
            changes,
            name,
            now,
            info,
            *validation,
            computer,
            key,
            credential,
            work,
        ),
        Asked::Logoff(info) => end_session(alloc, info, computer, credential, work),
        Asked::NetworkLogoff => pass_logoff(alloc, STATUS_INVALID_INFO_CLASS, credential, work),
        Asked::Set(account, kind, hidden) => set_hash(
            alloc,
            table,
            changes,
            account.units(),
            *kind,
            *hidden,
            computer,
            key,
            credential,
            work,
        ),
    }
}
