//! NetrServerPasswordSet.

ghost use Rattle.std.specs.Prelude.{◌≡◌, ◌≤◌, ◌<◌, ◌^◌, IfOk, OnOk, length, replicate};
ghost use Rattle.account_table.specs.Changes.{with_changes, with_hash};
ghost use Rattle.secret_change.specs.Calls.{written_set_reply};
ghost use Rattle.secret_change.specs.Ranges.{InRangeSetReply};
ghost use Rattle.wire_base.specs.Numbers.{AreBytes};
ghost use Rattle.logon_stubs.specs.Status.{access_denied};
ghost use Rattle.outside.specs.declared.action.Action.TheVariants as action;
ghost use Rattle.outside.specs.declared.action.Judged.TheVariants as judged;
ghost use Rattle.controller_calls.specs.Desk.{desk, tell};
ghost use Rattle.controller_calls.specs.Doing.{returned_with};
ghost use Rattle.controller_calls.specs.Setting.{keep_secrets};
ghost use Rattle.controller_calls.specs.Stubs.{set_hash_unsent};
ghost use Rattle.controller_calls.specs.Unsent.{replies};

use crate::replying::tell;
use crate::standing::machine_with;
use crate::state::Work;
use account_table::{Change, Table, TableChange, TableChanges};
use logon_stubs::{STATUS_ACCESS_DENIED, STATUS_NO_TRUST_SAM_ACCOUNT};
use outside::{Action, Judged};
use secret_change::{SetReply, show, write_set_reply};
use std::alloc::Global;
use wire_base::{Authenticator, Blob, NoMemory};

/// The stub of the reply without a channel and an authenticator that passes: no secret is set.
pub(crate) fn refused_set_stub(alloc: Global) -> Result<Blob, NoMemory>
    ensures value { IfOk result (λ stub. stub ≡ written_set_reply (record {
      returned = returned_with (replicate 8 0);
      status = access_denied;
    })) }
    ensures short { IfOk result (λ stub. length stub ≤ 65536) }
{
    set_stub(alloc, [0; 8], STATUS_ACCESS_DENIED)
}

/// The hash of the computer's account becomes the one that is hidden under the channel's key, and the text of all
/// changed accounts is kept (MS-NRPC 3.5.4.4.6).
pub(crate) fn set_hash(
    alloc: Global,
    table: &Table,
    changes: &mut TableChanges,
    account: &[u16],
    kind: u16,
    hidden: [u8; 16],
    computer: &[u16],
    key: [u8; 16],
    credential: [u8; 8],
    work: Work,
) -> Result<(Work, Blob), NoMemory>
    ensures value { IfOk result (λ done.
        replies (desk (with_changes changes.new table.now) done.0) done.1 ≡ set_hash_unsent
        account.now kind hidden computer.now key credential
        (desk (with_changes changes.old table.now) work)) }
    ensures short { IfOk result (λ done. length done.1 ≤ 65536) }
{
    let Some(place) = machine_with(table, changes, account, kind, computer) else {
        return pass_set(alloc, STATUS_NO_TRUST_SAM_ACCOUNT, credential, work);
    };
    add_hash(table, changes, place, show(key, hidden))?;
    let work = keep_secrets(alloc, table, changes, work)?;
    pass_set(alloc, 0, credential, work)
}

/// The change of a hash is one more.
#[tactic(auto, using(crate::proofs::ChangeLaws::setting))]
fn add_hash(
    table: &Table,
    changes: &mut TableChanges,
    place: u32,
    hash: [u8; 16],
) -> Result<(), NoMemory>
    ensures { OnOk result (with_changes changes.new table.now
        ≡ with_hash place hash (with_changes changes.old table.now)) }
{
    // only the clause speaks of it
    let _table = table.policy();
    changes.push(TableChange {
        place,
        change: Change::Hash(hash),
    })
}

/// The text of all changed accounts is kept, as the changes leave them.
fn keep_secrets(
    alloc: Global,
    table: &Table,
    changes: &TableChanges,
    work: Work,
) -> Result<Work, NoMemory>
    ensures { IfOk result (λ w. w ≡ keep_secrets (with_changes changes.now table.now) work) }
{
    let text = table.secrets_with(alloc, changes)?;
    tell(work, Action::Keep(text))
}

/// The call passed, with that status, which stands in the stub of the reply.
fn pass_set(
    alloc: Global,
    status: u32,
    credential: [u8; 8],
    work: Work,
) -> Result<(Work, Blob), NoMemory>
    ensures work { IfOk result (λ done. done.0 ≡ tell work (action.Judged (judged.Passed status))) }
    ensures stub { IfOk result (λ done. done.1 ≡ written_set_reply (record {
      returned = returned_with credential;
      status = status;
    })) }
    ensures short { IfOk result (λ done. length done.1 ≤ 65536) }
{
    let work = tell(work, Action::Judged(Judged::Passed(status)))?;
    let stub = set_stub(alloc, credential, status)?;
    Ok((work, stub))
}

/// The stub of the reply, which is short.
fn set_stub(alloc: Global, credential: [u8; 8], status: u32) -> Result<Blob, NoMemory>
    ensures exact { IfOk result (λ stub. stub ≡ written_set_reply (record {
      returned = record { credential = credential; timestamp = 0 };
      status = status;
    })) }
    ensures most { IfOk result (λ stub. length stub ≤ 65536) }
{
    let reply = SetReply {
        returned: Authenticator {
            credential,
            timestamp: 0,
        },
        status,
    };
    is_in_range(&credential, status);
    let stub = write_set_reply(alloc, &reply)?;
    Ok(stub)
}

/// The reply has its ranges. It is called so that its stub is known to be short.
fn is_in_range(credential: &[u8; 8], status: u32)
    ensures { InRangeSetReply (record {
      returned = record { credential = credential.now; timestamp = 0 };
      status = status;
    }) }
{
    are_bytes(credential);
    is_long(status);
}

/// Each item is a byte. It is called so that this is known.
fn are_bytes(bytes: &[u8])
    ensures { AreBytes bytes.now }
{}

/// A number of 32 bits is below 2^32. It is called so that this is known.
fn is_long(number: u32)
    ensures { number < 2 ^ 32 }
{}
