//! The end of `nt_member serve`.

ghost use Rattle.std.specs.Prelude.{◌≡◌, ◌≤◌, IfOk, OnOk, Some, false};
ghost use Rattle.outside.specs.Causes.{Rose};
ghost use Rattle.end_loop.specs.Seen.{Between};
ghost use Rattle.end_loop.specs.Writing.{files_told};
ghost use Rattle.member_server.specs.Machine.{is_stopped};
ghost use Rattle.member_server.specs.SealStep.{sealing_member};
ghost use Rattle.nt_top.specs.Service.{MemberServes, changing, first_of, member_plan};
ghost use Rattle.nt_top.specs.declared.exit.Exit.{Exit};

use crate::exit::Exit;
use crate::serve::{name_of, serve_end};
use member_server::{ChangeRefused, Member, MemberPlan};
use nt_words::{MemberSetup, MemberWords};
use outside::{Actions, Chances, Clock, Files, Port, Sink};
use secret_change::Secrets;
use std::alloc::Global;
use wire_base::{Blob, NoMemory};

/// Starts the challenges, listens, and serves a member server of the words and the files. Its channel is sealed where
/// the words say so. Where the words name a secret
/// to change to, and the file of the secrets has one alone, it begins with that change: the text of both is written
/// once the port listens, before an event is asked for. Texts are written into the file that the secrets were read
/// from.
///
/// `PortFault`, `FileFault`, `SinkFault` and `Spent` are those of the service; `Done` where the port gave `Stop` or as
/// many events as the words say. `NoMemory` may come at any time.
pub(crate) fn serve_member<P: Port, S: Sink, F: Files, C: Clock, Q: Chances>(
    alloc: Global,
    words: &MemberWords,
    setup: MemberSetup,
    port: &mut P,
    out: &mut S,
    files: &mut F,
    clock: &mut C,
    chances: &mut Q,
) -> Exit
    ensures serves { Between
        P.story P.link_faults C.moments Q.drawing S.taken
        (files_told F.contents F.reads F.writes) port.old clock.old chances.old out.old files.old
        port.new clock.new chances.new out.new files.new
        (λ before after. MemberServes words.now setup before after result) }
    ensures file_cause { result ≡ Exit.FileFault → Rose (F.faults files.old) (F.faults files.new) }
    ensures files { F.faults files.old ≤ F.faults files.new }
    ensures port_cause { result ≡ Exit.PortFault → Rose (P.faults port.old) (P.faults port.new) }
    ensures sink_cause { result ≡ Exit.SinkFault → Rose (S.faults out.old) (S.faults out.new) }
    ensures port { P.faults port.old ≤ P.faults port.new }
    ensures links { P.link_faults port.old ≤ P.link_faults port.new }
    ensures sink { S.faults out.old ≤ S.faults out.new }
{
    let (secrets, seed, new) = setup.into_parts();
    let mut member = match member_of(alloc, words, secrets) {
        Ok(member) => member,
        Err(NoMemory) => return Exit::NoMemory,
    };
    let first = match begin_change(alloc, &mut member, new) {
        Ok(first) => first,
        Err(NoMemory) => return Exit::NoMemory,
    };
    serve_end(
        alloc,
        &mut member,
        &first,
        words.listen().as_bytes(),
        seed,
        words.boot(),
        words.events(),
        port,
        out,
        Some(words.secret_file().as_bytes()),
        files,
        clock,
        chances,
    )
}

/// Begins the change to the new secret, where there is one: what the member does first. Nothing is done where a change
/// is under way, which goes on.
#[tactic(auto, using(crate::proofs::ChangeLaws::change_runs))]
fn begin_change(
    alloc: Global,
    member: &mut Member,
    new: Option<[u8; 16]>,
) -> Result<Actions, NoMemory>
    requires running { is_stopped member.old ≡ false }
    ensures first { IfOk result (λ first. first ≡ first_of (changing new member.old).answer) }
    ensures begins { OnOk result (member.new ≡ (changing new member.old).state) }
    ensures goes_on { OnOk result (is_stopped member.new ≡ false) }
{
    let Some(new) = new else {
        return Ok(Actions::new(alloc));
    };
    match member.change(alloc, new) {
        Ok(first) => Ok(first),
        Err(ChangeRefused::Busy { .. }) => Ok(Actions::new(alloc)),
        Err(ChangeRefused::Memory) => Err(NoMemory),
        Err(ChangeRefused::Stopped) => unreachable!(),
    }
}

/// The member server of the words and the secrets.
fn member_of(alloc: Global, words: &MemberWords, secrets: Secrets) -> Result<Member, NoMemory>
    ensures { IfOk result (λ member. member ≡ sealing_member (member_plan words.now secrets)) }
{
    match member_plan(alloc, words, secrets) {
        Ok(plan) => Member::with_sealing(alloc, plan),
        Err(NoMemory) => Err(NoMemory),
    }
}

/// The plan of the words and the secrets.
fn member_plan(alloc: Global, words: &MemberWords, secrets: Secrets) -> Result<MemberPlan, NoMemory>
    ensures { IfOk result (λ plan. plan ≡ member_plan words.now secrets) }
{
    Ok(MemberPlan {
        computer: name_of(alloc, words.computer())?,
        domain: name_of(alloc, words.domain())?,
        secrets,
        controller: Blob::copy(alloc, words.controller().as_bytes())?,
        sealed: words.seals(),
    })
}
