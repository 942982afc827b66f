//! Turns of a logon at a member beside its controller, from the client's bind to the member's word that it is in.

use crate::bench::{Outcome, end_of};
use crate::calls::controller;
use anyhow::bail;
use domain_controller::Controller;
use member_server::{Member, MemberPlan};
use outside::{Action, Actions, Draws, Event, ListChances, Outcome as Told};
use secret_change::Secrets;
use std::alloc::Global;
use wire_base::{Blob, Name};

/// The secret of the workstation's account.
const SECRET: [u8; 16] = [0x41; 16];

/// The challenge that the member draws: the AUTHENTICATE answers it.
const CHALLENGE: [u8; 8] = [0x10, 0x11, 0x12, 0x13, 0x14, 0x15, 0x16, 0x17];

/// The challenge that the controller draws.
const OPENING: [u8; 8] = [0x20, 0x21, 0x22, 0x23, 0x24, 0x25, 0x26, 0x27];

/// A moment of June 2022, in units of 100 ns since 1601.
const NOW: u64 = 133_000_000_000_000_000;

/// The client's link.
const CLIENT: u32 = 1;

/// The link of each turn.
const TURN: u32 = 1000;

/// A bind at level privacy, with a NEGOTIATE.
const BIND: &str =
    "05000b03100000007000200001000000d016d0160000000001000000000001006f4c746e6f674d4e8d656d6f0000000101000000045d888aeb1cc9119fe808002b104860020000000a060000010000004e544c4d5353500001000000358208e000000000200000000000000020000000";

/// The auth3 of user ann, whose AUTHENTICATE has an NTLMv2 response, and under the exchange key the session key
/// 2021222324252627 3031323334353637.
const AUTH3: &str =
    "0500100310000000e400c80001000000000000000a060000010000004e544c4d535350000300000018001800520000004e004e006a00000008000800400000000600060048000000040004004e00000010001000b8000000358208e043004f005200500061006e006e00570053000000000000000000000000000000000000000000000000005dbc200ec8e3efac13f3e0b7a9a5e08501010000000000000080209bcb82d8011011121314151617000000000200080043004f005200500001000a00460049004c004500310000000000000000008768e6a97ec16702622b7653c6e53007";

/// A member whose channel is open, its controller, and what the client sends.
pub struct Logons {
    member: Member,
    controller: Controller,
    bind: Event,
    auth3: Event,
}

impl Drop for Logons {
    // The drop that would be derived. Written out, it is one call wherever a value that holds a `Logons` is let go,
    // which keeps the proofs of those places short.
    fn drop(self) {
        let Logons {
            member: _member,
            controller: _controller,
            bind: _bind,
            auth3: _auth3,
        } = self;
    }
}

impl Logons {
    /// A member that let the user in once: a turn for each of the channel's calls.
    pub fn new(alloc: Global) -> anyhow::Result<Logons> {
        let mut logons = Logons::before_the_first(alloc)?;
        logons.log_on(alloc, 3)?;
        Ok(logons)
    }

    /// A member and its controller before their first link.
    fn before_the_first(alloc: Global) -> anyhow::Result<Logons> {
        let bind = bytes_of_client(alloc, BIND)?;
        let auth3 = bytes_of_client(alloc, AUTH3)?;
        let controller = controller(alloc)?;
        let member = member(alloc)?;
        Ok(Logons {
            member,
            controller,
            bind,
            auth3,
        })
    }

    /// The key that the member tells for the last of `turns` logons, each over the open channel.
    pub fn let_in(&mut self, alloc: Global, turns: u32) -> anyhow::Result<Outcome> {
        let mut end = Outcome::new();
        for _ in 0..turns {
            match self.log_on(alloc, 1) {
                Ok(key) => end = key,
                Err(_) => bail!("a logon wasn't answered"),
            }
        }
        Ok(end)
    }

    /// A logon, with `turns` turns of the channel, and the key that is told for it.
    fn log_on(&mut self, alloc: Global, turns: u32) -> anyhow::Result<Outcome> {
        self.ask(alloc)?;
        let told = self.last_turn(alloc, turns)?;
        step_member(alloc, &mut self.member, &Event::Closed(CLIENT))?;
        Ok(key_told(&told))
    }

    /// The client opens a link, binds, and sends its AUTHENTICATE: the member dials.
    fn ask(&mut self, alloc: Global) -> anyhow::Result<()> {
        step_member(alloc, &mut self.member, &Event::Opened(CLIENT))?;
        step_member(alloc, &mut self.member, &self.bind)?;
        step_member(alloc, &mut self.member, &self.auth3)?;
        Ok(())
    }

    /// Takes as many turns of the channel as asked for, and gives what the member does at the end of the last.
    fn last_turn(&mut self, alloc: Global, turns: u32) -> anyhow::Result<Actions> {
        let mut told = Actions::new(alloc);
        for _ in 0..turns {
            match self.turn(alloc) {
                Ok(last) => told = last,
                Err(_) => bail!("a turn wasn't answered"),
            }
        }
        Ok(told)
    }

    /// A turn of the channel: a bind and a request, each with its answer. What the member does at the last.
    fn turn(&mut self, alloc: Global) -> anyhow::Result<Actions> {
        step_controller(alloc, &mut self.controller, &Event::Opened(TURN))?;
        let bind = step_member(alloc, &mut self.member, &Event::Dialled(TURN))?;
        let request = self.carry(alloc, bind)?;
        let told = self.carry(alloc, request)?;
        step_controller(alloc, &mut self.controller, &Event::Closed(TURN))?;
        Ok(told)
    }

    /// What the member sends comes to the controller, and its answer to the member. What the member does then.
    fn carry(&mut self, alloc: Global, sent: Actions) -> anyhow::Result<Actions> {
        let answered = answer_of(alloc, &mut self.controller, sent)?;
        step_member(alloc, &mut self.member, &answered)
    }
}

/// What the controller answers to what is sent.
fn answer_of(alloc: Global, controller: &mut Controller, sent: Actions) -> anyhow::Result<Event> {
    let asked = bytes_sent(sent)?;
    let answer = step_controller(alloc, controller, &asked)?;
    bytes_sent(answer)
}

/// A step of the member, which draws one challenge for a bind, and one where it opens the channel.
fn step_member(alloc: Global, member: &mut Member, event: &Event) -> anyhow::Result<Actions> {
    let mut drawn = challenge(alloc, CHALLENGE)?;
    match member.step(alloc, event, NOW, &mut drawn) {
        Ok(actions) => Ok(actions),
        Err(_) => bail!("a step was refused"),
    }
}

/// A step of the controller, which draws one challenge when the channel opens.
fn step_controller(
    alloc: Global,
    controller: &mut Controller,
    event: &Event,
) -> anyhow::Result<Actions> {
    let mut drawn = challenge(alloc, OPENING)?;
    match controller.step(alloc, event, NOW, &mut drawn) {
        Ok(actions) => Ok(actions),
        Err(_) => bail!("a step was refused"),
    }
}

/// The member, before its first link.
fn member(alloc: Global) -> anyhow::Result<Member> {
    let plan = plan(alloc)?;
    Ok(Member::new(alloc, plan)?)
}

/// The member's plan.
fn plan(alloc: Global) -> anyhow::Result<MemberPlan> {
    let computer = Name::read(alloc, b"FILE1")?;
    let domain = Name::read(alloc, b"CORP")?;
    let controller = Blob::copy(alloc, b"there")?;
    Ok(MemberPlan {
        computer,
        domain,
        secrets: Secrets::alone(SECRET),
        controller,
        sealed: false,
    })
}

/// The one challenge that a step may draw.
fn challenge(alloc: Global, challenge: [u8; 8]) -> anyhow::Result<ListChances> {
    let mut draws = Draws::new(alloc);
    draws.push(challenge)?;
    Ok(ListChances::new(draws))
}

/// Bytes, given in hex, on the client's link.
fn bytes_of_client(alloc: Global, digits: &str) -> anyhow::Result<Event> {
    let bytes = hex::decode(alloc, digits)?;
    Ok(Event::Bytes(CLIENT, Blob::from_vec(bytes)))
}

/// The bytes that the last of the actions sends, as they come at the other side.
fn bytes_sent(actions: Actions) -> anyhow::Result<Event> {
    match actions.into_vec().pop() {
        Some(Action::Send(link, bytes)) => Ok(Event::Bytes(link, bytes)),
        _ => bail!("nothing was sent"),
    }
}

/// The key that the last of the actions tells; empty where it tells none.
fn key_told(actions: &Actions) -> Outcome {
    match actions.items().last() {
        Some(Action::Told(_, Told::In { key, .. })) => end_of(key.as_slice()),
        _ => Outcome::new(),
    }
}
