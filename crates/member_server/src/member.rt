//! The member.

ghost use Rattle.std.specs.Prelude.{ℕ, List as list, [], ◌≡◌, ◌≤◌, ◌<◌, ◌+◌, ◌++◌, ◌↔◌, None, Some, Err, false, length, nat_le, option_copied, IfOk, OnOk, OnErr, IsTrue};
ghost use Rattle.end_loop.specs.Acts.{is_made, most_made_by};
ghost use Rattle.wire_base.specs.Maps.{lookup, same_number};
ghost use Rattle.end_links.specs.Bounds.{AreShortSends, units_at, units_in_piece};
ghost use Rattle.outside.specs.Drawing.{DrawsSome};
ghost use Rattle.outside.specs.Machine.{AnswersBy, StepsBy};
ghost use Rattle.channel_client.specs.Machine.{fresh_requester};
ghost use Rattle.channel_turns.specs.declared.state.Dialling.TheVariants as dialling;
ghost use Rattle.member_server.specs.Machine.{account_of, caller_of, fresh_member, close_link, open_by, open_after_close, answer_dial, bytes_on_link, serve_alone, bytes_on, by_event, put_open, halted_state, is_stopped, event_part, step_of, want_of, ChangesBy, change_of, next_kept};
ghost use Rattle.member_server.specs.Outcomes.{without_link};
ghost use Rattle.member_server.specs.Pending.{pending_in};
ghost use Rattle.member_server.specs.SealStep.{any_step_of, channel_of_plan, first_sealing, sealing_in, sealing_member};
ghost use Rattle.rpc_units.specs.Stream.{cut_stream};

use crate::change::{ChangeRefused, change_running};
use crate::outcomes::tell_at;
use crate::plan::MemberPlan;
use crate::seal_step::{is_sealed_on, run_sealed};
use crate::state::{AtLink, Logons, Phase, Running, Talk, TurnSealing, Work};
use crate::turns::{close_turn, fail_dial, hear_turn, next_turn, send_bind};
use channel_client::{Channel, PlainChannel};
use channel_turns::Dialling;
use end_links::{Link, Links, ShortActions, serve_piece};
use outside::{Action, Actions, Chances, CloseCause, Event, StepRefused};
use rpc_units::Joiner;
use std::alloc::Global;
use std::marker::Model;
use wire_base::{List, Name, NoMemory, Units};

/// A member server, seen as what it keeps.
#[derive(Drop)]
pub struct Member {
    // none once a step was given up
    running: Option<Running>,
}

impl Model for Member {
    ghost use Rattle.member_server.specs.State.{State};

    ghost Value = { State };

    ghost view = { λ m. record { running = m.running } };
}

impl Member {
    /// A member by this plan whose channel seals nothing, that keeps nothing yet. `NoMemory` where no memory was found.
    pub fn new(alloc: Global, plan: MemberPlan) -> Result<Member, NoMemory>
        ensures { IfOk result (λ member. member ≡ fresh_member plan) }
    {
        let channel = fresh_channel(alloc, &plan)?;
        Ok(Member::make(alloc, plan, channel, None))
    }

    /// A member by this plan that keeps nothing yet, whose channel seals exactly where the plan says so. `NoMemory`
    /// where no memory was found.
    pub fn with_sealing(alloc: Global, plan: MemberPlan) -> Result<Member, NoMemory>
        ensures { IfOk result (λ member. member ≡ sealing_member plan) }
    {
        let channel = channel_of_plan(alloc, &plan)?;
        let sealing = first_sealing(plan.sealed);
        Ok(Member::make(alloc, plan, channel, sealing))
    }

    /// A member that keeps nothing yet but this channel, and what seals. It takes no memory.
    fn make(
        alloc: Global,
        plan: MemberPlan,
        channel: PlainChannel,
        sealing: Option<TurnSealing>,
    ) -> Member
        ensures { result ≡ record {
          running = Some (record {
            logons = record {
              plan = plan;
              channel = channel;
              asked = [];
            };
            links = [];
            dialling = dialling.Nothing;
            sealing = sealing;
          });
        } }
    {
        let logons = Logons {
            plan,
            channel,
            asked: List::new(alloc),
        };
        Member {
            running: Some(Running {
                logons,
                links: Links::new(alloc),
                dialling: Dialling::Nothing,
                sealing,
            }),
        }
    }

    /// The step for an event at this moment, in units of 100 ns since 1601: its actions in order. A challenge is drawn
    /// where a bind is answered with a CHALLENGE, and where a turn starts whose channel needs one; on an open channel
    /// that seals it is the confounder of the turn's call.
    ///
    /// `Spent` exactly where the step draws more challenges than are left, `Memory` where no memory was found; after
    /// either of them the member is stopped and keeps nothing. `Stopped` exactly where it was stopped before.
    #[tactic(auto, using(crate::proofs::SealLaws::going_on))]
    pub fn step<Q: Chances>(
        &mut self,
        alloc: Global,
        event: &Event,
        now: u64,
        chances: &mut Q,
    ) -> Result<Actions, StepRefused>
        // The actions, the state and the challenges drawn are the machine's.
        ensures answer { StepsBy result
            (any_step_of self.old event.now now (Q.drawing chances.old).left)
            halted_state self.new (Q.drawing chances.old) (Q.drawing chances.new) }
        // The member answers `Stopped` exactly where it had stopped, and a step that isn't taken stops it.
        ensures stopped { (result ≡ Err StepRefused.Stopped) ↔ IsTrue (is_stopped self.old) }
        ensures stops { OnErr result (self.new ≡ halted_state) }
        ensures goes_on { OnOk result (is_stopped self.new ≡ false) }
        // A member that seals nothing steps as one that can't seal, and seals nothing then.
        ensures plain { sealing_in self.old ≡ None → StepsBy result
            (step_of self.old event.now now (Q.drawing chances.old).left)
            halted_state self.new (Q.drawing chances.old) (Q.drawing chances.new) }
        ensures stays_plain { sealing_in self.old ≡ None → sealing_in self.new ≡ None }
        // Events that a failed send or a dial makes come to an end.
        ensures settles { IfOk result (λ actions. IsTrue (is_made event.now) →
            most_made_by actions + pending_in self.new ≤ pending_in self.old) }
        // At most one challenge is drawn for each unit that the event can end, and one more for the turn that starts,
        // whatever the result.
        ensures few { length (Q.drawing chances.old).left
            ≤ length (Q.drawing chances.new).left + units_at event.now + 1 }
        // No send has more than 589,824 bytes.
        ensures short { IfOk result (λ actions. AreShortSends actions) }
    {
        match self.sealing() {
            None => self.step_plain(alloc, event, now, chances),
            Some(sealing) => self.step_sealed(alloc, sealing, event, now, chances),
        }
    }

    /// What it keeps to seal.
    fn sealing(&self) -> Option<TurnSealing>
        ensures { result ≡ sealing_in self.now }
    {
        match &self.running {
            Some(running) => running.sealing,
            None => None,
        }
    }

    /// The step of a member that seals nothing.
    #[tactic(auto, using(crate::proofs::StepLaws::stepping))]
    fn step_plain<Q: Chances>(
        &mut self,
        alloc: Global,
        event: &Event,
        now: u64,
        chances: &mut Q,
    ) -> Result<Actions, StepRefused>
        // The actions, the state and the challenges drawn are the machine's.
        ensures answer { StepsBy result
            (step_of self.old event.now now (Q.drawing chances.old).left)
            halted_state self.new (Q.drawing chances.old) (Q.drawing chances.new) }
        // The member answers `Stopped` exactly where it had stopped, and a step that isn't taken stops it.
        ensures stopped { (result ≡ Err StepRefused.Stopped) ↔ IsTrue (is_stopped self.old) }
        ensures stops { OnErr result (self.new ≡ halted_state) }
        ensures goes_on { OnOk result (is_stopped self.new ≡ false) }
        ensures plain { sealing_in self.new ≡ None }
        // Events that a failed send or a dial makes come to an end.
        ensures settles { IfOk result (λ actions. IsTrue (is_made event.now) →
            most_made_by actions + pending_in self.new ≤ pending_in self.old) }
        // At most one challenge is drawn for each unit that the event can end, and one more for the turn that starts,
        // whatever the result.
        ensures few { length (Q.drawing chances.old).left
            ≤ length (Q.drawing chances.new).left + units_at event.now + 1 }
        // No send has more than 589,824 bytes.
        ensures short { IfOk result (λ actions. AreShortSends actions) }
    {
        let Some(running) = self.running.take() else {
            return Err(StepRefused::Stopped);
        };
        let (work, dialling) = match run_event(alloc, running, event, now, chances) {
            Ok(dial_work) => dial_work,
            Err(why) => return Err(why),
        };
        let Work {
            logons,
            links,
            actions,
        } = work;
        self.running = Some(Running {
            logons,
            links,
            dialling,
            sealing: None,
        });
        Ok(actions.into_actions())
    }

    /// The step of a member whose channel seals.
    #[tactic(auto, using(crate::proofs::SealLaws::stepping))]
    fn step_sealed<Q: Chances>(
        &mut self,
        alloc: Global,
        sealing: TurnSealing,
        event: &Event,
        now: u64,
        chances: &mut Q,
    ) -> Result<Actions, StepRefused>
        requires { sealing_in self.old ≡ Some sealing }
        // The actions, the state and the challenges drawn are the machine's.
        ensures answer { StepsBy result
            (any_step_of self.old event.now now (Q.drawing chances.old).left)
            halted_state self.new (Q.drawing chances.old) (Q.drawing chances.new) }
        // The member answers `Stopped` exactly where it had stopped, and a step that isn't taken stops it.
        ensures stopped { (result ≡ Err StepRefused.Stopped) ↔ IsTrue (is_stopped self.old) }
        ensures stops { OnErr result (self.new ≡ halted_state) }
        ensures goes_on { OnOk result (is_stopped self.new ≡ false) }
        // Events that a failed send or a dial makes come to an end.
        ensures settles { IfOk result (λ actions. IsTrue (is_made event.now) →
            most_made_by actions + pending_in self.new ≤ pending_in self.old) }
        // At most one challenge is drawn for each unit that the event can end, and one more for the turn that starts,
        // whatever the result.
        ensures few { length (Q.drawing chances.old).left
            ≤ length (Q.drawing chances.new).left + units_at event.now + 1 }
        // No send has more than 589,824 bytes.
        ensures short { IfOk result (λ actions. AreShortSends actions) }
    {
        let Some(running) = self.running.take() else {
            return Err(StepRefused::Stopped);
        };
        let is_link_sealed = sealing.is_link_sealed;
        let ((work, dialling), sealed) = match run_sealed(
            alloc,
            running,
            is_link_sealed,
            event,
            now,
            chances,
        ) {
            Ok(work) => work,
            Err(why) => return Err(why),
        };
        let is_link_sealed = is_sealed_on(&dialling, sealed);
        let Work {
            logons,
            links,
            actions,
        } = work;
        self.running = Some(Running {
            logons,
            links,
            dialling,
            sealing: Some(TurnSealing { is_link_sealed }),
        });
        Ok(actions.into_actions())
    }

    /// Begins a change of the secret: from now on the new one is the next one, which a turn on the open channel sets.
    /// The one action keeps the text of both. A turn that is out doesn't set the new one yet; the turn after it does.
    ///
    /// `Busy` exactly where a change is under way, which then stays, and `Stopped` exactly where the member was stopped
    /// before; after either of them all is as it was. `Memory` where no memory was found; then the member is stopped
    /// and keeps nothing.
    #[tactic(auto, using(crate::proofs::ChangeLaws::changing_member))]
    pub fn change(&mut self, alloc: Global, new: [u8; 16]) -> Result<Actions, ChangeRefused>
        // The action and the state are those of the definition.
        ensures answer { ChangesBy result (change_of self.old new) self.new }
        ensures stopped { (result ≡ Err ChangeRefused.Stopped) ↔ IsTrue (is_stopped self.old) }
        ensures busy { (next : list ℕ) → (result ≡ Err (ChangeRefused.Busy next))
            ↔ (next_kept self.old ≡ Some next) }
    {
        let Some(running) = self.running.take() else {
            return Err(ChangeRefused::Stopped);
        };
        let (running, answer) = change_running(alloc, new, running);
        self.running = running;
        answer
    }

    /// The link that the member waits for: that of the turn. It takes no memory.
    pub fn wants(&self) -> Option<u32>
        ensures { result ≡ want_of self.now }
    {
        match &self.running {
            Some(running) => running.dialling.wants(),
            None => None,
        }
    }

    /// What it keeps. None exactly where it is stopped.
    pub(crate) fn running(&self) -> Option<&Running>
        ensures { option_copied result ≡ self.now.running }
    {
        self.running.as_ref()
    }
}

/// The channel of a member by this plan.
pub(crate) fn fresh_channel(alloc: Global, plan: &MemberPlan) -> Result<PlainChannel, NoMemory>
    ensures { IfOk result (λ channel. channel ≡ fresh_requester (caller_of plan.now)) }
{
    let account = account_of(alloc, &plan.computer)?;
    PlainChannel::new(
        alloc,
        plan.secrets.tried(),
        plan.computer.copy(alloc)?,
        account,
        2,
    )
}

/// The channel of a member by this plan, which seals where the plan says so.
fn channel_of_plan(alloc: Global, plan: &MemberPlan) -> Result<PlainChannel, NoMemory>
    ensures { IfOk result (λ channel. channel ≡ channel_of_plan plan.now) }
{
    let account = account_of(alloc, &plan.computer)?;
    let channel = Channel::new(
        alloc,
        plan.secrets.tried(),
        plan.computer.copy(alloc)?,
        account,
        2,
        plan.domain.copy(alloc)?,
        plan.sealed,
    )?;
    Ok(channel.into_plain())
}

/// What is kept to seal while no turn is out.
fn first_sealing(seals: bool) -> Option<TurnSealing>
    ensures { result ≡ first_sealing seals }
{
    if !seals {
        return None;
    }
    Some(TurnSealing {
        is_link_sealed: false,
    })
}

/// The name of the machine account.
fn account_of(alloc: Global, computer: &Name) -> Result<Units, NoMemory>
    ensures value { IfOk result (λ account. account ≡ account_of computer.now) }
    ensures short { IfOk result (λ account. length account ≤ 65) }
{
    // Reading the bytes makes it known that the name has at most 64 bytes.
    let _short = computer.bytes();
    let mut units = computer.units(alloc)?.into_vec();
    units.push(0x24)?;
    Ok(Units::from_vec(units))
}

// ---- links

/// The accepted links without that of the number. It takes no memory.
fn drop_link(link: u32, work: Work) -> Work
    ensures { result ≡ without_link link work }
{
    let Work {
        logons,
        links,
        actions,
    } = work;
    let (links, _closed) = links.take(link);
    Work {
        logons,
        links,
        actions,
    }
}

/// A link is closed: the turn is lost where it is its link.
fn close_link(
    alloc: Global,
    how: Dialling,
    link: u32,
    work: Work,
) -> Result<(Work, Dialling), NoMemory>
    ensures { IfOk result (λ dial_work. dial_work ≡ close_link how link work) }
{
    if !how.is_on(link) {
        return Ok((drop_link(link, work), how));
    }
    close_turn(alloc, how, link, work)
}

/// A peer opened a link, of a number that no link has.
fn open_link(alloc: Global, link: u32, work: Work) -> Result<Work, NoMemory>
    ensures { IfOk result (λ after. after ≡ open_by (nat_le 256 (length work.links)) link work) }
{
    if work.links.is_full() {
        return tell_at(work, Action::Close(link, CloseCause::TooManyLinks));
    }
    let talk = Talk {
        joiner: Joiner::new(),
        phase: Phase::Fresh,
    };
    let Work {
        logons,
        links,
        actions,
    } = work;
    Ok(Work {
        logons,
        links: links.put(link, Link::new(alloc, talk)?)?,
        actions,
    })
}

// ---- dials

/// The dial was answered by this link: the bind goes out.
fn answer_dial(
    alloc: Global,
    how: Dialling,
    link: u32,
    work: Work,
) -> Result<(Work, Dialling), NoMemory>
    ensures { IfOk result (λ dial_work. dial_work ≡ answer_dial how link work) }
{
    if !how.is_waiting() {
        return Ok((work, how));
    }
    send_bind(alloc, how, link, drop_link(link, work))
}

// ---- bytes

/// A link is put back, where it stays open.
fn put_open(number: u32, still: Option<Link<Talk>>, work: Work) -> Result<Work, NoMemory>
    requires { length work.links < 256 }
    ensures { IfOk result (λ after. after ≡ put_open still number work) }
{
    let Some(link) = still else {
        return Ok(work);
    };
    let Work {
        logons,
        links,
        actions,
    } = work;
    Ok(Work {
        logons,
        links: links.put(number, link)?,
        actions,
    })
}

/// Bytes came on this accepted link, which is out of the map.
#[tactic(auto, using(crate::proofs::StepLaws::serving))]
fn serve_link<Q: Chances>(
    alloc: Global,
    number: u32,
    link: Link<Talk>,
    piece: &[u8],
    how: Dialling,
    work: Work,
    chances: &mut Q,
) -> Result<(Work, Dialling), StepRefused>
    requires { length work.links < 256 }
    ensures draws { DrawsSome (Q.drawing chances.old) (Q.drawing chances.new) }
    ensures answer { AnswersBy result
        (serve_alone (cut_stream (link.rest ++ piece.now)) number link.talk how work
        (Q.drawing chances.old).left)
        (Q.drawing chances.new).left }
    ensures few { length (Q.drawing chances.old).left
        ≤ length (Q.drawing chances.new).left + units_in_piece (length piece.now) }
{
    let Work {
        logons,
        links,
        actions,
    } = work;
    let at = AtLink {
        link: number,
        logons,
        actions,
    };
    let (at, open) = match serve_piece(alloc, at, link, piece, chances) {
        Ok(served) => served,
        Err(why) => return Err(why),
    };
    let AtLink {
        logons,
        actions,
        ..
    } = at;
    let work = Work {
        logons,
        links,
        actions,
    };
    match put_open(number, open, work) {
        Ok(work) => Ok((work, how)),
        Err(NoMemory) => Err(StepRefused::Memory),
    }
}

/// Bytes came on a link that isn't the turn's.
#[tactic(auto, using(crate::proofs::StepLaws::serving))]
fn bytes_on_link<Q: Chances>(
    alloc: Global,
    number: u32,
    piece: &[u8],
    how: Dialling,
    work: Work,
    chances: &mut Q,
) -> Result<(Work, Dialling), StepRefused>
    ensures draws { DrawsSome (Q.drawing chances.old) (Q.drawing chances.new) }
    ensures answer { AnswersBy result
        (bytes_on_link (lookup same_number number work.links) number piece.now how work
        (Q.drawing chances.old).left)
        (Q.drawing chances.new).left }
    ensures few { length (Q.drawing chances.old).left
        ≤ length (Q.drawing chances.new).left + units_in_piece (length piece.now) }
{
    if work.links.get(number).is_none() {
        return Ok((work, how));
    }
    let Work {
        logons,
        links,
        actions,
    } = work;
    let (links, found) = links.take(number);
    let work = Work {
        logons,
        links,
        actions,
    };
    match found {
        Some(link) => serve_link(alloc, number, link, piece, how, work, chances),
        None => unreachable!(),
    }
}

/// Bytes came on a link.
#[tactic(auto, using(crate::proofs::SharingLaws::serving))]
pub(crate) fn bytes_on<Q: Chances>(
    alloc: Global,
    number: u32,
    piece: &[u8],
    how: Dialling,
    work: Work,
    chances: &mut Q,
) -> Result<(Work, Dialling), StepRefused>
    ensures draws { DrawsSome (Q.drawing chances.old) (Q.drawing chances.new) }
    ensures answer { AnswersBy result
        (bytes_on how number piece.now work (Q.drawing chances.old).left)
        (Q.drawing chances.new).left }
    ensures few { length (Q.drawing chances.old).left
        ≤ length (Q.drawing chances.new).left + units_in_piece (length piece.now) }
{
    if !how.is_on(number) {
        return bytes_on_link(alloc, number, piece, how, work, chances);
    }
    match hear_turn(alloc, number, piece, how, work, chances) {
        Ok(dial_work) => Ok(dial_work),
        Err(NoMemory) => Err(StepRefused::Memory),
    }
}

// ---- events

/// What the event itself comes to.
#[tactic(auto, using(crate::proofs::StepLaws::serving))]
pub(crate) fn on_event<Q: Chances>(
    alloc: Global,
    event: &Event,
    how: Dialling,
    work: Work,
    chances: &mut Q,
) -> Result<(Work, Dialling), StepRefused>
    ensures draws { DrawsSome (Q.drawing chances.old) (Q.drawing chances.new) }
    ensures answer { AnswersBy result
        (by_event event.now how work (Q.drawing chances.old).left)
        (Q.drawing chances.new).left }
    ensures few { length (Q.drawing chances.old).left
        ≤ length (Q.drawing chances.new).left + units_at event.now }
{
    match event {
        Event::Opened(link) => Ok(open_event(alloc, how, *link, work)?),
        Event::Bytes(link, piece) => bytes_on(alloc, *link, piece.bytes(), how, work, chances),
        Event::Closed(link) => Ok(close_link(alloc, how, *link, work)?),
        Event::Dialled(link) => Ok(answer_dial(alloc, how, *link, work)?),
        Event::DialFailed => Ok(fail_dial(alloc, how, work)?),
        Event::Stop => Ok((work, how)),
    }
}

/// A peer opened a link; an older one of that number is closed first.
fn open_event(
    alloc: Global,
    how: Dialling,
    link: u32,
    work: Work,
) -> Result<(Work, Dialling), NoMemory>
    ensures { IfOk result (λ dial_work. dial_work
        ≡ open_after_close (close_link how link work) link) }
{
    let (work, how) = close_link(alloc, how, link, work)?;
    Ok((open_link(alloc, link, work)?, how))
}

/// The event, and then the next turn.
#[tactic(auto, using(crate::proofs::StepLaws::running))]
fn run_event<Q: Chances>(
    alloc: Global,
    running: Running,
    event: &Event,
    now: u64,
    chances: &mut Q,
) -> Result<(Work, Dialling), StepRefused>
    ensures draws { DrawsSome (Q.drawing chances.old) (Q.drawing chances.new) }
    ensures answer { AnswersBy result
        (event_part running event.now now (Q.drawing chances.old).left)
        (Q.drawing chances.new).left }
    ensures few { length (Q.drawing chances.old).left
        ≤ length (Q.drawing chances.new).left + units_at event.now + 1 }
{
    let Running {
        logons,
        links,
        dialling,
        ..
    } = running;
    let work = Work {
        logons,
        links,
        actions: ShortActions::new(alloc),
    };
    let (work, how) = match on_event(alloc, event, dialling, work, chances) {
        Ok(dial_work) => dial_work,
        Err(why) => return Err(why),
    };
    next_turn(alloc, now, work, how, chances)
}
