//! The client.

ghost use Rattle.std.specs.Prelude.{◌≡◌, ◌==◌, ◌≤◌, ◌+◌, ◌↔◌, ℕ, List, Err, Ok, None, IfOk, OnOk, OnErr, IsSome, length, option_copied};
ghost use Rattle.outside.specs.Drawing.{DrawsSome};
ghost use Rattle.outside.specs.Machine.{AnswersBy, StepsBy};
ghost use Rattle.end_links.specs.Bounds.{AreShortSends, units_in_piece, units_at};
ghost use Rattle.logon_client.specs.Machine.{fresh_client, halted, begin_of, step_of, want_by, stays, binds, fresh_link, by_piece, by_close, by_event, standing_by, after_stream};
ghost use Rattle.logon_client.specs.Plans.{CanLogOn};

use crate::answering::bind_bytes;
use crate::hearing::{conclude, tell};
use crate::outcome::{ClientOutcome, NoAnswerCause};
use crate::plan::{ClientPlan, Task};
use crate::state::{After, ClientLink, Phase, Running, Talk, Work};
use end_links::{Link, ShortActions, serve_piece};
use outside::{Action, Actions, Chances, Event, StepRefused};
use rpc_units::Joiner;
use std::alloc::Global;
use std::marker::Model;
use wire_base::{Blob, NoMemory};

/// A client of one logon. Clauses see it as the record of what it keeps.
pub struct Client {
    // none once it is stopped
    running: Option<Running>,
    outcome: Option<ClientOutcome>,
}

impl Drop for Client {
    // The drop that would be derived. Written out, it is one call wherever a value that holds a `Client` is let go,
    // which keeps the proofs of those places short.
    fn drop(self) {
        let Client {
            running: _running,
            outcome: _outcome,
        } = self;
    }
}

impl Model for Client {
    ghost use Rattle.logon_client.specs.State.{State};

    ghost Value = { State };

    ghost view = { λ c. record { running = c.running; outcome = c.outcome } };
}

impl Client {
    /// A client of that plan, which hasn't begun. It takes no memory.
    pub fn new(plan: ClientPlan) -> Client
        requires { CanLogOn plan }
        ensures { result ≡ fresh_client plan }
    {
        Client {
            running: Some(Running {
                task: Task::new(plan),
                standing: ClientLink::Idle,
            }),
            outcome: None,
        }
    }

    /// Begins: the one action is the dial of the server. The condition: it wasn't called before.
    ///
    /// `NoMemory` where no memory was found; then the client is stopped.
    pub fn begin(&mut self, alloc: Global) -> Result<Actions, NoMemory>
        ensures answer { IfOk result (λ actions. actions ≡ (begin_of self.old).actions) }
        ensures state { OnOk result (self.new ≡ (begin_of self.old).state) }
        ensures halted { OnErr result (self.new ≡ halted self.old) }
        ensures short { IfOk result (λ actions. AreShortSends actions) }
    {
        let mut actions = ShortActions::new(alloc);
        let Some(running) = self.running.take() else {
            return Ok(actions.into_actions());
        };
        let Running { task, .. } = running;
        let server = Blob::copy(alloc, task.plan().server.bytes())?;
        actions.push(Action::Dial(server))?;
        self.running = Some(Running {
            task,
            standing: ClientLink::Dialling,
        });
        Ok(actions.into_actions())
    }

    /// The step for the event at this moment, in units of 100 ns since 1601-01-01: its actions in order.
    ///
    /// `Spent` where it draws more challenges than were left, `Memory` where no memory was found. After either the
    /// client is stopped, and answers `Stopped` for ever. Whatever the result, it draws at most one challenge for each
    /// unit that the event can end, and three more. Each send has at most 589,824 bytes.
    pub fn step<Q: Chances>(
        &mut self,
        alloc: Global,
        event: &Event,
        now: u64,
        chances: &mut Q,
    ) -> Result<Actions, StepRefused>
        ensures answer { StepsBy result
            (step_of self.old event.now now (Q.drawing chances.old).left)
            (halted self.old) self.new (Q.drawing chances.old) (Q.drawing chances.new) }
        // An outcome stays, whatever comes.
        ensures stays { IsSome self.old.outcome → self.new.outcome ≡ self.old.outcome }
        // The client answers `Stopped` exactly where it had stopped, and a step that isn't taken stops it.
        ensures stopped { (result ≡ Err StepRefused.Stopped) ↔ (self.old.running ≡ None) }
        ensures stops { OnErr result (self.new ≡ halted self.old) }
        ensures goes_on { OnOk result (IsSome self.new.running) }
        ensures few { length (Q.drawing chances.old).left
            ≤ length (Q.drawing chances.new).left + units_at event.now + 3 }
        ensures short { IfOk result (λ actions. AreShortSends actions) }
    {
        let Some(running) = self.running.take() else {
            return Err(StepRefused::Stopped);
        };
        if self.outcome.is_some() {
            self.running = Some(running);
            return Ok(Actions::new(alloc));
        }
        let Running { task, standing } = running;
        let work = Work {
            task,
            now,
            outcome: None,
            actions: ShortActions::new(alloc),
        };
        let after = match on_event(alloc, event, standing, work, chances) {
            Ok(after) => after,
            Err(refused) => return Err(refused),
        };
        let After { standing, work } = after;
        let Work {
            task,
            outcome,
            actions,
            ..
        } = work;
        self.running = Some(Running { task, standing });
        self.outcome = outcome;
        Ok(actions.into_actions())
    }

    /// The outcome. None exactly before there is one. It takes no memory.
    pub fn outcome(&self) -> Option<&ClientOutcome>
        ensures { option_copied result ≡ self.now.outcome }
    {
        self.outcome.as_ref()
    }

    /// The client's link, while it is open.
    pub fn wants(&self) -> Option<u32>
        ensures { result ≡ want_by self.now.running }
    {
        match &self.running {
            Some(running) => match &running.standing {
                ClientLink::On(link) => Some(link.talk().link),
                ClientLink::Idle | ClientLink::Dialling => None,
            },
            None => None,
        }
    }
}

/// What the event comes to.
fn on_event<Q: Chances>(
    alloc: Global,
    event: &Event,
    standing: ClientLink,
    work: Work,
    chances: &mut Q,
) -> Result<After, StepRefused>
    ensures draws { DrawsSome (Q.drawing chances.old) (Q.drawing chances.new) }
    ensures answer { AnswersBy result
        (by_event event.now standing work (Q.drawing chances.old).left)
        (Q.drawing chances.new).left }
    ensures few { length (Q.drawing chances.old).left
        ≤ length (Q.drawing chances.new).left + units_at event.now + 3 }
{
    match (event, standing) {
        (Event::Dialled(link), ClientLink::Dialling) => Ok(bind_on(alloc, *link, work)?),
        (Event::DialFailed, ClientLink::Dialling) => {
            let outcome = ClientOutcome::NoAnswer(NoAnswerCause::DialFailed);
            Ok(After {
                standing: ClientLink::Idle,
                work: conclude(outcome, work),
            })
        }
        (Event::Bytes(number, piece), ClientLink::On(link)) => {
            on_piece(alloc, *number, piece.bytes(), link, work, chances)
        }
        (Event::Closed(number), ClientLink::On(link)) => Ok(on_close(*number, link, work)),
        (Event::Opened(number), ClientLink::On(link)) => Ok(on_close(*number, link, work)),
        (_, standing) => Ok(After { standing, work }),
    }
}

/// The bind is sent on the link that was dialled.
fn bind_on(alloc: Global, number: u32, work: Work) -> Result<After, NoMemory>
    ensures { IfOk result (λ after. (left : List (List ℕ)) →
        stays (ClientLink.On (fresh_link number)) (binds number work) left
        ≡ Ok (record { value = after; left = left })) }
{
    let plan = work.task.plan();
    let bytes = bind_bytes(alloc, plan.level, plan.auth)?;
    let talk = Talk {
        link: number,
        joiner: Joiner::new(),
        phase: Phase::Bound,
    };
    let link = Link::new(alloc, talk)?;
    Ok(After {
        standing: ClientLink::On(link),
        work: tell(work, Action::Send(number, bytes))?,
    })
}

/// A link is closed.
fn on_close(number: u32, link: Link<Talk>, work: Work) -> After
    ensures { (left : List (List ℕ)) → by_close (number == link.talk.link) link work left
        ≡ Ok (record { value = result; left = left }) }
{
    if number != link.talk().link {
        return After {
            standing: ClientLink::On(link),
            work,
        };
    }
    let outcome = ClientOutcome::NoAnswer(NoAnswerCause::LinkClosed);
    After {
        standing: ClientLink::Idle,
        work: conclude(outcome, work),
    }
}

/// A piece comes on a link.
fn on_piece<Q: Chances>(
    alloc: Global,
    number: u32,
    piece: &[u8],
    link: Link<Talk>,
    work: Work,
    chances: &mut Q,
) -> Result<After, StepRefused>
    ensures draws { DrawsSome (Q.drawing chances.old) (Q.drawing chances.new) }
    ensures answer { AnswersBy result
        (by_piece (number == link.talk.link) piece.now link work (Q.drawing chances.old).left)
        (Q.drawing chances.new).left }
    ensures few { length (Q.drawing chances.old).left
        ≤ length (Q.drawing chances.new).left + units_in_piece (length piece.now) + 3 }
{
    if number != link.talk().link {
        return Ok(After {
            standing: ClientLink::On(link),
            work,
        });
    }
    let (work, open) = serve_piece(alloc, work, link, piece, chances)?;
    let standing = match open {
        Some(link) => ClientLink::On(link),
        None => ClientLink::Idle,
    };
    Ok(After { standing, work })
}
