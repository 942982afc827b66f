//! The controller.

ghost use Rattle.std.specs.Prelude.{◌≡◌, ◌≤◌, ◌+◌, ◌↔◌, OnErr, [], length, IfOk, OnOk, Err, IsTrue, None, Some, false, true};
ghost use Rattle.account_table.specs.Changes.{DifferInStates, with_changes};
ghost use Rattle.outside.specs.Drawing.{DrawsSome};
ghost use Rattle.outside.specs.Machine.{AnswersBy, StepsBy};
ghost use Rattle.end_links.specs.Bounds.{AreShortSends, units_at};
ghost use Rattle.end_loop.specs.Acts.{is_made, most_made_by};
ghost use Rattle.domain_controller.specs.Holding.{held_limit};
ghost use Rattle.domain_controller.specs.SealStep.{asked_in, first_seal_state, holds_sealed, seal_pending_in, seal_step_of, seal_step_on, without_sealing};
ghost use Rattle.domain_controller.specs.Step.{first_state, halted, is_stopped, step_of};
ghost use Rattle.domain_controller.specs.Trusting.{no_trusting};
ghost use Rattle.domain_controller.specs.TrustStep.{first_trust_state, at_parts, event_and_turn, parts_of, trust_halted, trust_held_of, trust_pending_in, trusting_after, trust_step_of, trust_want_of};

use crate::lines::line_of;
use crate::links::answer_event;
use crate::seal_step::{put_sealing, seal_and_commit, take_sealing};
use crate::sealed::{Sealing, is_sealed, no_sealing};
use crate::state::Running;
use crate::trusting::{Parts, TrustWork, Trusting, first_trusting, no_trusting};
use crate::turning::next_turn;
use account_table::{Table, TableChanges};
use controller_calls::{Computers, Work};
use end_links::{Links, ShortActions};
use end_loop::End;
use interactive_logon::Sessions;
use outside::{Action, Actions, Chances, Event, StepRefused};
use std::alloc::Global;
use std::marker::Model;
use std::mem;
use wire_base::{Blob, List, Name, NoMemory};

/// A domain controller, seen as what it keeps: its accounts, its name, and the rest, unless it has stopped.
#[derive(Drop)]
pub struct Controller {
    table: Table,
    name: Name,
    // none once it has stopped
    running: Option<Running>,
    // nothing once it has stopped
    trusting: Trusting,
}

impl Model for Controller {
    ghost use Rattle.std.specs.Prelude.{◌≡◌, None};
    ghost use Rattle.domain_controller.specs.State.{State};
    ghost use Rattle.domain_controller.specs.Trusting.{no_trusting};

    ghost Value = { State };

    ghost view = { λ c. record {
      table = c.table;
      name = c.name;
      running = c.running;
      trusting = c.trusting;
    } };

    ghost invariant = { λ c. c.running ≡ None → c.trusting ≡ no_trusting };
}

impl Controller {
    /// A controller of that name over these accounts, which keeps nothing of computers yet, and has no links. It asks
    /// no controller of a trusted domain.
    pub fn new(alloc: Global, table: Table, name: Name) -> Result<Controller, NoMemory>
        ensures { IfOk result (λ controller. controller ≡ first_state table name) }
    {
        let trusting = no_trusting(alloc);
        Controller::make(alloc, table, name, trusting)
    }

    /// A controller of that name over these accounts, which keeps nothing of computers yet, and has no links. It asks
    /// the controllers of the table's trusted domains for logons of their users.
    pub fn with_trusts(alloc: Global, table: Table, name: Name) -> Result<Controller, NoMemory>
        ensures { IfOk result (λ controller. controller ≡ first_trust_state table name) }
    {
        let trusting = first_trusting(alloc, &table, &name)?;
        Controller::make(alloc, table, name, trusting)
    }

    /// A controller as `with_trusts` makes it, which can seal too: it grants secure RPC, and a channel with that seals
    /// (MS-NRPC 3.1.4.2, 3.3).
    pub fn with_sealing(alloc: Global, table: Table, name: Name) -> Result<Controller, NoMemory>
        ensures { IfOk result (λ controller. controller ≡ first_seal_state table name) }
    {
        let trusting = first_trusting(alloc, &table, &name)?;
        let trusting = put_sealing(trusting, no_sealing(alloc));
        Controller::make(alloc, table, name, trusting)
    }

    /// A controller that has no links, with what it keeps of logons that it asks of others.
    fn make(
        alloc: Global,
        table: Table,
        name: Name,
        trusting: Trusting,
    ) -> Result<Controller, NoMemory>
        ensures { IfOk result
            (λ controller. controller ≡ record (first_state table name) { trusting = trusting }) }
    {
        Ok(Controller {
            table,
            name,
            running: Some(Running {
                computers: Computers {
                    pending: List::new(alloc),
                    channels: List::new(alloc),
                    sessions: Sessions::new(alloc)?,
                },
                links: Links::new(alloc),
            }),
            trusting,
        })
    }

    /// The step for the event at this moment, in units of 100 ns since 1601-01-01.
    ///
    /// `Spent` where the step draws more challenges than were left, and `Memory` where no memory was found: after both
    /// the controller has stopped, and answers `Stopped` for ever.
    #[tactic(auto, using(crate::proofs::SealChoiceLaws::choosing))]
    pub fn step<Q: Chances>(
        &mut self,
        alloc: Global,
        event: &Event,
        now: u64,
        chances: &mut Q,
    ) -> Result<Actions, StepRefused>
        // The actions, the state and the challenges drawn are the machine's.
        ensures answer { StepsBy result
            (seal_step_of self.old event.now now (Q.drawing chances.old).left)
            (trust_halted self.old) self.new (Q.drawing chances.old) (Q.drawing chances.new) }
        // A controller that can't seal steps as if none could, and stays one.
        ensures plain { self.old.trusting.sealing ≡ None → StepsBy result
            (trust_step_of self.old event.now now (Q.drawing chances.old).left)
            (trust_halted self.old) self.new (Q.drawing chances.old) (Q.drawing chances.new) }
        ensures stays_plain { self.old.trusting.sealing ≡ None → self.new.trusting.sealing ≡ None }
        // The controller answers `Stopped` exactly where it had stopped, and a step that isn't taken stops it.
        ensures stopped { (result ≡ Err StepRefused.Stopped) ↔ IsTrue (is_stopped self.old) }
        ensures stops { OnErr result (self.new ≡ trust_halted self.old) }
        ensures goes_on { OnOk result (is_stopped self.new ≡ false) }
        // A controller that can ask nobody steps as one that trusts no domain, and can ask nobody then.
        ensures alone { self.old.trusting ≡ no_trusting → StepsBy result
            (step_of self.old event.now now (Q.drawing chances.old).left)
            (halted self.old) self.new (Q.drawing chances.old) (Q.drawing chances.new) }
        ensures asks_nobody { self.old.trusting ≡ no_trusting → self.new.trusting ≡ no_trusting }
        // A controller that can ask nobody does nothing where a link was closed, and none of its turns draws a
        // challenge.
        ensures quiet { self.old.trusting ≡ no_trusting →
            IfOk result (λ actions. is_made event.now ≡ true → actions ≡ []) }
        ensures few_alone { self.old.trusting ≡ no_trusting → length (Q.drawing chances.old).left
            ≤ length (Q.drawing chances.new).left + units_at event.now }
        // A step changes of the accounts counts of bad passwords and hashes alone.
        ensures states { DifferInStates self.old.table self.new.table }
        // Events that a failed send or a dial makes come to an end.
        ensures settles { IfOk result (λ actions. IsTrue (is_made event.now) →
            most_made_by actions + seal_pending_in self.new ≤ seal_pending_in self.old) }
        // At most one challenge is drawn for each unit that the event can end, and one more for the turn that starts,
        // whatever the result; no send is long.
        ensures few { length (Q.drawing chances.old).left
            ≤ length (Q.drawing chances.new).left + units_at event.now + 1 }
        ensures short { IfOk result (λ actions. AreShortSends actions) }
    {
        match self.take_sealing() {
            Some(sealing) => self.step_sealing(alloc, sealing, event, now, chances),
            None => self.step_plain(alloc, event, now, chances),
        }
    }

    /// What the controller keeps to seal is taken out. It takes no memory.
    fn take_sealing(&mut self) -> Option<Sealing>
        ensures taken { result ≡ self.old.trusting.sealing }
        ensures left { self.new ≡ without_sealing self.old }
        ensures none { result ≡ None → self.new ≡ self.old }
        // A controller that has stopped keeps nothing to seal.
        ensures stopped { is_stopped self.old ≡ true → result ≡ None }
    {
        take_sealing(&mut self.trusting)
    }

    /// The step of one that can seal, of which what it keeps to seal was taken out.
    #[tactic(auto, using(crate::proofs::SealStepLaws::stepping, crate::proofs::ChangeLaws::differing))]
    fn step_sealing<Q: Chances>(
        &mut self,
        alloc: Global,
        sealing: Sealing,
        event: &Event,
        now: u64,
        chances: &mut Q,
    ) -> Result<Actions, StepRefused>
        ensures answer { StepsBy result (seal_step_on self.old.running sealing self.old
            event.now now (Q.drawing chances.old).left)
            (trust_halted self.old) self.new (Q.drawing chances.old) (Q.drawing chances.new) }
        ensures stopped { (result ≡ Err StepRefused.Stopped) ↔ IsTrue (is_stopped self.old) }
        ensures stops { OnErr result (self.new ≡ trust_halted self.old) }
        ensures goes_on { OnOk result (is_stopped self.new ≡ false) }
        ensures states { DifferInStates self.old.table self.new.table }
        ensures settles { IfOk result (λ actions. IsTrue (is_made event.now) →
            most_made_by actions + seal_pending_in self.new
            ≤ trust_pending_in self.old + asked_in (Some sealing)) }
        ensures few { length (Q.drawing chances.old).left
            ≤ length (Q.drawing chances.new).left + units_at event.now + 1 }
        ensures short { IfOk result (λ actions. AreShortSends actions) }
    {
        let Some(running) = self.running.take() else {
            return Err(StepRefused::Stopped);
        };
        let trusting = mem::replace(&mut self.trusting, no_trusting(alloc));
        let parts = all_parts(alloc, running, trusting);
        match seal_and_commit(
            alloc,
            &mut self.table,
            &self.name,
            now,
            event,
            parts,
            sealing,
            chances,
        ) {
            Ok((parts, sealing)) => {
                let (actions, running, trusting) = keep_apart(parts);
                self.running = Some(running);
                self.trusting = put_sealing(trusting, sealing);
                Ok(actions.into_actions())
            }
            Err(why) => Err(why),
        }
    }

    /// The step of one that can't seal.
    #[tactic(auto, using(crate::proofs::TrustStepLaws::alone))]
    fn step_plain<Q: Chances>(
        &mut self,
        alloc: Global,
        event: &Event,
        now: u64,
        chances: &mut Q,
    ) -> Result<Actions, StepRefused>
        // The actions, the state and the challenges drawn are the machine's.
        ensures answer { StepsBy result
            (trust_step_of self.old event.now now (Q.drawing chances.old).left)
            (trust_halted self.old) self.new (Q.drawing chances.old) (Q.drawing chances.new) }
        // The controller answers `Stopped` exactly where it had stopped, and a step that isn't taken stops it.
        ensures stopped { (result ≡ Err StepRefused.Stopped) ↔ IsTrue (is_stopped self.old) }
        ensures stops { OnErr result (self.new ≡ trust_halted self.old) }
        ensures goes_on { OnOk result (is_stopped self.new ≡ false) }
        // A controller that can ask nobody steps as one that trusts no domain, and can ask nobody then.
        ensures alone { self.old.trusting ≡ no_trusting → StepsBy result
            (step_of self.old event.now now (Q.drawing chances.old).left)
            (halted self.old) self.new (Q.drawing chances.old) (Q.drawing chances.new) }
        ensures asks_nobody { self.old.trusting ≡ no_trusting → self.new.trusting ≡ no_trusting }
        // A controller that can ask nobody does nothing where a link was closed, and none of its turns draws a
        // challenge.
        ensures quiet { self.old.trusting ≡ no_trusting →
            IfOk result (λ actions. is_made event.now ≡ true → actions ≡ []) }
        ensures few_alone { self.old.trusting ≡ no_trusting → length (Q.drawing chances.old).left
            ≤ length (Q.drawing chances.new).left + units_at event.now }
        // A step changes of the accounts counts of bad passwords and hashes alone.
        ensures states { DifferInStates self.old.table self.new.table }
        // Events that a failed send or a dial makes come to an end.
        ensures settles { IfOk result (λ actions. IsTrue (is_made event.now) →
            most_made_by actions + trust_pending_in self.new ≤ trust_pending_in self.old) }
        // At most one challenge is drawn for each unit that the event can end, and one more for the turn that starts,
        // whatever the result; no send is long.
        ensures few { length (Q.drawing chances.old).left
            ≤ length (Q.drawing chances.new).left + units_at event.now + 1 }
        ensures short { IfOk result (λ actions. AreShortSends actions) }
    {
        self.step_once(alloc, event, now, chances)
    }

    /// The step, with those of its clauses that don't follow of `answer` alone. It stands apart from `step` for the
    /// prover alone, for which the goals of one function with all clauses are too large.
    #[tactic(auto, using(crate::proofs::TrustStepLaws::stepping, crate::proofs::ChangeLaws::differing))]
    fn step_once<Q: Chances>(
        &mut self,
        alloc: Global,
        event: &Event,
        now: u64,
        chances: &mut Q,
    ) -> Result<Actions, StepRefused>
        // The actions, the state and the challenges drawn are the machine's.
        ensures answer { StepsBy result
            (trust_step_of self.old event.now now (Q.drawing chances.old).left)
            (trust_halted self.old) self.new (Q.drawing chances.old) (Q.drawing chances.new) }
        // The controller answers `Stopped` exactly where it had stopped, and a step that isn't taken stops it.
        ensures stopped { (result ≡ Err StepRefused.Stopped) ↔ IsTrue (is_stopped self.old) }
        ensures stops { OnErr result (self.new ≡ trust_halted self.old) }
        ensures goes_on { OnOk result (is_stopped self.new ≡ false) }
        ensures few_alone { self.old.trusting ≡ no_trusting → length (Q.drawing chances.old).left
            ≤ length (Q.drawing chances.new).left + units_at event.now }
        // A step changes of the accounts counts of bad passwords and hashes alone.
        ensures states { DifferInStates self.old.table self.new.table }
        // Events that a failed send or a dial makes come to an end.
        ensures settles { IfOk result (λ actions. IsTrue (is_made event.now) →
            most_made_by actions + trust_pending_in self.new ≤ trust_pending_in self.old) }
        // At most one challenge is drawn for each unit that the event can end, and one more for the turn that starts,
        // whatever the result; no send is long.
        ensures few { length (Q.drawing chances.old).left
            ≤ length (Q.drawing chances.new).left + units_at event.now + 1 }
        ensures short { IfOk result (λ actions. AreShortSends actions) }
    {
        let Some(running) = self.running.take() else {
            return Err(StepRefused::Stopped);
        };
        let trusting = mem::replace(&mut self.trusting, no_trusting(alloc));
        match run_and_commit(
            alloc,
            &mut self.table,
            &self.name,
            now,
            event,
            running,
            trusting,
            chances,
        ) {
            Ok(parts) => {
                let (actions, running, trusting) = keep_apart(parts);
                self.running = Some(running);
                self.trusting = trusting;
                Ok(actions.into_actions())
            }
            Err(why) => Err(why),
        }
    }

    /// Whether the link of that number is open, and sealed. It takes no memory.
    pub fn holds_sealed(&self, link: u32) -> bool
        ensures { result ≡ holds_sealed self.now link }
    {
        let Some(running) = &self.running else {
            return false;
        };
        let Some(sealing) = &self.trusting.sealing else {
            return false;
        };
        running.links.get(link).is_some() && is_sealed(link, sealing)
    }

    /// The link that it waits for: that of the turn. It takes no memory.
    pub fn wants(&self) -> Option<u32>
        ensures { result ≡ trust_want_of self.now }
    {
        self.trusting.dialling.wants()
    }

    /// The accounts as they stand, and the name: all that is left of it once it is made anew. It takes no memory.
    pub fn into_parts(self) -> (Table, Name)
        ensures table { result.0 ≡ self.table }
        ensures name { result.1 ≡ self.name }
    {
        let Controller { table, name, .. } = self;
        (table, name)
    }

    /// The bytes that it holds for its links: the rests of their streams, and the stub bytes of open calls and replies.
    /// They are at most what 256 accepted links hold, and the link of the turn. It takes no memory.
    pub fn held(&self) -> u64
        ensures count { result ≡ trust_held_of self.now }
        ensures most { result ≤ held_limit }
    {
        let turn = self.trusting.dialling.held();
        match &self.running {
            Some(running) => running.links.held() + turn,
            None => turn,
        }
    }
}

/// What an event comes to, and then the next turn; the changes of the accounts are made, unless it is refused.
#[tactic(auto, using(crate::proofs::ChangeLaws::differing, crate::proofs::TrustStepLaws::committing))]
fn run_and_commit<Q: Chances>(
    alloc: Global,
    table: &mut Table,
    name: &Name,
    now: u64,
    event: &Event,
    running: Running,
    trusting: Trusting,
    chances: &mut Q,
) -> Result<Parts, StepRefused>
    ensures draws { DrawsSome (Q.drawing chances.old) (Q.drawing chances.new) }
    ensures answer { AnswersBy (at_parts table.new result)
        (event_and_turn table.old.trusts event.now name.now now table.old
        (parts_of running trusting) (Q.drawing chances.old).left)
        (Q.drawing chances.new).left }
    ensures stays { OnErr result (table.new ≡ table.old) }
    ensures states { DifferInStates table.old table.new }
    ensures few { length (Q.drawing chances.old).left
        ≤ length (Q.drawing chances.new).left + units_at event.now + 1 }
    ensures few_alone { trusting ≡ no_trusting → length (Q.drawing chances.old).left
        ≤ length (Q.drawing chances.new).left + units_at event.now }
{
    let mut changes = TableChanges::new(alloc);
    match run_event(
        alloc,
        table,
        &mut changes,
        name,
        now,
        event,
        running,
        trusting,
        chances,
    ) {
        Ok(parts) => {
            table.commit(&changes);
            Ok(parts)
        }
        Err(why) => Err(why),
    }
}

/// What an event comes to, and then the next turn.
#[tactic(auto, using(crate::proofs::TrustStepLaws::running, crate::proofs::TrustStepLaws::none_asked))]
fn run_event<Q: Chances>(
    alloc: Global,
    table: &Table,
    changes: &mut TableChanges,
    name: &Name,
    now: u64,
    event: &Event,
    running: Running,
    trusting: Trusting,
    chances: &mut Q,
) -> Result<Parts, StepRefused>
    ensures draws { DrawsSome (Q.drawing chances.old) (Q.drawing chances.new) }
    ensures answer { AnswersBy (at_parts (with_changes changes.new table.now) result)
        (event_and_turn table.now.trusts event.now name.now now
        (with_changes changes.old table.now) (parts_of running trusting)
        (Q.drawing chances.old).left)
        (Q.drawing chances.new).left }
    ensures few { length (Q.drawing chances.old).left
        ≤ length (Q.drawing chances.new).left + units_at event.now + 1 }
    ensures few_alone { trusting ≡ no_trusting → length (Q.drawing chances.old).left
        ≤ length (Q.drawing chances.new).left + units_at event.now }
{
    let parts = all_parts(alloc, running, trusting);
    let parts = match answer_event(alloc, table, changes, name, now, event, parts, chances) {
        Ok(parts) => parts,
        Err(why) => return Err(why),
    };
    next_turn(alloc, now, table, parts, chances)
}

/// A controller that works, before it acts. It takes no memory.
fn all_parts(alloc: Global, running: Running, trusting: Trusting) -> Parts
    ensures { result ≡ parts_of running trusting }
{
    let Running { computers, links } = running;
    let Trusting {
        queues,
        turn_of,
        dialling,
        ..
    } = trusting;
    Parts {
        work: TrustWork {
            work: Work {
                computers,
                actions: ShortActions::new(alloc),
            },
            queues,
        },
        links,
        turn_of,
        dialling,
    }
}

/// A step's actions, and what the controller keeps. It takes no memory.
fn keep_apart(parts: Parts) -> (ShortActions, Running, Trusting)
    ensures { result ≡ (
      parts.work.work.actions,
      record { computers = parts.work.work.computers; links = parts.links },
      trusting_after parts,
    ) }
{
    let Parts {
        work,
        links,
        turn_of,
        dialling,
    } = parts;
    let TrustWork { work, queues } = work;
    let Work { computers, actions } = work;
    let running = Running { computers, links };
    let trusting = Trusting {
        queues,
        turn_of,
        dialling,
        sealing: None,
    };
    (actions, running, trusting)
}

impl End for Controller {
    ghost use Rattle.domain_controller.specs.SealStep.{seal_machine, seal_pending_in};
    ghost use Rattle.domain_controller.specs.Step.{is_stopped};

    ghost machine = { seal_machine };

    ghost is_stopped = { λ s. is_stopped s };

    ghost pending = { λ s. seal_pending_in s };

    fn step<Q: Chances>(
        &mut self,
        alloc: Global,
        event: &Event,
        now: u64,
        chances: &mut Q,
    ) -> Result<Actions, StepRefused> {
        self.step(alloc, event, now, chances)
    }

    fn wants(&self) -> Option<u32> {
        self.wants()
    }

    fn is_over(&self) -> bool {
        false
    }

    fn line(&self, alloc: Global, action: &Action) -> Result<Blob, NoMemory> {
        line_of(alloc, action)
    }
}
