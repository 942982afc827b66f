//! A small end, to try the loop with: it dials, draws challenges, and has an outcome.

ghost use Rattle.std.specs.Prelude.{◌≡◌, ◌≤◌, ◌+◌, ◌-◌, ◌^◌, ◌%◌, ◌∷◌, [], codes, min, Err, Ok, Some, None, true, false, IfOk, OnOk, IsTrue};
ghost use Rattle.outside.specs.Machine.{Takes, GivesUp, Spends};
ghost use Rattle.end_loop.specs.Acts.{is_made, most_made_by};
ghost use Rattle.end_cases.specs.Small.{small_step, is_own};

use end_loop::End;
use outside::{Action, Actions, Chances, Event, Judged, StepRefused};
use std::alloc::Global;
use wire_base::{Blob, NoMemory};

/// A small end.
#[derive(Debug, Drop)]
pub struct Small {
    /// How many dials wait.
    pub waiting: u32,
    /// The link that it dialled last.
    pub link: Option<u32>,
    /// Whether it has its outcome.
    pub over: bool,
    /// Whether a step was given up.
    pub stopped: bool,
}

/// Keeps the bytes, sends them twice on the link, and dials them as a peer.
fn answer(alloc: Global, link: u32, bytes: &[u8]) -> Result<Actions, NoMemory>
    ensures { IfOk result (λ actions. actions ≡ Action.Keep bytes.now ∷ Action.Send link bytes.now
        ∷ Action.Send link bytes.now ∷ Action.Dial bytes.now ∷ []) }
{
    let mut actions = Actions::new(alloc);
    actions.push(Action::Keep(Blob::copy(alloc, bytes)?))?;
    actions.push(Action::Send(link, Blob::copy(alloc, bytes)?))?;
    actions.push(Action::Send(link, Blob::copy(alloc, bytes)?))?;
    actions.push(Action::Dial(Blob::copy(alloc, bytes)?))?;
    Ok(actions)
}

/// One action.
fn only(alloc: Global, action: Action) -> Result<Actions, NoMemory>
    ensures { IfOk result (λ actions. actions ≡ action ∷ []) }
{
    let mut actions = Actions::new(alloc);
    actions.push(action)?;
    Ok(actions)
}

/// Tells that a link was opened at the moment, and sends the challenge on it.
fn greet(alloc: Global, link: u32, now: u64, challenge: [u8; 8]) -> Result<Actions, NoMemory>
    ensures { IfOk result (λ actions. actions ≡ Action.Judged (Judged.Passed (now % 2 ^ 32))
        ∷ Action.Send link challenge ∷ []) }
{
    let mut actions = Actions::new(alloc);
    actions.push(Action::Judged(Judged::Passed((now % (1 << 32)) as u32)))?;
    actions.push(Action::Send(link, Blob::copy(alloc, &challenge)?))?;
    Ok(actions)
}

/// Sends a greeting on the link.
fn send_on(alloc: Global, link: u32) -> Result<Actions, NoMemory>
    ensures { IfOk result (λ actions. actions ≡ Action.Send link (codes "on") ∷ []) }
{
    let bytes = Blob::copy(alloc, b"on")?;
    only(alloc, Action::Send(link, bytes))
}

/// Whether it is the end's own link.
fn is_own(own: Option<u32>, link: u32) -> bool
    ensures { result ≡ is_own own link }
{
    match own {
        Some(own) => own == link,
        None => false,
    }
}

impl Small {
    /// The step of an end that isn't stopped.
    fn try_step<Q: Chances>(
        &mut self,
        alloc: Global,
        event: &Event,
        now: u64,
        chances: &mut Q,
    ) -> Result<Actions, StepRefused>
        ensures step { IfOk result (λ actions.
            Takes (small_step self.old event.now now (Q.drawing chances.old).left) self.new
            (Q.drawing chances.old) (Q.drawing chances.new) actions) }
        ensures spent { result ≡ Err StepRefused.Spent →
            Spends (small_step self.old event.now now (Q.drawing chances.old).left)
            (record self.new { stopped = true }) (Q.drawing chances.old) (Q.drawing chances.new) }
        ensures memory { result ≡ Err StepRefused.Memory →
            GivesUp (small_step self.old event.now now (Q.drawing chances.old).left)
            (Q.drawing chances.old) (Q.drawing chances.new) }
        ensures kinds { result ≡ Err StepRefused.Stopped → IsTrue false }
        ensures goes_on { OnOk result (self.new.stopped ≡ self.old.stopped) }
        ensures settles { IfOk result (λ actions. IsTrue (is_made event.now) →
            most_made_by actions + self.new.waiting ≤ self.old.waiting) }
    {
        match event {
            Event::Opened(link) => {
                let challenge = match chances.next() {
                    Ok(challenge) => challenge,
                    Err(_) => return Err(StepRefused::Spent),
                };
                let actions = greet(alloc, *link, now, challenge)?;
                Ok(actions)
            }
            Event::Bytes(link, bytes) => {
                let actions = answer(alloc, *link, bytes.bytes())?;
                self.waiting = self.waiting.saturating_add(1);
                Ok(actions)
            }
            Event::Closed(link) if is_own(self.link, *link) => {
                let actions = only(alloc, Action::Judged(Judged::NoChannel))?;
                self.link = None;
                self.over = true;
                Ok(actions)
            }
            Event::Dialled(link) if self.waiting != 0 => {
                let actions = send_on(alloc, *link)?;
                self.waiting -= 1;
                self.link = Some(*link);
                Ok(actions)
            }
            Event::DialFailed if self.waiting != 0 => {
                let actions = only(alloc, Action::Judged(Judged::Barred))?;
                self.waiting -= 1;
                Ok(actions)
            }
            _ => Ok(Actions::new(alloc)),
        }
    }
}

impl End for Small {
    ghost use Rattle.end_cases.specs.Small.{small_machine};

    ghost machine = { small_machine };

    ghost is_stopped = { λ s. s.stopped };

    ghost pending = { λ s. s.waiting };

    fn step<Q: Chances>(
        &mut self,
        alloc: Global,
        event: &Event,
        now: u64,
        chances: &mut Q,
    ) -> Result<Actions, StepRefused> {
        if self.stopped {
            return Err(StepRefused::Stopped);
        }
        match self.try_step(alloc, event, now, chances) {
            Ok(actions) => Ok(actions),
            Err(refused) => {
                self.stopped = true;
                Err(refused)
            }
        }
    }

    fn wants(&self) -> Option<u32> {
        self.link
    }

    fn is_over(&self) -> bool {
        self.over
    }

    fn line(&self, alloc: Global, action: &Action) -> Result<Blob, NoMemory> {
        match action {
            Action::Judged(Judged::Passed(_)) => Blob::copy(alloc, b"opened\n"),
            Action::Judged(Judged::Barred) => Blob::copy(alloc, b"barred\n"),
            Action::Judged(Judged::NoChannel) => Blob::copy(alloc, b"over\n"),
            _ => Blob::copy(alloc, b""),
        }
    }
}
