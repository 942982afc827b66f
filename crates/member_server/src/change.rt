//! The change of the member's secret.

ghost use Rattle.std.specs.Prelude.{ℕ, ◌≡◌, ◌≢◌, ◌↔◌, ◌∷◌, [], List as list, Some, Err, IfOk};
ghost use Rattle.outside.specs.declared.action.Action.TheVariants as action;
ghost use Rattle.secret_change.specs.Secrets.{begin_of, next_of, written_secrets};
ghost use Rattle.member_server.specs.Machine.{ChangesBy, change_of, running_with};

use crate::state::Running;
use outside::{Action, Actions};
use secret_change::{Busy, Secrets};
use std::alloc::Global;
use thiserror::Error;
use wire_base::NoMemory;

/// Why no change of the secret begins.
#[derive(Clone, Copy, Debug, PartialEq, Eq, Error)]
pub enum ChangeRefused {
    /// An earlier step found no challenge or no memory, or an earlier change no memory.
    #[error("stopped before")]
    Stopped,
    /// A change is under way, to the secret `next`.
    #[error("a new secret is kept already")]
    Busy { next: [u8; 16] },
    /// No memory was found.
    #[error("no memory")]
    Memory,
}

/// The one action by which the text of the secrets is kept.
fn keep(alloc: Global, secrets: &Secrets) -> Result<Actions, NoMemory>
    ensures { IfOk result
        (λ actions. actions ≡ action.Keep (written_secrets secrets.now) ∷ []) }
{
    let mut actions = Actions::new(alloc);
    actions.push(Action::Keep(secrets.text(alloc)?))?;
    Ok(actions)
}

/// A change to this secret begins, unless one is under way. It takes no memory.
fn begin(new: [u8; 16], running: Running) -> (Running, Result<(), Busy>)
    ensures { result ≡ (
      running_with (begin_of running.logons.plan.secrets new).secrets running,
      (begin_of running.logons.plan.secrets new).answer,
    ) }
{
    let mut running = running;
    let answer = running.logons.plan.secrets.begin(new);
    (running, answer)
}

/// The change of a member that isn't stopped: what it keeps afterwards, and the answer. Without memory it keeps
/// nothing.
#[tactic(auto, using(crate::proofs::ChangeLaws::changing))]
pub(crate) fn change_running(
    alloc: Global,
    new: [u8; 16],
    running: Running,
) -> (Option<Running>, Result<Actions, ChangeRefused>)
    ensures answer { ChangesBy result.1
        (change_of (record { running = Some running }) new) (record { running = result.0 }) }
    ensures busy { (next : list ℕ) → (result.1 ≡ Err (ChangeRefused.Busy next))
        ↔ (next_of running.logons.plan.secrets ≡ Some next) }
    ensures runs { result.1 ≢ Err ChangeRefused.Stopped }
{
    let (running, answer) = begin(new, running);
    match answer {
        Ok(()) => {}
        Err(busy) => {
            let next = busy.next;
            return (Some(running), Err(ChangeRefused::Busy { next }));
        }
    }
    match keep(alloc, &running.logons.plan.secrets) {
        Ok(actions) => (Some(running), Ok(actions)),
        Err(NoMemory) => (None, Err(ChangeRefused::Memory)),
    }
}
