//! What an end asks for and tells at a step, in sends that aren't too long.

ghost use Rattle.std.specs.Prelude.{◌≡◌, ◌++◌, ◌∷◌, [], OnOk, OnErr};
ghost use Rattle.end_links.specs.Bounds.{IsShortSend, AreShortSends};

use outside::{Action, Actions};
use std::alloc::Global;
use std::marker::Model;
use wire_base::NoMemory;

/// Actions, in order, of which each send has at most 589,824 bytes (this project's own choice), seen as the list of
/// them.
#[derive(Drop)]
pub struct ShortActions {
    actions: Actions,
}

impl Model for ShortActions {
    ghost use Rattle.std.specs.Prelude.{List as list};
    ghost use Rattle.outside.specs.declared.action.Action.{Action};
    ghost use Rattle.end_links.specs.Bounds.{AreShortSends};

    ghost Value = { list Action };

    ghost view = { λ a. a.actions };

    ghost invariant = { λ a. AreShortSends a.actions };
}

impl ShortActions {
    /// No actions.
    pub fn new(alloc: Global) -> ShortActions
        ensures { result ≡ [] }
    {
        ShortActions {
            actions: Actions::new(alloc),
        }
    }

    /// Appends the action. Without memory the actions stay as they were.
    #[tactic(auto, using(crate::proofs::BoundLaws::sends_append))]
    pub fn push(&mut self, action: Action) -> Result<(), NoMemory>
        requires { IsShortSend action }
        ensures appended { OnOk result (self.new ≡ self.old ++ action ∷ []) }
        ensures unchanged { OnErr result (self.new ≡ self.old) }
    {
        self.actions.push(action)
    }

    /// The actions. It takes no memory.
    pub fn into_actions(self) -> Actions
        ensures actions { result ≡ self }
        ensures short { AreShortSends result }
    {
        let ShortActions { actions } = self;
        actions
    }
}
