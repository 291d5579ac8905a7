// The calls of a list of actions.
ghost use Rattle.std.specs.Prelude.{◌≡◌, ◌↔◌, [], ◌∷◌, ◌++◌, IsTrue, OnOk, OnErr, length, option_map, slice_get};
ghost use Rattle.gl_meaning.specs.View.{action_view, seen_actions};

use crate::{Action, Actions};
use std::alloc::{AllocError, Global};

impl Actions {
    /// The empty list. It takes no memory.
    pub fn new(alloc: Global) -> Actions
        ensures { result ≡ [] }
    {
        Actions {
            list: Vec::new(alloc),
        }
    }

    /// The list of the actions of a vector. It takes no memory.
    pub fn from_vec(list: Vec<Action>) -> Actions
        ensures { result ≡ seen_actions list.items }
    {
        Actions { list }
    }

    /// Gives the vector back. It takes no memory.
    pub fn into_vec(self) -> Vec<Action>
        ensures { seen_actions result.items ≡ self }
    {
        self.list
    }

    pub fn as_slice(&self) -> &[Action]
        ensures { seen_actions result.now ≡ self.now }
    {
        self.list.as_slice()
    }

    pub fn len(&self) -> usize
        ensures { result ≡ length self.now }
    {
        self.list.len()
    }

    pub fn is_empty(&self) -> bool
        ensures { IsTrue result ↔ (self.now ≡ []) }
    {
        self.list.is_empty()
    }

    /// The action at a place, counted from 0.
    pub fn get(&self, at: usize) -> Option<&Action>
        ensures { option_map (λ v. action_view v.now) result ≡ slice_get self.now at }
    {
        self.list.as_slice().get(at)
    }

    /// Adds an action at the end.
    pub fn push(&mut self, item: Action) -> Result<(), AllocError>
        ensures ok { OnOk result (self.new ≡ self.old ++ action_view item ∷ []) }
        ensures err { OnErr result (self.new ≡ self.old) }
    {
        self.list.push(item)?;
        Ok(())
    }
}
