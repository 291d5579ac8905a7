// The calls of a list of steps.
ghost use Rattle.std.specs.Prelude.{◌≡◌, ◌↔◌, [], ◌∷◌, ◌++◌, IsTrue, OnOk, OnErr, length, option_map, slice_get};
ghost use Rattle.gl_meaning.specs.View.{step_view, seen_steps};

use crate::{Step, Steps};
use std::alloc::{AllocError, Global};

impl Steps {
    /// The empty list. It takes no memory.
    pub fn new(alloc: Global) -> Steps
        ensures { result ≡ [] }
    {
        Steps {
            list: Vec::new(alloc),
        }
    }

    /// The list of the steps of a vector. It takes no memory.
    pub fn from_vec(list: Vec<Step>) -> Steps
        ensures { result ≡ seen_steps list.items }
    {
        Steps { list }
    }

    /// Gives the vector back. It takes no memory.
    pub fn into_vec(self) -> Vec<Step>
        ensures { seen_steps result.items ≡ self }
    {
        self.list
    }

    pub fn as_slice(&self) -> &[Step]
        ensures { seen_steps result.now ≡ self.now }
    {
        self.list.as_slice()
    }

    pub fn len(&self) -> usize
        ensures { result ≡ length self.now }
    {
        self.list.len()
    }

    pub fn is_empty(&self) -> bool
        ensures { IsTrue result ↔ (self.now ≡ []) }
    {
        self.list.is_empty()
    }

    /// The step at a place, counted from 0.
    pub fn get(&self, at: usize) -> Option<&Step>
        ensures { option_map (λ v. step_view v.now) result ≡ slice_get self.now at }
    {
        self.list.as_slice().get(at)
    }

    /// Adds a step at the end.
    pub fn push(&mut self, item: Step) -> Result<(), AllocError>
        ensures ok { OnOk result (self.new ≡ self.old ++ step_view item ∷ []) }
        ensures err { OnErr result (self.new ≡ self.old) }
    {
        self.list.push(item)?;
        Ok(())
    }
}
