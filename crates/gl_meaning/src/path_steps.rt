// The calls of a list of the steps of a path.
ghost use Rattle.std.specs.Prelude.{◌≡◌, ◌↔◌, [], ◌∷◌, ◌++◌, IsTrue, OnOk, OnErr, length, option_map, slice_get};
ghost use Rattle.gl_meaning.specs.View.{path_step_view, seen_path_steps};

use crate::{PathStep, PathSteps};
use std::alloc::{AllocError, Global};

impl PathSteps {
    /// The empty list. It takes no memory.
    pub fn new(alloc: Global) -> PathSteps
        ensures { result ≡ [] }
    {
        PathSteps {
            list: Vec::new(alloc),
        }
    }

    /// The list of the steps of a vector. It takes no memory.
    pub fn from_vec(list: Vec<PathStep>) -> PathSteps
        ensures { result ≡ seen_path_steps list.items }
    {
        PathSteps { list }
    }

    /// Gives the vector back. It takes no memory.
    pub fn into_vec(self) -> Vec<PathStep>
        ensures { seen_path_steps result.items ≡ self }
    {
        self.list
    }

    pub fn as_slice(&self) -> &[PathStep]
        ensures { seen_path_steps result.now ≡ self.now }
    {
        self.list.as_slice()
    }

    pub fn len(&self) -> usize
        ensures { result ≡ length self.now }
    {
        self.list.len()
    }

    pub fn is_empty(&self) -> bool
        ensures { IsTrue result ↔ (self.now ≡ []) }
    {
        self.list.is_empty()
    }

    /// The step at a place, counted from 0.
    pub fn get(&self, at: usize) -> Option<&PathStep>
        ensures { option_map (λ v. path_step_view v.now) result ≡ slice_get self.now at }
    {
        self.list.as_slice().get(at)
    }

    /// Adds a step at the end.
    pub fn push(&mut self, item: PathStep) -> Result<(), AllocError>
        ensures ok { OnOk result (self.new ≡ self.old ++ path_step_view item ∷ []) }
        ensures err { OnErr result (self.new ≡ self.old) }
    {
        self.list.push(item)?;
        Ok(())
    }
}
