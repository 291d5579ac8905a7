// The lists of keys, of steps and of places.
ghost use Rattle.std.specs.Prelude.{◌≡◌, ◌↔◌, [], ◌∷◌, ◌++◌, IsTrue, OnOk, OnErr, length, option_map, slice_get};
ghost use Rattle.gl_each.specs.View.{key_view, seen_keys, step_view, seen_steps};

use crate::{Key, PlanStep};
use std::alloc::{AllocError, Global};
use std::marker::Model;

/// A list of keys. Contracts see each key as its value with its occurrence.
#[derive(Drop)]
pub struct Keys {
    list: Vec<Key>,
}

impl Model for Keys {
    ghost use Rattle.std.specs.Prelude.{List};
    ghost use Rattle.std.specs.Coded.{coded_list};
    ghost use Rattle.gl_each.specs.Key as k;

    ghost Value = { List k.Key };

    ghost coded = { coded_list k.key_code };

    ghost use Rattle.gl_each.specs.View.{seen_keys};

    ghost view = { λ a. seen_keys a.list.items };
}

impl Keys {
    /// The empty list. It takes no memory.
    pub fn new(alloc: Global) -> Keys
        ensures { result ≡ [] }
    {
        Keys {
            list: Vec::new(alloc),
        }
    }

    /// The list of the keys of a vector. It takes no memory.
    pub fn from_vec(list: Vec<Key>) -> Keys
        ensures { result ≡ seen_keys list.items }
    {
        Keys { list }
    }

    /// Gives the vector back. It takes no memory.
    pub fn into_vec(self) -> Vec<Key>
        ensures { seen_keys result.items ≡ self }
    {
        self.list
    }

    pub fn as_slice(&self) -> &[Key]
        ensures { seen_keys result.now ≡ self.now }
    {
        self.list.as_slice()
    }

    pub fn len(&self) -> usize
        ensures { result ≡ length self.now }
    {
        self.list.len()
    }

    pub fn is_empty(&self) -> bool
        ensures { IsTrue result ↔ (self.now ≡ []) }
    {
        self.list.is_empty()
    }

    /// The key at a place, counted from 0.
    pub fn get(&self, at: usize) -> Option<&Key>
        ensures { option_map (λ k. key_view k.now) result ≡ slice_get self.now at }
    {
        self.list.as_slice().get(at)
    }

    /// Adds a key at the end.
    pub fn push(&mut self, key: Key) -> Result<(), AllocError>
        ensures ok { OnOk result (self.new ≡ self.old ++ key_view key ∷ []) }
        ensures err { OnErr result (self.new ≡ self.old) }
    {
        self.list.push(key)?;
        Ok(())
    }

    pub(crate) fn allocator(&self) -> Global {
        *self.list.allocator()
    }
}

/// The steps of a plan. Contracts see them as definitions do.
#[derive(Drop)]
pub struct PlanSteps {
    list: Vec<PlanStep>,
}

impl Model for PlanSteps {
    ghost use Rattle.std.specs.Prelude.{List};
    ghost use Rattle.gl_each.specs.Sync as s;

    ghost Value = { List s.Step };

    ghost use Rattle.gl_each.specs.View.{seen_steps};

    ghost view = { λ a. seen_steps a.list.items };
}

impl PlanSteps {
    /// The empty list. It takes no memory.
    pub fn new(alloc: Global) -> PlanSteps
        ensures { result ≡ [] }
    {
        PlanSteps {
            list: Vec::new(alloc),
        }
    }

    /// The list of the steps of a vector. It takes no memory.
    pub fn from_vec(list: Vec<PlanStep>) -> PlanSteps
        ensures { result ≡ seen_steps list.items }
    {
        PlanSteps { list }
    }

    /// Gives the vector back. It takes no memory.
    pub fn into_vec(self) -> Vec<PlanStep>
        ensures { seen_steps result.items ≡ self }
    {
        self.list
    }

    pub fn as_slice(&self) -> &[PlanStep]
        ensures { seen_steps result.now ≡ self.now }
    {
        self.list.as_slice()
    }

    pub fn len(&self) -> usize
        ensures { result ≡ length self.now }
    {
        self.list.len()
    }

    /// The step at a place, counted from 0.
    pub fn get(&self, at: usize) -> Option<&PlanStep>
        ensures { option_map (λ s. step_view s.now) result ≡ slice_get self.now at }
    {
        self.list.as_slice().get(at)
    }

    /// Adds a step at the end.
    pub fn push(&mut self, step: PlanStep) -> Result<(), AllocError>
        ensures ok { OnOk result (self.new ≡ self.old ++ step_view step ∷ []) }
        ensures err { OnErr result (self.new ≡ self.old) }
    {
        self.list.push(step)?;
        Ok(())
    }
}

/// A list of places.
#[derive(Drop)]
pub struct Places {
    list: Vec<u64>,
}

impl Model for Places {
    ghost use Rattle.std.specs.Prelude.{List, ℕ};

    ghost Value = { List ℕ };

    ghost view = { λ a. a.list.items };
}

impl Places {
    /// The empty list. It takes no memory.
    pub fn new(alloc: Global) -> Places
        ensures { result ≡ [] }
    {
        Places {
            list: Vec::new(alloc),
        }
    }

    /// The list of the places of a vector. It takes no memory.
    pub fn from_vec(list: Vec<u64>) -> Places
        ensures { result ≡ list.items }
    {
        Places { list }
    }

    /// Gives the vector back. It takes no memory.
    pub fn into_vec(self) -> Vec<u64>
        ensures { result.items ≡ self }
    {
        self.list
    }

    pub fn as_slice(&self) -> &[u64]
        ensures { result.now ≡ self.now }
    {
        self.list.as_slice()
    }

    pub fn len(&self) -> usize
        ensures { result ≡ length self.now }
    {
        self.list.len()
    }

    /// Adds a place at the end.
    pub fn push(&mut self, place: u64) -> Result<(), AllocError>
        ensures ok { OnOk result (self.new ≡ self.old ++ place ∷ []) }
        ensures err { OnErr result (self.new ≡ self.old) }
    {
        self.list.push(place)?;
        Ok(())
    }
}
