// Numbers of calls, in a list.
ghost use Rattle.std.specs.Prelude.{◌≡◌, ℕ, List, [], ◌∷◌, ◌++◌, length, OnOk, OnErr, IsTrue, ◌↔◌, slice_get};
ghost use Rattle.gl_outside.specs.Calls.{is_listed};

use std::alloc::{AllocError, Global};
use std::marker::Model;

/// A list of numbers of calls, from 0.
#[derive(Drop)]
pub struct Calls {
    list: Vec<u64>,
}

impl Model for Calls {
    ghost Value = { List ℕ };

    ghost view = { λ c. c.list.items };
}

impl Calls {
    /// An empty list. It takes no memory.
    pub fn new(alloc: Global) -> Calls
        ensures { result ≡ [] }
    {
        Calls {
            list: Vec::new(alloc),
        }
    }

    /// The list of these numbers.
    pub fn from_vec(list: Vec<u64>) -> Calls
        ensures { result ≡ list.items }
    {
        Calls { list }
    }

    /// The numbers of the list.
    pub fn into_vec(self) -> Vec<u64>
        ensures { result.items ≡ self }
    {
        self.list
    }

    /// The numbers of the list, lent.
    pub fn as_slice(&self) -> &[u64]
        ensures { result.now ≡ self.now }
    {
        self.list.as_slice()
    }

    /// How many numbers the list has.
    pub fn len(&self) -> usize
        ensures { result ≡ length self.now }
    {
        self.list.len()
    }

    /// Whether the list has no number.
    pub fn is_empty(&self) -> bool
        ensures { IsTrue result ↔ (self.now ≡ []) }
    {
        self.list.is_empty()
    }

    /// The number at that place, from 0.
    pub fn get(&self, index: usize) -> Option<u64>
        ensures { result ≡ slice_get self.now index }
    {
        self.list.get(index).copied()
    }

    /// Appends a number.
    pub fn push(&mut self, call: u64) -> Result<(), AllocError>
        ensures ok { OnOk result (self.new ≡ self.old ++ call ∷ []) }
        ensures err { OnErr result (self.new ≡ self.old) }
    {
        self.list.push(call)?;
        Ok(())
    }

    /// Whether the number stands in the list.
    pub fn contains(&self, call: u64) -> bool
        ensures { result ≡ is_listed self.now call }
    {
        self.list.iter().any(|listed| *listed == call)
    }
}
