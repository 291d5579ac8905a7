// The integers of a program.
ghost use Rattle.std.specs.Prelude.{◌≡◌, ◌↔◌, [], ◌∷◌, ◌++◌, IsTrue, OnOk, OnErr, length, option_map, slice_get};

use std::alloc::{AllocError, Global};
use std::marker::Model;

/// A list of integers.
#[derive(Drop)]
pub struct Ints {
    list: Vec<i64>,
}

impl Model for Ints {
    ghost use Rattle.std.specs.Prelude.{ℤ, List};

    ghost Value = { List ℤ };

    ghost view = { λ s. s.list.items };
}

impl Ints {
    /// The empty list. It takes no memory.
    pub fn new(alloc: Global) -> Ints
        ensures { result ≡ [] }
    {
        Ints {
            list: Vec::new(alloc),
        }
    }

    /// The list of the integers of a vector. It takes no memory.
    pub fn from_vec(list: Vec<i64>) -> Ints
        ensures { result ≡ list.items }
    {
        Ints { list }
    }

    /// Gives the vector back. It takes no memory.
    pub fn into_vec(self) -> Vec<i64>
        ensures { result.items ≡ self }
    {
        self.list
    }

    pub fn as_slice(&self) -> &[i64]
        ensures { result.now ≡ self.now }
    {
        self.list.as_slice()
    }

    pub fn len(&self) -> usize
        ensures { result ≡ length self.now }
    {
        self.list.len()
    }

    pub fn is_empty(&self) -> bool
        ensures { IsTrue result ↔ (self.now ≡ []) }
    {
        self.list.is_empty()
    }

    /// The integer at a place, counted from 0.
    pub fn get(&self, at: usize) -> Option<&i64>
        ensures { option_map (λ i. i.now) result ≡ slice_get self.now at }
    {
        self.list.as_slice().get(at)
    }

    /// Adds an integer at the end.
    pub fn push(&mut self, integer: i64) -> Result<(), AllocError>
        ensures ok { OnOk result (self.new ≡ self.old ++ integer ∷ []) }
        ensures err { OnErr result (self.new ≡ self.old) }
    {
        self.list.push(integer)?;
        Ok(())
    }
}
