// Numbers of calls with the bytes that each takes, in a list.
ghost use Rattle.std.specs.Prelude.{◌≡◌, ℕ, List, [], ◌∷◌, ◌++◌, length, OnOk, OnErr, IsTrue, ◌↔◌, option_map, slice_get};
ghost use Rattle.gl_outside.specs.Cuts.{cut_of};

use std::alloc::{AllocError, Global};
use std::marker::Model;

/// A call's number, from 0, and how many bytes that call takes.
#[derive(Drop)]
pub struct Cut {
    call: u64,
    takes: usize,
}

impl Model for Cut {
    ghost Value = { ℕ × ℕ };

    ghost view = { λ c. (c.call, c.takes) };
}

impl Cut {
    /// The call of that number takes so many bytes.
    pub fn new(call: u64, takes: usize) -> Cut
        ensures { result ≡ (call, takes) }
    {
        Cut { call, takes }
    }

    /// The call's number, from 0.
    pub fn call(&self) -> u64
        ensures { result ≡ self.now.0 }
    {
        self.call
    }

    /// How many bytes the call takes.
    pub fn takes(&self) -> usize
        ensures { result ≡ self.now.1 }
    {
        self.takes
    }
}

/// A list of cuts.
#[derive(Drop)]
pub struct Cuts {
    list: Vec<Cut>,
}

impl Model for Cuts {
    ghost Value = { List (ℕ × ℕ) };

    ghost view = { λ c. c.list.items };
}

impl Cuts {
    /// An empty list. It takes no memory.
    pub fn new(alloc: Global) -> Cuts
        ensures { result ≡ [] }
    {
        Cuts {
            list: Vec::new(alloc),
        }
    }

    /// The list of these cuts.
    pub fn from_vec(list: Vec<Cut>) -> Cuts
        ensures { result ≡ list.items }
    {
        Cuts { list }
    }

    /// The cuts of the list.
    pub fn into_vec(self) -> Vec<Cut>
        ensures { result.items ≡ self }
    {
        self.list
    }

    /// The cuts of the list, lent.
    pub fn as_slice(&self) -> &[Cut]
        ensures { result.now ≡ self.now }
    {
        self.list.as_slice()
    }

    /// How many cuts the list has.
    pub fn len(&self) -> usize
        ensures { result ≡ length self.now }
    {
        self.list.len()
    }

    /// Whether the list has no cut.
    pub fn is_empty(&self) -> bool
        ensures { IsTrue result ↔ (self.now ≡ []) }
    {
        self.list.is_empty()
    }

    /// The cut at that place, from 0.
    pub fn get(&self, index: usize) -> Option<&Cut>
        ensures { option_map (λ c. c.now) result ≡ slice_get self.now index }
    {
        self.list.get(index)
    }

    /// Appends a cut.
    pub fn push(&mut self, cut: Cut) -> Result<(), AllocError>
        ensures ok { OnOk result (self.new ≡ self.old ++ cut ∷ []) }
        ensures err { OnErr result (self.new ≡ self.old) }
    {
        self.list.push(cut)?;
        Ok(())
    }

    /// How many bytes the call of that number takes, by the first cut with it.
    pub fn find(&self, call: u64) -> Option<usize>
        ensures { result ≡ cut_of self.now call }
    {
        self.list
            .iter()
            .find(|cut| cut.call() == call)
            .map(|cut| cut.takes())
    }
}
