// Places among the symbols of a wire.
ghost use Rattle.std.specs.Prelude.{◌≡◌, ◌↔◌, [], ◌∷◌, ◌++◌, IsTrue, OnOk, OnErr, length, option_map, slice_get};

use gl_ast::push_tight;
use std::alloc::{AllocError, Global};
use std::marker::Model;

/// A list of places among the symbols.
#[derive(Drop)]
pub struct Symbols {
    list: Vec<u32>,
}

impl Model for Symbols {
    ghost use Rattle.std.specs.Prelude.{ℕ, List};

    ghost Value = { List ℕ };

    ghost view = { λ s. s.list.items };
}

impl Symbols {
    /// The empty list. It takes no memory.
    pub fn new(alloc: Global) -> Symbols
        ensures { result ≡ [] }
    {
        Symbols {
            list: Vec::new(alloc),
        }
    }

    /// The list of the places of a vector. It takes no memory.
    pub fn from_vec(list: Vec<u32>) -> Symbols
        ensures { result ≡ list.items }
    {
        Symbols { list }
    }

    /// Gives the vector back. It takes no memory.
    pub fn into_vec(self) -> Vec<u32>
        ensures { result.items ≡ self }
    {
        self.list
    }

    pub fn as_slice(&self) -> &[u32]
        ensures { result.now ≡ self.now }
    {
        self.list.as_slice()
    }

    pub fn len(&self) -> usize
        ensures { result ≡ length self.now }
    {
        self.list.len()
    }

    pub fn is_empty(&self) -> bool
        ensures { IsTrue result ↔ (self.now ≡ []) }
    {
        self.list.is_empty()
    }

    /// The place that stands at an index, counted from 0.
    pub fn get(&self, at: usize) -> Option<&u32>
        ensures { option_map (λ i. i.now) result ≡ slice_get self.now at }
    {
        self.list.as_slice().get(at)
    }

    /// Adds a place at the end.
    pub fn push(&mut self, place: u32) -> Result<(), AllocError>
        ensures ok { OnOk result (self.new ≡ self.old ++ place ∷ []) }
        ensures err { OnErr result (self.new ≡ self.old) }
    {
        push_tight(&mut self.list, place)
    }
}
