// The calls of a list of parts.
ghost use Rattle.std.specs.Prelude.{◌≡◌, ◌↔◌, [], ◌∷◌, ◌++◌, IsTrue, OnOk, OnErr, length, option_map, slice_get};
ghost use Rattle.gl_ast.specs.View.{part_view, seen_parts};

use crate::{Part, Parts, push_tight};
use std::alloc::{AllocError, Global};

impl Parts {
    /// The empty list. It takes no memory.
    pub fn new(alloc: Global) -> Parts
        ensures { result ≡ [] }
    {
        Parts {
            list: Vec::new(alloc),
        }
    }

    /// The list of the parts of a vector. It takes no memory.
    pub fn from_vec(list: Vec<Part>) -> Parts
        ensures { result ≡ seen_parts list.items }
    {
        Parts { list }
    }

    /// Gives the vector back. It takes no memory.
    pub fn into_vec(self) -> Vec<Part>
        ensures { seen_parts result.items ≡ self }
    {
        self.list
    }

    pub fn as_slice(&self) -> &[Part]
        ensures { seen_parts result.now ≡ self.now }
    {
        self.list.as_slice()
    }

    pub fn len(&self) -> usize
        ensures { result ≡ length self.now }
    {
        self.list.len()
    }

    pub fn is_empty(&self) -> bool
        ensures { IsTrue result ↔ (self.now ≡ []) }
    {
        self.list.is_empty()
    }

    /// The part at a place, counted from 0.
    pub fn get(&self, at: usize) -> Option<&Part>
        ensures { option_map (λ v. part_view v.now) result ≡ slice_get self.now at }
    {
        self.list.as_slice().get(at)
    }

    /// Adds a part at the end.
    pub fn push(&mut self, item: Part) -> Result<(), AllocError>
        ensures ok { OnOk result (self.new ≡ self.old ++ part_view item ∷ []) }
        ensures err { OnErr result (self.new ≡ self.old) }
    {
        push_tight(&mut self.list, item)
    }
}
