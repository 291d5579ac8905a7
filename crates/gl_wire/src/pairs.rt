// The calls of a list of named expressions.
ghost use Rattle.std.specs.Prelude.{◌≡◌, ◌↔◌, [], ◌∷◌, ◌++◌, IsTrue, OnOk, OnErr, length, option_map, slice_get};
ghost use Rattle.gl_wire.specs.View.{pair_view, seen_pairs};

use crate::{WirePair, WirePairs};
use gl_ast::push_tight;
use std::alloc::{AllocError, Global};

impl WirePairs {
    /// The empty list. It takes no memory.
    pub fn new(alloc: Global) -> WirePairs
        ensures { result ≡ [] }
    {
        WirePairs {
            list: Vec::new(alloc),
        }
    }

    /// The list of the named expressions of a vector. It takes no memory.
    pub fn from_vec(list: Vec<WirePair>) -> WirePairs
        ensures { result ≡ seen_pairs list.items }
    {
        WirePairs { list }
    }

    /// Gives the vector back. It takes no memory.
    pub fn into_vec(self) -> Vec<WirePair>
        ensures { seen_pairs result.items ≡ self }
    {
        self.list
    }

    pub fn as_slice(&self) -> &[WirePair]
        ensures { seen_pairs result.now ≡ self.now }
    {
        self.list.as_slice()
    }

    pub fn len(&self) -> usize
        ensures { result ≡ length self.now }
    {
        self.list.len()
    }

    pub fn is_empty(&self) -> bool
        ensures { IsTrue result ↔ (self.now ≡ []) }
    {
        self.list.is_empty()
    }

    /// The named expression at a place, counted from 0.
    pub fn get(&self, at: usize) -> Option<&WirePair>
        ensures { option_map (λ v. pair_view v.now) result ≡ slice_get self.now at }
    {
        self.list.as_slice().get(at)
    }

    /// Adds a named expression at the end.
    pub fn push(&mut self, item: WirePair) -> Result<(), AllocError>
        ensures ok { OnOk result (self.new ≡ self.old ++ pair_view item ∷ []) }
        ensures err { OnErr result (self.new ≡ self.old) }
    {
        push_tight(&mut self.list, item)
    }
}
