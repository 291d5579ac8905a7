// The calls of a list of names with expressions.
ghost use Rattle.std.specs.Prelude.{◌≡◌, ◌↔◌, [], ◌∷◌, ◌++◌, IsTrue, OnOk, OnErr, length, option_map, slice_get};
ghost use Rattle.gl_ast.specs.View.{named_view, seen_pairs};

use crate::{NamedExpr, Pairs, push_tight};
use std::alloc::{AllocError, Global};

impl Pairs {
    /// The empty list. It takes no memory.
    pub fn new(alloc: Global) -> Pairs
        ensures { result ≡ [] }
    {
        Pairs {
            list: Vec::new(alloc),
        }
    }

    /// The list of the names with expressions of a vector. It takes no memory.
    pub fn from_vec(list: Vec<NamedExpr>) -> Pairs
        ensures { result ≡ seen_pairs list.items }
    {
        Pairs { list }
    }

    /// Gives the vector back. It takes no memory.
    pub fn into_vec(self) -> Vec<NamedExpr>
        ensures { seen_pairs result.items ≡ self }
    {
        self.list
    }

    pub fn as_slice(&self) -> &[NamedExpr]
        ensures { seen_pairs result.now ≡ self.now }
    {
        self.list.as_slice()
    }

    pub fn len(&self) -> usize
        ensures { result ≡ length self.now }
    {
        self.list.len()
    }

    pub fn is_empty(&self) -> bool
        ensures { IsTrue result ↔ (self.now ≡ []) }
    {
        self.list.is_empty()
    }

    /// The name with its expression at a place, counted from 0.
    pub fn get(&self, at: usize) -> Option<&NamedExpr>
        ensures { option_map (λ v. named_view v.now) result ≡ slice_get self.now at }
    {
        self.list.as_slice().get(at)
    }

    /// Adds a name with its expression at the end.
    pub fn push(&mut self, item: NamedExpr) -> Result<(), AllocError>
        ensures ok { OnOk result (self.new ≡ self.old ++ named_view item ∷ []) }
        ensures err { OnErr result (self.new ≡ self.old) }
    {
        push_tight(&mut self.list, item)
    }
}
