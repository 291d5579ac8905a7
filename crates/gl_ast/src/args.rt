// The calls of a list of arguments.
ghost use Rattle.std.specs.Prelude.{◌≡◌, ◌↔◌, [], ◌∷◌, ◌++◌, IsTrue, OnOk, OnErr, length, option_map, slice_get};
ghost use Rattle.gl_ast.specs.View.{argument_view, seen_args};

use crate::{Args, Argument, push_tight};
use std::alloc::{AllocError, Global};

impl Args {
    /// The empty list. It takes no memory.
    pub fn new(alloc: Global) -> Args
        ensures { result ≡ [] }
    {
        Args {
            list: Vec::new(alloc),
        }
    }

    /// The list of the arguments of a vector. It takes no memory.
    pub fn from_vec(list: Vec<Argument>) -> Args
        ensures { result ≡ seen_args list.items }
    {
        Args { list }
    }

    /// Gives the vector back. It takes no memory.
    pub fn into_vec(self) -> Vec<Argument>
        ensures { seen_args result.items ≡ self }
    {
        self.list
    }

    pub fn as_slice(&self) -> &[Argument]
        ensures { seen_args result.now ≡ self.now }
    {
        self.list.as_slice()
    }

    pub fn len(&self) -> usize
        ensures { result ≡ length self.now }
    {
        self.list.len()
    }

    pub fn is_empty(&self) -> bool
        ensures { IsTrue result ↔ (self.now ≡ []) }
    {
        self.list.is_empty()
    }

    /// The argument at a place, counted from 0.
    pub fn get(&self, at: usize) -> Option<&Argument>
        ensures { option_map (λ v. argument_view v.now) result ≡ slice_get self.now at }
    {
        self.list.as_slice().get(at)
    }

    /// Adds an argument at the end.
    pub fn push(&mut self, item: Argument) -> Result<(), AllocError>
        ensures ok { OnOk result (self.new ≡ self.old ++ argument_view item ∷ []) }
        ensures err { OnErr result (self.new ≡ self.old) }
    {
        push_tight(&mut self.list, item)
    }
}
