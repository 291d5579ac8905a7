// The calls of a list of statements.
ghost use Rattle.std.specs.Prelude.{◌≡◌, ◌↔◌, [], ◌∷◌, ◌++◌, IsTrue, OnOk, OnErr, length, option_map, slice_get};
ghost use Rattle.gl_ast.specs.View.{stmt_view, seen_stmts};

use crate::{Body, Stmt, push_tight};
use std::alloc::{AllocError, Global};

impl Body {
    /// The empty list. It takes no memory.
    pub fn new(alloc: Global) -> Body
        ensures { result ≡ [] }
    {
        Body {
            list: Vec::new(alloc),
        }
    }

    /// The list of the statements of a vector. It takes no memory.
    pub fn from_vec(list: Vec<Stmt>) -> Body
        ensures { result ≡ seen_stmts list.items }
    {
        Body { list }
    }

    /// Gives the vector back. It takes no memory.
    pub fn into_vec(self) -> Vec<Stmt>
        ensures { seen_stmts result.items ≡ self }
    {
        self.list
    }

    pub fn as_slice(&self) -> &[Stmt]
        ensures { seen_stmts result.now ≡ self.now }
    {
        self.list.as_slice()
    }

    pub fn len(&self) -> usize
        ensures { result ≡ length self.now }
    {
        self.list.len()
    }

    pub fn is_empty(&self) -> bool
        ensures { IsTrue result ↔ (self.now ≡ []) }
    {
        self.list.is_empty()
    }

    /// The statement at a place, counted from 0.
    pub fn get(&self, at: usize) -> Option<&Stmt>
        ensures { option_map (λ v. stmt_view v.now) result ≡ slice_get self.now at }
    {
        self.list.as_slice().get(at)
    }

    /// Adds a statement at the end.
    pub fn push(&mut self, item: Stmt) -> Result<(), AllocError>
        ensures ok { OnOk result (self.new ≡ self.old ++ stmt_view item ∷ []) }
        ensures err { OnErr result (self.new ≡ self.old) }
    {
        push_tight(&mut self.list, item)
    }
}
