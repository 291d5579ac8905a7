// The calls of a list of expressions.
ghost use Rattle.std.specs.Prelude.{◌≡◌, ◌↔◌, [], ◌∷◌, ◌++◌, IsTrue, OnOk, OnErr, length, option_map, slice_get};
ghost use Rattle.gl_wire.specs.View.{expr_view, seen_exprs};

use crate::{WireExpr, WireExprs};
use gl_ast::push_tight;
use std::alloc::{AllocError, Global};

impl WireExprs {
    /// The empty list. It takes no memory.
    pub fn new(alloc: Global) -> WireExprs
        ensures { result ≡ [] }
    {
        WireExprs {
            list: Vec::new(alloc),
        }
    }

    /// The list of the expressions of a vector. It takes no memory.
    pub fn from_vec(list: Vec<WireExpr>) -> WireExprs
        ensures { result ≡ seen_exprs list.items }
    {
        WireExprs { list }
    }

    /// Gives the vector back. It takes no memory.
    pub fn into_vec(self) -> Vec<WireExpr>
        ensures { seen_exprs result.items ≡ self }
    {
        self.list
    }

    pub fn as_slice(&self) -> &[WireExpr]
        ensures { seen_exprs result.now ≡ self.now }
    {
        self.list.as_slice()
    }

    pub fn len(&self) -> usize
        ensures { result ≡ length self.now }
    {
        self.list.len()
    }

    pub fn is_empty(&self) -> bool
        ensures { IsTrue result ↔ (self.now ≡ []) }
    {
        self.list.is_empty()
    }

    /// The expression at a place, counted from 0.
    pub fn get(&self, at: usize) -> Option<&WireExpr>
        ensures { option_map (λ v. expr_view v.now) result ≡ slice_get self.now at }
    {
        self.list.as_slice().get(at)
    }

    /// Adds an expression at the end.
    pub fn push(&mut self, item: WireExpr) -> Result<(), AllocError>
        ensures ok { OnOk result (self.new ≡ self.old ++ expr_view item ∷ []) }
        ensures err { OnErr result (self.new ≡ self.old) }
    {
        push_tight(&mut self.list, item)
    }
}
