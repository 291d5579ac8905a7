// The parameters in scope.
ghost use Rattle.std.specs.Prelude.{◌≡◌, [], ◌∷◌, ◌++◌, IfOk, OnOk, OnErr, length, take};
ghost use Rattle.gl_scope.specs.Scope.{last_at};

use gl_arena::{Id, RefMark};
use std::alloc::{AllocError, Global};
use std::marker::Model;

/// The parameters of the blocks round a place, the outermost first: each the number of its symbol with the reference
/// of its value. A program has no names of its symbols, so parameters go by number.
#[derive(Drop)]
pub struct Locals {
    list: Vec<(u32, Id<RefMark>)>,
}

impl Model for Locals {
    ghost use Rattle.gl_scope.specs.Scope as s;

    ghost Value = { s.Locals };

    ghost view = { λ a. a.list.items };
}

impl Locals {
    /// The empty list. It takes no memory.
    pub fn new(alloc: Global) -> Locals
        ensures { result ≡ [] }
    {
        Locals {
            list: Vec::new(alloc),
        }
    }

    /// The list of the pairs of a vector. It takes no memory.
    pub fn from_vec(list: Vec<(u32, Id<RefMark>)>) -> Locals
        ensures { result ≡ list.items }
    {
        Locals { list }
    }

    /// Gives the vector back. It takes no memory.
    pub fn into_vec(self) -> Vec<(u32, Id<RefMark>)>
        ensures { result.items ≡ self }
    {
        self.list
    }

    pub fn as_slice(&self) -> &[(u32, Id<RefMark>)]
        ensures { result.now ≡ self.now }
    {
        self.list.as_slice()
    }

    pub fn len(&self) -> usize
        ensures { result ≡ length self.now }
    {
        self.list.len()
    }

    /// Adds a parameter, which is the innermost then.
    pub fn push(&mut self, symbol: u32, id: Id<RefMark>) -> Result<(), AllocError>
        ensures ok { OnOk result (self.new ≡ self.old ++ (symbol, id) ∷ []) }
        ensures err { OnErr result (self.new ≡ self.old) }
    {
        self.list.push((symbol, id))?;
        Ok(())
    }

    /// Leaves the outermost parameters, this many.
    pub fn truncate(&mut self, count: usize)
        ensures { self.new ≡ take count self.old }
    {
        self.list.truncate(count);
    }

    pub fn copy(&self) -> Result<Locals, AllocError>
        ensures { IfOk result (λ a. a ≡ self.now) }
    {
        let list = copied(*self.list.allocator(), self.list.as_slice())?;
        Ok(Locals { list })
    }

    /// The reference of the innermost parameter with that symbol.
    pub fn get(&self, symbol: u32) -> Option<Id<RefMark>>
        ensures { result ≡ last_at symbol self.now }
    {
        innermost(self.list.as_slice(), symbol)
    }
}

fn copied(
    alloc: Global,
    entries: &[(u32, Id<RefMark>)],
) -> Result<Vec<(u32, Id<RefMark>)>, AllocError>
    ensures { IfOk result (λ v. v.items ≡ entries.now) }
{
    let mut list = Vec::new(alloc);
    list.extend_from_slice(entries)?;
    Ok(list)
}

fn innermost(locals: &[(u32, Id<RefMark>)], symbol: u32) -> Option<Id<RefMark>>
    ensures { result ≡ last_at symbol locals.now }
{
    let mut found = None;
    for entry in locals {
        if entry.0 == symbol {
            found = Some(entry.1);
        }
    }
    found
}
