// Lists of references.
ghost use Rattle.std.specs.Prelude.{◌≡◌, [], ◌∷◌, ◌++◌, IfOk, OnOk, OnErr, length};

use crate::RefId;
use gl_value::Text;
use std::alloc::{AllocError, Global};
use std::marker::Model;

/// A list of references.
#[derive(Drop)]
pub struct Ids {
    list: Vec<RefId>,
}

impl Model for Ids {
    ghost use Rattle.std.specs.Prelude.{List};
    ghost use Rattle.gl_arena.specs.Id.{Id};

    ghost Value = { List Id };

    ghost view = { λ l. l.list.items };
}

impl Ids {
    /// The empty list. It takes no memory.
    pub fn new(alloc: Global) -> Ids
        ensures { result ≡ [] }
    {
        Ids {
            list: Vec::new(alloc),
        }
    }

    /// The empty list, with room for just so many references.
    pub fn with_capacity(alloc: Global, room: usize) -> Result<Ids, AllocError>
        ensures { IfOk result (λ l. l ≡ []) }
    {
        Ok(Ids {
            list: Vec::with_capacity(alloc, room)?,
        })
    }

    /// The list of the references of a vector. It takes no memory.
    pub fn from_vec(list: Vec<RefId>) -> Ids
        ensures { result ≡ list.items }
    {
        Ids { list }
    }

    /// Gives the vector back. It takes no memory.
    pub fn into_vec(self) -> Vec<RefId>
        ensures { result.items ≡ self }
    {
        self.list
    }

    // The same list, with no more room than it needs.
    pub(crate) fn fitted(self) -> Ids
        ensures { result ≡ self }
    {
        let mut list = self.list;
        list.shrink_to_fit();
        Ids { list }
    }

    pub fn as_slice(&self) -> &[RefId]
        ensures { result.now ≡ self.now }
    {
        self.list.as_slice()
    }

    pub fn len(&self) -> usize
        ensures { result ≡ length self.now }
    {
        self.list.len()
    }

    /// Adds a reference at the end.
    pub fn push(&mut self, id: RefId) -> Result<(), AllocError>
        ensures ok { OnOk result (self.new ≡ self.old ++ id ∷ []) }
        ensures err { OnErr result (self.new ≡ self.old) }
    {
        self.list.push(id)?;
        Ok(())
    }
}

/// A list of names with references.
#[derive(Drop)]
pub struct NamedIds {
    list: Vec<(Text, RefId)>,
}

impl Model for NamedIds {
    ghost use Rattle.std.specs.Prelude.{List, ℕ};
    ghost use Rattle.gl_arena.specs.Id.{Id};

    ghost Value = { List (List ℕ × Id) };

    ghost view = { λ l. l.list.items };
}

impl NamedIds {
    /// The empty list. It takes no memory.
    pub fn new(alloc: Global) -> NamedIds
        ensures { result ≡ [] }
    {
        NamedIds {
            list: Vec::new(alloc),
        }
    }

    /// The list of the pairs of a vector. It takes no memory.
    pub fn from_vec(list: Vec<(Text, RefId)>) -> NamedIds
        ensures { result ≡ list.items }
    {
        NamedIds { list }
    }

    /// Gives the vector back. It takes no memory.
    pub fn into_vec(self) -> Vec<(Text, RefId)>
        ensures { result.items ≡ self }
    {
        self.list
    }

    // The same list, with no more room than it needs.
    pub(crate) fn fitted(self) -> NamedIds
        ensures { result ≡ self }
    {
        let mut list = self.list;
        list.shrink_to_fit();
        NamedIds { list }
    }

    pub fn as_slice(&self) -> &[(Text, RefId)]
        ensures { result.now ≡ self.now }
    {
        self.list.as_slice()
    }

    pub fn len(&self) -> usize
        ensures { result ≡ length self.now }
    {
        self.list.len()
    }

    /// Adds a name with a reference at the end.
    pub fn push(&mut self, name: Text, id: RefId) -> Result<(), AllocError>
        ensures ok { OnOk result (self.new ≡ self.old ++ (name, id) ∷ []) }
        ensures err { OnErr result (self.new ≡ self.old) }
    {
        self.list.push((name, id))?;
        Ok(())
    }
}
