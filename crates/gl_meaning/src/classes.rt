// The calls of a list of classes.
ghost use Rattle.std.specs.Prelude.{◌≡◌, ◌↔◌, [], ◌∷◌, ◌++◌, IsTrue, OnOk, OnErr, length, option_map, slice_get};
ghost use Rattle.gl_meaning.specs.View.{class_view, seen_classes};

use crate::{Class, Classes};
use std::alloc::{AllocError, Global};

impl Classes {
    /// The empty list. It takes no memory.
    pub fn new(alloc: Global) -> Classes
        ensures { result ≡ [] }
    {
        Classes {
            list: Vec::new(alloc),
        }
    }

    /// The list of the classes of a vector. It takes no memory.
    pub fn from_vec(list: Vec<Class>) -> Classes
        ensures { result ≡ seen_classes list.items }
    {
        Classes { list }
    }

    /// Gives the vector back. It takes no memory.
    pub fn into_vec(self) -> Vec<Class>
        ensures { seen_classes result.items ≡ self }
    {
        self.list
    }

    pub fn as_slice(&self) -> &[Class]
        ensures { seen_classes result.now ≡ self.now }
    {
        self.list.as_slice()
    }

    pub fn len(&self) -> usize
        ensures { result ≡ length self.now }
    {
        self.list.len()
    }

    pub fn is_empty(&self) -> bool
        ensures { IsTrue result ↔ (self.now ≡ []) }
    {
        self.list.is_empty()
    }

    /// The class at a place, counted from 0.
    pub fn get(&self, at: usize) -> Option<&Class>
        ensures { option_map (λ v. class_view v.now) result ≡ slice_get self.now at }
    {
        self.list.as_slice().get(at)
    }

    /// Adds a class at the end.
    pub fn push(&mut self, item: Class) -> Result<(), AllocError>
        ensures ok { OnOk result (self.new ≡ self.old ++ class_view item ∷ []) }
        ensures err { OnErr result (self.new ≡ self.old) }
    {
        self.list.push(item)?;
        Ok(())
    }
}
