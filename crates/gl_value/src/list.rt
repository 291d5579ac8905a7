// The calls of a list of values.
ghost use Rattle.std.specs.Prelude.{◌≡◌, ◌↔◌, [], IsTrue, IfOk, length, option_map, slice_get};
ghost use Rattle.gl_value.specs.View.{view, seen_items};

use crate::{List, Value};
use std::alloc::{AllocError, Global};
use std::rc::Rc;

impl List {
    /// The empty list.
    pub fn new(alloc: Global) -> Result<List, AllocError>
        ensures { IfOk result (λ l. l ≡ []) }
    {
        List::from_vec(Vec::new(alloc))
    }

    /// The list of the values of a vector.
    pub fn from_vec(items: Vec<Value>) -> Result<List, AllocError>
        ensures { IfOk result (λ l. l ≡ seen_items items.items) }
    {
        let alloc = *items.allocator();
        Ok(List {
            list: Rc::new(alloc, items)?,
        })
    }

    /// Gives the values as a vector: the list's own where no other shares them, and else copies.
    pub fn into_vec(self) -> Result<Vec<Value>, AllocError>
        ensures { IfOk result (λ items. seen_items items.items ≡ self) }
    {
        match Rc::try_unwrap(self.list) {
            Ok(items) => Ok(items),
            Err(shared) => copied(shared.as_ref()),
        }
    }

    pub fn as_slice(&self) -> &[Value]
        ensures { seen_items result.now ≡ self.now }
    {
        self.list.as_slice()
    }

    pub fn len(&self) -> usize
        ensures { result ≡ length self.now }
    {
        self.list.len()
    }

    pub fn is_empty(&self) -> bool
        ensures { IsTrue result ↔ (self.now ≡ []) }
    {
        self.list.is_empty()
    }

    /// The value at a place, counted from 0.
    pub fn get(&self, at: usize) -> Option<&Value>
        ensures { option_map (λ v. view v.now) result ≡ slice_get self.now at }
    {
        self.list.as_slice().get(at)
    }
}

// A vector with copies of the values.
fn copied(items: &Vec<Value>) -> Result<Vec<Value>, AllocError>
    ensures { IfOk result (λ copies. seen_items copies.items ≡ seen_items items.now.items) }
{
    let mut copies = Vec::with_capacity(*items.allocator(), items.len())?;
    for item in items {
        copies.push(item.copy()?)?;
    }
    Ok(copies)
}
