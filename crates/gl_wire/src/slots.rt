// The calls of a list of slots.
ghost use Rattle.std.specs.Prelude.{◌≡◌, ◌↔◌, [], ◌∷◌, ◌++◌, IsTrue, OnOk, OnErr, length, option_map, slice_get};
ghost use Rattle.gl_wire.specs.View.{slot_view, seen_slots};

use crate::{WireSlot, WireSlots};
use gl_ast::push_tight;
use std::alloc::{AllocError, Global};

impl WireSlots {
    /// The empty list. It takes no memory.
    pub fn new(alloc: Global) -> WireSlots
        ensures { result ≡ [] }
    {
        WireSlots {
            list: Vec::new(alloc),
        }
    }

    /// The list of the slots of a vector. It takes no memory.
    pub fn from_vec(list: Vec<WireSlot>) -> WireSlots
        ensures { result ≡ seen_slots list.items }
    {
        WireSlots { list }
    }

    /// Gives the vector back. It takes no memory.
    pub fn into_vec(self) -> Vec<WireSlot>
        ensures { seen_slots result.items ≡ self }
    {
        self.list
    }

    pub fn as_slice(&self) -> &[WireSlot]
        ensures { seen_slots result.now ≡ self.now }
    {
        self.list.as_slice()
    }

    pub fn len(&self) -> usize
        ensures { result ≡ length self.now }
    {
        self.list.len()
    }

    pub fn is_empty(&self) -> bool
        ensures { IsTrue result ↔ (self.now ≡ []) }
    {
        self.list.is_empty()
    }

    /// The slot at a place, counted from 0.
    pub fn get(&self, at: usize) -> Option<&WireSlot>
        ensures { option_map (λ v. slot_view v.now) result ≡ slice_get self.now at }
    {
        self.list.as_slice().get(at)
    }

    /// Adds a slot at the end.
    pub fn push(&mut self, item: WireSlot) -> Result<(), AllocError>
        ensures ok { OnOk result (self.new ≡ self.old ++ slot_view item ∷ []) }
        ensures err { OnErr result (self.new ≡ self.old) }
    {
        push_tight(&mut self.list, item)
    }
}
