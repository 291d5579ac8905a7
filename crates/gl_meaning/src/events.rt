// The calls of a list of events.
ghost use Rattle.std.specs.Prelude.{◌≡◌, ◌↔◌, [], ◌∷◌, ◌++◌, IsTrue, OnOk, OnErr, length, option_map, slice_get};
ghost use Rattle.gl_meaning.specs.View.{event_view, seen_events};

use crate::{Event, Events};
use std::alloc::{AllocError, Global};

impl Events {
    /// The empty list. It takes no memory.
    pub fn new(alloc: Global) -> Events
        ensures { result ≡ [] }
    {
        Events {
            list: Vec::new(alloc),
        }
    }

    /// The list of the events of a vector. It takes no memory.
    pub fn from_vec(list: Vec<Event>) -> Events
        ensures { result ≡ seen_events list.items }
    {
        Events { list }
    }

    /// Gives the vector back. It takes no memory.
    pub fn into_vec(self) -> Vec<Event>
        ensures { seen_events result.items ≡ self }
    {
        self.list
    }

    pub fn as_slice(&self) -> &[Event]
        ensures { seen_events result.now ≡ self.now }
    {
        self.list.as_slice()
    }

    pub fn len(&self) -> usize
        ensures { result ≡ length self.now }
    {
        self.list.len()
    }

    pub fn is_empty(&self) -> bool
        ensures { IsTrue result ↔ (self.now ≡ []) }
    {
        self.list.is_empty()
    }

    /// The event at a place, counted from 0.
    pub fn get(&self, at: usize) -> Option<&Event>
        ensures { option_map (λ v. event_view v.now) result ≡ slice_get self.now at }
    {
        self.list.as_slice().get(at)
    }

    /// Adds an event at the end.
    pub fn push(&mut self, item: Event) -> Result<(), AllocError>
        ensures ok { OnOk result (self.new ≡ self.old ++ event_view item ∷ []) }
        ensures err { OnErr result (self.new ≡ self.old) }
    {
        self.list.push(item)?;
        Ok(())
    }
}
