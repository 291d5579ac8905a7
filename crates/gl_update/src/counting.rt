// How much an update moved, and how many questions it answered.
ghost use Rattle.std.specs.Prelude.{◌≡◌, ◌+◌, ◌<◌, ◌^◌, nat_eq, length, IsOk, OnOk};
ghost use Rattle.gl_update.specs.Questions.{closed};

use gl_vm::Vm;
use std::alloc::AllocError;

/// What an update moved, and what it asked.
#[derive(Debug, Drop, PartialEq)]
pub struct Moved {
    /// How many items of lists changed their place among those that stayed: an item that was there before, with one of the
    /// same list that stands before it now and stood behind it.
    pub items: u128,
    /// How many questions were answered: one for the page, one for each position that was come to, and one for each region that was
    /// come to, the body of a component, a branch, the items of a list, or an item. What a region holds counts where something was
    /// evaluated in it alone, however many of its positions were looked at.
    pub asked: u128,
}

/// Where a region begins: how many questions were counted, and how many positions evaluated.
#[derive(Drop)]
pub(crate) struct Mark {
    asked: u128,
    evaluated: usize,
}

impl Moved {
    /// Nothing was moved and nothing asked.
    pub(crate) fn none() -> Moved
        ensures items { result.items ≡ 0 }
        ensures asked { result.asked ≡ 0 }
    {
        Moved { items: 0, asked: 0 }
    }

    /// One item more. A count without room answers as for want of memory.
    pub(crate) fn one(&mut self) -> Result<(), AllocError>
        ensures items { OnOk result (self.new.items ≡ self.old.items + 1) }
        ensures asked { self.new.asked ≡ self.old.asked }
    {
        match self.items.checked_add(1) {
            Some(items) => {
                self.items = items;
                Ok(())
            }
            None => Err(AllocError),
        }
    }

    /// So many questions more, likewise. Where there is room for them it is an answer.
    pub(crate) fn ask(&mut self, count: usize) -> Result<(), AllocError>
        ensures items { self.new.items ≡ self.old.items }
        ensures asked { OnOk result (self.new.asked ≡ self.old.asked + count) }
        ensures room { self.old.asked + count < 2 ^ 128 → IsOk result }
    {
        match self.asked.checked_add(count as u128) {
            Some(asked) => {
                self.asked = asked;
                Ok(())
            }
            None => Err(AllocError),
        }
    }

    /// A region begins, whose own question was counted.
    pub(crate) fn mark(&self, vm: &Vm) -> Mark
        ensures asked { result.asked ≡ self.now.asked }
        ensures evaluated { result.evaluated ≡ length vm.now.refs.evaluated }
    {
        Mark {
            asked: self.asked,
            evaluated: vm.refs.evaluated().len(),
        }
    }

    /// A region that began there is over: what was asked in it doesn't count where nothing was evaluated in it.
    pub(crate) fn close(&mut self, mark: &Mark, vm: &Vm)
        ensures items { self.new.items ≡ self.old.items }
        ensures asked { self.new.asked ≡ closed mark.now.asked self.old.asked (nat_eq (length vm.now.refs.evaluated) mark.now.evaluated) }
    {
        if vm.refs.evaluated().len() == mark.evaluated {
            self.asked = mark.asked;
        }
    }

    /// The items of a list that was read again are over, of which so many stayed: what was asked in them doesn't count where it was
    /// one question each.
    pub(crate) fn settle(&mut self, mark: &Mark, stayed: usize)
        ensures items { self.new.items ≡ self.old.items }
        ensures asked { self.new.asked ≡ closed mark.now.asked self.old.asked (nat_eq self.old.asked (mark.now.asked + stayed)) }
    {
        if self.asked.checked_sub(mark.asked) == Some(stayed as u128) {
            self.asked = mark.asked;
        }
    }
}
