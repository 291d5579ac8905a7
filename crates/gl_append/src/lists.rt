// `each`: how a list begins and ends.
ghost use Rattle.std.specs.Prelude.{◌≡◌, ◌++◌, ◌∷◌, [], IfOk, OnOk};
ghost use Rattle.gl_meaning.specs.Path as p;
ghost use Rattle.gl_meaning.specs.View.{path_view};
ghost use Rattle.gl_plain.specs.Ids.{ref};
ghost use Rattle.gl_machine.specs.Mach as m;
ghost use Rattle.gl_machine.specs.Step as s;
ghost use Rattle.gl_vm.specs.View.{Calm};
ghost use Rattle.gl_vm.specs.Steps.{Rooted};
ghost use Rattle.gl_code.specs.CodeView.{seen_listing, seen_spot};
ghost use Rattle.gl_append.specs.MachineView.{seen_here, seen_pushed, call_kind};
ghost use Rattle.gl_code.specs.Entries.{seen_left};
ghost use Rattle.gl_append.specs.Steps.{Moves, Changes, Takes, EndsFrame};
ghost use Rattle.gl_append.specs.ListSteps.{each_at, list_waiting};

use crate::machine::{Call, Frame, Iteration, Kind, Machine, Pushed};
use gl_code::{Code, Entry, Listing, Spot, after, comment_for, items_of, onward, position};
use gl_meaning::{Path, PathStep};
use gl_refs::{Ids, RefId};
use gl_value::{SharedText, Text};
use gl_vm::Vm;
use std::alloc::{AllocError, Global};
use std::mem;

// The key text of a list, as its part of the updating program keeps it.
fn kept_key(alloc: Global, key: &Text) -> Result<SharedText, AllocError>
    ensures { IfOk result (λ k. k ≡ key.now) }
{
    SharedText::new(alloc, key.copy()?)
}

impl Machine {
    // A list is between two of its items, and an address is gone to.
    pub(crate) fn wait_at(&mut self, pc: u32, iteration: Iteration) -> Result<(), AllocError>
        ensures { OnOk result (Changes (λ n. list_waiting (call_kind n (Call.Each iteration)) pc) self.old self.new) }
    {
        self.made = Ids::new(self.alloc);
        self.pc = pc;
        self.calls.push(Call::Each(iteration))?;
        Ok(())
    }

    // The path of what is rendered where the list has no item.
    fn other_path(&self) -> Result<Path, AllocError>
        ensures { IfOk result (λ q. (n : _) → path_view q ≡ p.otherwise ∷ m.next_at (seen_here n self.now.here)) }
    {
        let path = self.next_path()?;
        let path = onward(path, PathStep::Else)?;
        Ok(path)
    }

    fn enter_other(&mut self, listing: Listing, spot: Spot) -> Result<(), AllocError>
        ensures { OnOk result (Moves (λ n k. s.each_into (seen_listing n listing) (seen_spot spot) 0 [] k.state k.stack k.rest) self.old self.new) }
    {
        let path = self.other_path()?;
        self.made = Ids::new(self.alloc);
        self.pc = listing.other;
        self.begin(path, Kind::Other { listing, spot })
    }

    // The first item comes next, or the body where there is none.
    fn enter_list(
        &mut self,
        listing: Listing,
        id: RefId,
        start: u32,
        left: Vec<Entry>,
    ) -> Result<(), AllocError>
        ensures { OnOk result (Moves (λ n k. s.each_into (seen_listing n listing) (record { ref = id.1; made = k.made ++ ref id.1 ∷ [] }) start (seen_left left.items) k.state k.stack k.rest) self.old self.new) }
    {
        let made = mem::replace(&mut self.made, Ids::new(self.alloc));
        let spot = Spot { id, made };
        if left.is_empty() {
            self.enter_other(listing, spot)
        } else {
            let done = Vec::new(self.alloc);
            self.wait_at(
                start,
                Iteration {
                    listing,
                    spot,
                    start,
                    left,
                    done,
                },
            )
        }
    }

    // An `each` of the reference on the top: a position, and the first item comes next, or the body where there is none.
    // The operands are those of the Item behind it.
    pub(crate) fn do_each(
        &mut self,
        vm: &mut Vm,
        key: &Text,
        operands: (u32, u32),
        other: u32,
        top: Pushed,
    ) -> Result<(), AllocError>
        requires calm { Calm vm.old }
        ensures step { OnOk result (Takes (λ n k. each_at key.now other operands k (k.stack, seen_pushed top)) vm.old self.old vm.new self.new) }
        ensures calm { Calm vm.new }
        ensures tree { vm.new.tree ≡ vm.old.tree }
    {
        if !vm.refs.readable(top.id) {
            return Err(AllocError);
        }
        vm.prepare(top.id)?;
        let value = vm.value(top.id)?;
        let left = items_of(self.alloc, value, key)?;
        let mut ids = Ids::with_capacity(self.alloc, 1)?;
        ids.push(top.id)?;
        let start = after(self.pc)?;
        let body = after(start)?;
        let key = kept_key(self.alloc, key)?;
        let sight = self.sight.shared()?;
        let listing = Listing {
            key,
            value: operands.0,
            index: operands.1,
            body,
            other,
            sight,
        };
        let id = position(vm, ids)?;
        self.enter_list(listing, id, start, left)
    }

    // An `each` without items ends, whose frame was taken.
    pub(crate) fn do_end_each(&mut self, vm: &mut Vm, frame: Frame) -> Result<(), AllocError>
        ensures step { OnOk result (EndsFrame (λ n. s.do_end_each) vm.old self.old frame vm.new self.new) }
        ensures calm { Calm vm.old → Calm vm.new }
        ensures roots { OnOk result (Rooted vm.old.tree vm.new.tree) }
    {
        let Frame { here, kind } = frame;
        match kind {
            Kind::Other { listing, spot } => {
                if self.is_calling() {
                    return Err(AllocError);
                }
                let body = self.end(here);
                let comment = comment_for(vm, &body)?;
                let code = Code::unlisted(listing, spot, comment, body);
                self.show(code)
            }
            _ => Err(AllocError),
        }
    }

    fn end_items(&mut self, iteration: Iteration) -> Result<(), AllocError>
        ensures { OnOk result (Moves (λ n k. s.do_end_each k k.rest.frames k.rest.here (call_kind n (Call.Each iteration))) self.old self.new) }
    {
        if !iteration.left.is_empty() {
            return Err(AllocError);
        }
        let mut done = iteration.done;
        done.shrink_to_fit();
        let code = Code::listed(iteration.listing, iteration.spot, done);
        self.show(code)
    }

    fn end_call(&mut self, call: Call) -> Result<(), AllocError>
        ensures { OnOk result (Moves (λ n k. s.do_end_each k k.rest.frames k.rest.here (call_kind n call)) self.old self.new) }
    {
        match call {
            Call::Each(iteration) => self.end_items(iteration),
            _ => Err(AllocError),
        }
    }

    // An `each` ends of which all items are done: it is the last call.
    pub(crate) fn end_list(&mut self) -> Result<(), AllocError>
        ensures { OnOk result (Moves (λ n k. s.with_end k s.do_end_each) self.old self.new) }
    {
        match self.pop_call() {
            Some(call) => self.end_call(call),
            None => Err(AllocError),
        }
    }
}
