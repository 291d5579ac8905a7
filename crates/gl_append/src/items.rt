// The items of an `each`.
ghost use Rattle.std.specs.Prelude.{◌≡◌, ◌∷◌, suc, IfOk, OnOk};
ghost use Rattle.gl_value.specs.Value.{plain};
ghost use Rattle.gl_value.specs.View.{view};
ghost use Rattle.gl_meaning.specs.Path as p;
ghost use Rattle.gl_meaning.specs.View.{path_view};
ghost use Rattle.gl_plain.specs.Naming.{by_number};
ghost use Rattle.gl_machine.specs.Mach as m;
ghost use Rattle.gl_machine.specs.Step as s;
ghost use Rattle.gl_vm.specs.View.{Calm};
ghost use Rattle.gl_vm.specs.Steps.{Rooted};
ghost use Rattle.gl_code.specs.View.{seen_sight};
ghost use Rattle.gl_append.specs.MachineView.{seen_here, seen_kind};
ghost use Rattle.gl_code.specs.Entries.{seen_left};
ghost use Rattle.gl_append.specs.Steps.{Changes, Takes, EndsFrame, EndsCall};
ghost use Rattle.gl_append.specs.ListSteps.{body_entered, ItemBegins, ItemDone};

use crate::machine::{Call, Frame, Iteration, Kind, Machine};
use gl_code::{
    Entry, ItemCode, ItemSpot, Sight, after, comment_for, counted, item_params, item_sight, onward,
};
use gl_meaning::{Path, PathStep};
use gl_refs::Ids;
use gl_value::Value;
use gl_vm::Vm;
use std::alloc::AllocError;

// The address of Item where items are left, or the one behind the present one.
fn next_item(left: &[Entry], start: u32, pc: u32) -> Result<u32, AllocError>
    ensures { IfOk result (λ next. next ≡ s.next_item (seen_left left.now) start (suc pc)) }
{
    if left.is_empty() {
        after(pc)
    } else {
        Ok(start)
    }
}

impl Machine {
    // The path of an item of the list that is the next statement.
    fn item_path(&self, key: &Value, occurrence: u64) -> Result<Path, AllocError>
        ensures { IfOk result (λ q. (n : _) → path_view q ≡ p.item (plain (view key.now)) occurrence ∷ p.items ∷ m.next_at (seen_here n self.now.here)) }
    {
        let path = self.next_path()?;
        let path = onward(path, PathStep::Items)?;
        let key = key.copy()?;
        let path = onward(path, PathStep::Item { key, occurrence })?;
        Ok(path)
    }

    fn enter_item(
        &mut self,
        path: Path,
        sight: Sight,
        iteration: Iteration,
        item: ItemSpot,
    ) -> Result<(), AllocError>
        ensures { OnOk result (Changes (λ n. body_entered (seen_sight n sight) (path_view path) iteration.listing.body (seen_kind n (Kind.Item iteration item))) self.old self.new) }
    {
        self.made = Ids::new(self.alloc);
        self.pc = iteration.listing.body;
        self.sight = sight;
        self.begin(path, Kind::Item { iteration, item })
    }

    // An item begins: it has references of its value and of its index.
    fn begin_item(
        &mut self,
        vm: &mut Vm,
        iteration: Iteration,
        entry: Entry,
    ) -> Result<(), AllocError>
        ensures step { OnOk result (ItemBegins vm.old self.old iteration entry vm.new self.new) }
        ensures calm { Calm vm.old → Calm vm.new }
        ensures tree { vm.new.tree ≡ vm.old.tree }
    {
        let path = self.item_path(&entry.key, entry.occurrence)?;
        let value = vm.item(entry.value)?;
        let index = vm.item(counted(entry.index))?;
        let sight = item_sight(&iteration.listing, value, index)?;
        let params = item_params(self.alloc, &iteration.listing, value, index)?;
        let item = ItemSpot {
            key: entry.key,
            occurrence: entry.occurrence,
            value,
            index,
            params,
        };
        self.enter_item(path, sight, iteration, item)
    }

    fn begin_next_item(&mut self, vm: &mut Vm, iteration: Iteration) -> Result<(), AllocError>
        ensures step { OnOk result (EndsCall (λ n. s.do_item_as by_number) vm.old self.old (Call.Each iteration) vm.new self.new) }
        ensures calm { Calm vm.old → Calm vm.new }
        ensures tree { vm.new.tree ≡ vm.old.tree }
    {
        let mut iteration = iteration;
        match iteration.left.pop() {
            Some(entry) => self.begin_item(vm, iteration, entry),
            None => Err(AllocError),
        }
    }

    fn continue_list(&mut self, vm: &mut Vm, call: Call) -> Result<(), AllocError>
        ensures step { OnOk result (EndsCall (λ n. s.do_item_as by_number) vm.old self.old call vm.new self.new) }
        ensures calm { Calm vm.old → Calm vm.new }
        ensures tree { vm.new.tree ≡ vm.old.tree }
    {
        match call {
            Call::Each(iteration) => self.begin_next_item(vm, iteration),
            _ => Err(AllocError),
        }
    }

    // The next item of the list begins.
    pub(crate) fn do_item(&mut self, vm: &mut Vm) -> Result<(), AllocError>
        ensures step { OnOk result (Takes (λ n k. s.with_top k (s.do_item_as by_number)) vm.old self.old vm.new self.new) }
        ensures calm { Calm vm.old → Calm vm.new }
        ensures tree { vm.new.tree ≡ vm.old.tree }
    {
        match self.pop_call() {
            Some(call) => self.continue_list(vm, call),
            None => Err(AllocError),
        }
    }

    // An item ends, whose frame was taken: the next one comes, or what stands behind the list's body.
    pub(crate) fn do_end_item(&mut self, vm: &mut Vm, frame: Frame) -> Result<(), AllocError>
        ensures step { OnOk result (EndsFrame (λ n. s.do_end_item) vm.old self.old frame vm.new self.new) }
        ensures calm { Calm vm.old → Calm vm.new }
        ensures roots { OnOk result (Rooted vm.old.tree vm.new.tree) }
    {
        let Frame { here, kind } = frame;
        match kind {
            Kind::Item { iteration, item } => {
                if self.is_calling() {
                    return Err(AllocError);
                }
                let body = self.end(here);
                let comment = comment_for(vm, &body)?;
                let done = ItemCode::rendered(item, comment, body);
                self.item_done(iteration, done)
            }
            _ => Err(AllocError),
        }
    }

    fn item_done(&mut self, iteration: Iteration, item: ItemCode) -> Result<(), AllocError>
        ensures { OnOk result (ItemDone self.old iteration item self.new) }
    {
        let mut iteration = iteration;
        iteration.done.push(item)?;
        let sight = iteration.listing.sight.as_ref().copy()?;
        self.sight = sight;
        let pc = next_item(iteration.left.as_slice(), iteration.start, self.pc)?;
        self.wait_at(pc, iteration)
    }
}
