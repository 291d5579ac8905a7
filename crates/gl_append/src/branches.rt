// `if` and `unless`.
ghost use Rattle.std.specs.Prelude.{◌≡◌, is_none, IfOk, OnOk};
ghost use Rattle.gl_meaning.specs.View.{path_view};
ghost use Rattle.gl_machine.specs.Step as s;
ghost use Rattle.gl_vm.specs.View.{Calm};
ghost use Rattle.gl_code.specs.CodeView.{seen_choice};
ghost use Rattle.gl_append.specs.MachineView.{mach_by, seen_pushed};
ghost use Rattle.gl_append.specs.Stepping.{Stepped};
ghost use Rattle.gl_append.specs.Steps.{Changes, Takes, branch_entered};

use crate::machine::{Kind, Machine, Pushed};
use crate::step::Next;
use gl_code::{Choice, Spot, after, chosen, onward, position, side, takes};
use gl_meaning::Path;
use gl_refs::{Ids, RefId};
use gl_vm::Vm;
use std::alloc::AllocError;
use std::mem;

impl Machine {
    fn enter_branch(
        &mut self,
        choice: Choice,
        id: RefId,
        main: bool,
        path: Path,
    ) -> Result<(), AllocError>
        ensures { OnOk result (Changes (λ n. branch_entered (seen_choice n choice) id.1 main (path_view path)) self.old self.new) }
    {
        let made = mem::replace(&mut self.made, Ids::new(self.alloc));
        self.pc = chosen(main, choice.first, choice.second);
        let spot = Spot { id, made };
        self.begin(path, Kind::Branch { choice, spot, main })
    }

    // An `if` or `unless` of the reference on the top: a position, of which the body is begun that is shown.
    pub(crate) fn do_if(
        &mut self,
        vm: &mut Vm,
        unless: bool,
        other: u32,
        top: Pushed,
    ) -> Result<(), AllocError>
        requires calm { Calm vm.old }
        ensures step { OnOk result (Takes (λ n m. s.do_if unless other m (m.stack, seen_pushed top)) vm.old self.old vm.new self.new) }
        ensures calm { Calm vm.new }
        ensures tree { vm.new.tree ≡ vm.old.tree }
    {
        if !vm.refs.readable(top.id) {
            return Err(AllocError);
        }
        vm.prepare(top.id)?;
        let value = vm.value(top.id)?;
        let main = takes(unless, &value);
        let mut ids = Ids::with_capacity(self.alloc, 1)?;
        ids.push(top.id)?;
        let sight = self.sight.shared()?;
        let first = after(self.pc)?;
        let choice = Choice {
            unless,
            first,
            second: other,
            sight,
        };
        let path = self.next_path()?;
        let path = onward(path, side(main))?;
        let id = position(vm, ids)?;
        self.enter_branch(choice, id, main, path)
    }

    // Whether no body is under way but the outermost.
    pub(crate) fn is_outermost(&self) -> bool
        ensures { (n : _) (st : _) → is_none (s.popped (mach_by n st self.now).rest.frames) ≡ result }
    {
        self.frames.as_slice().is_empty() && self.calls.as_slice().is_empty()
    }

    // The first body of an `if` or an `each` ends: the other is passed over.
    pub(crate) fn do_else(&mut self, behind: u32) -> Result<Next, AllocError>
        ensures { IfOk result (λ r. (n : _) (vm : _) → Stepped n (λ m. s.else_at m behind (s.popped m.rest.frames)) vm self.old vm self.new r) }
    {
        if self.is_outermost() {
            return Ok(Next::Finished);
        }
        self.pc = behind;
        Ok(Next::Going)
    }
}
