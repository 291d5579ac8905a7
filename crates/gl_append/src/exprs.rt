// Opcodes that push a reference.
ghost use Rattle.std.specs.Prelude.{◌≡◌, None, Some, OnOk, suc};
ghost use Rattle.gl_value.specs.View.{view};
ghost use Rattle.gl_refs.specs.View.{seen_form as code_form};
ghost use Rattle.gl_plain.specs.State.{constant_form};
ghost use Rattle.gl_base.specs.Names.{last_named};
ghost use Rattle.gl_machine.specs.Sight.{args_in, locals_in};
ghost use Rattle.gl_machine.specs.Step as s;
ghost use Rattle.gl_vm.specs.Labels.{labelled};
ghost use Rattle.gl_vm.specs.View.{seen_form, helper_name, Calm};
ghost use Rattle.gl_append.specs.MachineView.{seen_pushed};
ghost use Rattle.gl_append.specs.Steps.{Moves, Takes, pushed_made};

use crate::machine::{Machine, Pushed};
use crate::stack::{named_ones, positional, take_last};
use gl_code::bind;
use gl_refs::{Form, RefId};
use gl_value::{Text, Value};
use gl_vm::Vm;
use std::alloc::AllocError;

impl Machine {
    // The next address.
    pub(crate) fn advance(&mut self) -> Result<(), AllocError>
        ensures { OnOk result (self.new ≡ record self.old { pc = suc self.old.pc }) }
    {
        self.pc = self.pc.checked_add(1).ok_or(AllocError)?;
        Ok(())
    }

    // Pushes a reference that is there.
    pub(crate) fn push_old(&mut self, id: RefId) -> Result<(), AllocError>
        ensures { OnOk result (Moves (λ n. s.push_old id.1) self.old self.new) }
    {
        self.advance()?;
        self.stack.push(Pushed { name: None, id })?;
        Ok(())
    }

    // Pushes a reference that was made.
    pub(crate) fn push_made(&mut self, id: RefId) -> Result<(), AllocError>
        ensures { OnOk result (Moves (λ n. pushed_made id.1) self.old self.new) }
    {
        self.advance()?;
        self.stack.push(Pushed { name: None, id })?;
        self.made.push(id)?;
        Ok(())
    }

    // Pushes a constant.
    pub(crate) fn push_constant(&mut self, vm: &mut Vm, value: Value) -> Result<(), AllocError>
        ensures step { OnOk result (Takes (λ n. s.push_new (constant_form (labelled (view value)))) vm.old self.old vm.new self.new) }
        ensures calm { Calm vm.old → Calm vm.new }
        ensures tree { vm.new.tree ≡ vm.old.tree }
    {
        let id = vm.constant(value)?;
        self.push_made(id)
    }

    // Pushes a reference of that form.
    pub(crate) fn push_new(&mut self, vm: &mut Vm, form: Form) -> Result<(), AllocError>
        ensures step { OnOk result (Takes (λ n. s.push_new (seen_form vm.old.refs.rows.made (code_form form))) vm.old self.old vm.new self.new) }
        ensures calm { Calm vm.old → Calm vm.new }
        ensures tree { vm.new.tree ≡ vm.old.tree }
    {
        let id = bind(vm, form)?;
        self.push_made(id)
    }

    // The innermost parameter of a symbol.
    pub(crate) fn do_local(&mut self, symbol: u32) -> Result<(), AllocError>
        ensures { OnOk result (Moves (λ n m. s.given (s.last_symbol symbol (locals_in m.rest.sight)) (λ r. s.push_old r m)) self.old self.new) }
    {
        match self.sight.level.locals.get(symbol) {
            Some(id) => self.push_old(id),
            None => Err(AllocError),
        }
    }

    // The property of the reference on the top.
    pub(crate) fn do_prop(
        &mut self,
        vm: &mut Vm,
        name: &Text,
        top: Pushed,
    ) -> Result<(), AllocError>
        ensures step { OnOk result (Takes (λ n m. s.do_prop name.now m (m.stack, seen_pushed top)) vm.old self.old vm.new self.new) }
        ensures calm { Calm vm.old → Calm vm.new }
        ensures tree { vm.new.tree ≡ vm.old.tree }
    {
        let name = name.copy()?;
        self.push_new(vm, Form::Prop(top.id, name))
    }

    // The join of the last ones of the stack.
    pub(crate) fn do_cat(&mut self, vm: &mut Vm, count: u32) -> Result<(), AllocError>
        ensures step { OnOk result (Takes (λ n. s.do_cat count) vm.old self.old vm.new self.new) }
        ensures calm { Calm vm.old → Calm vm.new }
        ensures tree { vm.new.tree ≡ vm.old.tree }
    {
        let taken = take_last(&mut self.stack, count)?;
        let ids = positional(self.alloc, taken.as_slice())?;
        self.push_new(vm, Form::Cat(ids))
    }

    // A helper's call over the last ones of the stack.
    pub(crate) fn do_call(&mut self, vm: &mut Vm, helper: u16, count: u32) -> Result<(), AllocError>
        ensures step { OnOk result (Takes (λ n. s.do_call count (helper_name helper)) vm.old self.old vm.new self.new) }
        ensures calm { Calm vm.old → Calm vm.new }
        ensures tree { vm.new.tree ≡ vm.old.tree }
    {
        let taken = take_last(&mut self.stack, count)?;
        let ids = positional(self.alloc, taken.as_slice())?;
        let named = named_ones(self.alloc, taken.as_slice())?;
        self.push_new(vm, Form::Call(helper, ids, named))
    }

    // The name of the reference on the top.
    pub(crate) fn do_named(&mut self, name: &Text, top: Pushed) -> Result<(), AllocError>
        ensures { OnOk result (Moves (λ n m. s.do_named name.now m (m.stack, seen_pushed top)) self.old self.new) }
    {
        let name = Some(name.copy()?);
        self.advance()?;
        self.stack.push(Pushed { name, id: top.id })?;
        Ok(())
    }

    // An argument of the present scope.
    pub(crate) fn do_arg_ref(&mut self, vm: &mut Vm, name: &Text) -> Result<(), AllocError>
        ensures step { OnOk result (Takes (λ n m. s.push_found (last_named name.now (args_in m.rest.sight)) m) vm.old self.old vm.new self.new) }
        ensures calm { Calm vm.old → Calm vm.new }
        ensures tree { vm.new.tree ≡ vm.old.tree }
    {
        match self.sight.level.args.as_ref().get(name.as_str()) {
            Some(id) => self.push_old(id),
            None => self.push_constant(vm, Value::Undefined),
        }
    }
}
