// What is rendered of a statement: a text, a comment, a text mustache.
ghost use Rattle.std.specs.Prelude.{OnOk};
ghost use Rattle.gl_machine.specs.Step as s;
ghost use Rattle.gl_vm.specs.View.{Calm};
ghost use Rattle.gl_vm.specs.Steps.{Rooted};
ghost use Rattle.gl_code.specs.CodeView.{seen_code};
ghost use Rattle.gl_append.specs.MachineView.{seen_pushed};
ghost use Rattle.gl_append.specs.Steps.{Moves, Takes};

use crate::machine::{Machine, Pushed};
use gl_code::{Code, Spot, position};
use gl_refs::Ids;
use gl_value::Text;
use gl_vm::Vm;
use std::alloc::AllocError;
use std::mem;

impl Machine {
    // Something was rendered. What was made for it is its own.
    pub(crate) fn show(&mut self, code: Code) -> Result<(), AllocError>
        ensures { OnOk result (Moves (λ n m. s.show (seen_code n code, m.state) m) self.old self.new) }
    {
        if !self.calls.is_empty() {
            return Err(AllocError);
        }
        self.advance()?;
        self.here.index = self.here.index.checked_add(1).ok_or(AllocError)?;
        self.here.codes.push(code)?;
        self.made = Ids::new(self.alloc);
        Ok(())
    }

    // A text.
    pub(crate) fn do_text(&mut self, vm: &mut Vm, text: &Text) -> Result<(), AllocError>
        ensures step { OnOk result (Takes (λ n. s.do_text text.now) vm.old self.old vm.new self.new) }
        ensures calm { Calm vm.old → Calm vm.new }
        ensures roots { OnOk result (Rooted vm.old.tree vm.new.tree) }
    {
        let node = vm.text(text.as_str())?;
        let code = Code::still(node);
        self.show(code)
    }

    // A comment.
    pub(crate) fn do_comment(&mut self, vm: &mut Vm, text: &Text) -> Result<(), AllocError>
        ensures step { OnOk result (Takes (λ n. s.do_comment text.now) vm.old self.old vm.new self.new) }
        ensures calm { Calm vm.old → Calm vm.new }
        ensures roots { OnOk result (Rooted vm.old.tree vm.new.tree) }
    {
        let node = vm.comment(text.as_str())?;
        let code = Code::still(node);
        self.show(code)
    }

    // A text mustache.
    pub(crate) fn do_put(&mut self, vm: &mut Vm, top: Pushed) -> Result<(), AllocError>
        requires calm { Calm vm.old }
        ensures step { OnOk result (Takes (λ n m. s.do_put m (m.stack, seen_pushed top)) vm.old self.old vm.new self.new) }
        ensures calm { Calm vm.new }
        ensures roots { OnOk result (Rooted vm.old.tree vm.new.tree) }
    {
        if !vm.refs.readable(top.id) {
            return Err(AllocError);
        }
        vm.prepare(top.id)?;
        let value = vm.value(top.id)?;
        let text = value.text_of(self.alloc)?;
        let mut ids = Ids::with_capacity(self.alloc, 1)?;
        ids.push(top.id)?;
        let id = position(vm, ids)?;
        let node = vm.text(text.as_str())?;
        let made = mem::replace(&mut self.made, Ids::new(self.alloc));
        let code = Code::put(node, Spot { id, made });
        self.show(code)
    }
}
