// Programs that end, and components of which the program begins.
ghost use Rattle.std.specs.Prelude.{◌≡◌, IfOk};
ghost use Rattle.gl_plain.specs.Naming.{by_number};
ghost use Rattle.gl_machine.specs.Step as s;
ghost use Rattle.gl_vm.specs.View.{Calm};
ghost use Rattle.gl_vm.specs.Steps.{Rooted};
ghost use Rattle.gl_append.specs.Stepping.{Stepped, StepsIn};

use crate::machine::{Call, Machine};
use crate::step::Next;
use gl_code::{Cells, class_at};
use gl_opc::App;
use gl_vm::Vm;
use std::alloc::AllocError;

impl Machine {
    // A program ends: a getter's, a component's, or the last one.
    pub(crate) fn do_done(&mut self) -> Result<Next, AllocError>
        ensures { IfOk result (λ r. (n : _) (vm : _) → Stepped n (λ m. s.with_end m s.do_done) vm self.old vm self.new r) }
    {
        match self.calls.as_slice().split_last() {
            None => self.leave_program(),
            Some((Call::Getter(_), _)) => self.leave_getter(),
            Some((Call::Parts(_), _)) => Err(AllocError),
            Some((Call::Each(_), _)) => Err(AllocError),
        }
    }

    fn leave_getter(&mut self) -> Result<Next, AllocError>
        ensures { IfOk result (λ r. (n : _) (vm : _) → Stepped n (λ m. s.with_end m s.do_done) vm self.old vm self.new r) }
    {
        match self.pop_call() {
            Some(Call::Getter(back)) => {
                self.go_back(back);
                Ok(Next::Going)
            }
            _ => Err(AllocError),
        }
    }

    fn leave_program(&mut self) -> Result<Next, AllocError>
        ensures { IfOk result (λ r. (n : _) (vm : _) → Stepped n (λ m. s.with_end m s.do_done) vm self.old vm self.new r) }
    {
        match self.pop_frame()? {
            None => Ok(Next::Finished),
            Some(frame) => {
                self.end_component(frame)?;
                Ok(Next::Going)
            }
        }
    }

    // The tag of a component ends, and its program begins, where components may nest one deeper.
    pub(crate) fn do_nest(
        &mut self,
        vm: &mut Vm,
        app: &App,
        cells: &Cells,
    ) -> Result<Next, AllocError>
        requires calm { Calm vm.old }
        ensures step { IfOk result (λ r. StepsIn app.now cells.now (λ env store m. s.do_invoke_as by_number env store m m.rest.left) vm.old self.old vm.new self.new r) }
        ensures calm { Calm vm.new }
        ensures tree { vm.new.tree ≡ vm.old.tree }
    {
        if self.left == 0 {
            return Ok(Next::TooDeep);
        }
        let class = class_at(app, self.making.class)?;
        self.do_invoke(vm, class, cells)?;
        Ok(Next::Going)
    }

    // A list ends, with items or without.
    pub(crate) fn leave_each(&mut self, vm: &mut Vm) -> Result<Next, AllocError>
        ensures step { IfOk result (λ r. (n : _) → Stepped n (λ m. s.with_end m s.do_end_each) vm.old self.old vm.new self.new r) }
        ensures calm { Calm vm.old → Calm vm.new }
        ensures roots { IfOk result (λ r. Rooted vm.old.tree vm.new.tree) }
    {
        if self.is_calling() {
            self.end_list()?;
            return Ok(Next::Going);
        }
        match self.pop_frame()? {
            None => Ok(Next::Finished),
            Some(frame) => {
                self.do_end_each(vm, frame)?;
                Ok(Next::Going)
            }
        }
    }
}
