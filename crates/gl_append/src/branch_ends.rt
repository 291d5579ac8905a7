// What ends an `if` or `unless`.
ghost use Rattle.std.specs.Prelude.{OnOk};
ghost use Rattle.gl_machine.specs.Step as s;
ghost use Rattle.gl_vm.specs.View.{Calm};
ghost use Rattle.gl_vm.specs.Steps.{Rooted};
ghost use Rattle.gl_append.specs.Steps.{EndsFrame};

use crate::machine::{Frame, Kind, Machine};
use gl_code::{Code, comment_for};
use gl_vm::Vm;
use std::alloc::AllocError;

impl Machine {
    // An `if` or `unless` ends, whose frame was taken.
    pub(crate) fn do_end_if(&mut self, vm: &mut Vm, frame: Frame) -> Result<(), AllocError>
        ensures step { OnOk result (EndsFrame (λ n. s.do_end_if) vm.old self.old frame vm.new self.new) }
        ensures calm { Calm vm.old → Calm vm.new }
        ensures roots { OnOk result (Rooted vm.old.tree vm.new.tree) }
    {
        let Frame { here, kind } = frame;
        match kind {
            Kind::Branch { choice, spot, main } => {
                if self.is_calling() {
                    return Err(AllocError);
                }
                let body = self.end(here);
                let comment = comment_for(vm, &body)?;
                let code = Code::branch(choice, spot, main, comment, body);
                self.show(code)
            }
            _ => Err(AllocError),
        }
    }
}
