// Words that are run to their end.
ghost use Rattle.std.specs.Prelude.{◌≡◌, OnOk, IfOk, IfErr};
ghost use Rattle.gl_meaning.specs.View.{path_view};
ghost use Rattle.gl_plain.specs.Naming.{by_number};
ghost use Rattle.gl_machine.specs.Mach.{going};
ghost use Rattle.gl_machine.specs.RenewCode.{start};
ghost use Rattle.gl_machine.specs.Step.{begun, step_as};
ghost use Rattle.gl_vm.specs.View.{Calm};
ghost use Rattle.gl_vm.specs.Steps.{Rooted};
ghost use Rattle.gl_code.specs.View.{seen_sight};
ghost use Rattle.gl_append.specs.MachineView.{mach_by};
ghost use Rattle.gl_append.specs.Stepping.{StepsIn, Finishes, StopsFor};

use crate::machine::{Here, Machine, Making};
use crate::step::Next;
use gl_code::{Cells, Sight, VmFault, word_at};
use gl_meaning::Path;
use gl_opc::App;
use gl_refs::Ids;
use gl_vm::Vm;
use std::alloc::{AllocError, Global};

impl Machine {
    // The registers before the first word of a body: what is seen there, the address of the word, the body's path, and
    // how deep components may still nest.
    pub(crate) fn new(alloc: Global, sight: Sight, pc: u32, path: Path, left: u32) -> Machine
        ensures { (env : _) (store : _) (n : _) (st : _) → begun env store (start (seen_sight n sight) pc (path_view path) left) st ≡ going (mach_by n st result) }
    {
        Machine {
            alloc,
            stack: Vec::new(alloc),
            made: Ids::new(alloc),
            pc,
            getter: None,
            sight,
            pending: Ids::new(alloc),
            here: Here {
                path,
                index: 0,
                codes: Vec::new(alloc),
            },
            making: Making::idle(alloc),
            left,
            frames: Vec::new(alloc),
            calls: Vec::new(alloc),
        }
    }

    // One word.
    pub(crate) fn step(&mut self, vm: &mut Vm, app: &App, cells: &Cells) -> Result<Next, AllocError>
        requires calm { Calm vm.old }
        ensures step { IfOk result (λ r. StepsIn app.now cells.now (λ env store. step_as by_number env store) vm.old self.old vm.new self.new r) }
        ensures calm { Calm vm.new }
        ensures roots { IfOk result (λ r. Rooted vm.old.tree vm.new.tree) }
    {
        let program = self.program(app)?;
        let op = word_at(program, self.pc)?;
        self.do_op(vm, app, cells, program, op)
    }

    // Runs words until all is rendered.
    pub(crate) fn run(&mut self, vm: &mut Vm, app: &App, cells: &Cells) -> Result<(), VmFault>
        requires calm { Calm vm.old }
        ensures ok { OnOk result (Finishes app.now cells.now vm.old self.old vm.new self.new) }
        ensures deep { IfErr result (StopsFor app.now cells.now vm.old self.old) }
        ensures calm { Calm vm.new }
        ensures roots { OnOk result (Rooted vm.old.tree vm.new.tree) }
    {
        for _ in 0..u64::MAX {
            match self.step(vm, app, cells)? {
                Next::Going => {}
                Next::Finished => return Ok(()),
                Next::TooDeep => return Err(VmFault::NestingLimit),
            }
        }
        Err(VmFault::Memory)
    }
}
