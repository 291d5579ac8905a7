// Blocks that were passed: `yield`, and where a block ends.
ghost use Rattle.std.specs.Prelude.{[], OnOk};
ghost use Rattle.gl_meaning.specs.View.{path_view};
ghost use Rattle.gl_machine.specs.Code as c;
ghost use Rattle.gl_machine.specs.Step as s;
ghost use Rattle.gl_vm.specs.View.{stamps};
ghost use Rattle.gl_code.specs.View.{seen_sight};
ghost use Rattle.gl_code.specs.CodeView.{seen_code};
ghost use Rattle.gl_append.specs.MachineView.{seen_back};
ghost use Rattle.gl_append.specs.Steps.{Moves, MovesFrame, Changes};
ghost use Rattle.gl_append.specs.Blocks.{code_added, block_entered};

use crate::machine::{Back, Frame, Kind, Machine};
use crate::stack::{positional, take_last};
use gl_code::{Code, Codes, Slot, Written, onward, params_from};
use gl_meaning::{Path, PathStep};
use gl_refs::Ids;
use gl_value::Text;
use std::alloc::AllocError;
use std::mem;

impl Machine {
    // What was rendered is added to the present body. What was made for it is its own.
    fn add_code(&mut self, code: Code) -> Result<(), AllocError>
        ensures { OnOk result (Changes (λ n. code_added (seen_code n code)) self.old self.new) }
    {
        if self.is_calling() {
            return Err(AllocError);
        }
        self.here.index = self.here.index.checked_add(1).ok_or(AllocError)?;
        self.here.codes.push(code)?;
        self.made = Ids::new(self.alloc);
        Ok(())
    }

    // Goes on in the present body where the way back leads, with what was rendered there.
    pub(crate) fn return_with(&mut self, back: Back, code: Code) -> Result<(), AllocError>
        ensures { OnOk result (Moves (λ n m. s.return m.rest.frames m.rest.here (seen_back n back) m.rest.left (seen_code n code) m) self.old self.new) }
    {
        self.go_back(back);
        self.add_code(code)
    }

    // A yielded block ends.
    pub(crate) fn do_end_block(&mut self, frame: Frame) -> Result<(), AllocError>
        ensures { OnOk result (MovesFrame (λ n. s.do_end_block) self.old frame self.new) }
    {
        let Frame { here, kind } = frame;
        match kind {
            Kind::Block {
                back,
                name,
                made,
                locals,
            } => {
                if self.is_calling() {
                    return Err(AllocError);
                }
                let seen = self.sight.level.locals.as_slice();
                let params = params_from(self.alloc, seen, locals)?;
                let body = self.end(here);
                let code = Code::yielded(name, made, params, body);
                self.return_with(back, code)
            }
            _ => Err(AllocError),
        }
    }

    // A block of a name, over the last ones of the stack.
    pub(crate) fn do_yield(&mut self, count: u32, name: &Text) -> Result<(), AllocError>
        ensures { OnOk result (Moves (λ n. s.do_yield count name.now) self.old self.new) }
    {
        let taken = take_last(&mut self.stack, count)?;
        let pending = positional(self.alloc, taken.as_slice())?;
        match self.sight.block(name.as_str())? {
            None => self.yield_nothing(name),
            Some(written) => self.enter(name, pending, written),
        }
    }

    // No block of that name was passed.
    fn yield_nothing(&mut self, name: &Text) -> Result<(), AllocError>
        ensures { OnOk result (Moves (λ n m. s.show (c.yield_code name.now m.made [] c.no_codes, m.state) m) self.old self.new) }
    {
        let name = name.copy()?;
        let made = mem::replace(&mut self.made, Ids::new(self.alloc));
        let code = Code::yielded(name, made, Ids::new(self.alloc), Codes::none(self.alloc));
        self.show(code)
    }

    // The words of a block are gone to, in what its writer sees, with these references for its parameters.
    fn enter(&mut self, name: &Text, pending: Ids, written: Written) -> Result<(), AllocError>
        ensures { OnOk result (Moves (λ n m. s.enter name.now (stamps pending) m (seen_sight n written.sight) written.start) self.old self.new) }
    {
        let path = self.next_path()?;
        let path = onward(path, PathStep::Slot(name.copy()?))?;
        let name = name.copy()?;
        self.begin_block(path, name, pending, written)
    }

    fn begin_block(
        &mut self,
        path: Path,
        name: Text,
        pending: Ids,
        written: Written,
    ) -> Result<(), AllocError>
        ensures { OnOk result (Changes (λ n. block_entered (path_view path) name (stamps pending) (seen_sight n written.sight) written.start) self.old self.new) }
    {
        let Written { start, sight } = written;
        let locals = sight.level.locals.len();
        let back = self.leave_for(sight)?;
        self.getter = None;
        self.pending = pending;
        self.pc = start;
        let made = mem::replace(&mut self.made, Ids::new(self.alloc));
        self.begin(
            path,
            Kind::Block {
                back,
                name,
                made,
                locals,
            },
        )
    }
}
