// The words of programs, and what their operands name.
ghost use Rattle.std.specs.Prelude.{◌≡◌, IfOk, Some, slice_get};
ghost use Rattle.gl_meaning.specs.View.{manifest_view, class_view};
ghost use Rattle.gl_program.specs.View.{program_view};
ghost use Rattle.gl_append.specs.Stepping.{RunsIn};

use crate::machine::Machine;
use gl_code::class_at;
use gl_meaning::Class;
use gl_opc::App;
use gl_program::Program;
use std::alloc::AllocError;

impl Machine {
    // The class in whose program the present word stands.
    pub(crate) fn class<'a>(&self, app: &'a App) -> Result<&'a Class, AllocError>
        ensures { IfOk result (λ c. slice_get (manifest_view app.now.manifest).classes self.now.sight.level.owner.value.class ≡ Some (class_view c.now)) }
    {
        class_at(app, self.sight.level.owner.as_ref().class)
    }

    // The program from which the present word comes: a template's, or a getter's.
    pub(crate) fn program<'a>(&self, app: &'a App) -> Result<&'a Program, AllocError>
        ensures { IfOk result (λ p. RunsIn app.now self.now (program_view p.now)) }
    {
        let class = self.sight.level.owner.as_ref().class;
        let programs = app.programs().get(class as usize).ok_or(AllocError)?;
        match self.getter {
            None => Ok(&programs.template),
            Some(getter) => programs.getters.get(getter as usize).ok_or(AllocError),
        }
    }
}
